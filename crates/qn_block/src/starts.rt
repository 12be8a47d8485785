//! The tuples of some legs in the order of the values of their fused leg.
ghost use Rattle.std.specs.Prelude.{◌≡◌, ◌<◌, ◌≤◌, ℕ, nat_le, ◌^◌, ◌+◌, ◌++◌, length, IfOk, OnOk};
ghost use Rattle.std.specs.List.{All};
ghost use Rattle.qn_index.specs.Legs.{IsLegOf};
ghost use Rattle.qn_index.specs.Tuples.{IsTuple, IsFlux, count};
ghost use Rattle.qn_index.specs.Extents.{size_of};
ghost use Rattle.qn_block.specs.Combiners.{fused_charges, fused_sectors, fused_starts, number_of_values, start_at, starts_from, AreTuples, IsIndex};

use crate::charges::{count_tuples, tuple_number, turned_charge};
use qn_charge::{Charge, Group};
use qn_index::{Dir, Leg, Sector, Tuple, admissible, block_len};
use std::alloc::{AllocError, Global};
use std::marker::Model;

/// A tuple of sectors of the legs, and the value of the fused leg at which its values begin.
#[derive(Debug, Drop)]
pub struct Start {
    pub tuple: Tuple,
    pub start: u32,
}

impl Model for Start {
    ghost use Rattle.qn_block.specs.Combiners.{StartValue};

    ghost Value = { StartValue };

    ghost view = { λ s. record { tuple = s.tuple; start = s.start } };
}

impl Start {
    /// Whether the tuple's values begin at this value or before.
    fn is_upto(&self, value: u32) -> bool
        ensures { result ≡ nat_le self.now.start value }
    {
        self.start <= value
    }

    /// The tuple.
    pub fn tuple(&self) -> &[u32]
        ensures { result.now ≡ self.now.tuple }
    {
        self.tuple.as_slice()
    }

    /// The value of the fused leg at which the tuple's values begin.
    pub fn start(&self) -> u32
        ensures { result ≡ self.now.start }
    {
        self.start
    }
}

/// The last tuple whose values begin at this value or before.
pub(crate) fn last_start(starts: &[Start], value: u32) -> usize
    requires some { 0 < length starts.now }
    requires first { (start_at starts.now 0).start ≡ 0 }
    requires ascending { (i j : ℕ) → i ≤ j → j < length starts.now → (start_at starts.now i).start ≤ (start_at starts.now j).start }
    ensures there { result < length starts.now }
    ensures upto { (start_at starts.now result).start ≤ value }
    ensures after { result + 1 < length starts.now → value < (start_at starts.now (result + 1)).start }
{
    starts.partition_point(|start| start.is_upto(value)) - 1
}

/// Adds tuples whose values begin at this value of the fused leg. Answers the first value after them.
fn add_starts<const K: usize>(
    legs: &[Leg<K>],
    tuples: &[Tuple],
    starts: &mut Vec<Start>,
    first: u32,
) -> Result<u32, AllocError>
    requires tuples { All (IsTuple legs.now) tuples.now }
    requires few { first + size_of legs.now tuples.now ≤ 2 ^ 20 }
    ensures next { IfOk result (λ n. n ≡ first + size_of legs.now tuples.now) }
    ensures starts { OnOk result (starts.new.items ≡ starts.old.items ++ starts_from legs.now first tuples.now) }
{
    let mut next = first;
    for i in 0..tuples.len() {
        let tuple = &tuples[i];
        starts.push(Start {
            tuple: tuple.copy()?,
            start: next,
        })?;
        next += block_len(legs, tuple.as_slice()) as u32;
    }
    Ok(next)
}

/// The sectors of these charges, which are those that occur, and the tuples of each in turn.
pub(crate) fn fused_parts<const K: usize>(
    alloc: Global,
    group: &Group<K>,
    legs: &[Leg<K>],
    dir: Dir,
    charges: &[Charge<K>],
) -> Result<(Vec<Sector<K>>, Vec<Start>), AllocError>
    requires few { length legs.now ≤ 63 }
    requires group { All (IsLegOf group.now) legs.now }
    requires count { count legs.now ≤ 2 ^ 20 }
    requires values { number_of_values legs.now ≤ 2 ^ 20 }
    requires charges { charges.now ≡ fused_charges group.now legs.now dir }
    requires fluxes { All (IsFlux group.now) charges.now }
    ensures sectors { IfOk result (λ r. r.0.items ≡ fused_sectors group.now legs.now dir) }
    ensures starts { IfOk result (λ r. r.1.items ≡ fused_starts group.now legs.now dir) }
{
    group.known();
    let mut sectors = Vec::with_capacity(alloc, charges.len())?;
    let mut starts = Vec::new(alloc);
    let mut next = 0u32;
    for i in 0..charges.len() {
        let charge = &charges[i];
        let net = turned_charge(group, dir, charge);
        let tuples = admissible(alloc, group, legs, &net)?;
        let first = next;
        next = add_starts(legs, &tuples, &mut starts, first)?;
        sectors.push(Sector {
            charge: *charge,
            dim: next - first,
        })?;
    }
    Ok((sectors, starts))
}

/// By the number of each tuple among all tuples, the value at which its values begin.
pub(crate) fn index_of<const K: usize>(
    alloc: Global,
    legs: &[Leg<K>],
    starts: &[Start],
) -> Result<Vec<u32>, AllocError>
    requires count { count legs.now ≤ 2 ^ 20 }
    requires tuples { AreTuples legs.now starts.now }
    ensures { IfOk result (λ v. IsIndex legs.now starts.now v.items) }
{
    let total = count_tuples(legs);
    let mut index = vec![in alloc; 0u32; total as usize]?;
    for i in 0..starts.len() {
        let start = &starts[i];
        let number = tuple_number(legs, start.tuple());
        index[number as usize] = start.start();
    }
    Ok(index)
}

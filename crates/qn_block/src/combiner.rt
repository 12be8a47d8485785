//! Fusing legs: the combiner of some legs, the fused leg, and which block of it stands where.

ghost use Rattle.std.specs.Prelude.{◌≡◌, ◌<◌, ◌≤◌, ◌^◌, length, IfOk, IfErr};
ghost use Rattle.std.specs.List.{All};
ghost use Rattle.qn_index.specs.Legs.{IsLegOf};
ghost use Rattle.qn_index.specs.Tuples.{count};
ghost use Rattle.qn_block.specs.Combiners.{CombinerValue, IsCombiner, AreTuples, IsIndex, fused_leg, fused_starts};
ghost use Rattle.qn_block.specs.FuseFaults.{IsFuseFault};

use crate::charges::{MAX_VALUES, count_values, fused_charges};
use crate::fault::FuseFault;
use crate::starts::{Start, fused_parts, index_of};
use qn_charge::Group;
use qn_index::{Dir, Leg, known_all};
use std::alloc::Global;
use std::marker::Model;

/// Some legs made into one, their fused leg. It has one sector for each charge that the tuples of
/// the legs' sectors have together, and each of its values stands for one value of each leg.
#[derive(Debug, Drop)]
pub struct Combiner<const K: usize> {
    group: Group<K>,
    legs: Vec<Leg<K>>,
    fused: Leg<K>,
    starts: Vec<Start>,
    index: Vec<u32>,
}

impl<const K: usize> Model for Combiner<K> {
    ghost use Rattle.std.specs.Prelude.{◌≡◌};
    ghost use Rattle.qn_block.specs.Combiners.{CombinerValue, IsCombiner, IsIndex, fused_leg, fused_starts};

    ghost Value = { CombinerValue };

    ghost view = { λ c. record { group = c.group; legs = c.legs.items; arrow = c.fused.arrow } };

    ghost invariant = { λ c. IsCombiner (record { group = c.group; legs = c.legs.items; arrow = c.fused.arrow }) ×
        (c.fused ≡ fused_leg c.group c.legs.items c.fused.arrow) ×
        (c.starts.items ≡ fused_starts c.group c.legs.items c.fused.arrow) ×
        IsIndex c.legs.items (fused_starts c.group c.legs.items c.fused.arrow) c.index.items };
}

impl<const K: usize> Combiner<K> {
    /// The combiner of these legs, at most 63, whose fused leg has this arrow.
    pub fn new(
        alloc: Global,
        group: Group<K>,
        legs: Vec<Leg<K>>,
        dir: Dir,
    ) -> Result<Combiner<K>, FuseFault>
        requires few { length legs.items ≤ 63 }
        requires group { All (IsLegOf group) legs.items }
        ensures ok { IfOk result (λ c. c ≡ record { group = group.entry; legs = legs.entry.items; arrow = dir }) }
        ensures err { IfErr result (IsFuseFault group.entry legs.entry.items dir) }
    {
        if legs.is_empty() {
            return Err(FuseFault::Empty);
        }
        let (fused, starts) = fuse(alloc, &group, &legs, dir)?;
        let index = index_of(alloc, &legs, &starts)?;
        Ok(Combiner {
            group,
            legs,
            fused,
            starts,
            index,
        })
    }

    /// What holds of each combiner. Nothing is done.
    pub fn known(&self)
        ensures { IsCombiner self.now }
    {
        let _group = &self.group;
    }

    /// The allocator of the legs.
    pub(crate) fn allocator(&self) -> Global {
        *self.legs.allocator()
    }

    /// The group of the charges.
    pub fn group(&self) -> &Group<K>
        ensures { result.now ≡ self.now.group }
    {
        &self.group
    }

    /// The legs that are fused.
    pub fn legs(&self) -> &[Leg<K>]
        ensures { result.now ≡ self.now.legs }
    {
        &self.legs
    }

    /// The arrow of the fused leg.
    pub fn dir(&self) -> Dir
        ensures { result ≡ self.now.arrow }
    {
        self.fused.dir()
    }

    /// The fused leg.
    pub fn fused(&self) -> &Leg<K>
        ensures { result.now ≡ fused_leg self.now.group self.now.legs self.now.arrow }
    {
        &self.fused
    }

    /// The tuples of the legs' sectors in the order of the fused leg's values, each with the value
    /// at which its values begin.
    pub fn starts(&self) -> &[Start]
        ensures { result.now ≡ fused_starts self.now.group self.now.legs self.now.arrow }
    {
        &self.starts
    }

    /// By the number of each tuple among all tuples, the value at which its values begin.
    pub(crate) fn index(&self) -> &[u32]
        ensures { IsIndex self.now.legs (fused_starts self.now.group self.now.legs self.now.arrow) result.now }
    {
        &self.index
    }
}

/// The fused leg, and where the values of each tuple begin.
fn fuse<const K: usize>(
    alloc: Global,
    group: &Group<K>,
    legs: &[Leg<K>],
    dir: Dir,
) -> Result<(Leg<K>, Vec<Start>), FuseFault>
    requires some { 0 < length legs.now }
    requires few { length legs.now ≤ 63 }
    requires group { All (IsLegOf group.now) legs.now }
    ensures leg { IfOk result (λ r. r.0 ≡ fused_leg group.now legs.now dir) }
    ensures starts { IfOk result (λ r. r.1.items ≡ fused_starts group.now legs.now dir) }
    ensures known { IfOk result (λ r. IsCombiner (record { group = group.now; legs = legs.now; arrow = dir })) }
    ensures count { IfOk result (λ r. count legs.now ≤ 2 ^ 20) }
    ensures tuples { IfOk result (λ r. AreTuples legs.now r.1.items) }
    ensures err { IfErr result (IsFuseFault group.now legs.now dir) }
{
    group.known();
    known_all(legs);
    if count_values(legs) > MAX_VALUES {
        return Err(FuseFault::FusedRange);
    }
    let charges = fused_charges(alloc, group, legs, dir)?;
    let (sectors, starts) = fused_parts(alloc, group, legs, dir, &charges)?;
    let fused = match Leg::new(group, dir, sectors) {
        Ok(leg) => leg,
        Err(_) => return Err(FuseFault::FusedRange),
    };
    fused.known();
    Ok((fused, starts))
}

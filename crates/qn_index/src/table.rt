//! Counts by charge, leg by leg from the last: how many entries the tuples of some legs have
//! at each net charge. A count stands still at 2^22 + 1.
ghost use Rattle.std.specs.Prelude.{◌≡◌, ◌<◌, ◌≤◌, ◌^◌, ◌+◌, ◌-◌, ◌*◌, ◌++◌, ◌↔◌, IsTrue, ℕ, List, ℤ, [], true, length, map, drop, if◌then◌else◌, IfOk, OnOk, slice_index_or};
ghost use Rattle.std.specs.Cmp.Lexicographic.{pointwise};
ghost use Rattle.std.specs.Ordering.{int_eq};
ghost use Rattle.std.specs.List.{All};
ghost use Rattle.qn_charge.specs.declared.factor.Factor.{Factor};
ghost use Rattle.qn_index.specs.Legs.{IsLegOf};
ghost use Rattle.qn_index.specs.Tuples.{upward};
ghost use Rattle.qn_index.specs.Extents.{capped};
ghost use Rattle.qn_index.specs.Weights.{weight, has_charge, moved, spread, IsChargeWithin, IsRow, IsTable};

use crate::leg::Leg;
use crate::net::signed_charge;
use qn_charge::{Abelian, Charge, Group};
use std::alloc::{AllocError, Global};
use std::marker::Model;

/// The number at which a count of entries stands still.
const ENOUGH: u64 = (1 << 22) + 1;

/// A charge, and a number of entries there.
#[derive(Clone, Copy, Debug, PartialEq, Eq, PartialOrd, Ord)]
struct Weight<const K: usize> {
    charge: Charge<K>,
    count: u64,
}

impl<const K: usize> Model for Weight<K> {
    ghost use Rattle.qn_index.specs.Weights.{WeightValue};

    ghost Value = { WeightValue };

    ghost view = { λ w. record { charge = w.charge; count = w.count } };

    ghost inverse = { λ w. record { charge = w.charge; count = w.count } };
}

/// Counts by charge.
#[derive(Debug, Drop)]
pub(crate) struct Table<const K: usize> {
    rows: Vec<Weight<K>>,
}

impl<const K: usize> Model for Table<K> {
    ghost use Rattle.std.specs.Prelude.{List};
    ghost use Rattle.qn_index.specs.Weights.{WeightValue};

    ghost Value = { List WeightValue };

    ghost view = { λ t. t.rows.items };
}

/// The sum of two counts.
fn sum_of(a: u64, b: u64) -> u64
    ensures { result ≡ capped (2 ^ 22) (a + b) }
{
    a.saturating_add(b).min(ENOUGH)
}

/// A count for each of `dim` values.
fn times(dim: u32, count: u64) -> u64
    ensures { result ≡ capped (2 ^ 22) (dim * count) }
{
    u64::from(dim).saturating_mul(count).min(ENOUGH)
}

impl<const K: usize> Weight<K> {
    /// Whether this is the count at the charge.
    fn is_at(&self, charge: &Charge<K>) -> bool
        ensures { result ≡ pointwise int_eq self.now.charge charge.now }
    {
        self.charge.same(charge)
    }

    /// The number of entries of this row at the charge.
    fn count_at(&self, charge: &Charge<K>) -> u64
        ensures { result ≡ if pointwise int_eq self.now.charge charge.now then self.now.count else 0 }
    {
        if self.is_at(charge) { self.count } else { 0 }
    }

    /// Whether both have the same charge.
    fn same_charge(&self, other: &Weight<K>) -> bool
        ensures { IsTrue result ↔ (other.now.charge ≡ self.now.charge) }
    {
        other.charge.same(&self.charge)
    }

    /// The same charge with the other's entries too.
    fn plus(&self, other: &Weight<K>) -> Weight<K>
        ensures { result ≡ record { charge = self.now.charge; count = capped (2 ^ 22) (self.now.count + other.now.count) } }
    {
        Weight {
            charge: self.charge,
            count: sum_of(self.count, other.count),
        }
    }

    /// The count after one sector more, with this signed charge and dimension.
    fn moved(&self, group: &Group<K>, own: &Charge<K>, dim: u32) -> Weight<K>
        requires own { IsChargeWithin 1000000000 group.now own.now }
        requires row { IsRow 63000000000 group.now self.now }
        ensures { result ≡ moved group.now own.now dim self.now }
    {
        Weight {
            charge: group.add(own, &self.charge),
            count: times(dim, self.count),
        }
    }
}

/// Adds the counts after one sector more.
fn add_moved<const K: usize>(
    group: &Group<K>,
    own: &Charge<K>,
    dim: u32,
    rows: &[Weight<K>],
    out: &mut Vec<Weight<K>>,
) -> Result<(), AllocError>
    requires own { IsChargeWithin 1000000000 group.now own.now }
    requires rows { All (IsRow 63000000000 group.now) rows.now }
    ensures { OnOk result (out.new.items ≡ out.old.items ++ map (moved group.now own.now dim) rows.now) }
{
    for w in rows {
        out.push(w.moved(group, own, dim))?;
    }
    Ok(())
}

/// The counts after any sector of the leg more, sector by sector.
fn spread<const K: usize>(
    alloc: Global,
    group: &Group<K>,
    leg: &Leg<K>,
    rows: &[Weight<K>],
) -> Result<Vec<Weight<K>>, AllocError>
    requires group { IsLegOf group.now leg.now }
    requires rows { All (IsRow 63000000000 group.now) rows.now }
    ensures { IfOk result (λ v. v.items ≡ spread group.now leg.now rows.now (upward 0 (length leg.now.sectors))) }
{
    leg.known();
    let mut out = Vec::new(alloc);
    let sectors = leg.sectors().len() as u32;
    for s in 0..sectors {
        let own = signed_charge(group, leg, s);
        add_moved(group, &own, leg.dim_at(s), rows, &mut out)?;
    }
    Ok(out)
}

/// The same counts with one row for neighbours of one charge.
fn joined<const K: usize>(alloc: Global, rows: &[Weight<K>]) -> Result<Table<K>, AllocError>
    ensures weights { IfOk result (λ t. (c : List ℤ) → capped (2 ^ 22) (weight t c) ≡ capped (2 ^ 22) (weight rows.now c)) }
    ensures rows { (n : ℕ) (fs : List Factor) → All (IsRow n fs) rows.now → IfOk result (λ t. All (IsRow n fs) t) }
{
    let mut out = Vec::new(alloc);
    let Some((first, others)) = rows.split_first() else {
        return Ok(Table { rows: out });
    };
    let mut last = *first;
    for w in others {
        if last.same_charge(w) {
            last = last.plus(w);
        } else {
            out.push(last)?;
            last = *w;
        }
    }
    out.push(last)?;
    Ok(Table { rows: out })
}

/// The counts of the legs, from those of all legs but the first.
fn with_first<const K: usize>(
    alloc: Global,
    group: &Group<K>,
    legs: &[Leg<K>],
    table: &Table<K>,
) -> Result<Table<K>, AllocError>
    requires some { 0 < length legs.now }
    requires few { length legs.now ≤ 64 }
    requires group { All (IsLegOf group.now) legs.now }
    requires table { IsTable group.now (drop 1 legs.now) table.now }
    ensures { IfOk result (λ t. IsTable group.now legs.now t) }
{
    group.known();
    let rows = table.rows();
    let mut wide = spread(alloc, group, &legs[0], rows)?;
    wide.sort_unstable();
    let all = joined(alloc, &wide)?;
    Ok(all)
}

impl<const K: usize> Table<K> {
    /// The counts of no legs: one entry at charge zero.
    fn end(alloc: Global, group: &Group<K>) -> Result<Table<K>, AllocError>
        ensures { IfOk result (λ t. IsTable group.now [] t) }
    {
        group.known();
        let mut rows = Vec::new(alloc);
        rows.push(Weight {
            charge: group.zero(),
            count: 1,
        })?;
        Ok(Table { rows })
    }

    fn rows(&self) -> &[Weight<K>]
        ensures { result.now ≡ self.now }
    {
        &self.rows
    }

    /// The number of entries at a charge.
    pub(crate) fn count_at(&self, charge: &Charge<K>) -> u64
        ensures { result ≡ capped (2 ^ 22) (weight self.now charge.now) }
    {
        let rows = self.rows();
        let mut sum = 0u64;
        for w in rows {
            sum = sum_of(sum, w.count_at(charge));
        }
        sum
    }

    /// Whether some row has the charge.
    pub(crate) fn has(&self, charge: &Charge<K>) -> bool
        ensures { result ≡ has_charge self.now charge.now }
    {
        let rows = self.rows();
        for w in rows {
            if w.is_at(charge) {
                return true;
            }
        }
        false
    }
}

/// The counts of no legs, of the last leg, of the last two, and so on to all legs.
pub(crate) fn tables_of<const K: usize>(
    alloc: Global,
    group: &Group<K>,
    legs: &[Leg<K>],
) -> Result<Vec<Table<K>>, AllocError>
    requires few { length legs.now ≤ 64 }
    requires group { All (IsLegOf group.now) legs.now }
    ensures many { IfOk result (λ v. length v.items ≡ length legs.now + 1) }
    ensures tables { IfOk result (λ v.
        (k : ℕ) → k ≤ length legs.now →
        IsTable group.now (drop k legs.now) (slice_index_or v.items (length legs.now - k) [])) }
{
    let mut tables = Vec::new(alloc);
    tables.push(Table::end(alloc, group)?)?;
    for i in (0..legs.len()).rev() {
        let made = tables.as_slice();
        let last = made.len() - 1;
        let table = with_first(alloc, group, &legs[i..], &made[last])?;
        tables.push(table)?;
    }
    Ok(tables)
}

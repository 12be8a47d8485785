//! What is wrong with a given operator, first in order.

ghost use Rattle.std.specs.Prelude.{◌≡◌, ◌<◌, ◌*◌, ◌↔◌, ℕ, length, IsTrue, MatchOption};
ghost use Rattle.qn_charge.specs.Charges.{IsCanonical, IsWithin};
ghost use Rattle.qn_charge.specs.Firsts.{IsFirst, HasNone};
ghost use Rattle.qn_index.specs.Legs.{charge_at, total};
ghost use Rattle.qn_sites.specs.Operators.{IsSiteLeg, carried};
ghost use Rattle.qn_sites.specs.Refusals.{BadEntry, BadHead, IsClean, IsFaultPlace, IsOffCharge};

use crate::name::Name;
use qn_charge::{Abelian, Charge, Group};
use qn_gauss::Gauss;
use qn_index::Leg;

/// The charge of a value of a site's leg.
fn charge_of<'a, const K: usize>(group: &Group<K>, leg: &'a Leg<K>, value: u32) -> &'a Charge<K>
    requires leg { IsSiteLeg group.now leg.now }
    requires value { value < total leg.now.sectors }
    ensures value { result.now ≡ charge_at leg.now.sectors value }
    ensures canonical { IsCanonical group.now result.now }
    ensures within { IsWithin 1000000000 group.now result.now }
{
    let (sector, _) = leg.at(value);
    leg.charge(sector)
}

/// Whether an entry at a row and a column carries the charge.
fn is_carried<const K: usize>(
    group: &Group<K>,
    leg: &Leg<K>,
    row: u32,
    column: u32,
    charge: &Charge<K>,
) -> bool
    requires leg { IsSiteLeg group.now leg.now }
    requires row { row < total leg.now.sectors }
    requires column { column < total leg.now.sectors }
    ensures { IsTrue result ↔ (carried group.now leg.now.sectors row column ≡ charge.now) }
{
    let up = charge_of(group, leg, row);
    let down = group.neg(charge_of(group, leg, column));
    group.add(up, &down).same(charge)
}

/// Whether an entry, the k-th row after row, is not 0 and does not carry the charge.
fn is_off_charge<const K: usize>(
    group: &Group<K>,
    leg: &Leg<K>,
    charge: &Charge<K>,
    k: usize,
    entry: &Gauss,
) -> bool
    requires leg { IsSiteLeg group.now leg.now }
    requires place { k < total leg.now.sectors * total leg.now.sectors }
    ensures { IsTrue result ↔ IsOffCharge group.now leg.now charge.now k entry.now }
{
    if entry.is_zero() {
        return false;
    }
    let dim = leg.dim() as usize;
    !is_carried(group, leg, (k / dim) as u32, (k % dim) as u32, charge)
}

/// The first entry that is not 0 and does not carry the charge.
fn first_off_charge<const K: usize>(
    group: &Group<K>,
    leg: &Leg<K>,
    charge: &Charge<K>,
    entries: &[Gauss],
) -> Option<usize>
    requires leg { IsSiteLeg group.now leg.now }
    requires full { length entries.now ≡ total leg.now.sectors * total leg.now.sectors }
    ensures { MatchOption result (HasNone (BadEntry group.now leg.now charge.now entries.now)) (
        IsFirst (BadEntry group.now leg.now charge.now entries.now)) }
{
    for (k, entry) in entries.iter().enumerate() {
        if is_off_charge(group, leg, charge, k, entry) {
            return Some(k);
        }
    }
    None
}

/// Whether a name is that of the identity or a charge is out of range.
fn has_bad_head<const K: usize>(group: &Group<K>, name: &Name, charge: &Charge<K>) -> bool
    ensures { IsTrue result ↔ BadHead group.now name.now charge.now }
{
    if name.is_identity() {
        return true;
    }
    match group.out_of(charge, 10_000_000) {
        Some(_) => true,
        None => false,
    }
}

/// Where an operator is at fault: 0 for its name or its charge, and else the number, from 1, of the
/// first entry that does not carry its charge.
pub fn op_fault<const K: usize>(
    group: &Group<K>,
    leg: &Leg<K>,
    name: &Name,
    charge: &Charge<K>,
    entries: &[Gauss],
) -> Option<usize>
    requires leg { IsSiteLeg group.now leg.now }
    requires full { length entries.now ≡ total leg.now.sectors * total leg.now.sectors }
    ensures { MatchOption result (IsClean group.now leg.now (record { name = name.now; charge = charge.now; entries = entries.now })) (IsFaultPlace group.now leg.now (record { name = name.now; charge = charge.now; entries = entries.now })) }
{
    if has_bad_head(group, name, charge) {
        return Some(0);
    }
    match first_off_charge(group, leg, charge, entries) {
        Some(k) => Some(k + 1),
        None => None,
    }
}

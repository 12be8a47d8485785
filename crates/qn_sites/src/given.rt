//! A site of one's own, from its leg and its operators.

ghost use Rattle.std.specs.Prelude.{◌≡◌, ◌≢◌, ◌<◌, ◌≤◌, ◌*◌, ◌==◌, ◌/◌, ◌%◌, ℕ, length, map, slice_index_or, true, false, IfOk, IfErr, if◌then◌else◌};
ghost use Rattle.std.specs.Cmp.Lexicographic.{slice_cmp};
ghost use Rattle.std.specs.List.{All};
ghost use Rattle.std.specs.Ordering.{is_lt, nat_cmp};
ghost use Rattle.qn_gauss.specs.Gaussian.{one_g, zero_g};
ghost use Rattle.qn_charge.specs.Charges.{IsGroup};
ghost use Rattle.qn_index.specs.Legs.{total};
ghost use Rattle.qn_sites.specs.Operators.{IsSiteLeg};
ghost use Rattle.qn_sites.specs.Sites.{AreAscending, IsOn, identity_name, identity_on, names, op_on, set_in, site_with, unit_table};
ghost use Rattle.qn_sites.specs.Refusals.{IsOwnFault};

use crate::checks::op_fault;
use crate::fault::SiteFault;
use crate::name::Name;
use crate::operator::OpTable;
use crate::site::SiteTable;
use qn_charge::{Abelian, Charge, Group};
use qn_gauss::Gauss;
use qn_index::Leg;
use std::alloc::{AllocError, Global};

/// The operators that are given, each tested, or the first one at fault.
fn tested<const K: usize>(
    alloc: Global,
    group: &Group<K>,
    leg: &Leg<K>,
    ops: Vec<(Name, Charge<K>, Vec<Gauss>)>,
) -> Result<Vec<OpTable<K>>, SiteFault>
    requires leg { IsSiteLeg group.now leg.now }
    requires full { All (λ o. length o.2.items ≡ total leg.now.sectors * total leg.now.sectors) ops.items }
    ensures ok { IfOk result (λ v.
        v.items ≡
        map (op_on group.now leg.now) (
        map (λ o. record { name = o.0; charge = o.1; entries = o.2.items }) ops.entry.items)) }
    ensures on { IfOk result (λ v. All (IsOn group.now leg.now) v.items) }
    ensures named { IfOk result (λ v. All (λ n. n ≢ identity_name) (names v.items)) }
    ensures err { IfErr result (
        IsOwnFault group.now leg.now (
        map (λ o. record { name = o.0; charge = o.1; entries = o.2.items }) ops.entry.items)) }
{
    group.known();
    let mut tables = Vec::new(alloc);
    for (name, charge, entries) in ops {
        charge.known();
        match op_fault(group, leg, &name, &charge, &entries) {
            Some(entry) => {
                let op = tables.as_slice().len();
                return Err(SiteFault::OpCharge { op, entry });
            }
            None => {}
        }
        tables.push(OpTable::of_parts(*group, leg.copy()?, name, charge, entries))?;
    }
    Ok(tables)
}

/// The entry of the identity at a place of its table of `dim` rows.
fn unit_entry(place: usize, dim: usize) -> Gauss
    requires { 0 < dim }
    ensures { result ≡ (if place / dim == place % dim then one_g else zero_g) }
{
    if place / dim == place % dim {
        Gauss::ONE
    } else {
        Gauss::ZERO
    }
}

/// The entries of the identity.
fn unit_entries(alloc: Global, dim: usize) -> Result<Vec<Gauss>, AllocError>
    requires some { 0 < dim }
    requires small { dim ≤ 64 }
    ensures { IfOk result (λ v. v.items ≡ unit_table dim) }
{
    let mut entries = Vec::with_capacity(alloc, dim * dim)?;
    for place in 0..dim * dim {
        entries.push(unit_entry(place, dim))?;
    }
    Ok(entries)
}

/// The identity on a leg.
fn identity<const K: usize>(
    alloc: Global,
    group: &Group<K>,
    leg: &Leg<K>,
) -> Result<OpTable<K>, AllocError>
    requires { IsSiteLeg group.now leg.now }
    ensures { IfOk result (λ o. o ≡ identity_on group.now leg.now) }
{
    group.known();
    let entries = unit_entries(alloc, leg.dim() as usize)?;
    let name = Name::new(String::from_str(alloc, "I")?);
    Ok(OpTable::of_parts(*group, leg.copy()?, name, group.zero(), entries))
}

/// How many operators, from the front on, have names below that of the identity.
fn count_before<const K: usize>(ops: &[OpTable<K>]) -> usize
    ensures within { result ≤ length ops.now }
    ensures below { (k : ℕ) (d : _) → k < result → is_lt (slice_cmp nat_cmp (slice_index_or ops.now k d).name identity_name) ≡ true }
    ensures above { (d : _) → result < length ops.now →
        is_lt (slice_cmp nat_cmp (slice_index_or ops.now result d).name identity_name) ≡ false }
{
    for i in 0..ops.len() {
        let op = &ops[i];
        if !op.name().is_before_identity() {
            return i;
        }
    }
    ops.len()
}

/// The operators with the identity among them.
fn with_identity<const K: usize>(
    alloc: Global,
    group: &Group<K>,
    leg: &Leg<K>,
    ops: Vec<OpTable<K>>,
) -> Result<Vec<OpTable<K>>, AllocError>
    requires { IsSiteLeg group.now leg.now }
    ensures { IfOk result (λ v. v.items ≡ set_in (identity_on group.now leg.now) ops.entry.items) }
{
    let mut all = ops;
    let place = count_before(&all);
    all.insert(place, identity(alloc, group, leg)?)?;
    Ok(all)
}

/// The site with this leg and these operators, to which the identity `I` is added. The operators stand
/// ascending by name, each with its name, its charge and its entries, row after row.
pub fn own<const K: usize>(
    alloc: Global,
    group: &Group<K>,
    leg: Leg<K>,
    ops: Vec<(Name, Charge<K>, Vec<Gauss>)>,
) -> Result<SiteTable<K>, SiteFault>
    requires leg { IsSiteLeg group.now leg }
    requires few { length ops.items ≤ 64 }
    requires names { AreAscending (map (λ o. o.0) ops.items) }
    requires full { All (λ o. length o.2.items ≡ total leg.sectors * total leg.sectors) ops.items }
    ensures ok { IfOk result (λ t.
        t ≡
        site_with group.now leg.entry (
        map (λ o. record { name = o.0; charge = o.1; entries = o.2.items }) ops.entry.items)) }
    ensures err { IfErr result (
        IsOwnFault group.now leg.entry (
        map (λ o. record { name = o.0; charge = o.1; entries = o.2.items }) ops.entry.items)) }
{
    group.known();
    let tables = tested(alloc, group, &leg, ops)?;
    let all = with_identity(alloc, group, &leg, tables)?;
    Ok(SiteTable::of_parts(*group, leg, all))
}

//! Charges and sectors in a document: their form, their range, their order.

ghost use Rattle.std.specs.Prelude.{◌≡◌, ◌+◌, ◌<◌, ◌==◌, ◌||◌, nat_lt, ◌≤◌, ◌^◌, IfOk, IfSome, MatchOption, unsigned_abs, map, length, true, false, None, ⊤};
ghost use Rattle.std.specs.List.{list_all, list_any};
ghost use Rattle.serde_json.specs.View.{view};
ghost use Rattle.qn_parts.specs.Faults.{Reads, fault, first_bad, fault_if};
ghost use Rattle.qn_json.specs.Forms.{is_whole};
ghost use Rattle.qn_parts.specs.Sectors.{is_charge, is_sector, is_sectors, are_wholes, number_of, number_at, numbers, dim_of, sector_of, first_of_pair, first_out, second_of_pair, has_charge_out, has_dim_out, is_dim_out, dims_fault, sectors_fault};
ghost use Rattle.qn_json.specs.Tree.{items};

use crate::{DocFault, Fault};
use qn_charge::{Charge, Group};
use qn_index::Sector;
use qn_json::forms::is_whole;
use qn_json::{items, list};
use serde_json::Value;
use std::alloc::{AllocError, Global};

fn all_whole(list: &[Value]) -> bool
    ensures { result ≡ list_all (λ v. is_whole (view v)) list.now }
{
    list.iter().all(|v| is_whole(v))
}

/// Whether the value has the form of a charge or flux: one whole number for each factor.
#[tactic(auto, using(qn_json::proofs::Lists::views))]
pub fn is_charge(v: &Value, factors: usize) -> bool
    ensures { result ≡ is_charge factors (view v.now) }
{
    match list(v) {
        Some(parts) => parts.len() == factors && all_whole(parts),
        None => false,
    }
}

fn is_sector(v: &Value, factors: usize) -> bool
    ensures { result ≡ is_sector factors (view v.now) }
{
    match list(v) {
        Some([charge, dim]) => is_charge(charge, factors) && is_whole(dim),
        _ => false,
    }
}

fn are_sectors(list: &[Value], factors: usize) -> bool
    ensures { result ≡ list_all (λ v. is_sector factors (view v)) list.now }
{
    list.iter().all(|v| is_sector(v, factors))
}

/// Whether the value has the form of a list of sectors, with this many numbers in each charge. Takes
/// no memory.
#[tactic(auto, using(qn_json::proofs::Lists::views))]
pub fn is_sectors(v: &Value, factors: usize) -> bool
    ensures { result ≡ is_sectors factors (view v.now) }
{
    match list(v) {
        Some(list) => are_sectors(list, factors),
        None => false,
    }
}

/// The whole number, and 0 where it is none.
pub fn number(v: &Value) -> i64
    ensures { result ≡ number_of (view v.now) }
{
    v.as_i64().unwrap_or(0)
}

#[tactic(auto, using(qn_json::proofs::Lists::places_of_views))]
fn number_at(list: &[Value], i: usize) -> i64
    ensures { result ≡ number_at (map view list.now) i }
{
    match list.get(i) {
        Some(v) => number(v),
        None => 0,
    }
}

/// The charge of the first K numbers, each 0 where there are not as many.
fn charge<const K: usize>(list: &[Value]) -> Charge<K>
    requires { K ≤ 4 }
    ensures { result ≡ numbers K (map view list.now) }
{
    let parts = [
        number_at(list, 0),
        number_at(list, 1),
        number_at(list, 2),
        number_at(list, 3),
    ];
    Charge::new(&parts[..K])
}

/// The charge of the first numbers, one for each factor, each 0 where there are not as many.
pub fn charge_in<const K: usize>(list: &[Value], group: &Group<K>) -> Charge<K>
    ensures { result ≡ numbers (length group.now) (map view list.now) }
{
    group.known();
    charge(list)
}

/// The items of the first of a pair.
pub(crate) fn first_items(v: &Value) -> &[Value]
    ensures { map view result.now ≡ items (first_of_pair (items (view v.now))) }
{
    match items(v) {
        [first, ..] => items(first),
        [] => &[],
    }
}

/// The items of the second of a pair.
pub(crate) fn second_items(v: &Value) -> &[Value]
    ensures { map view result.now ≡ items (second_of_pair (items (view v.now))) }
{
    match items(v) {
        [_, second, ..] => items(second),
        _ => &[],
    }
}

fn dim(v: &Value) -> i64
    ensures { result ≡ dim_of (view v.now) }
{
    match items(v) {
        [_, dim, ..] => number(dim),
        _ => 0,
    }
}

/// The first factor, from 0, whose part is out of range.
pub(crate) fn first_out<const K: usize>(
    group: &Group<K>,
    charge: &Charge<K>,
    bound: i64,
) -> Option<usize>
    ensures { result ≡ first_out bound group.now charge.now }
{
    group.known();
    charge.known();
    group.out_of(charge, bound)
}

// Whether some part of the sector's charge is out of range.
fn has_charge_out<const K: usize>(v: &Value, group: &Group<K>) -> bool
    ensures { result ≡ has_charge_out group.now (view v.now) }
{
    group.known();
    let charge = charge(first_items(v));
    first_out(group, &charge, 1_000_000_000).is_some()
}

// F9 over all sectors.
fn check_charges<const K: usize>(
    list: &[Value],
    group: &Group<K>,
    tensor: u32,
    part: u32,
) -> Result<(), DocFault>
    ensures { Reads result (first_bad (has_charge_out group.now) (λ k. fault 9 tensor part k) (map view list.now)) (λ _. ⊤) }
{
    let mut before: usize = 0;
    let mut rest = list;
    while let [v, tail @ ..] = rest {
        if has_charge_out(v, group) {
            return Err(DocFault::Bad(Fault::at_item(9, tensor, part, before)));
        }
        before += 1;
        rest = tail;
    }
    Ok(())
}

// The total with this sector's dimension, and None where F10 holds of it.
fn next_total(v: &Value, total: u32, most: u32) -> Option<u32>
    requires { total ≤ most }
    ensures { MatchOption result (is_dim_out most total (dim_of (view v.now)) ≡ true)
        (λ next. (is_dim_out most total (dim_of (view v.now)) ≡ false)
        × (next ≡ total + unsigned_abs (dim_of (view v.now))) × (next ≤ most)) }
{
    let dim = dim(v);
    if dim < 1 || 65_536 < dim || i64::from(most) < i64::from(total) + dim {
        None
    } else {
        Some(total + dim as u32)
    }
}

// F10 over all sectors.
fn check_dims(list: &[Value], tensor: u32, part: u32, most: u32) -> Result<(), DocFault>
    ensures { Reads result (dims_fault most (λ k. fault 10 tensor part k) 0 1 (map view list.now)) (λ _. ⊤) }
{
    let mut total: u32 = 0;
    let mut before: usize = 0;
    let mut rest = list;
    while let [v, tail @ ..] = rest {
        match next_total(v, total, most) {
            Some(next) => total = next,
            None => return Err(DocFault::Bad(Fault::at_item(10, tensor, part, before))),
        }
        before += 1;
        rest = tail;
    }
    Ok(())
}

// F11.
fn check_count(list: &[Value], tensor: u32, part: u32) -> Result<(), DocFault>
    ensures { Reads result (fault_if (length list.now == 0 || nat_lt 64 (length list.now)) (fault 11 tensor part 0)) (λ _. ⊤) }
{
    if list.is_empty() || 64 < list.len() {
        return Err(DocFault::Bad(Fault::at(11, tensor, part, 0)));
    }
    Ok(())
}

// F9 over all sectors, then F10, then F11.
#[tactic(auto, using(qn_json::proofs::Lists::length_of_views))]
fn check_sectors<const K: usize>(
    list: &[Value],
    group: &Group<K>,
    tensor: u32,
    part: u32,
    most: u32,
) -> Result<(), DocFault>
    ensures { Reads result (sectors_fault group.now tensor part most (map view list.now)) (λ _. ⊤) }
{
    check_charges(list, group, tensor, part)?;
    check_dims(list, tensor, part, most)?;
    check_count(list, tensor, part)
}

fn sector<const K: usize>(v: &Value, group: &Group<K>) -> Sector<K>
    requires { has_dim_out (view v.now) ≡ false }
    ensures { result ≡ sector_of group.now (view v.now) }
{
    group.known();
    let charge = charge(first_items(v));
    let dim = dim(v);
    Sector {
        charge,
        dim: dim as u32,
    }
}

fn made_sectors<const K: usize>(
    alloc: Global,
    list: &[Value],
    group: &Group<K>,
) -> Result<Vec<Sector<K>>, AllocError>
    requires { list_any has_dim_out (map view list.now) ≡ false }
    ensures { IfOk result (λ made. made.items ≡ map (sector_of group.now) (map view list.now)) }
{
    let mut made = Vec::new(alloc);
    let mut rest = list;
    while let [v, tail @ ..] = rest {
        made.push(sector(v, group))?;
        rest = tail;
    }
    Ok(made)
}

/// The sectors of a list, or the first of their faults.
#[tactic(auto, using(crate::proofs::Dims::dims_right))]
pub(crate) fn sectors_of<const K: usize>(
    alloc: Global,
    list: &[Value],
    group: &Group<K>,
    number: u32,
    part: u32,
    most: u32,
) -> Result<Vec<Sector<K>>, DocFault>
    ensures { Reads result (sectors_fault group.now number part most (map view list.now))
        (λ made. made.items ≡ map (sector_of group.now) (map view list.now)) }
{
    check_sectors(list, group, number, part, most)?;
    Ok(made_sectors(alloc, list, group)?)
}

/// The sectors of a leg, or the first of their faults: F9 over all sectors, then F10, then F11. A
/// fault's place is the tensor `number`, this part, and the sector as item, from 1. The dimensions may
/// add up to `most`.
pub fn sectors<const K: usize>(
    alloc: Global,
    v: &Value,
    group: &Group<K>,
    number: u32,
    part: u32,
    most: u32,
) -> Result<Vec<Sector<K>>, DocFault>
    ensures { Reads result (sectors_fault group.now number part most (items (view v.now)))
        (λ made. made.items ≡ map (sector_of group.now) (items (view v.now))) }
{
    sectors_of(alloc, items(v), group, number, part, most)
}

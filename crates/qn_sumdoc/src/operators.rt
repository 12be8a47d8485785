//! An operator of a site of one's own: its charge and its table of entries.

ghost use Rattle.std.specs.Prelude.{◌≡◌, ◌+◌, ◌*◌, ◌<◌, ◌≤◌, ◌^◌, ◌++◌, map, length, codes, Some, ⊤};
ghost use Rattle.std.specs.List.{list_all};
ghost use Rattle.serde_json.specs.Find.{get};
ghost use Rattle.serde_json.specs.View.{view};
ghost use Rattle.qn_index.specs.Legs.{total};
ghost use Rattle.qn_sites.specs.Operators.{IsSiteLeg};
ghost use Rattle.qn_sites.specs.Refusals.{IsClean};
ghost use Rattle.qn_parts.specs.Faults.{Reads, Fails, fault, first_from, first_of};
ghost use Rattle.qn_json.specs.Forms.{has, is_list};
ghost use Rattle.qn_parts.specs.Sectors.{is_charge};
ghost use Rattle.qn_json.specs.Entries.{are_entries};
ghost use Rattle.qn_parts.specs.Tensors.{entry_or_zero};
ghost use Rattle.qn_sumdoc.specs.Objects.{named};
ghost use Rattle.qn_sumdoc.specs.Operators.{IsOperatorOf, is_operator, rows_data, entries_data, rows_fault, entry_fault, table_fault, charge_fault, operator_fault};

use qn_charge::{Charge, Group};
use qn_gauss::Gauss;
use qn_index::Leg;
use qn_parts::parts::{are_entries, charge_in, entry, is_charge};
use qn_parts::{DocFault, Fault, items, items_at, list};
use qn_sites::{Name, op_fault};
use serde_json::Value;
use std::alloc::Global;

fn has_charge(v: &Value, factors: usize) -> bool
    ensures { result ≡ has (is_charge factors) (get (codes "charge") (view v.now)) }
{
    match v.get("charge") {
        Some(found) => is_charge(found, factors),
        None => false,
    }
}

fn all_rows(list: &[Value]) -> bool
    ensures { result ≡ list_all (λ v. are_entries (view v)) list.now }
{
    list.iter().all(|v| are_entries(v))
}

#[tactic(auto, using(qn_json::proofs::Lists::views))]
fn are_rows(v: &Value) -> bool
    ensures { result ≡ is_list are_entries (view v.now) }
{
    match list(v) {
        Some(list) => all_rows(list),
        None => false,
    }
}

fn has_table(v: &Value) -> bool
    ensures { result ≡ has (is_list are_entries) (get (codes "table") (view v.now)) }
{
    match v.get("table") {
        Some(found) => are_rows(found),
        None => false,
    }
}

/// Whether the value has the form of an operator, with this many numbers in its charge.
#[tactic(auto, unfolding(crate::specs::Operators::is_operator))]
pub(crate) fn is_operator(v: &Value, factors: usize) -> bool
    ensures { result ≡ is_operator factors (view v.now) }
{
    has_charge(v, factors) && has_table(v)
}

// F18: the first row that hasn't `dim` entries, where there should be `dim` rows.
#[tactic(auto, using(qn_json::proofs::Lists::views))]
fn check_rows(rows: &[Value], dim: u32, site: u32, op: u32) -> Result<(), DocFault>
    requires { dim ≤ 64 }
    ensures { Reads result (rows_fault dim site op (map view rows.now)) (λ _. ⊤) }
{
    let mut place: u32 = 1;
    let mut rest = rows;
    while let [row, tail @ ..] = rest {
        if dim < place || items(row).len() != dim as usize {
            return Err(DocFault::Bad(Fault::at(18, site, op, place)));
        }
        place += 1;
        rest = tail;
    }
    if place <= dim {
        return Err(DocFault::Bad(Fault::at(18, site, op, place)));
    }
    Ok(())
}

// The fault of this code at an entry of an operator. No table has as many as 2^32 entries.
fn at_entry(code: u32, site: u32, op: u32, entry: usize) -> DocFault
    ensures { Fails result (Some (fault code site op entry)) }
{
    match u32::try_from(entry) {
        Ok(item) => DocFault::Bad(Fault::at(code, site, op, item)),
        Err(_) => DocFault::Memory,
    }
}

// F19 of the entry that comes after this many.
fn bad_entry(site: u32, op: u32, before: usize) -> DocFault
    ensures { Fails result (Some (fault 19 site op (before + 1))) }
{
    match before.checked_add(1) {
        Some(place) => at_entry(19, site, op, place),
        None => DocFault::Memory,
    }
}

// Adds the entries of a row, or finds the first that is none, F19.
fn push_entries(row: &[Value], site: u32, op: u32, made: &mut Vec<Gauss>) -> Result<(), DocFault>
    ensures { Reads result (first_from (entry_fault site op) (length made.old.items + 1) (map view row.now))
        (λ _. made.new.items ≡ made.old.items ++ map entry_or_zero (map view row.now)) }
{
    let mut rest = row;
    while let [v, tail @ ..] = rest {
        match entry(v) {
            Some(entry) => made.push(entry)?,
            None => return Err(bad_entry(site, op, made.len())),
        }
        rest = tail;
    }
    Ok(())
}

// The entries of all rows, row after row, or F19.
fn entries(alloc: Global, rows: &[Value], site: u32, op: u32) -> Result<Vec<Gauss>, DocFault>
    ensures { Reads result (first_of (entry_fault site op) (entries_data (map view rows.now)))
        (λ made. made.items ≡ map entry_or_zero (entries_data (map view rows.now))) }
{
    let mut made = Vec::new(alloc);
    let mut rest = rows;
    while let [row, tail @ ..] = rest {
        push_entries(items(row), site, op, &mut made)?;
        rest = tail;
    }
    Ok(made)
}

// The entries of a table with `dim` rows of `dim` entries, or F18, or F19.
fn table(alloc: Global, v: &Value, dim: u32, site: u32, op: u32) -> Result<Vec<Gauss>, DocFault>
    requires { dim ≤ 64 }
    ensures { Reads result (table_fault dim site op (rows_data (view v.now)))
        (λ made. (made.items ≡ map entry_or_zero (entries_data (rows_data (view v.now)))) × (length made.items ≡ dim * dim)) }
{
    let rows = items_at(v, "table");
    check_rows(rows, dim, site, op)?;
    let made = entries(alloc, rows, site, op)?;
    Ok(made)
}

// F32 of an operator.
fn check_charge<const K: usize>(
    group: &Group<K>,
    leg: &Leg<K>,
    name: &Name,
    charge: &Charge<K>,
    entries: &[Gauss],
    site: u32,
    op: u32,
) -> Result<(), DocFault>
    requires leg { IsSiteLeg group.now leg.now }
    requires full { length entries.now ≡ total leg.now.sectors * total leg.now.sectors }
    ensures { Reads result (charge_fault group.now leg.now site op (record { name = name.now; charge = charge.now; entries = entries.now }))
        (λ _. IsClean group.now leg.now (record { name = name.now; charge = charge.now; entries = entries.now })) }
{
    group.known();
    charge.known();
    match op_fault(group, leg, name, charge, entries) {
        Some(entry) => Err(at_entry(32, site, op, entry)),
        None => Ok(()),
    }
}

/// The operator of this name at place `op` on a site, or the first of F18, F19 and F32.
#[tactic(auto, unfolding(crate::specs::Operators::operator_fault))]
pub(crate) fn operator<const K: usize>(
    alloc: Global,
    name: &String,
    v: &Value,
    group: &Group<K>,
    leg: &Leg<K>,
    site: u32,
    op: u32,
) -> Result<(Name, Charge<K>, Vec<Gauss>), DocFault>
    requires leg { IsSiteLeg group.now leg.now }
    ensures { Reads result (operator_fault group.now leg.now site op (named (name.now, v.now)))
        (λ o. IsOperatorOf group.now leg.now (named (name.now, v.now)) (record { name = o.0; charge = o.1; entries = o.2.items })) }
{
    let entries = table(alloc, v, leg.dim(), site, op)?;
    let charge = charge_in(items_at(v, "charge"), group);
    let name = Name::new(String::from_str(alloc, name.as_str())?);
    check_charge(group, leg, &name, &charge, &entries, site, op)?;
    Ok((name, charge, entries))
}

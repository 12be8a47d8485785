//! A combiner of a network document: its form, and its first fault.

ghost use Rattle.std.specs.Prelude.{◌≡◌, ◌+◌, ◌<◌, ◌≤◌, ◌==◌, ◌||◌, ◌^◌, nat_lt, not, codes, length, map};
ghost use Rattle.std.specs.List.{All};
ghost use Rattle.serde_json.specs.Find.{get};
ghost use Rattle.serde_json.specs.View.{view};
ghost use Rattle.qn_charge.specs.Charges.{zero_charge};
ghost use Rattle.qn_index.specs.Legs.{IsLegOf};
ghost use Rattle.qn_index.specs.Extents.{IsWithinLimits};
ghost use Rattle.qn_parts.specs.Faults.{Reads, fault, fault_if, first_of};
ghost use Rattle.qn_json.specs.Forms.{has};
ghost use Rattle.qn_parts.specs.Tensors.{legs_data, leg_fault, width_fault};
ghost use Rattle.qn_doc.specs.Combiners.{is_mode, is_combiner, is_split, combiner_of, has_fused_leg, table_legs, table_fault, fused_fault, combiner_fault, IsTable};

use crate::tables::check_width;
use qn_block::{Combiner, FuseFault};
use qn_charge::Group;
use qn_index::{Dir, Leg};
use qn_parts::forms::is_word_at;
use qn_parts::parts::{dir, has_arrow, has_legs, legs};
use qn_parts::{DocFault, Fault, items_at};
use serde_json::Value;
use std::alloc::Global;

fn has_mode(v: &Value) -> bool
    ensures { result ≡ has is_mode (get (codes "mode") (view v.now)) }
{
    match v.get("mode") {
        Some(found) => match found.as_str() {
            Some(text) => text == "fuse" || text == "split",
            None => false,
        },
        None => false,
    }
}

/// Whether the value has the form of a combiner, with this many numbers in each charge.
#[tactic(auto, unfolding(crate::specs::Combiners::is_combiner))]
pub(crate) fn is_combiner(v: &Value, factors: usize) -> bool
    ensures { result ≡ is_combiner factors (view v.now) }
{
    has_arrow(v) && has_legs(v, factors) && has_mode(v)
}

/// Whether the split table is meant.
pub(crate) fn is_split(v: &Value) -> bool
    ensures { result ≡ is_split (view v.now) }
{
    is_word_at(v, "mode", "split")
}

// The combiner of these legs, or F11 where their fused leg breaks a limit of a leg.
fn fused<const K: usize>(
    alloc: Global,
    group: &Group<K>,
    legs: Vec<Leg<K>>,
    dir: Dir,
    tensor: u32,
) -> Result<Combiner<K>, DocFault>
    requires some { 0 < length legs.items }
    requires few { length legs.items ≤ 31 }
    requires group { All (IsLegOf group.now) legs.items }
    ensures { Reads result (fault_if (not (has_fused_leg (record { group = group.now; legs = legs.entry.items; arrow = dir }))) (fault 11 tensor 0 0))
        (λ c. c ≡ record { group = group.now; legs = legs.entry.items; arrow = dir }) }
{
    match Combiner::new(alloc, *group, legs, dir) {
        Ok(combiner) => {
            combiner.known();
            Ok(combiner)
        }
        Err(FuseFault::Empty) => unreachable!(),
        Err(FuseFault::FusedRange) => Err(DocFault::Bad(Fault::at(11, tensor, 0, 0))),
        Err(FuseFault::Memory) => Err(DocFault::Memory),
    }
}

// The combiner of these legs, or the first of F11, F13 and F14.
fn checked<const K: usize>(
    alloc: Global,
    group: &Group<K>,
    legs: Vec<Leg<K>>,
    dir: Dir,
    split: bool,
    tensor: u32,
) -> Result<Combiner<K>, DocFault>
    requires some { 0 < length legs.items }
    requires few { length legs.items ≤ 31 }
    requires group { All (IsLegOf group.now) legs.items }
    ensures { Reads result (table_fault tensor split (record { group = group.now; legs = legs.entry.items; arrow = dir }))
        (λ c. (c ≡ record { group = group.now; legs = legs.entry.items; arrow = dir }) × IsTable split c) }
{
    let combiner = fused(alloc, group, legs, dir, tensor)?;
    check_width(&combiner, split, tensor)?;
    Ok(combiner)
}

// The combiner, or the first of its faults after F8.
fn combiner_of<const K: usize>(
    alloc: Global,
    v: &Value,
    group: &Group<K>,
    number: u32,
) -> Result<Combiner<K>, DocFault>
    requires some { 0 < length (legs_data (view v.now)) }
    requires few { length (legs_data (view v.now)) ≤ 31 }
    ensures { Reads result (fused_fault group.now number (view v.now))
        (λ c. (c ≡ combiner_of group.now (view v.now)) × IsTable (is_split (view v.now)) c) }
{
    let legs = legs(alloc, items_at(v, "legs"), group, number)?;
    checked(alloc, group, legs, dir(v), is_split(v), number)
}

/// The combiner, or the first of its faults: F8; then leg by leg F9, F10, F11; then F11 of the fused
/// leg; then F13 and F14 of its table.
#[tactic(auto, using(qn_json::proofs::Lists::views))]
pub(crate) fn combiner<const K: usize>(
    alloc: Global,
    v: &Value,
    group: &Group<K>,
    number: u32,
) -> Result<Combiner<K>, DocFault>
    ensures { Reads result (combiner_fault group.now number (view v.now))
        (λ c. (c ≡ combiner_of group.now (view v.now)) × IsTable (is_split (view v.now)) c) }
{
    let list = items_at(v, "legs");
    if list.is_empty() || 31 < list.len() {
        return Err(DocFault::Bad(Fault::at(8, number, 0, 0)));
    }
    combiner_of(alloc, v, group, number)
}

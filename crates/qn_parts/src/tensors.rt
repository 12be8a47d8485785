//! A tensor in a document: its form, and its first fault.

ghost use Rattle.std.specs.Prelude.{◌≡◌, ◌+◌, ◌<◌, ◌≤◌, ◌^◌, IfOk, IfSome, map, length, codes, None, ⊤};
ghost use Rattle.std.specs.List.{All, list_all, position_from};
ghost use Rattle.std.specs.Option.{option_or};
ghost use Rattle.serde_json.specs.Find.{get};
ghost use Rattle.serde_json.specs.View.{view};
ghost use Rattle.qn_charge.specs.Charges.{IsWithin};
ghost use Rattle.qn_index.specs.Legs.{IsLegOf};
ghost use Rattle.qn_index.specs.Tuples.{IsFlux};
ghost use Rattle.qn_parts.specs.Faults.{Reads, Fails, fault, first_of, first_bad};
ghost use Rattle.qn_json.specs.Forms.{has, is_whole, are_numbers};
ghost use Rattle.qn_parts.specs.Sectors.{is_charge, is_sectors, number_of, numbers};
ghost use Rattle.qn_json.specs.Entries.{is_entry, entry_of, are_entries};
ghost use Rattle.qn_json.specs.Tree.{items, member_of};
ghost use Rattle.qn_parts.specs.Tensors.{is_arrow, is_leg, are_legs, is_block, are_blocks, is_tensor, arrow_of, leg_of, flux_of, sector_number, tuple_of, entry_or_zero, block_of, tensor_of, leg_fault, flux_fault, made_fault, parts_fault, legs_data, placed, entry_fault, tensor_fault, IsOfDocument};

use crate::blocks::{blocks, place};
use crate::legs::{flux, legs};
use crate::sectors::{is_charge, is_sectors};
use crate::{DocFault, Fault};
use qn_block::{Block, BlockTensor};
use qn_charge::{Charge, Group};
use qn_index::Leg;
use qn_json::{are_entries, are_numbers, items_at, list};
use serde_json::Value;
use std::alloc::Global;

/// Whether `dir` is `"out"` or `"in"`.
pub fn has_arrow(v: &Value) -> bool
    ensures { result ≡ has is_arrow (get (codes "dir") (view v.now)) }
{
    match v.get("dir") {
        Some(found) => match found.as_str() {
            Some(text) => text == "out" || text == "in",
            None => false,
        },
        None => false,
    }
}

fn has_sectors(v: &Value, factors: usize) -> bool
    ensures { result ≡ has (is_sectors factors) (get (codes "sectors") (view v.now)) }
{
    match v.get("sectors") {
        Some(found) => is_sectors(found, factors),
        None => false,
    }
}

#[tactic(auto, unfolding(crate::specs::Tensors::is_leg))]
fn is_leg(v: &Value, factors: usize) -> bool
    ensures { result ≡ is_leg factors (view v.now) }
{
    has_arrow(v) && has_sectors(v, factors)
}

fn all_legs(list: &[Value], factors: usize) -> bool
    ensures { result ≡ list_all (λ v. is_leg factors (view v)) list.now }
{
    list.iter().all(|v| is_leg(v, factors))
}

#[tactic(auto, using(qn_json::proofs::Lists::views))]
fn are_legs(v: &Value, factors: usize) -> bool
    ensures { result ≡ are_legs factors (view v.now) }
{
    match list(v) {
        Some(list) => all_legs(list, factors),
        None => false,
    }
}

#[tactic(auto, unfolding(crate::specs::Tensors::is_block))]
fn is_block(v: &Value) -> bool
    ensures { result ≡ is_block (view v.now) }
{
    match list(v) {
        Some([tuple, data]) => are_numbers(tuple) && are_entries(data),
        _ => false,
    }
}

fn all_blocks(list: &[Value]) -> bool
    ensures { result ≡ list_all (λ v. is_block (view v)) list.now }
{
    list.iter().all(|v| is_block(v))
}

#[tactic(auto, using(qn_json::proofs::Lists::views))]
fn are_blocks(v: &Value) -> bool
    ensures { result ≡ are_blocks (view v.now) }
{
    match list(v) {
        Some(list) => all_blocks(list),
        None => false,
    }
}

/// Whether `legs` is a list of legs, with this many numbers in each charge.
pub fn has_legs(v: &Value, factors: usize) -> bool
    ensures { result ≡ has (are_legs factors) (get (codes "legs") (view v.now)) }
{
    match v.get("legs") {
        Some(found) => are_legs(found, factors),
        None => false,
    }
}

fn has_flux(v: &Value, factors: usize) -> bool
    ensures { result ≡ has (is_charge factors) (get (codes "flux") (view v.now)) }
{
    match v.get("flux") {
        Some(found) => is_charge(found, factors),
        None => false,
    }
}

fn has_blocks(v: &Value) -> bool
    ensures { result ≡ has are_blocks (get (codes "blocks") (view v.now)) }
{
    match v.get("blocks") {
        Some(found) => are_blocks(found),
        None => false,
    }
}

/// Whether the value has the form of a tensor, with this many numbers in each charge and flux. Takes
/// no memory.
#[tactic(auto, unfolding(crate::specs::Tensors::is_tensor))]
pub fn is_tensor(v: &Value, factors: usize) -> bool
    ensures { result ≡ is_tensor factors (view v.now) }
{
    has_legs(v, factors) && has_flux(v, factors) && has_blocks(v)
}

// The tensor of these legs, this flux and these blocks, or the first of F13 to F18.
fn assembled<const K: usize>(
    alloc: Global,
    group: &Group<K>,
    legs: Vec<Leg<K>>,
    flux: Charge<K>,
    blocks: Vec<Block>,
    number: u32,
) -> Result<BlockTensor<K>, DocFault>
    requires few { length legs.items ≤ 32 }
    requires charges { All (IsLegOf group.now) legs.items }
    requires flux { IsFlux group.now flux }
    requires within { IsWithin 1000000000000 group.now flux }
    ensures { Reads result (made_fault group.now number legs.entry.items flux.entry blocks.items)
        (λ t. (t ≡ record { group = group.now; legs = legs.entry.items; flux = flux.entry; blocks = blocks.items }) × IsOfDocument t) }
{
    match BlockTensor::new(alloc, *group, legs, flux, blocks) {
        Ok(tensor) => {
            tensor.known();
            Ok(tensor)
        }
        Err(fault) => Err(place(fault, number)),
    }
}

// The tensor of these lists of legs and of blocks, or the first of its faults.
fn tensor_of<const K: usize>(
    alloc: Global,
    v: &Value,
    group: &Group<K>,
    number: u32,
) -> Result<BlockTensor<K>, DocFault>
    requires { length (legs_data (view v.now)) ≤ 32 }
    ensures { Reads result (parts_fault group.now number (view v.now)) (λ t. (t ≡ tensor_of group.now (view v.now)) × IsOfDocument t) }
{
    let legs = legs(alloc, items_at(v, "legs"), group, number)?;
    let flux = flux(v, group, number)?;
    let (blocks, bad) = blocks(alloc, items_at(v, "blocks"), number)?;
    let tensor = assembled(alloc, group, legs, flux, blocks, number)?;
    match bad {
        Some(fault) => Err(DocFault::Bad(fault)),
        None => Ok(tensor),
    }
}

/// The tensor, or the first of its faults: F8; then leg by leg F9, F10, F11; then F12 to F19, each
/// over all blocks before the next code. The tensor of a fault is `number`.
#[tactic(auto, using(qn_json::proofs::Lists::views))]
pub fn tensor<const K: usize>(
    alloc: Global,
    v: &Value,
    group: &Group<K>,
    number: u32,
) -> Result<BlockTensor<K>, DocFault>
    ensures { Reads result (tensor_fault group.now number (view v.now)) (λ t. (t ≡ tensor_of group.now (view v.now)) × IsOfDocument t) }
{
    if items_at(v, "legs").len() > 32 {
        return Err(DocFault::Bad(Fault::at(8, number, 0, 0)));
    }
    tensor_of(alloc, v, group, number)
}

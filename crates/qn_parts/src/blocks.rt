//! The blocks of a tensor document: their entries, and what keeps them from making a tensor.

ghost use Rattle.std.specs.Prelude.{◌≡◌, ◌+◌, ◌<◌, ◌≤◌, ◌^◌, IfOk, IfSome, OnOk, map, length, is_none, if◌then◌else◌, Some, None, unwrap_or, option_map};
ghost use Rattle.std.specs.List.{position_from};
ghost use Rattle.std.specs.Option.{option_or};
ghost use Rattle.qn_gauss.specs.Gaussian.{zero_g};
ghost use Rattle.serde_json.specs.View.{view};
ghost use Rattle.qn_parts.specs.Faults.{Reads, Fails, fault, first_of, first_bad};
ghost use Rattle.qn_parts.specs.Sectors.{number_of};
ghost use Rattle.qn_json.specs.Entries.{entry_of};
ghost use Rattle.qn_parts.specs.Tensors.{sector_number, tuple_of, entry_or_zero, block_of, placed, entry_fault, entries_data};

use crate::sectors::{first_items, number, second_items};
use crate::{DocFault, Fault};
use qn_block::{Block, BlockFault};
use qn_gauss::Gauss;
use qn_index::Tuple;
use qn_json::entry;
use serde_json::Value;
use std::alloc::{AllocError, Global};

fn sector_number(v: &Value) -> u32
    ensures { result ≡ sector_number (number_of (view v.now)) }
{
    let n = number(v);
    if n < 0 || 4_294_967_295 < n {
        4_294_967_295
    } else {
        n as u32
    }
}

fn sector_numbers(alloc: Global, list: &[Value]) -> Result<Vec<u32>, AllocError>
    ensures { IfOk result (λ made. made.items ≡ map (λ v. sector_number (number_of (view v))) list.now) }
{
    list.iter().map(|v| sector_number(v)).collect(alloc)
}

// The entry, and 0 where there is none.
#[tactic(auto, unfolding(qn_gauss::specs::Gaussian::zero_g))]
fn or_zero(entry: Option<Gauss>) -> Gauss
    ensures { result ≡ unwrap_or entry zero_g }
{
    match entry {
        Some(entry) => entry,
        None => Gauss::ZERO,
    }
}

// The first bad place, where this one is looked at after those before it.
fn noted(bad: Option<usize>, is_bad: bool, place: usize) -> Option<usize>
    ensures { result ≡ option_or bad (if is_bad then Some place else None) }
{
    match bad {
        Some(first) => Some(first),
        None => if is_bad { Some(place) } else { None },
    }
}

// The entries of a list, each 0 where F19 holds of it, and the place of the first such entry.
#[tactic(auto, using(crate::proofs::Noted::noted_on, crate::proofs::Noted::noted_within))]
fn entries(alloc: Global, list: &[Value]) -> Result<(Vec<Gauss>, Option<usize>), AllocError>
    ensures made { IfOk result (λ r. r.0.items ≡ map (λ v. entry_or_zero (view v)) list.now) }
    ensures bad { IfOk result (λ r. r.1 ≡ position_from (λ v. is_none (entry_of (view v))) 0 list.now) }
    ensures within { IfOk result (λ r. IfSome r.1 (λ i. i < length list.now)) }
{
    let mut made = Vec::with_capacity(alloc, list.len())?;
    let mut bad = None;
    for v in list {
        let found = entry(v);
        bad = noted(bad, found.is_none(), made.len());
        made.push(or_zero(found))?;
    }
    Ok((made, bad))
}

// F19 of the entry at this place of the block, where one is given.
fn at_entry(tensor: u32, part: u32, bad: Option<usize>) -> Option<Fault>
    requires { IfSome bad (λ i. i + 1 < 2 ^ 63) }
    ensures { result ≡ option_map (λ i. fault 19 tensor part (i + 1)) bad }
{
    match bad {
        Some(i) => Some(Fault::at_item(19, tensor, part, i)),
        None => None,
    }
}

// The block, each entry 0 where F19 holds of it, and its F19.
#[tactic(auto, using(qn_json::proofs::Lists::map_of_views, qn_json::proofs::Lists::views))]
fn block(
    alloc: Global,
    v: &Value,
    tensor: u32,
    part: u32,
) -> Result<(Block, Option<Fault>), AllocError>
    ensures made { IfOk result (λ r. r.0 ≡ block_of (view v.now)) }
    ensures fault { IfOk result (λ r. r.1 ≡ entry_fault tensor part (view v.now)) }
{
    let tuple = sector_numbers(alloc, first_items(v))?;
    let (entries, bad) = entries(alloc, second_items(v))?;
    let fault = at_entry(tensor, part, bad);
    let block = Block {
        tuple: Tuple::new(tuple),
        entries,
    };
    Ok((block, fault))
}

/// The blocks of a list, each entry 0 where F19 holds of it, and F19 over all blocks.
#[tactic(auto, using(crate::proofs::Noted::or_assoc))]
pub(crate) fn blocks(
    alloc: Global,
    list: &[Value],
    tensor: u32,
) -> Result<(Vec<Block>, Option<Fault>), AllocError>
    ensures made { IfOk result (λ r. r.0.items ≡ map block_of (map view list.now)) }
    ensures fault { IfOk result (λ r. r.1 ≡ first_of (entry_fault tensor) (map view list.now)) }
{
    let mut made = Vec::new(alloc);
    let mut fault = None;
    let mut before: u32 = 0;
    let mut rest = list;
    while let [v, tail @ ..] = rest {
        let Some(place) = before.checked_add(1) else {
            return Err(AllocError);
        };
        let (block, bad) = block(alloc, v, tensor, place)?;
        made.push(block)?;
        fault = fault.or(bad);
        before = place;
        rest = tail;
    }
    Ok((made, fault))
}

// The fault of this code at the block, counted from 0. No document has as many as 2^32 blocks.
fn at_block(code: u32, tensor: u32, block: usize, item: u32) -> DocFault
    ensures { Fails result (Some (fault code tensor (block + 1) item)) }
{
    let Some(place) = block.checked_add(1) else {
        return DocFault::Memory;
    };
    match u32::try_from(place) {
        Ok(part) => DocFault::Bad(Fault::at(code, tensor, part, item)),
        Err(_) => DocFault::Memory,
    }
}

// F15 of the block at this leg, both counted from 0.
fn at_leg(tensor: u32, block: usize, leg: usize) -> DocFault
    ensures { Fails result (Some (fault 15 tensor (block + 1) (leg + 1))) }
{
    let Some(place) = leg.checked_add(1) else {
        return DocFault::Memory;
    };
    match u32::try_from(place) {
        Ok(item) => at_block(15, tensor, block, item),
        Err(_) => DocFault::Memory,
    }
}

/// The place in the document of what keeps legs, a flux and blocks from being a tensor.
pub fn place(fault: BlockFault, tensor: u32) -> DocFault
    ensures { Fails result (placed tensor fault) }
{
    match fault {
        BlockFault::TooManyLegs => DocFault::Bad(Fault::at(8, tensor, 0, 0)),
        BlockFault::TooManyTuples => DocFault::Bad(Fault::at(13, tensor, 0, 0)),
        BlockFault::TooManyEntries => DocFault::Bad(Fault::at(14, tensor, 0, 0)),
        BlockFault::Arity { block } => at_block(15, tensor, block, 0),
        BlockFault::BlockRange { block, leg } => at_leg(tensor, block, leg),
        BlockFault::OffFlux { block } => at_block(16, tensor, block, 0),
        BlockFault::NotAscending { block } => at_block(17, tensor, block, 0),
        BlockFault::DataLen { block } => at_block(18, tensor, block, 0),
        BlockFault::Memory => DocFault::Memory,
    }
}

//! The trace of a tensor.

ghost use Rattle.std.specs.Prelude.{◌≡◌, ◌<◌, ◌∷◌, [], ℕ, List, None, length, IfOk, OnOk, IfErr};
ghost use Rattle.std.specs.List.{All};
ghost use Rattle.qn_index.specs.Legs.{IsLegOf};
ghost use Rattle.qn_index.specs.Tuples.{admitted};
ghost use Rattle.qn_index.specs.Extents.{IsWithinLimits};
ghost use Rattle.qn_value.specs.Tensors.{IsBlock, AreAscending, entry_in};
ghost use Rattle.qn_value.specs.Local.{no_leg, picked, open_legs, IsCoupling, Traced, trace_entry};
ghost use Rattle.qn_value.specs.Magnitudes.{first_passing, trace_magnitude};
ghost use Rattle.qn_block.specs.Blocked.{MeetFlux, tensor_of};
ghost use Rattle.qn_strides.specs.Strides.{open_places, goal_places};
ghost use Rattle.qn_trace.specs.Steps.{passing_place};
ghost use Rattle.qn_block.specs.Steps.{IsStepFault};

use crate::sources::{block_from, sources_of};
use qn_block::{Block, BlockTensor, StepFault};
use qn_index::{Leg, admissible, block_len};
use qn_strides::{goal_places, legs_at, open_places};
use std::alloc::Global;

/// The blocks of the result, one for each admissible tuple, or the first place at which the sum of magnitudes passes.
fn blocks_of<const K: usize>(
    alloc: Global,
    t: &BlockTensor<K>,
    couples: &[(usize, usize)],
    goal: &[usize],
    places: &[usize],
    left: &[Leg<K>],
) -> Result<Vec<Block>, StepFault>
    requires couples { IsCoupling t.now.legs couples.now }
    requires goal { goal.now ≡ goal_places t.now.legs couples.now }
    requires places { places.now ≡ open_places couples.now (length t.now.legs) }
    requires left { left.now ≡ picked no_leg t.now.legs places.now }
    requires charges { All (IsLegOf t.now.group) left.now }
    requires shape { IsWithinLimits t.now.group left.now t.now.flux }
    ensures blocks { IfOk result (λ bs. All (IsBlock t.now.group left.now t.now.flux) bs.items) }
    ensures ascending { IfOk result (λ bs. AreAscending bs.items) }
    ensures entries { IfOk result (λ bs.
        (xs : List ℕ) → MeetFlux t.now.group left.now t.now.flux xs →
        trace_entry (tensor_of t.now) couples.now xs ≡ entry_in left.now bs.items xs) }
    ensures clear { OnOk result (
        first_passing (trace_magnitude (tensor_of t.now) couples.now) left.now (
        admitted t.now.group left.now t.now.flux) ≡
        None) }
    ensures err { IfErr result (
        IsStepFault (
        first_passing (trace_magnitude (tensor_of t.now) couples.now) left.now (
        admitted t.now.group left.now t.now.flux))) }
{
    t.known();
    let tuples = admissible(alloc, t.group(), left, t.flux())?;
    let gathered = sources_of(
        alloc,
        t.group(),
        t.legs(),
        couples,
        goal,
        places,
        left,
        &tuples,
        t.blocks(),
    )?;
    let mut blocks = Vec::with_capacity(alloc, tuples.len())?;
    for number in 0..tuples.len() {
        let tuple = &tuples[number];
        let len = block_len(left, tuple.as_slice());
        blocks.push(block_from(alloc, gathered[number].as_slice(), tuple, len)?)?;
    }
    Ok(blocks)
}

/// The tensor with the couples of legs summed over; the other legs stay in their order. The couples are pairs of places
/// of legs that meet, and no leg stands in two of them. Entries are summed with the exchange sign of bringing the two
/// legs of each couple together.
///
/// Passed where a sum of magnitudes is above 2^127 - 1, at the first such place, whatever the sum itself is.
pub fn trace<const K: usize>(
    alloc: Global,
    t: &BlockTensor<K>,
    couples: &[(usize, usize)],
) -> Result<BlockTensor<K>, StepFault>
    requires { IsCoupling t.now.legs couples.now }
    ensures value { IfOk result (λ r. Traced (tensor_of t.now) couples.now (tensor_of r)) }
    ensures clear { OnOk result (passing_place t.now couples.now ≡ None) }
    ensures err { IfErr result (IsStepFault (passing_place t.now couples.now)) }
{
    t.known();
    let places = open_places(alloc, couples, t.legs().len())?;
    let goal = goal_places(alloc, t.legs(), couples, &places)?;
    let left = legs_at(alloc, t.legs(), &places)?;
    let blocks = blocks_of(alloc, t, couples, &goal, &places, &left)?;
    Ok(BlockTensor::of_blocks(*t.group(), left, *t.flux(), blocks))
}

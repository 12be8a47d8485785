//! Blocks whose entries are a rule's answers.
ghost use Rattle.std.specs.Prelude.{◌≡◌, ◌≤◌, ◌<◌, ◌+◌, ◌^◌, ℕ, List, length, slice_index_or, take, filter, true, All, IfOk};
ghost use Rattle.qn_gauss.specs.Gaussian.{zero_g};
ghost use Rattle.qn_index.specs.Legs.{IsLegOf};
ghost use Rattle.qn_index.specs.Tuples.{IsTuple, admitted};
ghost use Rattle.qn_index.specs.Places.{block_size, values_at, sectors_at};
ghost use Rattle.qn_index.specs.Extents.{size_of, IsWithinLimits};
ghost use Rattle.qn_value.specs.Tensors.{IsBlock, AreAscending, entry_in, entry_of};
ghost use Rattle.qn_block.specs.Blocked.{MeetFlux, tensor_of};
ghost use Rattle.qn_unmet.specs.Unmet.{is_met};
ghost use Rattle.qn_lazy.specs.Asked.{asked_of};

use crate::meeting::met_tuples;
use crate::written::write_values;
use qn_block::{Block, BlockTensor};
use qn_charge::Group;
use qn_gauss::{Gauss, Steps};
use qn_index::{Tuple, block_len, copy_legs};
use qn_rule::{CountedRule, EntryFunction};
use std::alloc::{AllocError, Global};
use std::sync::ledger::Ledger;

/// The rule's answer at a place of the tuple's block, which has `size` entries. The values there are written to `values`.
fn ask_at<const K: usize, F: EntryFunction, M: Ledger>(
    rule: &CountedRule<K, F>,
    tuple: &[u32],
    size: u64,
    place: u64,
    values: &mut [u32],
    asks: &mut Steps<M>,
) -> Gauss
    requires tuple { IsTuple rule.now.legs tuple.now }
    requires size { size ≡ block_size rule.now.legs tuple.now }
    requires below { place < size }
    requires long { length values.old ≡ length rule.now.legs }
    ensures answer { F.answers rule.now.function (values_at rule.now.legs tuple.now place) result }
    ensures long { length values.new ≡ length rule.now.legs }
    ensures asks { asks.new ≡ asks.old + 1 }
{
    write_values(rule.legs(), tuple, size, place, values);
    rule.ask(values, asks)
}

/// The block whose entries are the rule's answers. It is asked once for each.
fn asked_block<const K: usize, F: EntryFunction, M: Ledger>(
    alloc: Global,
    rule: &CountedRule<K, F>,
    tuple: &Tuple,
    asks: &mut Steps<M>,
) -> Result<Block, AllocError>
    requires tuple { IsTuple rule.now.legs tuple.now }
    requires small { block_size rule.now.legs tuple.now ≤ 2 ^ 22 }
    ensures tuple { IfOk result (λ b. b.tuple ≡ tuple.now) }
    ensures full { IfOk result (λ b. length b.entries ≡ block_size rule.now.legs tuple.now) }
    ensures answers { IfOk result (λ b. (o : ℕ) → o < block_size rule.now.legs tuple.now → F.answers rule.now.function (values_at rule.now.legs tuple.now o) (slice_index_or b.entries o zero_g)) }
    ensures asks { asks.new ≤ asks.old + block_size rule.now.legs tuple.now }
{
    let size = block_len(rule.legs(), tuple.as_slice());
    let mut entries = Vec::with_capacity(alloc, size as usize)?;
    let mut values = vec![in alloc; 0u32; rule.legs().len()]?;
    for place in 0..size {
        let entry = ask_at(rule, tuple.as_slice(), size, place, &mut values, asks);
        entries.push(entry)?;
    }
    Ok(Block {
        tuple: tuple.copy()?,
        entries,
    })
}

/// The blocks of these tuples, whose entries are the rule's answers.
fn asked_blocks<const K: usize, F: EntryFunction, M: Ledger>(
    alloc: Global,
    rule: &CountedRule<K, F>,
    shared: &[(usize, usize)],
    others: &[Block],
    tuples: &[Tuple],
    asks: &mut Steps<M>,
) -> Result<Vec<Block>, AllocError>
    requires shape { IsWithinLimits rule.now.group rule.now.legs rule.now.flux }
    requires tuples { tuples.now ≡ filter (is_met shared.now others.now) (admitted rule.now.group rule.now.legs rule.now.flux) }
    ensures blocks { IfOk result (λ bs. All (IsBlock rule.now.group rule.now.legs rule.now.flux) bs.items) }
    ensures ascending { IfOk result (λ bs. AreAscending bs.items) }
    ensures answers { IfOk result (λ bs. (xs : List ℕ) → MeetFlux rule.now.group rule.now.legs rule.now.flux xs → is_met shared.now others.now (sectors_at rule.now.legs xs) ≡ true → F.answers rule.now.function xs (entry_in rule.now.legs bs.items xs)) }
    ensures asks { asks.new ≤ asks.old + size_of rule.now.legs tuples.now }
{
    let mut blocks = Vec::with_capacity(alloc, tuples.len())?;
    for tuple in tuples {
        blocks.push(asked_block(alloc, rule, tuple, asks)?)?;
    }
    Ok(blocks)
}

/// The rule's tensor without the blocks that agree with none of the others on the shared legs.
pub(crate) fn asked_part<const K: usize, F: EntryFunction, M: Ledger>(
    alloc: Global,
    group: &Group<K>,
    rule: &CountedRule<K, F>,
    shared: &[(usize, usize)],
    others: &[Block],
    asks: &mut Steps<M>,
) -> Result<BlockTensor<K>, AllocError>
    requires group { group.now ≡ rule.now.group }
    requires shape { IsWithinLimits rule.now.group rule.now.legs rule.now.flux }
    requires first { All (λ p. p.0 < length rule.now.legs) shared.now }
    requires second { All (λ b. All (λ p. p.1 < length b.tuple) shared.now) others.now }
    ensures group { IfOk result (λ t. t.group ≡ rule.now.group) }
    ensures legs { IfOk result (λ t. t.legs ≡ rule.now.legs) }
    ensures flux { IfOk result (λ t. t.flux ≡ rule.now.flux) }
    ensures answers { IfOk result (λ t. (xs : List ℕ) → MeetFlux t.group t.legs t.flux xs → is_met shared.now others.now (sectors_at t.legs xs) ≡ true → F.answers rule.now.function xs (entry_of (tensor_of t) xs)) }
    ensures asks { asks.new ≤ asks.old + asked_of rule.now.group rule.now.legs rule.now.flux shared.now others.now }
{
    rule.known();
    let tuples = met_tuples(alloc, group, rule.legs(), rule.flux(), shared, others)?;
    let blocks = asked_blocks(alloc, rule, shared, others, &tuples, asks)?;
    let legs = copy_legs(alloc, rule.legs())?;
    Ok(BlockTensor::of_blocks(*group, legs, *rule.flux(), blocks))
}

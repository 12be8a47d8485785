//! The blocks that count for a block of the result.

ghost use Rattle.std.specs.Prelude.{◌≡◌, ◌<◌, ◌≤◌, ◌^◌, ◌++◌, ◌∷◌, [], ℕ, length, map, set, slice_index_or, IfOk, OnOk, IfErr};
ghost use Rattle.std.specs.List.{All, AllPairs};
ghost use Rattle.qn_sign.specs.Positions.{positions};
ghost use Rattle.qn_gauss.specs.Gaussian.{limit};
ghost use Rattle.qn_index.specs.Tuples.{IsTuple};
ghost use Rattle.qn_index.specs.Places.{block_size};
ghost use Rattle.qn_value.specs.Local.{IsCoupling};
ghost use Rattle.qn_strides.specs.Strides.{open_places, goal_places};
ghost use Rattle.qn_trace.specs.Sources.{source_of, sources, HasBlock, IsBelow, IsReadable, IsSource, entry_sum, size_sum, IsPassing};

use crate::numbers::number_of;
use crate::sum::{Source, entry_of};
use qn_block::{Block, StepFault};
use qn_charge::Group;
use qn_index::{Leg, Tuple};
use qn_strides::{is_minus, kept_of, strides_of, summed_of};
use std::alloc::{AllocError, Global};
use std::marker::Model;

/// The blocks that count for one block of the result.
#[derive(Drop)]
pub(crate) struct Sources<'a> {
    list: Vec<Source<'a>>,
}

impl<'a> Model for Sources<'a> {
    ghost use Rattle.std.specs.Prelude.{List};
    ghost use Rattle.qn_trace.specs.Sources.{SourceValue};

    ghost Value = { List SourceValue };

    ghost view = { λ x. x.list.items };
}

impl<'a> Sources<'a> {
    /// The blocks.
    pub(crate) fn as_slice(&self) -> &[Source<'a>]
        ensures { result.now ≡ self.now }
    {
        &self.list
    }
}

/// A block that counts for the result's block at these sectors.
fn source_of<'a, const K: usize>(
    alloc: Global,
    group: &Group<K>,
    legs: &[Leg<K>],
    couples: &[(usize, usize)],
    goal: &[usize],
    places: &[usize],
    left: &[Leg<K>],
    sectors: &[u32],
    block: &'a Block,
) -> Result<Source<'a>, AllocError>
    requires few { length legs.now ≤ 64 }
    requires couples { IsCoupling legs.now couples.now }
    requires goal { goal.now ≡ goal_places legs.now couples.now }
    requires places { places.now ≡ open_places couples.now (length legs.now) }
    requires left { length left.now ≡ length places.now }
    requires sectors { IsTuple left.now sectors.now }
    requires size { block_size left.now sectors.now ≤ 2 ^ 22 }
    requires block { IsReadable legs.now block.now }
    ensures value { IfOk result (λ x. x ≡ source_of group.now legs.now couples.now left.now sectors.now block.now) }
    ensures small { IfOk result IsSource }
{
    let tuple = block.tuple();
    let steps = strides_of(alloc, legs, tuple)?;
    let summed = summed_of(alloc, legs, tuple, &steps, couples)?;
    let kept = kept_of(alloc, &steps, left, sectors, places)?;
    let minus = is_minus(alloc, group, legs, tuple, goal)?;
    Ok(Source {
        entries: block.entries(),
        minus,
        kept,
        summed,
    })
}

/// No blocks, for each of so many blocks of the result.
fn no_sources<'a>(alloc: Global, count: usize) -> Result<Vec<Sources<'a>>, AllocError>
    ensures long { IfOk result (λ v. length v.items ≡ count) }
    ensures empty { IfOk result (λ v. (k : ℕ) → slice_index_or v.items k [] ≡ []) }
{
    let mut gathered = Vec::with_capacity(alloc, count)?;
    for _ in 0..count {
        gathered.push(Sources {
            list: Vec::new(alloc),
        })?;
    }
    Ok(gathered)
}

/// One block more for the result's block of this number.
fn add_source<'a>(
    gathered: &mut Vec<Sources<'a>>,
    number: usize,
    source: Source<'a>,
) -> Result<(), AllocError>
    requires { number < length gathered.old.items }
    ensures { OnOk result (
        gathered.new.items ≡
        set gathered.old.items number (slice_index_or gathered.old.items number [] ++ source.entry ∷ [])) }
{
    gathered[number].list.push(source)?;
    Ok(())
}

/// For each tuple of the result the blocks that count for its block. Each block is gone through once.
pub(crate) fn sources_of<'a, const K: usize>(
    alloc: Global,
    group: &Group<K>,
    legs: &[Leg<K>],
    couples: &[(usize, usize)],
    goal: &[usize],
    places: &[usize],
    left: &[Leg<K>],
    tuples: &[Tuple],
    blocks: &'a [Block],
) -> Result<Vec<Sources<'a>>, AllocError>
    requires few { length legs.now ≤ 64 }
    requires couples { IsCoupling legs.now couples.now }
    requires goal { goal.now ≡ goal_places legs.now couples.now }
    requires places { places.now ≡ open_places couples.now (length legs.now) }
    requires left { length left.now ≡ length places.now }
    requires tuples { All (HasBlock left.now) tuples.now }
    requires ascending { AllPairs IsBelow tuples.now }
    requires blocks { All (IsReadable legs.now) blocks.now }
    ensures long { IfOk result (λ v. length v.items ≡ length tuples.now) }
    ensures each { IfOk result (λ v.
        (k : ℕ) → k < length tuples.now →
        slice_index_or v.items k [] ≡
        sources group.now legs.now couples.now left.now (slice_index_or tuples.now k []) blocks.now) }
    ensures small { IfOk result (λ v. (k : ℕ) → k < length tuples.now → All IsSource (slice_index_or v.items k [])) }
{
    let mut gathered = no_sources(alloc, tuples.len())?;
    for block in blocks {
        match number_of(alloc, couples, places, tuples, block)? {
            None => {}
            Some(number) => {
                let sectors = tuples[number].as_slice();
                let source = source_of(
                    alloc, group, legs, couples, goal, places, left, sectors, block,
                )?;
                add_source(&mut gathered, number, source)?;
            }
        }
    }
    Ok(gathered)
}

/// The block of the result at a tuple, or its first entry whose sum of magnitudes is above 2^127 - 1.
pub(crate) fn block_from(
    alloc: Global,
    sources: &[Source<'_>],
    tuple: &Tuple,
    len: u64,
) -> Result<Block, StepFault>
    requires sources { All IsSource sources.now }
    requires len { len ≤ 2 ^ 22 }
    ensures block { IfOk result (λ b. b ≡ record { tuple = tuple.now; entries = map (entry_sum sources.now) (positions len) }) }
    ensures clear { OnOk result ((o : ℕ) → o < len → size_sum sources.now o ≤ limit) }
    ensures err { IfErr result (IsPassing sources.now tuple.now len) }
{
    let mut entries = Vec::new(alloc);
    for place in 0..len {
        match entry_of(sources, place) {
            Some(entry) => entries.push(entry)?,
            None => {
                return Err(StepFault::Passed {
                    at: tuple.copy()?,
                    offset: place,
                });
            }
        }
    }
    Ok(Block {
        tuple: tuple.copy()?,
        entries,
    })
}

//! The blocks that are multiplied for a block of the result.

ghost use Rattle.std.specs.Prelude.{◌≡◌, ◌==◌, ◌<◌, ◌≤◌, ◌+◌, ◌*◌, ◌^◌, ◌++◌, ℕ, length, map, take, drop, slice_index_or, MatchOption, IfOk, IfErr, OnOk};
ghost use Rattle.std.specs.List.{All};
ghost use Rattle.qn_sign.specs.Positions.{positions, is_odd_at};
ghost use Rattle.qn_sign.specs.Sign.{exchange_sign, xor};
ghost use Rattle.qn_gauss.specs.Gaussian.{limit};
ghost use Rattle.qn_index.specs.Tuples.{IsTuple};
ghost use Rattle.qn_index.specs.Places.{block_size};
ghost use Rattle.qn_strides.specs.Strides.{sector_parities};
ghost use Rattle.qn_kernel.specs.Sources.{IsFrame, IsReadable, IsSource, AreSources, IsPassing, IsFirstAbove, source_of, sources, entry_sum, size_sum, products};
ghost use Rattle.qn_kernel.specs.Laid.{IsProductOf, AreProductsOf};

use crate::layout::{matrix_of, shared_of, starts_of};
use crate::paired::{Paired, after_zeros, paired_of};
use crate::product::{Product, entries_from, first_passing};
use qn_block::{Block, StepFault};
use qn_charge::Group;
use qn_gauss::{Gauss, Steps};
use qn_index::{Leg, Tuple, block_len, known_all};
use qn_strides::{Kept, is_minus, kept_of, strides_of};
use std::alloc::{AllocError, Global};
use std::marker::Model;
use std::sync::ledger::Ledger;

/// Two blocks that are multiplied for a block of the result: their entries, the sign, how they are gone through, and into how
/// many rows and columns the result's entries are divided by the legs of the first and of the second.
#[derive(Drop)]
pub struct Source<'a> {
    firsts: &'a [Gauss],
    seconds: &'a [Gauss],
    minus: bool,
    first_kept: Vec<Kept>,
    second_kept: Vec<Kept>,
    paired: Vec<Paired>,
    rows: u64,
    cols: u64,
}

impl<'a> Model for Source<'a> {
    ghost use Rattle.qn_kernel.specs.Sources.{SourceValue};

    ghost Value = { SourceValue };

    ghost view = { λ x. record { firsts = x.firsts.now; seconds = x.seconds.now; minus = x.minus; first_kept = x.first_kept.items; second_kept = x.second_kept.items; paired = x.paired.items; rows = x.rows; cols = x.cols } };
}

impl<'a> Source<'a> {
    fn firsts(&self) -> &[Gauss]
        ensures { result.now ≡ self.now.firsts }
    {
        self.firsts
    }

    fn seconds(&self) -> &[Gauss]
        ensures { result.now ≡ self.now.seconds }
    {
        self.seconds
    }

    fn is_minus(&self) -> bool
        ensures { result ≡ self.now.minus }
    {
        self.minus
    }

    fn first_kept(&self) -> &[Kept]
        ensures { result.now ≡ self.now.first_kept }
    {
        &self.first_kept
    }

    fn second_kept(&self) -> &[Kept]
        ensures { result.now ≡ self.now.second_kept }
    {
        &self.second_kept
    }

    fn paired(&self) -> &[Paired]
        ensures { result.now ≡ self.now.paired }
    {
        &self.paired
    }

    fn rows(&self) -> u64
        ensures { result ≡ self.now.rows }
    {
        self.rows
    }

    fn cols(&self) -> u64
        ensures { result ≡ self.now.cols }
    {
        self.cols
    }

    /// The two blocks as matrices.
    fn product(&self, alloc: Global) -> Result<Product, AllocError>
        requires source { IsSource self.now.rows self.now.cols self.now }
        requires small { self.now.rows * self.now.cols ≤ 2 ^ 22 }
        ensures { IfOk result (IsProductOf self.now) }
    {
        let rows = starts_of(alloc, self.first_kept(), self.rows(), self.cols())?;
        let cols = starts_of(alloc, self.second_kept(), self.cols(), 1)?;
        let firsts = shared_of(alloc, self.paired(), false)?;
        let seconds = shared_of(alloc, self.paired(), true)?;
        let first = matrix_of(alloc, self.firsts(), &rows, &firsts)?;
        let second = matrix_of(alloc, self.seconds(), &seconds, &cols)?;
        let minus = self.is_minus();
        Ok(Product {
            first,
            second,
            minus,
        })
    }
}

/// The product of two signs.
fn both(first: bool, second: bool) -> bool
    ensures { result ≡ xor first second }
{
    if first { !second } else { second }
}

/// Two tuples, one after the other.
fn joined(alloc: Global, first: &[u32], second: &[u32]) -> Result<Vec<u32>, AllocError>
    ensures { IfOk result (λ v. v.items ≡ first.now ++ second.now) }
{
    let mut tuple = Vec::with_capacity(alloc, first.len())?;
    tuple.extend_from_slice(first)?;
    tuple.extend_from_slice(second)?;
    Ok(tuple)
}

/// The sign of two blocks whose legs are brought into the order of the goal, turned where `turned` holds.
fn sign_of<const K: usize>(
    alloc: Global,
    group: &Group<K>,
    word: &[Leg<K>],
    goal: &[usize],
    turned: bool,
    first: &[u32],
    second: &[u32],
) -> Result<bool, AllocError>
    requires tuple { IsTuple word.now (first.now ++ second.now) }
    requires goal { All (λ k. k < length word.now) goal.now }
    ensures { IfOk result (λ m. m ≡ xor turned (exchange_sign ◌==◌ (is_odd_at (sector_parities group.now word.now (first.now ++ second.now))) (positions (length word.now)) goal.now)) }
{
    let tuple = joined(alloc, first, second)?;
    let minus = is_minus(alloc, group, word, &tuple, goal)?;
    Ok(both(turned, minus))
}

/// How many places at the front are below `count`.
fn leading(places: &[usize], count: usize) -> usize
    ensures within { result ≤ length places.now }
    ensures below { (k : ℕ) → k < result → slice_index_or places.now k 0 < count }
    ensures next { result < length places.now → count ≤ slice_index_or places.now result 0 }
{
    for (i, place) in places.iter().enumerate() {
        if *place >= count {
            return i;
        }
    }
    places.len()
}

/// How many entries a block has by its first legs, and how many by the others.
fn parts_of<const K: usize>(legs: &[Leg<K>], sectors: &[u32], split: usize) -> (u64, u64)
    requires sectors { IsTuple legs.now sectors.now }
    requires size { block_size legs.now sectors.now ≤ 2 ^ 22 }
    requires within { split ≤ length legs.now }
    requires within_sectors { split ≤ length sectors.now }
    ensures rows { result.0 ≡ block_size (take split legs.now) (take split sectors.now) }
    ensures cols { result.1 ≡ block_size (drop split legs.now) (drop split sectors.now) }
    ensures whole { result.0 * result.1 ≡ block_size legs.now sectors.now }
    ensures few_rows { result.0 ≤ 2 ^ 22 }
    ensures few_cols { result.1 ≤ 2 ^ 22 }
{
    known_all(legs);
    (
        block_len(&legs[..split], &sectors[..split]),
        block_len(&legs[split..], &sectors[split..]),
    )
}

/// Two blocks that are multiplied for the result's block at these sectors.
fn source_of<'a, const K: usize>(
    alloc: Global,
    group: &Group<K>,
    firsts: &[Leg<K>],
    seconds: &[Leg<K>],
    shared: &[(usize, usize)],
    word: &[Leg<K>],
    goal: &[usize],
    places: &[usize],
    left: &[Leg<K>],
    turned: bool,
    sectors: &[u32],
    x: &'a Block,
    y: &'a Block,
) -> Result<Source<'a>, AllocError>
    requires frame { IsFrame firsts.now seconds.now shared.now word.now goal.now places.now left.now }
    requires sectors { IsTuple left.now sectors.now }
    requires size { block_size left.now sectors.now ≤ 2 ^ 22 }
    requires first { IsReadable firsts.now x.now }
    requires second { IsReadable seconds.now y.now }
    ensures value { IfOk result (λ s. s ≡ source_of group.now firsts.now seconds.now shared.now turned left.now sectors.now x.now y.now) }
    ensures size { IfOk result (λ s. s.rows * s.cols ≡ block_size left.now sectors.now) }
    ensures small { IfOk result (λ s. IsSource s.rows s.cols s) }
{
    let first_steps = strides_of(alloc, firsts, x.tuple())?;
    let second_steps = strides_of(alloc, seconds, y.tuple())?;
    let shifted = after_zeros(alloc, firsts.len(), &second_steps)?;
    let minus = sign_of(alloc, group, word, goal, turned, x.tuple(), y.tuple())?;
    let first_kept = kept_of(alloc, &first_steps, left, sectors, places)?;
    let second_kept = kept_of(alloc, &shifted, left, sectors, places)?;
    let (rows, cols) = parts_of(left, sectors, leading(places, firsts.len()));
    let paired = paired_of(
        alloc,
        firsts,
        x.tuple(),
        &first_steps,
        &second_steps,
        shared,
    )?;
    Ok(Source {
        firsts: x.entries(),
        seconds: y.entries(),
        minus,
        first_kept,
        second_kept,
        paired,
        rows,
        cols,
    })
}

/// The pairs of blocks that are multiplied for the result's block at these sectors.
pub fn sources_of<'a, const K: usize>(
    alloc: Global,
    group: &Group<K>,
    firsts: &[Leg<K>],
    seconds: &[Leg<K>],
    shared: &[(usize, usize)],
    word: &[Leg<K>],
    goal: &[usize],
    places: &[usize],
    left: &[Leg<K>],
    turned: bool,
    sectors: &[u32],
    xs: &'a [Block],
    ys: &'a [Block],
    pairs: &[(usize, usize)],
) -> Result<Vec<Source<'a>>, AllocError>
    requires frame { IsFrame firsts.now seconds.now shared.now word.now goal.now places.now left.now }
    requires sectors { IsTuple left.now sectors.now }
    requires size { block_size left.now sectors.now ≤ 2 ^ 22 }
    requires first { All (IsReadable firsts.now) xs.now }
    requires second { All (IsReadable seconds.now) ys.now }
    requires first_there { All (λ p. p.0 < length xs.now) pairs.now }
    requires second_there { All (λ p. p.1 < length ys.now) pairs.now }
    ensures value { IfOk result (λ v. v.items ≡ sources group.now firsts.now seconds.now shared.now turned left.now sectors.now xs.now ys.now pairs.now) }
    ensures small { IfOk result (λ v. AreSources (block_size left.now sectors.now) v.items) }
{
    let mut sources = Vec::with_capacity(alloc, pairs.len())?;
    for pair in pairs {
        let source = source_of(
            alloc,
            group,
            firsts,
            seconds,
            shared,
            word,
            goal,
            places,
            left,
            turned,
            sectors,
            &xs[pair.0],
            &ys[pair.1],
        )?;
        sources.push(source)?;
    }
    Ok(sources)
}

/// The pairs of blocks as matrices.
fn products_of(alloc: Global, sources: &[Source<'_>], len: u64) -> Result<Vec<Product>, AllocError>
    requires sources { AreSources len sources.now }
    requires small { len ≤ 2 ^ 22 }
    ensures { IfOk result (λ v. AreProductsOf sources.now v.items) }
{
    let mut products = Vec::with_capacity(alloc, sources.len())?;
    for source in sources {
        products.push(source.product(alloc)?)?;
    }
    Ok(products)
}

/// The block of the result at a tuple, or its first entry whose sum of magnitudes is above 2^127 - 1.
pub fn block_from<L: Ledger>(
    alloc: Global,
    sources: &[Source<'_>],
    tuple: &Tuple,
    len: u64,
    steps: &mut Steps<L>,
) -> Result<Block, StepFault>
    requires sources { AreSources len sources.now }
    requires len { len ≤ 2 ^ 22 }
    ensures block { IfOk result (λ b. b ≡ record { tuple = tuple.now; entries = map (entry_sum sources.now) (positions len) }) }
    ensures clear { OnOk result ((o : ℕ) → o < len → size_sum sources.now o ≤ limit) }
    ensures err { IfErr result (IsPassing sources.now tuple.now len) }
    ensures steps { steps.new ≤ steps.old + len * products sources.now }
{
    let products = products_of(alloc, sources, len)?;
    let entries = match entries_from(alloc, &products, tuple, len, steps) {
        Ok(entries) => entries,
        Err(fault) => return Err(fault),
    };
    Ok(Block {
        tuple: tuple.copy()?,
        entries,
    })
}

/// The first entry of the result's block whose sum of magnitudes is above 2^127 - 1. It multiplies no entries.
pub fn first_above(
    alloc: Global,
    sources: &[Source<'_>],
    len: u64,
) -> Result<Option<u64>, AllocError>
    requires sources { AreSources len sources.now }
    requires len { len ≤ 2 ^ 22 }
    ensures { IfOk result (λ p. MatchOption p ((o : ℕ) → o < len → size_sum sources.now o ≤ limit) (IsFirstAbove sources.now len)) }
{
    let products = products_of(alloc, sources, len)?;
    Ok(first_passing(&products, len))
}

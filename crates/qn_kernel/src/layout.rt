//! Pairs of blocks laid out as matrices.

ghost use Rattle.std.specs.Prelude.{◌≡◌, ◌≤◌, ◌<◌, ◌+◌, ◌*◌, ◌^◌, ◌++◌, ℕ, map, length, unsigned_abs, slice_index_or, IfOk, IfSome, OnOk};
ghost use Rattle.std.specs.List.{All};
ghost use Rattle.qn_kernel.specs.Matrices.{number_at, laid_row, laid_out};
ghost use Rattle.qn_kernel.specs.Numbers.{small_value};
ghost use Rattle.qn_kernel.specs.Cells.{AreWithin};
ghost use Rattle.qn_kernel.specs.Sources.{shared_places, stride_in, IsPaired};
ghost use Rattle.qn_strides.specs.Strides.{start_of, IsKept};

use crate::matrix::{Cells, Matrix};
use crate::number::Small;
use crate::paired::Paired;
use qn_gauss::Gauss;
use qn_strides::{Kept, entry_at, place_at, start_of};
use std::alloc::{AllocError, Global};

/// Appends the entries that stand so far behind a place.
fn append_row(
    entries: &[Gauss],
    start: u64,
    places: &[u64],
    out: &mut Vec<Gauss>,
) -> Result<(), AllocError>
    requires start { start ≤ 2 ^ 60 }
    requires places { All (λ p. p ≤ 2 ^ 60) places.now }
    ensures { OnOk result (out.new.items ≡ out.old.items ++ laid_row entries.now places.now start) }
{
    for place in places {
        out.push(entry_at(entries, start + *place))?;
    }
    Ok(())
}

/// The entries in the order of rows and columns.
fn laid_out(
    alloc: Global,
    entries: &[Gauss],
    rows: &[u64],
    cols: &[u64],
) -> Result<Vec<Gauss>, AllocError>
    requires rows { All (λ p. p ≤ 2 ^ 60) rows.now }
    requires cols { All (λ p. p ≤ 2 ^ 60) cols.now }
    ensures { IfOk result (λ v. v.items ≡ laid_out entries.now rows.now cols.now) }
{
    let mut out = Vec::with_capacity(alloc, entries.len())?;
    for row in rows {
        append_row(entries, *row, cols, &mut out)?;
    }
    Ok(out)
}

/// The greatest magnitude.
fn greatest_of(cells: &[Gauss]) -> u128
    ensures { AreWithin result cells.now }
{
    let mut greatest: u128 = 0;
    for cell in cells {
        greatest = greatest.max(cell.mag());
    }
    greatest
}

/// The number in 64 bits, where it has at most 63.
fn narrow(part: i128) -> Option<i64>
    ensures value { IfSome result (λ x. x ≡ part) }
    ensures small { IfSome result (λ x. unsigned_abs x < 2 ^ 63) }
{
    if part.unsigned_abs() < 9223372036854775808 {
        Some(part as i64)
    } else {
        None
    }
}

/// The number in two parts of 64 bits, where they have at most 63.
fn small_of(cell: Gauss) -> Option<Small>
    ensures { IfSome result (λ s. small_value s ≡ cell) }
{
    match narrow(cell.re()) {
        None => None,
        Some(re) => match narrow(cell.im()) {
            None => None,
            Some(im) => Some(Small { re, im }),
        },
    }
}

/// The numbers in parts of 64 bits, where all have at most 63.
fn narrowed(alloc: Global, cells: &[Gauss]) -> Result<Option<Vec<Small>>, AllocError>
    ensures { IfOk result (λ o. IfSome o (λ v. map small_value v.items ≡ cells.now)) }
{
    let mut all = Vec::with_capacity(alloc, cells.len())?;
    for cell in cells {
        match small_of(*cell) {
            None => return Ok(None),
            Some(small) => all.push(small)?,
        }
    }
    Ok(Some(all))
}

/// The matrix whose entry in a row and a column stands where their two places add up to.
pub(crate) fn matrix_of(
    alloc: Global,
    entries: &[Gauss],
    rows: &[u64],
    cols: &[u64],
) -> Result<Matrix, AllocError>
    requires rows { All (λ p. p ≤ 2 ^ 60) rows.now }
    requires cols { All (λ p. p ≤ 2 ^ 60) cols.now }
    ensures rows { IfOk result (λ m. m.rows ≡ length rows.now) }
    ensures cols { IfOk result (λ m. m.cols ≡ length cols.now) }
    ensures cells { IfOk result (λ m. m.cells ≡ laid_out entries.now rows.now cols.now) }
    ensures few { IfOk result (λ m. length m.cells < 2 ^ 64) }
{
    let wide = laid_out(alloc, entries, rows, cols)?;
    let greatest = greatest_of(&wide);
    match narrowed(alloc, &wide)? {
        None => Ok(Matrix::new(rows.len(), cols.len(), greatest, Cells::Wide(wide))),
        Some(cells) => Ok(Matrix::new(rows.len(), cols.len(), greatest, Cells::Narrow(cells))),
    }
}

/// How far apart the entries of neighbouring values stand, in the first block or in the second.
fn stride_in(axis: Paired, second: bool) -> u64
    ensures { result ≡ stride_in second axis }
{
    if second { axis.second } else { axis.first }
}

/// Appends the places of a block's entries at all values of the shared pairs, from a place on.
fn append_shared(
    axes: &[Paired],
    second: bool,
    at: u64,
    out: &mut Vec<u64>,
) -> Result<(), AllocError>
    requires axes { All IsPaired axes.now }
    requires room { at + length axes.now * 2 ^ 40 ≤ 2 ^ 60 }
    ensures { OnOk result (out.new.items ≡ out.old.items ++ shared_places (stride_in second) axes.now at) }
{
    match axes.split_first() {
        None => out.push(at)?,
        Some((axis, rest)) => {
            let stride = stride_in(*axis, second);
            for value in 0..axis.len {
                append_shared(rest, second, place_at(at, value, stride), out)?;
            }
        }
    }
    Ok(())
}

/// The places of a block's entries at all values of the shared pairs.
#[tactic(auto, using(crate::proofs::Layouts::shared_small))]
pub(crate) fn shared_of(
    alloc: Global,
    axes: &[Paired],
    second: bool,
) -> Result<Vec<u64>, AllocError>
    requires axes { All IsPaired axes.now }
    requires few { length axes.now ≤ 64 }
    ensures value { IfOk result (λ v. v.items ≡ shared_places (stride_in second) axes.now 0) }
    ensures small { IfOk result (λ v. All (λ p. p ≤ 2 ^ 60) v.items) }
{
    let mut places = Vec::new(alloc);
    append_shared(axes, second, 0, &mut places)?;
    Ok(places)
}

/// Where every `by`-th entry of a result's block begins.
pub(crate) fn starts_of(
    alloc: Global,
    kept: &[Kept],
    count: u64,
    by: u64,
) -> Result<Vec<u64>, AllocError>
    requires kept { All IsKept kept.now }
    requires few { length kept.now ≤ 64 }
    requires small { count * by ≤ 2 ^ 22 }
    requires few_by { by ≤ 2 ^ 22 }
    ensures count { IfOk result (λ v. length v.items ≡ count) }
    ensures places { IfOk result (λ v. (i : ℕ) → i < count → slice_index_or v.items i 0 ≡ start_of kept.now (i * by)) }
    ensures small { IfOk result (λ v. All (λ p. p ≤ 2 ^ 60) v.items) }
{
    let mut starts = Vec::with_capacity(alloc, count as usize)?;
    for i in 0..count {
        starts.push(start_of(kept, i * by))?;
    }
    Ok(starts)
}

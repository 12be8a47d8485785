//! Rows of entries that move whole.
ghost use Rattle.std.specs.Prelude.{◌≡◌, ◌≤◌, ◌<◌, ◌⊎◌, ◌+◌, ◌*◌, ◌^◌, ◌++◌, [], length, flat_map, map, IfOk, OnOk};
ghost use Rattle.std.specs.List.{All};
ghost use Rattle.qn_index.specs.Tuples.{upward};
ghost use Rattle.qn_fuse.specs.Pieces.{piece, row, IsSource};

use qn_gauss::Gauss;
use qn_strides::zero;
use std::alloc::{AllocError, Global};
use std::marker::Model;

/// A block whose rows of this length go into a fused block. It has no entries where there is no block.
#[derive(Drop)]
pub(crate) struct Source<'a> {
    pub entries: &'a [Gauss],
    pub len: usize,
}

impl<'a> Model for Source<'a> {
    ghost use Rattle.qn_fuse.specs.Pieces.{SourceValue};

    ghost Value = { SourceValue };

    ghost view = { λ x. record { entries = x.entries.now; len = x.len } };
}

/// Adds zeros.
fn append_zeros(count: usize, out: &mut Vec<Gauss>) -> Result<(), AllocError>
    ensures { OnOk result (out.new.items ≡ out.old.items ++ piece [] 0 count) }
{
    for _ in 0..count {
        out.push(zero())?;
    }
    Ok(())
}

/// Adds so many entries from a place on, which are 0 where there is no block.
pub(crate) fn append_piece(
    entries: &[Gauss],
    start: usize,
    len: usize,
    out: &mut Vec<Gauss>,
) -> Result<(), AllocError>
    requires within { (entries.now ≡ []) ⊎ (start + len ≤ length entries.now) }
    ensures { OnOk result (out.new.items ≡ out.old.items ++ piece entries.now start len) }
{
    if entries.is_empty() {
        append_zeros(len, out)
    } else {
        Ok(out.extend_from_slice(&entries[start..start + len])?)
    }
}

/// Adds the row of this number of a block.
fn append_source(source: &Source, number: usize, out: &mut Vec<Gauss>) -> Result<(), AllocError>
    requires small { number * source.now.len + source.now.len ≤ 2 ^ 22 }
    requires within { (source.now.entries ≡ [])
        ⊎ (number * source.now.len + source.now.len ≤ length source.now.entries) }
    ensures { OnOk result (out.new.items ≡ out.old.items ++
        piece source.now.entries (number * source.now.len) source.now.len) }
{
    append_piece(source.entries, number * source.len, source.len, out)
}

/// Adds the rows of this number of all blocks.
fn append_row(
    sources: &[Source],
    rows: usize,
    number: usize,
    out: &mut Vec<Gauss>,
) -> Result<(), AllocError>
    requires sources { All (IsSource rows) sources.now }
    requires below { number < rows }
    ensures { OnOk result (out.new.items ≡ out.old.items ++ row sources.now number) }
{
    for source in sources {
        append_source(source, number, out)?;
    }
    Ok(())
}

/// The rows of all blocks: the first of each, the second of each, and so on.
pub(crate) fn joined_rows(
    alloc: Global,
    sources: &[Source],
    rows: usize,
) -> Result<Vec<Gauss>, AllocError>
    requires sources { All (IsSource rows) sources.now }
    ensures { IfOk result (λ v. v.items ≡ flat_map (row sources.now) (upward 0 rows)) }
{
    let mut entries = Vec::new(alloc);
    for number in 0..rows {
        append_row(sources, rows, number, &mut entries)?;
    }
    Ok(entries)
}

/// From each row of a block a piece of it.
pub(crate) fn cut_rows(
    alloc: Global,
    entries: &[Gauss],
    rows: usize,
    width: usize,
    start: usize,
    len: usize,
) -> Result<Vec<Gauss>, AllocError>
    requires within { start + len ≤ width }
    requires small { rows * width ≤ 2 ^ 22 }
    requires long { (entries.now ≡ []) ⊎ (length entries.now ≡ rows * width) }
    ensures { IfOk result (λ v. v.items ≡
        flat_map (λ i. piece entries.now (i * width + start) len) (upward 0 rows)) }
{
    let mut pieces = Vec::new(alloc);
    for number in 0..rows {
        append_piece(entries, number * width + start, len, &mut pieces)?;
    }
    Ok(pieces)
}

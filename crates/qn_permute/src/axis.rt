//! How the entries of a block stand, and how they are read in another order of its legs.
ghost use Rattle.std.specs.Prelude.{◌≡◌, ◌+◌, ◌++◌, ◌∷◌, [], ◌<◌, ◌≤◌, ◌^◌, map, length, slice_index_or, All, IfOk, OnOk};
ghost use Rattle.qn_gauss.specs.Gaussian.{zero_g, signed};
ghost use Rattle.qn_index.specs.Tuples.{IsTuple};
ghost use Rattle.qn_index.specs.Places.{block_size};
ghost use Rattle.qn_value.specs.Local.{picked};
ghost use Rattle.qn_permute.specs.Axes.{no_axis, axes, places, reach, entry_at_place};

use qn_gauss::Gauss;
use qn_index::{Leg, block_len, known_all};
use std::alloc::{AllocError, Global};

/// A leg of a block: how many values its sector has, and how far apart the entries of neighbouring values stand.
#[derive(Clone, Copy, Debug, PartialEq, Eq)]
pub struct Axis {
    pub len: usize,
    pub stride: usize,
}

/// The axes of the block of a tuple, whose entries are row-major.
pub fn axes_of<const K: usize>(
    alloc: Global,
    legs: &[Leg<K>],
    tuple: &[u32],
) -> Result<Vec<Axis>, AllocError>
    requires tuple { IsTuple legs.now tuple.now }
    requires small { block_size legs.now tuple.now ≤ 2 ^ 22 }
    ensures { IfOk result (λ v. v.items ≡ axes legs.now tuple.now) }
{
    known_all(legs);
    let mut size = block_len(legs, tuple) as usize;
    let mut out = Vec::new(alloc);
    for i in 0..legs.len() {
        let len = legs[i].dim_at(tuple[i]) as usize;
        size /= len;
        out.push(Axis { len, stride: size })?;
    }
    Ok(out)
}

/// The axes in another order.
pub fn axes_in_order(alloc: Global, axes: &[Axis], order: &[usize]) -> Result<Vec<Axis>, AllocError>
    requires order { All (λ k. k < length axes.now) order.now }
    ensures { IfOk result (λ v. v.items ≡ picked no_axis axes.now order.now) }
{
    let mut out = Vec::new(alloc);
    for k in order {
        out.push(axes[*k])?;
    }
    Ok(out)
}

/// Appends an entry, with its sign.
fn append_entry(entry: Gauss, minus: bool, out: &mut Vec<Gauss>) -> Result<(), AllocError>
    ensures { OnOk result (out.new.items ≡ out.old.items ++ signed minus entry ∷ []) }
{
    out.push(if minus { entry.neg() } else { entry })?;
    Ok(())
}

/// Appends the entries along one axis, with their sign.
fn append_line(
    source: &[Gauss],
    axis: Axis,
    start: usize,
    minus: bool,
    out: &mut Vec<Gauss>,
) -> Result<(), AllocError>
    requires inside { start + reach (axis ∷ []) < length source.now }
    ensures { OnOk result (out.new.items ≡ out.old.items ++ map (entry_at_place source.now minus) (places (axis ∷ []) start)) }
{
    for i in 0..axis.len {
        append_entry(source[start + i * axis.stride], minus, out)?;
    }
    Ok(())
}

/// Appends the entries in the order of these axes, the last one fastest, with their sign.
pub fn append_entries(
    source: &[Gauss],
    axes: &[Axis],
    start: usize,
    minus: bool,
    out: &mut Vec<Gauss>,
) -> Result<(), AllocError>
    requires inside { start + reach axes.now < length source.now }
    ensures { OnOk result (out.new.items ≡ out.old.items ++ map (entry_at_place source.now minus) (places axes.now start)) }
{
    match axes {
        [] => append_entry(source[start], minus, out),
        [axis] => append_line(source, *axis, start, minus, out),
        [axis, rest @ ..] => {
            for i in 0..axis.len {
                append_entries(source, rest, start + i * axis.stride, minus, out)?;
            }
            Ok(())
        }
    }
}

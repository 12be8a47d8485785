//! Labels of legs.

ghost use Rattle.std.specs.Prelude.{◌≡◌, ◌≤◌, ◌+◌, ◌++◌, ◌∷◌, [], true, length, drop, if◌then◌else◌, All, IfOk, OnOk};
ghost use Rattle.std.specs.Ordering.{int_eq};
ghost use Rattle.qn_sign.specs.Sign.{is_in};
ghost use Rattle.qn_engine.specs.Labels.{place_in, couple_in, labels_without, shared_labels, coupled_labels};

use qn_plan::is_listed;
use std::alloc::{AllocError, Global};

/// The first place of the label from a place on, or the number of labels.
fn place_from(labels: &[i64], from: usize, label: i64) -> usize
    requires { from ≤ length labels.now }
    ensures place { result ≡ from + place_in label (drop from labels.now) }
    ensures within { result ≤ length labels.now }
{
    for i in from..labels.len() {
        if labels[i] == label {
            return i;
        }
    }
    labels.len()
}

/// The first place of the label, or the number of labels.
pub(crate) fn place_of_label(labels: &[i64], label: i64) -> usize
    ensures place { result ≡ place_in label labels.now }
    ensures within { result ≤ length labels.now }
{
    place_from(labels, 0, label)
}

/// The places of the two legs of each label, on two tensors.
pub(crate) fn shared_places(
    alloc: Global,
    first: &[i64],
    second: &[i64],
    summed: &[i64],
) -> Result<Vec<(usize, usize)>, AllocError>
    ensures { IfOk result (λ v. v.items ≡ shared_labels first.now second.now summed.now) }
{
    let mut places = Vec::with_capacity(alloc, summed.len())?;
    for l in summed {
        places.push((place_of_label(first, *l), place_of_label(second, *l)))?;
    }
    Ok(places)
}

/// The places of the first two legs with the label.
fn couple_of(labels: &[i64], label: i64) -> (usize, usize)
    requires { is_in int_eq label labels.now ≡ true }
    ensures { result ≡ couple_in label labels.now }
{
    let first = place_of_label(labels, label);
    (first, place_from(labels, first + 1, label))
}

/// The places of the two legs of each label, on one tensor.
pub(crate) fn couple_places(
    alloc: Global,
    labels: &[i64],
    summed: &[i64],
) -> Result<Vec<(usize, usize)>, AllocError>
    requires { All (λ l. is_in int_eq l labels.now ≡ true) summed.now }
    ensures { IfOk result (λ v. v.items ≡ coupled_labels labels.now summed.now) }
{
    let mut places = Vec::with_capacity(alloc, summed.len())?;
    for l in summed {
        places.push(couple_of(labels, *l))?;
    }
    Ok(places)
}

/// Adds a label unless it is summed.
fn keep_label(label: i64, is_summed: bool, out: &mut Vec<i64>) -> Result<(), AllocError>
    ensures { OnOk result (out.new.items ≡ (if is_summed then out.old.items else out.old.items ++ label ∷ [])) }
{
    if !is_summed {
        out.push(label)?;
    }
    Ok(())
}

/// Adds the labels that are left where these are summed.
pub(crate) fn append_left(
    labels: &[i64],
    summed: &[i64],
    out: &mut Vec<i64>,
) -> Result<(), AllocError>
    ensures { OnOk result (out.new.items ≡ out.old.items ++ labels_without summed.now labels.now) }
{
    let mut rest = labels;
    while let [l, tail @ ..] = rest {
        keep_label(*l, is_listed(summed, *l), out)?;
        rest = tail;
    }
    Ok(())
}

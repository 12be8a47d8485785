//! Legs by the lines that they stand on.

ghost use Rattle.std.specs.Prelude.{◌≡◌, ◌<◌, ◌≤◌, ◌++◌, ◌∷◌, [], not, length, filter, map, if◌then◌else◌, IfOk, OnOk, ◌&&◌};
ghost use Rattle.std.specs.Ordering.{int_eq};
ghost use Rattle.qn_sign.specs.Sign.{is_in};
ghost use Rattle.qn_value.specs.Networks.{same_bool, same_end};
ghost use Rattle.qn_plan.specs.Shapes.{is_on, is_couple, ends_left, legs_left, place_of, shared_places};

use qn_index::Leg;
use qn_value::plain::LineEnd;
use std::alloc::{AllocError, Global};

fn is_same_arrow(a: bool, b: bool) -> bool
    ensures { result ≡ same_bool a b }
{
    if a { b } else { !b }
}

/// Whether two legs are the same end of one line.
fn is_same(a: LineEnd, b: LineEnd) -> bool
    ensures { result ≡ same_end a b }
{
    a.label == b.label && is_same_arrow(a.inward, b.inward)
}

/// Whether a leg is this end of a line.
fn has_end(ends: &[LineEnd], end: LineEnd) -> bool
    ensures { result ≡ is_in same_end end ends.now }
{
    match ends {
        [] => false,
        [e, rest @ ..] => is_same(end, *e) || has_end(rest, end),
    }
}

/// Whether a leg has the label.
pub(crate) fn has_label(ends: &[LineEnd], label: i64) -> bool
    ensures { result ≡ is_on label ends.now }
{
    let inner = LineEnd {
        label,
        inward: true,
    };
    let outer = LineEnd {
        label,
        inward: false,
    };
    has_end(ends, inner) || has_end(ends, outer)
}

/// Whether both legs of a line have the label.
pub(crate) fn has_couple(ends: &[LineEnd], label: i64) -> bool
    ensures { result ≡ is_couple label ends.now }
{
    let inner = LineEnd {
        label,
        inward: true,
    };
    let outer = LineEnd {
        label,
        inward: false,
    };
    has_end(ends, inner) && has_end(ends, outer)
}

/// Whether the label is among these.
pub fn is_listed(labels: &[i64], label: i64) -> bool
    ensures { result ≡ is_in int_eq label labels.now }
{
    let mut rest = labels;
    while let [l, tail @ ..] = rest {
        if label == *l {
            return true;
        }
        rest = tail;
    }
    false
}

/// Adds a leg's end unless its line is summed.
fn keep_end(end: LineEnd, is_summed: bool, out: &mut Vec<LineEnd>) -> Result<(), AllocError>
    ensures { OnOk result (out.new.items ≡ (if is_summed then out.old.items else out.old.items ++ end ∷ [])) }
{
    if !is_summed {
        out.push(end)?;
    }
    Ok(())
}

/// Adds the ends that are left where these labels are summed.
pub(crate) fn append_ends(
    ends: &[LineEnd],
    summed: &[i64],
    out: &mut Vec<LineEnd>,
) -> Result<(), AllocError>
    ensures { OnOk result (out.new.items ≡ out.old.items ++ ends_left summed.now ends.now) }
{
    let mut rest = ends;
    while let [e, tail @ ..] = rest {
        keep_end(*e, is_listed(summed, e.label), out)?;
        rest = tail;
    }
    Ok(())
}

/// Adds a leg unless its line is summed.
fn keep_leg<const K: usize>(
    leg: &Leg<K>,
    is_summed: bool,
    out: &mut Vec<Leg<K>>,
) -> Result<(), AllocError>
    ensures { OnOk result (out.new.items ≡ (if is_summed then out.old.items else out.old.items ++ leg.now ∷ [])) }
{
    if !is_summed {
        out.push(leg.copy()?)?;
    }
    Ok(())
}

/// Adds the legs that are left where these labels are summed.
pub(crate) fn append_legs<const K: usize>(
    ends: &[LineEnd],
    legs: &[Leg<K>],
    summed: &[i64],
    out: &mut Vec<Leg<K>>,
) -> Result<(), AllocError>
    requires { length ends.now ≡ length legs.now }
    ensures { OnOk result (out.new.items ≡ out.old.items ++ legs_left summed.now ends.now legs.now) }
{
    for i in 0..ends.len() {
        let end = ends[i];
        keep_leg(&legs[i], is_listed(summed, end.label), out)?;
    }
    Ok(())
}

/// The place of the first leg with the label, or the number of legs.
fn place_of(ends: &[LineEnd], label: i64) -> usize
    ensures place { result ≡ place_of label ends.now }
    ensures within { result ≤ length ends.now }
{
    match ends {
        [] => 0,
        [e, rest @ ..] => {
            if label == e.label {
                0
            } else {
                1 + place_of(rest, label)
            }
        }
    }
}

/// The places of the two legs of each label, on two tensors.
pub fn shared_places(
    alloc: Global,
    first: &[LineEnd],
    second: &[LineEnd],
    labels: &[i64],
) -> Result<Vec<(usize, usize)>, AllocError>
    ensures { IfOk result (λ v. v.items ≡ shared_places first.now second.now labels.now) }
{
    let mut places = Vec::new(alloc);
    for l in labels {
        places.push((place_of(first, *l), place_of(second, *l)))?;
    }
    Ok(places)
}

/// Labels in two lists: those that a step sums, and those that are left.
#[derive(Drop)]
pub(crate) struct Parted {
    pub summed: Vec<i64>,
    pub left: Vec<i64>,
}

/// Adds a label to one of two lists.
fn part(parted: &mut Parted, label: i64, is_summed: bool) -> Result<(), AllocError>
    ensures summed { OnOk result (parted.new.summed.items ≡ (if is_summed then parted.old.summed.items ++ label ∷ [] else parted.old.summed.items)) }
    ensures left { OnOk result (parted.new.left.items ≡ (if not is_summed then parted.old.left.items ++ label ∷ [] else parted.old.left.items)) }
{
    if is_summed {
        parted.summed.push(label)?;
    } else {
        parted.left.push(label)?;
    }
    Ok(())
}

/// Whether both tensors have the label.
fn is_shared(first: &[LineEnd], second: &[LineEnd], label: i64) -> bool
    ensures { result ≡ (is_on label first.now && is_on label second.now) }
{
    has_label(first, label) && has_label(second, label)
}

/// The labels that two tensors share, and the others.
pub(crate) fn part_shared(
    alloc: Global,
    labels: &[i64],
    first: &[LineEnd],
    second: &[LineEnd],
) -> Result<Parted, AllocError>
    ensures summed { IfOk result (λ p. p.summed.items ≡ filter (λ l. is_on l first.now && is_on l second.now) labels.now) }
    ensures left { IfOk result (λ p. p.left.items ≡ filter (λ l. not (is_on l first.now && is_on l second.now)) labels.now) }
{
    let mut parted = Parted {
        summed: Vec::new(alloc),
        left: Vec::new(alloc),
    };
    let mut rest = labels;
    while let [l, tail @ ..] = rest {
        part(&mut parted, *l, is_shared(first, second, *l))?;
        rest = tail;
    }
    Ok(parted)
}

/// The labels both of whose legs are on one tensor, and the others.
pub(crate) fn part_couples(
    alloc: Global,
    labels: &[i64],
    ends: &[LineEnd],
) -> Result<Parted, AllocError>
    ensures summed { IfOk result (λ p. p.summed.items ≡ filter (λ l. is_couple l ends.now) labels.now) }
    ensures left { IfOk result (λ p. p.left.items ≡ filter (λ l. not (is_couple l ends.now)) labels.now) }
{
    let mut parted = Parted {
        summed: Vec::new(alloc),
        left: Vec::new(alloc),
    };
    let mut rest = labels;
    while let [l, tail @ ..] = rest {
        part(&mut parted, *l, has_couple(ends, *l))?;
        rest = tail;
    }
    Ok(parted)
}

//! A table of the legs of a network by their labels.

ghost use Rattle.std.specs.Prelude.{◌≡◌, ◌↔◌, ◌<◌, ◌≤◌, ◌+◌, ◌*◌, ℤ, pos, negsuc, List, IsTrue, IfOk, length, unsigned_abs, [], replicate};
ghost use Rattle.std.specs.List.{All};
ghost use Rattle.qn_value.specs.Networks.{End};
ghost use Rattle.qn_value.specs.Labels.{is_positive};
ghost use Rattle.qn_net.specs.Refusals.{IsLabel, tally, legs_with};
ghost use Rattle.qn_net.specs.Tables.{digit, cell, end_at, HasLabel, IsFilled};

use qn_value::plain::LineEnd;
use std::alloc::{AllocError, Global};
use std::marker::Model;

/// The legs of a network, each by the end of a line that it is: how many are one end, and where one of them stands.
#[derive(Drop)]
pub(crate) struct LabelTable {
    ends: Vec<LineEnd>,
    counts: Vec<u64>,
    spots: Vec<usize>,
}

impl Model for LabelTable {
    ghost use Rattle.std.specs.Prelude.{List};
    ghost use Rattle.std.specs.List.{All};
    ghost use Rattle.qn_value.specs.Networks.{End};
    ghost use Rattle.qn_net.specs.Tables.{HasLabel, IsFilled};

    ghost Value = { List End };

    ghost view = { λ t. t.ends.items };

    ghost invariant = { λ t. All HasLabel t.ends.items × IsFilled t.ends.items t.ends.items t.counts.items t.spots.items };
}

fn digit_of(b: bool) -> usize
    ensures { result ≡ digit b }
{
    if b { 1 } else { 0 }
}

fn is_above_zero(label: i64) -> bool
    ensures { result ≡ is_positive label }
{
    label > 0
}

/// The cell of an end of a line.
fn cell_of(end: LineEnd) -> usize
    requires { unsigned_abs end.label ≤ 1024 }
    ensures cell { result ≡ cell end }
    ensures below { result < 4100 }
{
    cell_at(end.label, end.inward)
}

fn cell_at(label: i64, inward: bool) -> usize
    requires { unsigned_abs label ≤ 1024 }
    ensures cell { result ≡ cell (record { label = label; inward = inward }) }
    ensures below { result < 4100 }
{
    4 * label.unsigned_abs() as usize + (2 * digit_of(is_above_zero(label)) + digit_of(inward))
}

fn no_counts(alloc: Global) -> Result<Vec<u64>, AllocError>
    ensures { IfOk result (λ v. v.items ≡ replicate 4100 0) }
{
    vec![in alloc; 0u64; 4100]
}

fn no_spots(alloc: Global) -> Result<Vec<usize>, AllocError>
    ensures { IfOk result (λ v. v.items ≡ replicate 4100 0) }
{
    vec![in alloc; 0usize; 4100]
}

/// One end of the line of a label.
pub(crate) fn end_of(label: i64, inward: bool) -> LineEnd
    ensures { result ≡ record { label = label; inward = inward } }
{
    LineEnd { label, inward }
}

impl LabelTable {
    /// The table of these legs.
    pub(crate) fn new(alloc: Global, ends: Vec<LineEnd>) -> Result<LabelTable, AllocError>
        requires { All HasLabel ends.items }
        ensures { IfOk result (λ t. t ≡ ends.items) }
    {
        let mut counts = no_counts(alloc)?;
        let mut spots = no_spots(alloc)?;
        fill(&ends, &mut counts, &mut spots);
        Ok(LabelTable {
            ends,
            counts,
            spots,
        })
    }

    /// What holds of each table.
    pub(crate) fn known(&self)
        ensures { All HasLabel self.now }
    {
        let _ends = &self.ends;
    }

    /// How many legs are this end of the line.
    pub(crate) fn count(&self, end: LineEnd) -> u64
        requires { IsLabel end.label }
        ensures { result ≡ tally end self.now }
    {
        let counts = self.counts.as_slice();
        counts[cell_of(end)]
    }

    /// Where a leg stands that is this end of the line.
    pub(crate) fn spot(&self, end: LineEnd) -> usize
        requires label { IsLabel end.label }
        requires stands { 0 < tally end self.now }
        ensures within { result < length self.now }
        ensures here { end_at self.now result ≡ end }
    {
        let spots = self.spots.as_slice();
        spots[cell_of(end)]
    }

    /// How many legs are this end of the line of the label n.
    pub(crate) fn positive(&self, n: u32, inward: bool) -> u64
        requires some { 0 < n }
        requires range { n ≤ 1024 }
        ensures { result ≡ tally (record { label = pos n; inward = inward }) self.now }
    {
        self.count(positive_end(n, inward))
    }

    /// How many legs have the label -1 - n and this arrow.
    pub(crate) fn negative(&self, n: u32, inward: bool) -> u64
        requires { n < 1024 }
        ensures { result ≡ tally (record { label = negsuc n; inward = inward }) self.now }
    {
        self.count(negative_end(n, inward))
    }

    /// Where a leg stands that is this end of the line of the label n.
    pub(crate) fn positive_spot(&self, n: u32, inward: bool) -> usize
        requires some { 0 < n }
        requires range { n ≤ 1024 }
        requires stands { 0 < tally (record { label = pos n; inward = inward }) self.now }
        ensures within { result < length self.now }
        ensures here { end_at self.now result ≡ record { label = pos n; inward = inward } }
    {
        self.spot(positive_end(n, inward))
    }

    /// Whether the label n stands on a leg.
    pub(crate) fn has_positive(&self, n: u32) -> bool
        requires some { 0 < n }
        requires range { n ≤ 1024 }
        ensures { IsTrue result ↔ (0 < legs_with (pos n) self.now) }
    {
        is_any(self.positive(n, true), self.positive(n, false))
    }

    /// Whether the label -1 - n stands on a leg.
    pub(crate) fn has_negative(&self, n: u32) -> bool
        requires { n < 1024 }
        ensures { IsTrue result ↔ (0 < legs_with (negsuc n) self.now) }
    {
        is_any(self.negative(n, true), self.negative(n, false))
    }
}

fn is_any(x: u64, y: u64) -> bool
    ensures { IsTrue result ↔ (0 < x + y) }
{
    x > 0 || y > 0
}

/// One end of the line of the label n.
fn positive_end(n: u32, inward: bool) -> LineEnd
    ensures { result ≡ record { label = pos n; inward = inward } }
{
    LineEnd {
        label: i64::from(n),
        inward,
    }
}

/// An end with the label -1 - n.
fn negative_end(n: u32, inward: bool) -> LineEnd
    ensures { result ≡ record { label = negsuc n; inward = inward } }
{
    LineEnd {
        label: -1 - i64::from(n),
        inward,
    }
}

/// Counts the ends, and notes where each stands.
fn fill(ends: &[LineEnd], counts: &mut [u64], spots: &mut [usize])
    requires labels { All HasLabel ends.now }
    requires empty { IsFilled ends.now [] counts.old spots.old }
    ensures { IsFilled ends.now ends.now counts.new spots.new }
{
    for i in 0..ends.len() {
        let e = ends[i];
        let c = cell_of(e);
        counts[c] += 1;
        spots[c] = i;
    }
}

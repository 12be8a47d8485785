//! Entries of the result, each with its sum of magnitudes.

ghost use Rattle.std.specs.Prelude.{◌≡◌, ◌≤◌, ◌<◌, ◌+◌, ◌*◌, ◌^◌, ◌↔◌, length, slice_index_or, IsNone, IfSome};
ghost use Rattle.std.specs.List.{All};
ghost use Rattle.qn_gauss.specs.Gaussian.{zero_g, add_g, mag, limit, signed};
ghost use Rattle.qn_strides.specs.Strides.{IsSummed, sum_along, total_along};
ghost use Rattle.qn_trace.specs.Sources.{IsSource, source_term, source_size, entry_sum, size_sum};

use qn_gauss::Gauss;
use qn_strides::{Kept, Summed, add_along, start_of, zero};
use std::marker::Model;

/// A block that counts for a block of the result: its entries, its sign, and how they are gone through.
#[derive(Drop)]
pub(crate) struct Source<'a> {
    pub entries: &'a [Gauss],
    pub minus: bool,
    pub kept: Vec<Kept>,
    pub summed: Vec<Summed>,
}

impl<'a> Model for Source<'a> {
    ghost use Rattle.qn_trace.specs.Sources.{SourceValue};

    ghost Value = { SourceValue };

    ghost view = { λ x. record { entries = x.entries.now; minus = x.minus; kept = x.kept.items; summed = x.summed.items } };
}

impl<'a> Source<'a> {
    fn entries(&self) -> &[Gauss]
        ensures { result.now ≡ self.now.entries }
    {
        self.entries
    }

    fn is_minus(&self) -> bool
        ensures { result ≡ self.now.minus }
    {
        self.minus
    }

    fn kept(&self) -> &[Kept]
        ensures { result.now ≡ self.now.kept }
    {
        &self.kept
    }

    fn summed(&self) -> &[Summed]
        ensures { result.now ≡ self.now.summed }
    {
        &self.summed
    }

    /// A sum and its sum of magnitudes with what this block adds to an entry of the result's block.
    fn add_to(&self, place: u64, sum: Gauss, size: u128) -> Option<(Gauss, u128)>
        requires source { IsSource self.now }
        requires small { place ≤ 2 ^ 22 }
        requires bound { size ≤ limit }
        requires within { mag sum ≤ size }
        ensures value { IfSome result (λ z. z.0 ≡ add_g sum (source_term place self.now)) }
        ensures size { IfSome result (λ z. z.1 ≡ size + source_size place self.now) }
        ensures bound { IfSome result (λ z. z.1 ≤ limit) }
        ensures within { IfSome result (λ z. mag z.0 ≤ z.1) }
        ensures none { IsNone result ↔ (limit < size + source_size place self.now) }
    {
        let kept = self.kept();
        let start = start_of(kept, place);
        let summed = self.summed();
        let entries = self.entries();
        add_along(entries, summed, start, self.is_minus(), sum, size)
    }
}

/// An entry of the result's block, where its sum of magnitudes is in range.
pub(crate) fn entry_of(sources: &[Source<'_>], place: u64) -> Option<Gauss>
    requires sources { All IsSource sources.now }
    requires small { place ≤ 2 ^ 22 }
    ensures value { IfSome result (λ z. z ≡ entry_sum sources.now place) }
    ensures none { IsNone result ↔ (limit < size_sum sources.now place) }
{
    let mut sum = zero();
    let mut size: u128 = 0;
    let mut rest = sources;
    while let [source, later @ ..] = rest {
        match source.add_to(place, sum, size) {
            None => return None,
            Some((more, larger)) => {
                sum = more;
                size = larger;
            }
        }
        rest = later;
    }
    Some(sum)
}

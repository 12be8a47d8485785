//! Sums along the couples of a block's legs, each with its sum of magnitudes.

ghost use Rattle.std.specs.Prelude.{◌≡◌, ◌≤◌, ◌<◌, ◌+◌, ◌*◌, ◌^◌, ◌↔◌, length, slice_index_or, IsNone, IfSome};
ghost use Rattle.std.specs.List.{All};
ghost use Rattle.qn_gauss.specs.Gaussian.{zero_g, add_g, mag, limit, signed};
ghost use Rattle.qn_strides.specs.Strides.{IsSummed, sum_along, total_along};

use crate::axis::Summed;
use qn_gauss::{Gauss, mag_add};

pub fn zero() -> Gauss
    ensures { result ≡ zero_g }
{
    Gauss::ZERO
}

/// The entry at a place, and 0 past the end.
pub fn entry_at(entries: &[Gauss], place: u64) -> Gauss
    ensures { result ≡ slice_index_or entries.now place zero_g }
{
    match entries.get(place as usize) {
        Some(entry) => *entry,
        None => zero(),
    }
}

/// A number, or its negative.
pub fn with_sign(minus: bool, number: Gauss) -> Gauss
    ensures value { result ≡ signed minus number }
    ensures magnitude { mag result ≡ mag number }
{
    if minus { number.neg() } else { number }
}

/// A sum and its sum of magnitudes with one entry more, where this is in range.
fn add_entry(entry: Gauss, minus: bool, sum: Gauss, size: u128) -> Option<(Gauss, u128)>
    requires bound { size ≤ limit }
    requires within { mag sum ≤ size }
    ensures value { IfSome result (λ z. z.0 ≡ add_g sum (signed minus entry)) }
    ensures size { IfSome result (λ z. z.1 ≡ size + mag entry) }
    ensures bound { IfSome result (λ z. z.1 ≤ limit) }
    ensures within { IfSome result (λ z. mag z.0 ≤ z.1) }
    ensures none { IsNone result ↔ (limit < size + mag entry) }
{
    match mag_add(size, entry.mag()) {
        None => None,
        Some(all) => Some((sum.add(with_sign(minus, entry)), all)),
    }
}

/// The place some steps further on.
pub fn place_at(start: u64, steps: u64, stride: u64) -> u64
    requires start { start ≤ 2 ^ 60 }
    requires steps { steps ≤ 2 ^ 16 }
    requires stride { stride ≤ 2 ^ 23 }
    ensures place { result ≡ start + steps * stride }
    ensures bound { result ≤ start + 2 ^ 39 }
{
    start + steps * stride
}

/// A sum and its sum of magnitudes with the entries at all values of these couples, from a place on.
pub fn add_along(
    entries: &[Gauss],
    axes: &[Summed],
    start: u64,
    minus: bool,
    sum: Gauss,
    size: u128,
) -> Option<(Gauss, u128)>
    requires axes { All IsSummed axes.now }
    requires room { start + length axes.now * 2 ^ 40 ≤ 2 ^ 60 }
    requires bound { size ≤ limit }
    requires within { mag sum ≤ size }
    ensures value { IfSome result (λ z.
        z.0 ≡ add_g sum (signed minus (sum_along (λ p. slice_index_or entries.now p zero_g) axes.now start))) }
    ensures size { IfSome result (λ z. z.1 ≡ size + total_along (λ p. mag (slice_index_or entries.now p zero_g)) axes.now start) }
    ensures bound { IfSome result (λ z. z.1 ≤ limit) }
    ensures within { IfSome result (λ z. mag z.0 ≤ z.1) }
    ensures none { IsNone result ↔ (limit < size + total_along (λ p. mag (slice_index_or entries.now p zero_g)) axes.now start) }
{
    match axes.split_first() {
        None => add_entry(entry_at(entries, start), minus, sum, size),
        Some((axis, rest)) => {
            let mut total = sum;
            let mut bound = size;
            for value in 0..axis.len {
                let place = place_at(start, value, axis.stride);
                match add_along(entries, rest, place, minus, total, bound) {
                    None => return None,
                    Some((more, larger)) => {
                        total = more;
                        bound = larger;
                    }
                }
            }
            Some((total, bound))
        }
    }
}

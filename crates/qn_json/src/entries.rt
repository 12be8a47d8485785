//! Entries: their form, and the Gaussian integers that they stand for.
ghost use Rattle.std.specs.Prelude.{◌≡◌};
ghost use Rattle.serde_json.specs.View.{view};
ghost use Rattle.std.specs.List.{list_all};
ghost use Rattle.qn_json.specs.Entries.{are_entries, decimal_of, gauss_of, is_part, is_entry, part_of, entry_of};

use crate::forms::is_whole;
use crate::tree::list;
use qn_gauss::{Gauss, parse_decimal};
use serde_json::Value;

fn is_part(v: &Value) -> bool
    ensures { result ≡ is_part (view v.now) }
{
    is_whole(v) || v.is_string()
}

/// Whether the value has the form of an entry: a whole number or a text, or a list of two of these.
/// Takes no memory.
pub fn is_entry(v: &Value) -> bool
    ensures { result ≡ is_entry (view v.now) }
{
    if is_part(v) {
        return true;
    }
    match list(v) {
        Some([re, im]) => is_part(re) && is_part(im),
        _ => false,
    }
}

// The number whose decimal the bytes are.
#[tactic(auto, using(crate::proofs::Decimals::decimal_none))]
fn decimal(bytes: &[u8]) -> Option<i128>
    ensures { result ≡ decimal_of bytes.now }
{
    match parse_decimal(bytes) {
        Some(x) => Some(x),
        None => None,
    }
}

// The Gaussian integer, where its magnitude is within the limit.
#[tactic(auto, unfolding(crate::specs::Entries::gauss_of))]
fn gauss(re: i128, im: i128) -> Option<Gauss>
    ensures { result ≡ gauss_of re im }
{
    match Gauss::new(re, im) {
        Some(z) => Some(z),
        None => None,
    }
}

fn part(v: &Value) -> Option<i128>
    ensures { result ≡ part_of (view v.now) }
{
    match v.as_i64() {
        Some(n) => Some(i128::from(n)),
        None => match v.as_str() {
            Some(text) => decimal(text.as_bytes()),
            None => None,
        },
    }
}

/// The entry: a number or a text alone is the real part, and of two the second is the imaginary part.
/// None exactly where a text is no decimal, or the magnitude is above 2^127 - 1. Takes no memory.
#[tactic(auto, unfolding(crate::specs::Entries::entry_of))]
pub fn entry(v: &Value) -> Option<Gauss>
    ensures { result ≡ entry_of (view v.now) }
{
    match list(v) {
        Some([re, im]) => gauss(part(re)?, part(im)?),
        Some(_) => None,
        None => gauss(part(v)?, 0),
    }
}

fn all_entries(list: &[Value]) -> bool
    ensures { result ≡ list_all (λ v. is_entry (view v)) list.now }
{
    list.iter().all(|v| is_entry(v))
}

/// Whether the value is a list of entries.
#[tactic(auto, using(crate::proofs::Lists::views))]
pub fn are_entries(v: &Value) -> bool
    ensures { result ≡ are_entries (view v.now) }
{
    match list(v) {
        Some(list) => all_entries(list),
        None => false,
    }
}

//! Tests of the forms of values. They take no memory.
ghost use Rattle.std.specs.Prelude.{◌≡◌};
ghost use Rattle.serde_json.specs.Find.{get};
ghost use Rattle.serde_json.specs.View.{view};
ghost use Rattle.std.specs.List.{list_all};
ghost use Rattle.qn_json.specs.Forms.{has, lacks, are_numbers, is_whole, is_between, is_flag, is_word, is_empty};

use crate::tree::list;
use serde_json::Value;

/// Whether there is no member under the key.
pub fn lacks(v: &Value, key: &str) -> bool
    ensures { result ≡ lacks key.now (view v.now) }
{
    v.get(key).is_none()
}

/// Whether the value is a whole number.
pub fn is_whole(v: &Value) -> bool
    ensures { result ≡ is_whole (view v.now) }
{
    v.as_i64().is_some()
}

/// Whether the value is a whole number from `low` to `high`.
pub fn is_between(v: &Value, low: i64, high: i64) -> bool
    ensures { result ≡ is_between low high (view v.now) }
{
    match v.as_i64() {
        Some(n) => low <= n && n <= high,
        None => false,
    }
}

/// Whether the value is an empty list.
#[tactic(auto, using(crate::proofs::Lists::views))]
pub fn is_empty(v: &Value) -> bool
    ensures { result ≡ is_empty (view v.now) }
{
    match list(v) {
        Some(list) => list.is_empty(),
        None => false,
    }
}

/// Whether the member under the key is this word.
pub fn is_word_at(v: &Value, key: &str, word: &str) -> bool
    ensures { result ≡ has (is_word word.now) (get key.now (view v.now)) }
{
    match v.get(key) {
        Some(found) => match found.as_str() {
            Some(text) => text == word,
            None => false,
        },
        None => false,
    }
}

/// Whether the member under the key is a whole number.
pub fn is_whole_at(v: &Value, key: &str) -> bool
    ensures { result ≡ has is_whole (get key.now (view v.now)) }
{
    match v.get(key) {
        Some(found) => is_whole(found),
        None => false,
    }
}

/// Whether the member under the key is true or false.
pub fn is_flag_at(v: &Value, key: &str) -> bool
    ensures { result ≡ has is_flag (get key.now (view v.now)) }
{
    match v.get(key) {
        Some(found) => found.as_bool().is_some(),
        None => false,
    }
}

/// Whether the member under the key is an empty list.
pub fn is_empty_at(v: &Value, key: &str) -> bool
    ensures { result ≡ has is_empty (get key.now (view v.now)) }
{
    match v.get(key) {
        Some(found) => is_empty(found),
        None => false,
    }
}

fn all_numbers(list: &[Value]) -> bool
    ensures { result ≡ list_all (λ v. is_whole (view v)) list.now }
{
    list.iter().all(|v| is_whole(v))
}

/// Whether the value is a list of whole numbers.
#[tactic(auto, using(crate::proofs::Lists::views))]
pub fn are_numbers(v: &Value) -> bool
    ensures { result ≡ are_numbers (view v.now) }
{
    match list(v) {
        Some(list) => all_numbers(list),
        None => false,
    }
}

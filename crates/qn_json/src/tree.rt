//! Lists and members of a JSON tree.
ghost use Rattle.std.specs.Prelude.{◌≡◌, map, option_map};
ghost use Rattle.serde_json.specs.Find.{get};
ghost use Rattle.serde_json.specs.View.{view};
ghost use Rattle.qn_json.specs.Tree.{list_at, items, member_of, whole, flag};

use serde_json::Value;

/// The items of an array; None where the value is no array.
#[tactic(auto, using(crate::proofs::Lists::listed_view))]
pub fn list(v: &Value) -> Option<&[Value]>
    ensures { option_map (λ s. map view s.now) result ≡ list_at (view v.now) }
{
    match v.as_array() {
        Some(list) => Some(list.as_slice()),
        None => None,
    }
}

/// The items of an array, and none where it is no array.
pub fn items(v: &Value) -> &[Value]
    ensures { map view result.now ≡ items (view v.now) }
{
    match list(v) {
        Some(list) => list,
        None => &[],
    }
}

/// The items of the array under the key, and none where there is no array.
pub fn items_at<'a>(v: &'a Value, key: &str) -> &'a [Value]
    ensures { map view result.now ≡ items (member_of key.now (view v.now)) }
{
    match v.get(key) {
        Some(found) => items(found),
        None => &[],
    }
}

/// The whole number under the key, and 0 where there is none.
pub fn whole_at(v: &Value, key: &str) -> i64
    ensures { result ≡ whole (get key.now (view v.now)) }
{
    match v.get(key) {
        Some(found) => found.as_i64().unwrap_or(0),
        None => 0,
    }
}

/// The flag under the key, and false where there is none.
pub fn flag_at(v: &Value, key: &str) -> bool
    ensures { result ≡ flag (get key.now (view v.now)) }
{
    match v.get(key) {
        Some(found) => found.as_bool().unwrap_or(false),
        None => false,
    }
}

//! Members and texts of JSON objects.

ghost use Rattle.std.specs.Prelude.{◌≡◌, option_map, map, IfOk, string_bytes};
ghost use Rattle.serde_json.specs.Find.{get};
ghost use Rattle.serde_json.specs.View.{view};
ghost use Rattle.qn_json.specs.Forms.{has};
ghost use Rattle.qn_json.specs.Tree.{member_of};
ghost use Rattle.qn_sumdoc.specs.Objects.{is_text, members_at, named, text_of};

use serde_json::{Map, Value};

/// The members of an object; None where the value is none.
#[tactic(auto, using(crate::proofs::Entries::views))]
pub(crate) fn members(v: &Value) -> Option<&Map<String, Value>>
    ensures { option_map (λ m. map named m.now.entries) result ≡ members_at (view v.now) }
{
    v.as_object()
}

/// Whether the member under the key is a text.
pub(crate) fn is_text_at(v: &Value, key: &str) -> bool
    ensures { result ≡ has is_text (get key.now (view v.now)) }
{
    match v.get(key) {
        Some(found) => found.is_string(),
        None => false,
    }
}

/// The text, and the empty one where there is none.
pub(crate) fn text(v: &Value) -> &str
    ensures { result.now ≡ text_of (view v.now) }
{
    match v.as_str() {
        Some(text) => text,
        None => "",
    }
}

/// The text under the key, and the empty one where there is none.
pub(crate) fn text_at<'a>(v: &'a Value, key: &str) -> &'a str
    ensures { result.now ≡ text_of (member_of key.now (view v.now)) }
{
    match v.get(key) {
        Some(found) => text(found),
        None => "",
    }
}

//! The twisted labels.

ghost use Rattle.std.specs.Prelude.{◌≡◌, ◌↔◌, ◌<◌, IsTrue, MatchOption, length};
ghost use Rattle.qn_charge.specs.Firsts.{HasNone, IsFirst};
ghost use Rattle.qn_net.specs.Refusals.{BadTwistAt, IsNoPositive, IsNotAbove};

use crate::order::positive_number;
use crate::table::LabelTable;

/// Whether the label is no positive one that stands.
fn is_no_positive(label: &i64, table: &LabelTable) -> bool
    ensures { IsTrue result ↔ IsNoPositive table.now label.now }
{
    table.known();
    match positive_number(label) {
        Some(n) => !table.has_positive(n),
        None => true,
    }
}

/// Whether the label at a place is not above the one before it.
fn is_not_above(twist: &[i64], i: usize) -> bool
    requires { i < length twist.now }
    ensures { IsTrue result ↔ IsNotAbove twist.now i }
{
    i > 0 && twist[i] <= twist[i - 1]
}

/// Whether the label at a place is no positive one that stands, or not above the one before it.
fn is_bad_twist(twist: &[i64], i: usize, table: &LabelTable) -> bool
    requires { i < length twist.now }
    ensures { IsTrue result ↔ BadTwistAt table.now twist.now i }
{
    is_no_positive(&twist[i], table) || is_not_above(twist, i)
}

/// The first place of the twisted labels that is no positive label, or not above the one before it.
pub(crate) fn first_bad_twist(twist: &[i64], table: &LabelTable) -> Option<usize>
    ensures { MatchOption result (HasNone (BadTwistAt table.now twist.now)) (IsFirst (BadTwistAt table.now twist.now)) }
{
    for i in 0..twist.len() {
        if is_bad_twist(twist, i, table) {
            return Some(i);
        }
    }
    None
}

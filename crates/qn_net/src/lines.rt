//! The lines of a network: on how many legs each label stands, and whether the two legs of a line meet.

ghost use Rattle.std.specs.Prelude.{◌≡◌, ◌≢◌, ◌↔◌, ◌<◌, ◌≤◌, ◌+◌, ◌⊎◌, ◌++◌, ◌∷◌, [], pos, negsuc, ℕ, IsTrue, IfOk, IfSome, MatchOption, length, if◌then◌else◌};
ghost use Rattle.qn_charge.specs.Firsts.{HasNone, IsFirst};
ghost use Rattle.qn_value.specs.Networks.{End};
ghost use Rattle.qn_net.specs.Members.{slots_of_members, ends_of_members};
ghost use Rattle.qn_net.specs.Refusals.{IsMiscounted, IsRepeated, HasEqualArrows, HasUnequalSectors, IsGap, HaveLabels, AreOpposite, legs_with, slot_at, tally, positives};

use crate::member::NetTensor;
use crate::table::LabelTable;
use qn_index::Sector;
use std::alloc::{AllocError, Global};

/// The positive label n.
fn positive(n: u32) -> i64
    ensures { result ≡ pos n }
{
    i64::from(n)
}

fn is_other_than_two(x: u64, y: u64) -> bool
    ensures { IsTrue result ↔ ((x + y ≢ 0) × (x + y ≢ 2)) }
{
    !((x == 0 && y == 0) || (x == 0 && y == 2) || (x == 1 && y == 1) || (x == 2 && y == 0))
}

fn is_more_than_one(x: u64, y: u64) -> bool
    ensures { IsTrue result ↔ (1 < x + y) }
{
    x > 1 || y > 1 || (x == 1 && y == 1)
}

fn is_either_above_one(x: u64, y: u64) -> bool
    ensures { IsTrue result ↔ ((1 < x) ⊎ (1 < y)) }
{
    y > 1 || x > 1
}

/// Whether a positive label stands, but not on two legs.
fn is_miscounted(table: &LabelTable, n: u32) -> bool
    requires some { 0 < n }
    requires range { n ≤ 1024 }
    ensures { IsTrue result ↔ IsMiscounted table.now n }
{
    is_other_than_two(table.positive(n, true), table.positive(n, false))
}

/// The first positive label that stands, but not on two legs.
pub(crate) fn first_miscounted(table: &LabelTable) -> Option<u32>
    ensures { MatchOption result (HasNone (IsMiscounted table.now)) (IsFirst (IsMiscounted table.now)) }
{
    table.known();
    for n in 1..1025u32 {
        if is_miscounted(table, n) {
            return Some(n);
        }
    }
    None
}

/// Whether a negative label stands on more than one leg.
fn is_repeated(table: &LabelTable, n: u32) -> bool
    requires { n < 1024 }
    ensures { IsTrue result ↔ IsRepeated table.now n }
{
    is_more_than_one(table.negative(n, true), table.negative(n, false))
}

/// The first negative label, nearest to 0, that stands on more than one leg.
pub(crate) fn first_repeated(table: &LabelTable) -> Option<u32>
    ensures { MatchOption result (HasNone (IsRepeated table.now)) (IsFirst (IsRepeated table.now)) }
{
    table.known();
    for n in 0..1024u32 {
        if is_repeated(table, n) {
            return Some(n);
        }
    }
    None
}

/// Whether two legs of a positive label have the same arrow.
fn has_equal_arrows(table: &LabelTable, n: u32) -> bool
    requires some { 0 < n }
    requires range { n ≤ 1024 }
    ensures { IsTrue result ↔ HasEqualArrows table.now n }
{
    is_either_above_one(table.positive(n, true), table.positive(n, false))
}

/// The first positive label two of whose legs have the same arrow.
pub(crate) fn first_equal_arrows(table: &LabelTable) -> Option<u32>
    ensures { MatchOption result (HasNone (HasEqualArrows table.now)) (IsFirst (HasEqualArrows table.now)) }
{
    table.known();
    for n in 1..1025u32 {
        if has_equal_arrows(table, n) {
            return Some(n);
        }
    }
    None
}

/// The first negative label that stands nowhere, as far as labels go.
fn first_missing(table: &LabelTable) -> Option<u32>
    ensures some { IfSome result (IsFirst (λ n. legs_with (negsuc n) table.now ≡ 0)) }
    ensures range { IfSome result (λ n. n < 1024) }
    ensures all { result ≡ None → (n : ℕ) → n < 1024 → 0 < legs_with (negsuc n) table.now }
{
    for n in 0..1024u32 {
        if !table.has_negative(n) {
            return Some(n);
        }
    }
    None
}

/// Whether a negative label further from 0 than -1 - n stands.
fn stands_beyond(table: &LabelTable, n: u32) -> bool
    requires { n < 1024 }
    ensures { IsTrue result ↔ ((k : ℕ) × (n < k) × (0 < legs_with (negsuc k) table.now)) }
{
    table.known();
    for k in n + 1..1024 {
        if table.has_negative(k) {
            return true;
        }
    }
    false
}

/// The first negative label that is missing above one that stands.
pub(crate) fn first_gap(table: &LabelTable) -> Option<u32>
    ensures { MatchOption result (HasNone (IsGap table.now)) (IsFirst (IsGap table.now)) }
{
    table.known();
    match first_missing(table) {
        Some(n) => {
            if stands_beyond(table, n) {
                Some(n)
            } else {
                None
            }
        }
        None => None,
    }
}

/// The positive labels that stand, ascending.
pub(crate) fn ascending(alloc: Global, table: &LabelTable) -> Result<Vec<i64>, AllocError>
    ensures { IfOk result (λ v. v.items ≡ positives table.now) }
{
    table.known();
    let mut order = Vec::new(alloc);
    for n in 1..1025u32 {
        add_if(&mut order, table.has_positive(n), n)?;
    }
    Ok(order)
}

/// Adds the label n to the order where it stands.
fn add_if(order: &mut Vec<i64>, stands: bool, n: u32) -> Result<(), AllocError>
    ensures { IfOk result (λ _. order.new.items ≡ (if stands then order.old.items ++ pos n ∷ [] else order.old.items)) }
{
    if stands {
        order.push(positive(n))?;
    }
    Ok(())
}

//! The order of the positive labels.

ghost use Rattle.std.specs.Prelude.{◌≡◌, ◌↔◌, ◌<◌, ◌≤◌, ℕ, pos, true, false, Some, IsTrue, IfOk, MatchOption, length, slice_index_or, replicate};
ghost use Rattle.qn_net.specs.Refusals.{IsGoodOrder, IsOrderFault, legs_with};

use crate::table::LabelTable;
use std::alloc::{AllocError, Global};

/// The number of a label from 1 to 1,024.
pub(crate) fn positive_number(label: &i64) -> Option<u32>
    ensures { MatchOption result ((n : ℕ) → 0 < n → n ≤ 1024 → label.now ≡ pos n → ⊥) (λ n.
        (label.now ≡ pos n) × (0 < n) × (n ≤ 1024)) }
{
    let label = *label;
    if label > 0 && label <= 1024 {
        Some(label as u32)
    } else {
        None
    }
}

/// The number of a label that stands and was not met yet.
fn new_number(label: &i64, table: &LabelTable, seen: &[bool]) -> Option<u32>
    requires { length seen.now ≡ 1025 }
    ensures { MatchOption result
        ((n : ℕ) → 0 < n → n ≤ 1024 → label.now ≡ pos n → 0 < legs_with (pos n) table.now → slice_index_or seen.now n false ≡ false → ⊥)
        (λ n. (label.now ≡ pos n) × (0 < n) × (n ≤ 1024) × (0 < legs_with (pos n) table.now) × (slice_index_or seen.now n false ≡ false)) }
{
    match positive_number(label) {
        Some(n) => {
            if !table.has_positive(n) {
                return None;
            }
            if seen[n as usize] {
                return None;
            }
            Some(n)
        }
        None => None,
    }
}

/// Whether a positive label stands that was not met.
fn lacks(table: &LabelTable, seen: &[bool]) -> bool
    requires { length seen.now ≡ 1025 }
    ensures { IsTrue result ↔
        ((n : ℕ) × (0 < n) × (n ≤ 1024) × (0 < legs_with (pos n) table.now) × (slice_index_or seen.now n false ≡ false)) }
{
    for n in 1..1025u32 {
        if is_lacking(table, seen, n) {
            return true;
        }
    }
    false
}

/// Whether the label n stands and was not met.
fn is_lacking(table: &LabelTable, seen: &[bool], n: u32) -> bool
    requires size { length seen.now ≡ 1025 }
    requires some { 0 < n }
    requires range { n ≤ 1024 }
    ensures { IsTrue result ↔ ((0 < legs_with (pos n) table.now) × (slice_index_or seen.now n false ≡ false)) }
{
    table.has_positive(n) && !seen[n as usize]
}

/// None met yet.
fn none_seen(alloc: Global) -> Result<Vec<bool>, AllocError>
    ensures { IfOk result (λ v. v.items ≡ replicate 1025 false) }
{
    vec![in alloc; false; 1025]
}

/// The first place of the order that is no positive label or a repeated one, or one past its end where it lacks a
/// label.
pub(crate) fn order_fault(
    alloc: Global,
    order: &[i64],
    table: &LabelTable,
) -> Result<Option<usize>, AllocError>
    ensures { IfOk result (λ r. MatchOption r (IsGoodOrder table.now (Some order.now)) (IsOrderFault table.now order.now)) }
{
    table.known();
    let mut seen = none_seen(alloc)?;
    for i in 0..order.len() {
        match new_number(&order[i], table, &seen) {
            Some(n) => seen[n as usize] = true,
            None => return Ok(Some(i)),
        }
    }
    if lacks(table, &seen) {
        return Ok(Some(order.len()));
    }
    Ok(None)
}

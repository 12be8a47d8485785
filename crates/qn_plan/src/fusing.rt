//! Which steps fuse or split.

ghost use Rattle.std.specs.Prelude.{◌≡◌, ◌&&◌, map, IfOk};
ghost use Rattle.std.specs.List.{list_all};
ghost use Rattle.std.specs.Ordering.{int_eq};
ghost use Rattle.qn_sign.specs.Sign.{is_in};
ghost use Rattle.qn_net.specs.Steps.{same_labels, all_but_first, last_one, meets_condition};
ghost use Rattle.qn_net.specs.Members.{role_value};

use crate::ends::is_listed;
use qn_net::MemberRole;
use qn_value::plain::LineEnd;
use std::alloc::{AllocError, Global};

/// Whether all labels are among the others.
fn are_listed(labels: &[i64], others: &[i64]) -> bool
    ensures { result ≡ list_all (λ k. is_in int_eq k others.now) labels.now }
{
    match labels {
        [] => true,
        [l, rest @ ..] => is_listed(others, *l) && are_listed(rest, others),
    }
}

/// Whether two lists have the same labels.
fn are_same(labels: &[i64], others: &[i64]) -> bool
    ensures { result ≡ same_labels labels.now others.now }
{
    are_listed(labels, others) && are_listed(others, labels)
}

/// The labels of the legs.
fn labels_of(alloc: Global, ends: &[LineEnd]) -> Result<Vec<i64>, AllocError>
    ensures { IfOk result (λ v. v.items ≡ map (λ e. e.label) ends.now) }
{
    let mut labels = Vec::with_capacity(alloc, ends.len())?;
    for e in ends {
        labels.push(e.label)?;
    }
    Ok(labels)
}

/// All labels but the first.
fn all_but_first(labels: &[i64]) -> &[i64]
    ensures { result.now ≡ all_but_first labels.now }
{
    match labels {
        [] => labels,
        [_, rest @ ..] => rest,
    }
}

/// The last label.
fn last_one(labels: &[i64]) -> &[i64]
    ensures { result.now ≡ last_one labels.now }
{
    match labels {
        [] => labels,
        [.., _] => &labels[labels.len() - 1..],
    }
}

/// Whether a step that sums these labels fuses or splits by a member of this role, with these labels on its legs.
pub fn meets_condition(role: MemberRole, legs: &[i64], summed: &[i64]) -> bool
    ensures { result ≡ meets_condition (role_value role) legs.now summed.now }
{
    match role {
        MemberRole::Plain => false,
        MemberRole::FuseTable => are_same(summed, all_but_first(legs)),
        MemberRole::SplitTable => are_same(summed, last_one(legs)),
    }
}

/// Whether a step that sums these labels fuses or splits by a member of this role, with these legs.
pub(crate) fn fuses(
    alloc: Global,
    role: MemberRole,
    ends: &[LineEnd],
    summed: &[i64],
) -> Result<bool, AllocError>
    ensures { IfOk result (λ b. b ≡ meets_condition (role_value role) (map (λ e. e.label) ends.now) summed.now) }
{
    let legs = labels_of(alloc, ends)?;
    Ok(meets_condition(role, &legs, summed))
}

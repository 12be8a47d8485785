//! The members of a network document: tensors and combiners with their labels.

ghost use Rattle.std.specs.Prelude.{◌≡◌, ◌+◌, ◌<◌, ◌≤◌, ◌^◌, IfOk, ℤ, List, map, length, codes};
ghost use Rattle.std.specs.List.{All, list_all};
ghost use Rattle.std.specs.Option.{option_map_or};
ghost use Rattle.serde_json.specs.Find.{get};
ghost use Rattle.serde_json.specs.View.{view};
ghost use Rattle.qn_net.specs.Members.{member_value};
ghost use Rattle.qn_net.specs.Members.MemberValue.{own};
ghost use Rattle.qn_parts.specs.Faults.{Reads, first_of};
ghost use Rattle.qn_json.specs.Forms.{has, are_numbers};
ghost use Rattle.qn_parts.specs.Sectors.{number_of};
ghost use Rattle.qn_json.specs.Tree.{items, member_of};
ghost use Rattle.qn_parts.specs.Tensors.{is_tensor, tensor_of, tensor_fault};
ghost use Rattle.qn_doc.specs.Combiners.{is_combiner, is_split, combiner_of, combiner_fault};
ghost use Rattle.qn_doc.specs.Members.{is_member, numbers_of, table_of, member_value_of, labelled_of, member_fault, IsPlaced, IsInNetwork};

use crate::combiners::{combiner, is_combiner, is_split};
use qn_charge::Group;
use qn_net::{Member, NetTensor};
use qn_parts::parts::{are_numbers, is_tensor, number, tensor};
use qn_parts::{DocFault, items, items_at};
use serde_json::Value;
use std::alloc::{AllocError, Global};

fn has_labels(v: &Value) -> bool
    ensures { result ≡ has are_numbers (get (codes "labels") (view v.now)) }
{
    match v.get("labels") {
        Some(found) => are_numbers(found),
        None => false,
    }
}

// Whether the member is a combiner, or else a tensor.
fn has_part(v: &Value, factors: usize) -> bool
    ensures { result ≡ option_map_or (is_combiner factors) (get (codes "combine") (view v.now)) (is_tensor factors (view v.now)) }
{
    match v.get("combine") {
        Some(found) => is_combiner(found, factors),
        None => is_tensor(v, factors),
    }
}

/// Whether the value has the form of a member, with this many numbers in each charge and flux.
#[tactic(auto, unfolding(crate::specs::Members::is_member))]
fn is_member(v: &Value, factors: usize) -> bool
    ensures { result ≡ is_member factors (view v.now) }
{
    has_labels(v) && has_part(v, factors)
}

/// Whether all values have the form of a member.
pub(crate) fn are_members(list: &[Value], factors: usize) -> bool
    ensures { result ≡ list_all (λ v. is_member factors (view v)) list.now }
{
    list.iter().all(|v| is_member(v, factors))
}

fn collected(alloc: Global, list: &[Value]) -> Result<Vec<i64>, AllocError>
    ensures { IfOk result (λ made. made.items ≡ map (λ v. number_of (view v)) list.now) }
{
    list.iter().map(|v| number(v)).collect(alloc)
}

/// The whole numbers of a list.
#[tactic(auto, using(qn_json::proofs::Lists::map_of_views))]
pub(crate) fn numbers(alloc: Global, list: &[Value]) -> Result<Vec<i64>, AllocError>
    ensures { IfOk result (λ made. made.items ≡ map number_of (map view list.now)) }
{
    let made = collected(alloc, list)?;
    Ok(made)
}

// The fuse table or the split table of a combiner.
fn table<const K: usize>(
    alloc: Global,
    v: &Value,
    group: &Group<K>,
    number: u32,
) -> Result<Member<K>, DocFault>
    ensures { Reads result (combiner_fault group.now number (view v.now))
        (λ m. (member_value K m ≡ table_of group.now (view v.now)) × IsPlaced group.now (table_of group.now (view v.now))) }
{
    let combiner = combiner(alloc, v, group, number)?;
    if is_split(v) {
        Ok(Member::Split(combiner))
    } else {
        Ok(Member::Fuse(combiner))
    }
}

fn own<const K: usize>(
    alloc: Global,
    v: &Value,
    group: &Group<K>,
    number: u32,
) -> Result<Member<K>, DocFault>
    ensures { Reads result (tensor_fault group.now number (view v.now))
        (λ m. (member_value K m ≡ own (tensor_of group.now (view v.now))) × IsPlaced group.now (own (tensor_of group.now (view v.now)))) }
{
    let tensor = tensor(alloc, v, group, number)?;
    tensor.known();
    Ok(Member::Tensor(tensor))
}

fn part<const K: usize>(
    alloc: Global,
    v: &Value,
    group: &Group<K>,
    number: u32,
) -> Result<Member<K>, DocFault>
    ensures { Reads result (member_fault group.now number (view v.now))
        (λ m. (member_value K m ≡ member_value_of group.now (view v.now)) × IsPlaced group.now (member_value_of group.now (view v.now))) }
{
    match v.get("combine") {
        Some(found) => table(alloc, found, group, number),
        None => own(alloc, v, group, number),
    }
}

fn member<const K: usize>(
    alloc: Global,
    v: &Value,
    group: &Group<K>,
    number: u32,
) -> Result<NetTensor<K>, DocFault>
    ensures { Reads result (member_fault group.now number (view v.now))
        (λ m. (m ≡ labelled_of group.now (view v.now)) × IsInNetwork group.now m) }
{
    let member = part(alloc, v, group, number)?;
    let labels = numbers(alloc, items_at(v, "labels"))?;
    Ok(NetTensor { member, labels })
}

/// The members of a list, or the first of their faults, member by member.
pub(crate) fn members<const K: usize>(
    alloc: Global,
    list: &[Value],
    group: &Group<K>,
) -> Result<Vec<NetTensor<K>>, DocFault>
    ensures { Reads result (first_of (member_fault group.now) (map view list.now))
        (λ made. (made.items ≡ map (labelled_of group.now) (map view list.now)) × All (IsInNetwork group.now) made.items) }
{
    let mut made = Vec::new(alloc);
    let mut before: u32 = 0;
    let mut rest = list;
    while let [v, tail @ ..] = rest {
        let Some(place) = before.checked_add(1) else {
            return Err(DocFault::Memory);
        };
        made.push(member(alloc, v, group, place)?)?;
        before = place;
        rest = tail;
    }
    Ok(made)
}

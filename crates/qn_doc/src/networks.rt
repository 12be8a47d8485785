//! Network documents: their form, their first fault, and the network that they stand for.

ghost use Rattle.std.specs.Prelude.{◌≡◌, ◌+◌, ◌<◌, ◌≤◌, ◌^◌, IfOk, IfSome, ℤ, List, map, length, codes, Option, Some, None};
ghost use Rattle.serde_json.specs.Find.{get};
ghost use Rattle.serde_json.specs.View.{view};
ghost use Rattle.qn_charge.specs.Charges.{IsGroup};
ghost use Rattle.std.specs.List.{All, list_all};
ghost use Rattle.qn_net.specs.Refusals.{given};
ghost use Rattle.qn_parts.specs.Faults.{Fails, Reads, fault};
ghost use Rattle.qn_json.specs.Forms.{has, is_list, are_numbers};
ghost use Rattle.qn_parts.specs.Documents.{group_data, factors_of};
ghost use Rattle.qn_doc.specs.LabelFaults.{label_fault, placed};
ghost use Rattle.qn_doc.specs.Members.{is_member, member_fault, IsInNetwork};
ghost use Rattle.qn_doc.specs.Networks.{has_order, has_twist, is_network_document, members_data, members_of, order_of, twist_of, head_fault, members_fault, parts_fault, IsCounted, IsLabelFault, IsNetworkOf, ReadsBy, any_network, bytes_fault, IsLabelFaultIn, IsNetworkIn};

use crate::members::{are_members, members, numbers};
use qn_charge::{Factor, Group};
use qn_net::{NetFault, NetTensor, Network};
use qn_parts::parts::{
    MAX_LEN, are_numbers, factor_count, factors_of, group, has_group, has_version,
};
use qn_parts::{DocFault, Fault, items, items_at, list, read_tree};
use serde_json::Value;
use std::alloc::{AllocError, Global};

/// A network over a group of 0 to 4 factors.
#[derive(Debug, Drop)]
pub enum AnyNet {
    N0(Network<0>),
    N1(Network<1>),
    N2(Network<2>),
    N3(Network<3>),
    N4(Network<4>),
}

fn has_order(v: &Value) -> bool
    ensures { result ≡ has_order (view v.now) }
{
    match v.get("order") {
        Some(order) => are_numbers(order),
        None => true,
    }
}

fn has_twist(v: &Value) -> bool
    ensures { result ≡ has_twist (view v.now) }
{
    match v.get("twist") {
        Some(twist) => are_numbers(twist),
        None => true,
    }
}

#[tactic(auto, using(qn_json::proofs::Lists::views))]
fn is_member_list(v: &Value, factors: usize) -> bool
    ensures { result ≡ is_list (is_member factors) (view v.now) }
{
    match list(v) {
        Some(list) => are_members(list, factors),
        None => false,
    }
}

fn has_members(v: &Value, factors: usize) -> bool
    ensures { result ≡ has (is_list (is_member factors)) (get (codes "tensors") (view v.now)) }
{
    match v.get("tensors") {
        Some(found) => is_member_list(found, factors),
        None => false,
    }
}

#[tactic(auto, unfolding(crate::specs::Networks::is_network_document))]
fn is_network_document(v: &Value) -> bool
    ensures { result ≡ is_network_document (view v.now) }
{
    has_version(v)
        && has_group(v)
        && has_members(v, factor_count(v))
        && has_order(v)
        && has_twist(v)
}

// The order, where one is given.
fn order(alloc: Global, v: &Value) -> Result<Option<Vec<i64>>, AllocError>
    ensures { IfOk result (λ o. given o ≡ order_of (view v.now)) }
{
    match v.get("order") {
        Some(order) => Ok(Some(numbers(alloc, items(order))?)),
        None => Ok(None),
    }
}

// The twisted labels.
fn twist(alloc: Global, v: &Value) -> Result<Vec<i64>, AllocError>
    ensures { IfOk result (λ t. t.items ≡ twist_of (view v.now)) }
{
    match v.get("twist") {
        Some(twist) => numbers(alloc, items(twist)),
        None => Ok(Vec::new(alloc)),
    }
}

fn at_label(code: u32, label: i64) -> Fault
    ensures { result ≡ label_fault code label }
{
    Fault {
        code,
        tensor: 0,
        part: 0,
        item: label,
    }
}

// The place of a position that is counted from 0. No network has as many as 2^32 members.
fn place_of(i: usize) -> Option<u32>
    ensures { IfSome result (λ place. place ≡ i + 1) }
{
    u32::try_from(i.checked_add(1)?).ok()
}

// F20 of the member.
fn at_member(tensor: usize) -> DocFault
    ensures { Fails result (Some (fault 20 (tensor + 1) 0 0)) }
{
    match place_of(tensor) {
        Some(place) => DocFault::Bad(Fault::at(20, place, 0, 0)),
        None => DocFault::Memory,
    }
}

// F21 of the member at this leg.
fn at_leg(tensor: usize, leg: usize) -> DocFault
    ensures { Fails result (Some (fault 21 (tensor + 1) (leg + 1) 0)) }
{
    match place_of(tensor) {
        Some(tensor) => match place_of(leg) {
            Some(leg) => DocFault::Bad(Fault::at(21, tensor, leg, 0)),
            None => DocFault::Memory,
        },
        None => DocFault::Memory,
    }
}

// The fault of this code at this place of a list.
fn at_place(code: u32, place: usize) -> DocFault
    ensures { Fails result (Some (fault code 0 0 (place + 1))) }
{
    match place_of(place) {
        Some(item) => DocFault::Bad(Fault::at(code, 0, 0, item)),
        None => DocFault::Memory,
    }
}

// The place in the document of what keeps its members from being a network.
fn placed(fault: NetFault) -> DocFault
    ensures { Fails result (placed fault) }
{
    match fault {
        NetFault::LabelArity { tensor } => at_member(tensor),
        NetFault::LabelRange { tensor, leg } => at_leg(tensor, leg),
        NetFault::LabelCount { label } => DocFault::Bad(at_label(22, label)),
        NetFault::Arrow { label } => DocFault::Bad(at_label(23, label)),
        NetFault::Sectors { label } => DocFault::Bad(at_label(24, label)),
        NetFault::OpenLabels { label } => DocFault::Bad(at_label(25, label)),
        NetFault::Order { place } => at_place(26, place),
        NetFault::Twist { place } => at_place(36, place),
        NetFault::Memory => DocFault::Memory,
    }
}

// The factors of the group, or the first of F3 to F7.
#[tactic(auto, using(qn_json::proofs::Lists::views))]
fn head(alloc: Global, v: &Value) -> Result<Vec<Factor>, DocFault>
    ensures { Reads result (head_fault (view v.now))
        (λ made. (made.items ≡ factors_of (view v.now)) × (length made.items ≤ 4) × IsGroup made.items × IsCounted (view v.now)) }
{
    if !is_network_document(v) {
        return Err(DocFault::Bad(Fault::of_code(3)));
    }
    let factors = factors_of(alloc, items_at(v, "group"))?;
    let list = items_at(v, "tensors");
    if list.is_empty() || 256 < list.len() {
        return Err(DocFault::Bad(Fault::of_code(7)));
    }
    Ok(factors)
}

// The network of these members with the order and the twisted labels, or the first of F20 to F26 and F36.
#[tactic(auto, using(crate::proofs::Reading::all_in_network))]
fn joined<const K: usize>(
    alloc: Global,
    v: &Value,
    group: &Group<K>,
    members: Vec<NetTensor<K>>,
) -> Result<Network<K>, DocFault>
    requires factors { group.now ≡ factors_of (view v.now) }
    requires count { IsCounted (view v.now) }
    requires members { members.items ≡ members_of (view v.now) }
    requires each { All (IsInNetwork group.now) members.items }
    ensures { ReadsBy None (IsLabelFault (view v.now)) (IsNetworkOf (view v.now)) result }
{
    let order = order(alloc, v)?;
    let twist = twist(alloc, v)?;
    match Network::new(alloc, *group, members, order, twist) {
        Ok(net) => Ok(net),
        Err(fault) => Err(placed(fault)),
    }
}

// The network over the group of these factors, or the first of F8 to F26 and F36.
#[tactic(auto, using(crate::proofs::Reading::fails_early))]
fn network_over<const K: usize>(
    alloc: Global,
    v: &Value,
    factors: &[Factor],
) -> Result<Network<K>, DocFault>
    requires few { K ≤ 4 }
    requires count { length factors.now ≡ K }
    requires group { IsGroup factors.now }
    requires factors { factors.now ≡ factors_of (view v.now) }
    requires members { IsCounted (view v.now) }
    ensures { ReadsBy (members_fault (view v.now)) (IsLabelFault (view v.now)) (IsNetworkOf (view v.now)) result }
{
    let group = group(factors);
    let members = members(alloc, items_at(v, "tensors"), &group)?;
    joined(alloc, v, &group, members)
}

// The network over the group of these factors.
fn any_network(alloc: Global, v: &Value, factors: &[Factor]) -> Result<AnyNet, DocFault>
    requires few { length factors.now ≤ 4 }
    requires group { IsGroup factors.now }
    requires factors { factors.now ≡ factors_of (view v.now) }
    requires members { IsCounted (view v.now) }
    ensures { ReadsBy (members_fault (view v.now)) (IsLabelFault (view v.now)) (λ any. IsNetworkOf (view v.now) (any_network any)) result }
{
    match factors.len() {
        0 => Ok(AnyNet::N0(network_over(alloc, v, factors)?)),
        1 => Ok(AnyNet::N1(network_over(alloc, v, factors)?)),
        2 => Ok(AnyNet::N2(network_over(alloc, v, factors)?)),
        3 => Ok(AnyNet::N3(network_over(alloc, v, factors)?)),
        _ => Ok(AnyNet::N4(network_over(alloc, v, factors)?)),
    }
}

#[tactic(auto, using(crate::proofs::Reading::fails_first, crate::proofs::Reading::fails_then))]
fn network_of_tree(alloc: Global, v: &Value) -> Result<AnyNet, DocFault>
    ensures { ReadsBy (parts_fault (view v.now)) (IsLabelFault (view v.now)) (λ any. IsNetworkOf (view v.now) (any_network any)) result }
{
    let factors = head(alloc, v)?;
    any_network(alloc, v, factors.as_slice())
}

/// The network of a document, or the document's first fault, or want of memory.
#[tactic(auto, using(crate::proofs::Reading::fails_early))]
pub fn read_network(alloc: Global, bytes: &[u8]) -> Result<AnyNet, DocFault>
    ensures { ReadsBy (bytes_fault bytes.now) (IsLabelFaultIn bytes.now) (IsNetworkIn bytes.now) result }
{
    if MAX_LEN < bytes.len() {
        return Err(DocFault::Bad(Fault::of_code(1)));
    }
    let tree = read_tree(alloc, bytes)?;
    network_of_tree(alloc, &tree)
}

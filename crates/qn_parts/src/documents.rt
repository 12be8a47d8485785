//! Tensor documents, and the keys that every document has: `version` and `group`.

ghost use Rattle.std.specs.Prelude.{◌≡◌, ◌≤◌, length, codes};
ghost use Rattle.serde_json.specs.Find.{get};
ghost use Rattle.qn_charge.specs.Charges.{IsGroup};
ghost use Rattle.serde_json.specs.View.{view};
ghost use Rattle.qn_parts.specs.Faults.{Reads};
ghost use Rattle.qn_json.specs.Forms.{has};
ghost use Rattle.qn_parts.specs.Groups.{is_group};
ghost use Rattle.qn_parts.specs.Tensors.{tensor_fault, tensor_of};
ghost use Rattle.qn_parts.specs.Documents.{has_version, group_data, is_tensor_document, tensor_document_fault, text_fault, any_value, IsTensorOf, IsTensorIn};

use crate::groups::{factors_of, group, is_group};
use crate::tensors::{is_tensor, tensor};
use crate::tree::read_tree;
use crate::{DocFault, Fault};
use qn_block::BlockTensor;
use qn_charge::Factor;
use qn_json::forms::is_between;
use qn_json::items_at;
use serde_json::Value;
use std::alloc::Global;

/// The greatest number of bytes of a document.
pub const MAX_LEN: usize = 67_108_864;

/// A tensor over a group of 0 to 4 factors.
#[derive(Debug, Drop)]
pub enum AnyTensor {
    N0(BlockTensor<0>),
    N1(BlockTensor<1>),
    N2(BlockTensor<2>),
    N3(BlockTensor<3>),
    N4(BlockTensor<4>),
}

/// Whether there is no `version`, or it is 1.
pub fn has_version(v: &Value) -> bool
    ensures { result ≡ has_version (view v.now) }
{
    match v.get("version") {
        Some(version) => is_between(version, 1, 1),
        None => true,
    }
}

/// Whether `group` has the form of a group.
pub fn has_group(v: &Value) -> bool
    ensures { result ≡ has is_group (get (codes "group") (view v.now)) }
{
    match v.get("group") {
        Some(group) => is_group(group),
        None => false,
    }
}

/// The number of factors under `group`.
#[tactic(auto, using(qn_json::proofs::Lists::views))]
pub fn factor_count(v: &Value) -> usize
    ensures { result ≡ length (group_data (view v.now)) }
{
    items_at(v, "group").len()
}

fn is_tensor_document(v: &Value) -> bool
    ensures { result ≡ is_tensor_document (view v.now) }
{
    has_version(v) && has_group(v) && is_tensor(v, factor_count(v))
}

// The tensor over the group of these K factors.
#[tactic(auto, using(crate::proofs::Accepted::group_accepted))]
fn tensor_over<const K: usize>(
    alloc: Global,
    v: &Value,
    factors: &[Factor],
) -> Result<BlockTensor<K>, DocFault>
    requires few { K ≤ 4 }
    requires count { length factors.now ≡ K }
    requires group { IsGroup factors.now }
    ensures { Reads result (tensor_fault factors.now 1 (view v.now)) (λ t. t ≡ tensor_of factors.now (view v.now)) }
{
    let group = group(factors);
    tensor(alloc, v, &group, 1)
}

// The tensor over the group of these factors.
fn any_tensor(alloc: Global, v: &Value, factors: &[Factor]) -> Result<AnyTensor, DocFault>
    requires few { length factors.now ≤ 4 }
    requires group { IsGroup factors.now }
    ensures { Reads result (tensor_fault factors.now 1 (view v.now)) (λ any. any_value any ≡ tensor_of factors.now (view v.now)) }
{
    match factors.len() {
        0 => Ok(AnyTensor::N0(tensor_over(alloc, v, factors)?)),
        1 => Ok(AnyTensor::N1(tensor_over(alloc, v, factors)?)),
        2 => Ok(AnyTensor::N2(tensor_over(alloc, v, factors)?)),
        3 => Ok(AnyTensor::N3(tensor_over(alloc, v, factors)?)),
        _ => Ok(AnyTensor::N4(tensor_over(alloc, v, factors)?)),
    }
}

fn tensor_of_tree(alloc: Global, v: &Value) -> Result<AnyTensor, DocFault>
    ensures { Reads result (tensor_document_fault (view v.now)) (IsTensorOf (view v.now)) }
{
    if !is_tensor_document(v) {
        return Err(DocFault::Bad(Fault::of_code(3)));
    }
    let factors = factors_of(alloc, items_at(v, "group"))?;
    any_tensor(alloc, v, factors.as_slice())
}

/// The tensor of a document with the keys of a tensor and `group`, or the document's first fault, or
/// want of memory.
pub fn read_tensor(alloc: Global, bytes: &[u8]) -> Result<AnyTensor, DocFault>
    ensures { Reads result (text_fault tensor_document_fault bytes.now) (IsTensorIn bytes.now) }
{
    if MAX_LEN < bytes.len() {
        return Err(DocFault::Bad(Fault::of_code(1)));
    }
    let tree = read_tree(alloc, bytes)?;
    tensor_of_tree(alloc, &tree)
}

//! The tensors of a state in a document, site by site.

ghost use Rattle.std.specs.Prelude.{◌≡◌, ◌+◌, ◌<◌, ◌≤◌, ◌^◌, IfOk, List, map, length, None, Some};
ghost use Rattle.std.specs.List.{All, list_all};
ghost use Rattle.serde_json.specs.Find.{get};
ghost use Rattle.serde_json.specs.View.{view};
ghost use Rattle.qn_index.specs.declared.leg.Dir.TheVariants.{Out};
ghost use Rattle.qn_parts.specs.Faults.{Fails, Reads, fault, first_of};
ghost use Rattle.qn_json.specs.Forms.{has, is_list};
ghost use Rattle.qn_parts.specs.Documents.{factors_of};
ghost use Rattle.qn_parts.specs.Tensors.{is_tensor, tensor_fault, tensor_of};
ghost use Rattle.qn_doc.specs.Networks.{ReadsBy};
ghost use Rattle.qn_sumdoc.specs.Chains.{AreLegsOf, AreTensorsOf, IsChainOf, IsLegsFault, IsStateTensor, placed, site_legs, tensors_fault};
ghost use Rattle.qn_sumdoc.specs.Sites.{sites_of};

use qn_block::BlockTensor;
use qn_charge::Group;
use qn_index::Leg;
use qn_mps::{Chain, ChainFault};
use qn_parts::parts::{is_tensor, tensor};
use qn_parts::{DocFault, Fault, items_at, list};
use qn_sites::SiteTable;
use serde_json::Value;
use std::alloc::{AllocError, Global};

fn all_tensors(list: &[Value], factors: usize) -> bool
    ensures { result ≡ list_all (λ v. is_tensor factors (view v)) list.now }
{
    list.iter().all(|v| is_tensor(v, factors))
}

#[tactic(auto, using(qn_json::proofs::Lists::views))]
fn are_tensors(v: &Value, factors: usize) -> bool
    ensures { result ≡ is_list (is_tensor factors) (view v.now) }
{
    match list(v) {
        Some(list) => all_tensors(list, factors),
        None => false,
    }
}

/// Whether the member under the key is a list of tensors, with this many numbers in each charge.
pub(crate) fn has_tensors(v: &Value, key: &str, factors: usize) -> bool
    ensures { result ≡ has (is_list (is_tensor factors)) (get key.now (view v.now)) }
{
    match v.get(key) {
        Some(found) => are_tensors(found, factors),
        None => false,
    }
}

/// The legs of sites.
pub(crate) fn legs<const K: usize>(
    alloc: Global,
    sites: &[SiteTable<K>],
) -> Result<Vec<Leg<K>>, AllocError>
    ensures are { IfOk result (λ v. v.items ≡ site_legs sites.now) }
    ensures out { IfOk result (λ v. All (λ l. l.arrow ≡ Out) v.items) }
{
    let mut legs = Vec::with_capacity(alloc, sites.len())?;
    for site in sites {
        site.known();
        legs.push(site.leg().copy()?)?;
    }
    Ok(legs)
}

// The tensor at this place of a list, or the first of F8 to F19. No list has as many as 2^32 tensors.
fn tensor_at<const K: usize>(
    alloc: Global,
    v: &Value,
    group: &Group<K>,
    base: u32,
    place: u32,
) -> Result<BlockTensor<K>, DocFault>
    ensures { Reads result (tensor_fault group.now (base + place) (view v.now))
        (λ t. (t ≡ tensor_of group.now (view v.now)) × IsStateTensor group.now t) }
{
    let Some(number) = base.checked_add(place) else {
        return Err(DocFault::Memory);
    };
    let tensor = tensor(alloc, v, group, number)?;
    Ok(tensor)
}

// The tensors of a list, or the first of F8 to F19, tensor by tensor; that at place j has the number
// base + j.
fn each_tensor<const K: usize>(
    alloc: Global,
    list: &[Value],
    group: &Group<K>,
    base: u32,
) -> Result<Vec<BlockTensor<K>>, DocFault>
    ensures { Reads result (first_of (λ k t. tensor_fault group.now (base + k) t) (map view list.now))
        (λ made. (made.items ≡ map (tensor_of group.now) (map view list.now)) × All (IsStateTensor group.now) made.items) }
{
    let mut made = Vec::new(alloc);
    let mut before: u32 = 0;
    let mut rest = list;
    while let [v, tail @ ..] = rest {
        let Some(place) = before.checked_add(1) else {
            return Err(DocFault::Memory);
        };
        made.push(tensor_at(alloc, v, group, base, place)?)?;
        before = place;
        rest = tail;
    }
    Ok(made)
}

// The place of a fault of a chain. No chain has as many as 2^32 sites.
fn at_site(code: u32, base: u32, site: usize) -> DocFault
    ensures { Fails result (Some (fault code (base + site) 0 0)) }
{
    match u32::try_from(site) {
        Ok(site) => match base.checked_add(site) {
            Some(tensor) => DocFault::Bad(Fault::at(code, tensor, 0, 0)),
            None => DocFault::Memory,
        },
        Err(_) => DocFault::Memory,
    }
}

fn placed(fault: ChainFault, base: u32) -> DocFault
    ensures { Fails result (placed base fault) }
{
    match fault {
        ChainFault::ChainShape { site } => at_site(34, base, site),
        ChainFault::LinkClash { site } => at_site(35, base, site),
        ChainFault::Memory => DocFault::Memory,
    }
}

// F34 for the count, and then the tensors.
fn tensors<const K: usize>(
    alloc: Global,
    v: &Value,
    key: &str,
    group: &Group<K>,
    count: usize,
    base: u32,
) -> Result<Vec<BlockTensor<K>>, DocFault>
    requires group { group.now ≡ factors_of (view v.now) }
    requires count { count ≡ length (sites_of (view v.now)) }
    ensures { Reads result (tensors_fault key.now base (view v.now)) (λ made. AreTensorsOf key.now (view v.now) made.items) }
{
    let list = items_at(v, key);
    if list.len() != count {
        return Err(DocFault::Bad(Fault::at(34, base, 0, 0)));
    }
    let made = each_tensor(alloc, list, group, base)?;
    Ok(made)
}

// The state of these tensors, or the first of F34 and F35.
fn state<const K: usize>(
    alloc: Global,
    v: &Value,
    key: &str,
    group: &Group<K>,
    legs: &[Leg<K>],
    tensors: Vec<BlockTensor<K>>,
    base: u32,
) -> Result<Chain<K>, DocFault>
    requires group { group.now ≡ factors_of (view v.now) }
    requires legs { AreLegsOf (view v.now) legs.now }
    requires tensors { AreTensorsOf key.now (view v.now) tensors.items }
    ensures { ReadsBy None (IsLegsFault key.now base (view v.now)) (IsChainOf key.now (view v.now)) result }
{
    match Chain::state(alloc, *group, legs, tensors) {
        Ok(chain) => Ok(chain),
        Err(fault) => Err(placed(fault, base)),
    }
}

/// The state under the key, or the first of its faults; the tensor on site j has the number base + j.
#[tactic(auto, using(qn_doc::proofs::Reading::fails_early))]
pub(crate) fn chain<const K: usize>(
    alloc: Global,
    v: &Value,
    key: &str,
    group: &Group<K>,
    legs: &[Leg<K>],
    base: u32,
) -> Result<Chain<K>, DocFault>
    requires group { group.now ≡ factors_of (view v.now) }
    requires legs { AreLegsOf (view v.now) legs.now }
    ensures { ReadsBy (tensors_fault key.now base (view v.now)) (IsLegsFault key.now base (view v.now)) (IsChainOf key.now (view v.now)) result }
{
    let tensors = tensors(alloc, v, key, group, legs.len(), base)?;
    state(alloc, v, key, group, legs, tensors, base)
}

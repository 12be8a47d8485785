//! The states: chains of drawn tensors.

ghost use Rattle.std.specs.Prelude.{◌≡◌, ◌<◌, ◌≤◌, IfOk, OnOk};
ghost use Rattle.std.specs.List.{range_with_len};
ghost use Rattle.qn_gen.specs.Workload.{drawn_chain, drawn_tensor as drawn_on, entries_at, entries_in, flux_at as flux_on, group as fermion_group, leg_list, site_leg, state_on, turned};

use crate::draw::Draws;
use crate::links::legs_at;
use crate::sizes::particles;
use crate::tensor::drawn_tensor;
use qn_block::BlockTensor;
use qn_charge::{Charge, Group};
use qn_index::Leg;
use qn_mps::{Chain, ChainFault};
use std::alloc::{AllocError, Global};

/// The flux of the tensor on a site, from 1: all fermions at the last site.
fn flux_at(count: u32, site: u32) -> Charge<1>
    ensures { result ≡ flux_on count site }
{
    if site == count {
        Charge::new(&[i64::from(particles(count))])
    } else {
        Charge::new(&[0])
    }
}

/// The tensor on a site, from 1.
fn tensor_at(
    alloc: Global,
    group: &Group<1>,
    own: &Leg<1>,
    count: u32,
    site: u32,
    draws: &mut Draws,
) -> Result<BlockTensor<1>, AllocError>
    requires group { group.now ≡ fermion_group }
    requires own { own.now ≡ site_leg }
    requires few { count ≤ 32 }
    requires some { 0 < site }
    requires within { site ≤ count }
    ensures tensor { IfOk result (λ t. t ≡ drawn_on draws.old.x count 0 site) }
    ensures state { OnOk result (draws.new.x ≡ turned draws.old.x (entries_at count site)) }
{
    let legs = legs_at(alloc, group, own, count, site)?;
    drawn_tensor(alloc, group, legs, flux_at(count, site), draws)
}

/// The tensors, one for each site.
fn tensors(
    alloc: Global,
    group: &Group<1>,
    own: &Leg<1>,
    count: u32,
    draws: &mut Draws,
) -> Result<Vec<BlockTensor<1>>, AllocError>
    requires group { group.now ≡ fermion_group }
    requires own { own.now ≡ site_leg }
    requires few { count ≤ 32 }
    ensures tensors { IfOk result (λ v. v.items ≡ drawn_chain draws.old.x count 0 (range_with_len 1 count)) }
    ensures state { OnOk result (draws.new.x ≡ turned draws.old.x (entries_in count)) }
{
    let mut tensors = Vec::with_capacity(alloc, count as usize)?;
    for k in 0..count {
        tensors.push(tensor_at(alloc, group, own, count, k + 1, draws)?)?;
    }
    Ok(tensors)
}

/// A state on so many sites with these legs.
pub(crate) fn drawn_state(
    alloc: Global,
    group: &Group<1>,
    sites: &[Leg<1>],
    count: u32,
    draws: &mut Draws,
) -> Result<Chain<1>, AllocError>
    requires group { group.now ≡ fermion_group }
    requires sites { sites.now ≡ leg_list count }
    requires some { 0 < count }
    requires few { count ≤ 32 }
    ensures state { IfOk result (λ c. c ≡ state_on count (drawn_chain draws.old.x count 0 (range_with_len 1 count))) }
    ensures draws { OnOk result (draws.new.x ≡ turned draws.old.x (entries_in count)) }
{
    let tensors = tensors(alloc, group, &sites[0], count, draws)?;
    match Chain::state(alloc, *group, sites, tensors) {
        Ok(chain) => Ok(chain),
        Err(ChainFault::Memory) => Err(AllocError),
        Err(ChainFault::ChainShape { .. }) => unreachable!(),
        Err(ChainFault::LinkClash { .. }) => unreachable!(),
    }
}

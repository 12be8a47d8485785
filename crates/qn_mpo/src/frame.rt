//! The links of an automaton, and its tensors without entries.
ghost use Rattle.std.specs.Prelude.{◌≡◌, ◌<◌, ◌++◌, [], length, IfOk, IfErr, OnOk};
ghost use Rattle.qn_charge.specs.Firsts.{HasNone};
ghost use Rattle.qn_index.specs.Extents.{IsTooWide};
ghost use Rattle.qn_index.specs.Tuples.{IsFlux};
ghost use Rattle.qn_auto.specs.SumAutomaton.{HasShapeAt, IsWideAt, flux_at, is_last, left_legs, legs_at, right_legs, terms_in};
ghost use Rattle.qn_opsum.specs.Sums.{SumValue};
ghost use Rattle.qn_mpo.specs.Builds.{IsSkeletonFault};
ghost use Rattle.qn_mpo.specs.Links.{AreEmpty, AreLinks, IsShapeStop, link_value};

use crate::fault::BuildFault;
use crate::link::{Link, link_of};
use crate::term::Ordered;
use qn_block::{BlockFault, BlockTensor};
use qn_charge::{Abelian, Charge};
use qn_index::Leg;
use qn_opsum::OpSum;
use std::alloc::{AllocError, Global};

/// The links right of all sites, and the tensors of all sites without blocks.
#[derive(Debug, Drop)]
pub(crate) struct Frame<const K: usize> {
    pub(crate) links: Vec<Link<K>>,
    pub(crate) tensors: Vec<BlockTensor<K>>,
}

/// Whether a site is the last.
fn is_last<const K: usize>(sum: &OpSum<K>, j: u32) -> bool
    ensures { result ≡ is_last sum.now j }
{
    j as usize + 1 == sum.sites().len()
}

/// Adds the leg left of the site after these links, the flip of the last link's; the first site has none.
fn add_left<const K: usize>(links: &[Link<K>], legs: &mut Vec<Leg<K>>) -> Result<(), AllocError>
    ensures { OnOk result (
        (v : SumValue) → AreLinks v (length links.now) links.now →
        legs.new.items ≡ legs.old.items ++ left_legs v (length links.now)) }
{
    let count = links.len();
    if count == 0 {
        return Ok(());
    }
    legs.push(links[count - 1].leg().copy()?.flip())?;
    Ok(())
}

/// Adds the leg right of a site; the last site has none.
fn add_right<const K: usize>(
    sum: &OpSum<K>,
    j: u32,
    link: &Link<K>,
    legs: &mut Vec<Leg<K>>,
) -> Result<(), AllocError>
    requires { link.now ≡ link_value sum.now j }
    ensures { OnOk result (legs.new.items ≡ legs.old.items ++ right_legs sum.now j) }
{
    if is_last(sum, j) {
        return Ok(());
    }
    legs.push(link.leg().copy()?)?;
    Ok(())
}

/// The legs of a site's tensor: left Out, those of the site Out and In, right In.
fn site_legs<const K: usize>(
    alloc: Global,
    sum: &OpSum<K>,
    j: u32,
    links: &[Link<K>],
    link: &Link<K>,
) -> Result<Vec<Leg<K>>, AllocError>
    requires within { j < length sum.now.sites }
    requires left { AreLinks sum.now j links.now }
    requires right { link.now ≡ link_value sum.now j }
    ensures { IfOk result (λ v. v.items ≡ legs_at sum.now j) }
{
    let own = sum.sites()[j as usize].leg();
    let mut legs = Vec::with_capacity(alloc, 4)?;
    add_left(links, &mut legs)?;
    legs.push(own.copy()?)?;
    legs.push(own.copy()?.flip())?;
    add_right(sum, j, link, &mut legs)?;
    Ok(legs)
}

/// The flux of a site's tensor: that of the sum at the last site, and zero before.
fn site_flux<const K: usize>(sum: &OpSum<K>, j: u32) -> Charge<K>
    ensures value { result ≡ flux_at sum.now j }
    ensures flux { IsFlux sum.now.group result }
{
    sum.known();
    if j as usize + 1 == sum.sites().len() {
        *sum.flux()
    } else {
        sum.group().zero()
    }
}

/// A tensor without blocks, or Wide where it is too wide.
fn empty_tensor<const K: usize>(
    alloc: Global,
    sum: &OpSum<K>,
    j: u32,
    legs: Vec<Leg<K>>,
) -> Result<BlockTensor<K>, BuildFault>
    requires within { j < length sum.now.sites }
    requires legs { legs.items ≡ legs_at sum.now j }
    ensures ok { IfOk result (HasShapeAt sum.now j) }
    ensures empty { IfOk result (λ t. t.blocks ≡ []) }
    ensures narrow { OnOk result (IsTooWide sum.now.group (legs_at sum.now j) (flux_at sum.now j) → ⊥) }
    ensures err { IfErr result (IsShapeStop sum.now j) }
{
    sum.known();
    let flux = site_flux(sum, j);
    match BlockTensor::new(alloc, *sum.group(), legs, flux, Vec::new(alloc)) {
        Ok(tensor) => {
            tensor.known();
            Ok(tensor)
        }
        Err(BlockFault::Memory) => Err(BuildFault::Memory),
        Err(_) => Err(BuildFault::Wide { site: j + 1 }),
    }
}

/// The links and the tensors, or the first site that is too wide.
pub(crate) fn frame_of<const K: usize>(
    alloc: Global,
    sum: &OpSum<K>,
    terms: &[Ordered],
) -> Result<Frame<K>, BuildFault>
    requires { terms.now ≡ terms_in sum.now }
    ensures links { IfOk result (λ f. AreLinks sum.now (length sum.now.sites) f.links.items) }
    ensures tensors { IfOk result (λ f. AreEmpty sum.now (length sum.now.sites) f.tensors.items) }
    ensures narrow { OnOk result (HasNone (IsWideAt sum.now)) }
    ensures err { IfErr result (IsSkeletonFault sum.now) }
{
    sum.known();
    let count = sum.sites().len();
    let mut links = Vec::with_capacity(alloc, count)?;
    let mut tensors = Vec::with_capacity(alloc, count)?;
    for j in 0..count as u32 {
        let link = link_of(alloc, sum, terms, j)?;
        link.leg().known();
        let legs = site_legs(alloc, sum, j, &links, &link)?;
        tensors.push(empty_tensor(alloc, sum, j, legs)?)?;
        links.push(link)?;
    }
    Ok(Frame { links, tensors })
}

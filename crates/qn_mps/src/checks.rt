//! Whether tensors have the legs of a chain, and whether those between neighbours meet.

ghost use Rattle.std.specs.Prelude.{◌≡◌, ◌↔◌, ◌<◌, ◌+◌, ◌≤◌, length, take, drop, IsTrue, MatchOption};
ghost use Rattle.qn_charge.specs.Firsts.{IsFirst};
ghost use Rattle.qn_index.specs.Legs.{LegValue, flipped};
ghost use Rattle.qn_braket.specs.Chains.{AreLegsOf, HasLink, legs_left, legs_right, tensor_at};
ghost use Rattle.qn_mps.specs.Chains.{legs_of};
ghost use Rattle.qn_mps.specs.Refusals.{BadLegsAt, ClashAt, HaveLegs, IsFaultless, IsChainFault};

use crate::chain::ChainKind;
use crate::fault::ChainFault;
use qn_block::BlockTensor;
use qn_index::{Leg, same_sectors};

/// Whether two legs are the same.
pub fn same_leg<const K: usize>(a: &Leg<K>, b: &Leg<K>) -> bool
    ensures { IsTrue result ↔ (a.now ≡ b.now) }
{
    a.dir() == b.dir() && same_sectors(a.sectors(), b.sectors())
}

/// Whether a leg is another one with the other arrow.
fn is_flip<const K: usize>(a: &Leg<K>, b: &Leg<K>) -> bool
    ensures { IsTrue result ↔ (a.now ≡ flipped b.now) }
{
    a.meets(b).is_none()
}

/// How many legs of its site each tensor has.
fn site_legs(kind: ChainKind) -> usize
    ensures count { (site : LegValue) → result ≡ length (legs_of kind site) }
    ensures few { result ≤ 2 }
{
    match kind {
        ChainKind::State => 1,
        ChainKind::Operator => 2,
    }
}

/// How many legs stand left of those of the site.
fn legs_left(place: usize) -> usize
    ensures count { result ≡ legs_left place }
    ensures few { result ≤ 1 }
{
    if place == 0 { 0 } else { 1 }
}

/// How many legs stand right of those of the site.
fn legs_right(count: usize, place: usize) -> usize
    requires { place < count }
    ensures count { result ≡ legs_right count place }
    ensures few { result ≤ 1 }
{
    if place + 1 == count { 0 } else { 1 }
}

/// Whether the legs of the site stand from a place on.
fn stand_at<const K: usize>(kind: ChainKind, site: &Leg<K>, legs: &[Leg<K>], at: usize) -> bool
    requires room { at + length (legs_of kind site.now) ≤ length legs.now }
    ensures { IsTrue result ↔ (take (length (legs_of kind site.now)) (drop at legs.now) ≡ legs_of kind site.now) }
{
    match kind {
        ChainKind::State => same_leg(&legs[at], site),
        ChainKind::Operator => same_leg(&legs[at], site) && is_flip(&legs[at + 1], site),
    }
}

/// Whether a tensor has the legs of its place.
fn has_legs<const K: usize>(
    kind: ChainKind,
    count: usize,
    place: usize,
    site: &Leg<K>,
    legs: &[Leg<K>],
) -> bool
    requires within { place < count }
    ensures { IsTrue result ↔ AreLegsOf (legs_of kind site.now) count place legs.now }
{
    let left = legs_left(place);
    if legs.len() != left + (site_legs(kind) + legs_right(count, place)) {
        return false;
    }
    stand_at(kind, site, legs, left)
}

/// The first place whose tensor has not the legs of its place.
fn first_bad_legs<const K: usize>(
    kind: ChainKind,
    sites: &[Leg<K>],
    tensors: &[BlockTensor<K>],
) -> Option<usize>
    requires count { length tensors.now ≡ length sites.now }
    ensures { MatchOption result (HaveLegs kind sites.now tensors.now) (IsFirst (BadLegsAt kind sites.now tensors.now)) }
{
    for place in 0..sites.len() {
        let legs = tensors[place].legs();
        if !has_legs(kind, sites.len(), place, &sites[place], legs) {
            return Some(place);
        }
    }
    None
}

/// Whether the legs between a place and the next one meet.
fn are_linked<const K: usize>(tensors: &[BlockTensor<K>], place: usize) -> bool
    requires within { place + 1 < length tensors.now }
    requires left { 0 < length (tensor_at tensors.now place).legs }
    requires right { 0 < length (tensor_at tensors.now (place + 1)).legs }
    ensures { IsTrue result ↔ HasLink tensors.now place }
{
    let left = tensors[place].legs();
    let right = tensors[place + 1].legs();
    left[left.len() - 1].meets(&right[0]).is_none()
}

/// The first place whose right leg does not meet the left leg of the next one.
fn first_clash<const K: usize>(
    kind: ChainKind,
    sites: &[Leg<K>],
    tensors: &[BlockTensor<K>],
) -> Option<usize>
    requires { HaveLegs kind sites.now tensors.now }
    ensures { MatchOption result (IsFaultless kind sites.now tensors.now) (IsFirst (ClashAt tensors.now)) }
{
    for place in 1..sites.len() {
        if !are_linked(tensors, place - 1) {
            return Some(place - 1);
        }
    }
    None
}

/// The first reason why tensors are no chain on these sites.
pub(crate) fn first_fault<const K: usize>(
    kind: ChainKind,
    sites: &[Leg<K>],
    tensors: &[BlockTensor<K>],
) -> Option<ChainFault>
    ensures { MatchOption result (IsFaultless kind sites.now tensors.now) (IsChainFault kind sites.now tensors.now) }
{
    if tensors.len() != sites.len() {
        return Some(ChainFault::ChainShape { site: 0 });
    }
    match first_bad_legs(kind, sites, tensors) {
        Some(place) => return Some(ChainFault::ChainShape { site: place + 1 }),
        None => {}
    }
    match first_clash(kind, sites, tensors) {
        Some(place) => Some(ChainFault::LinkClash { site: place + 1 }),
        None => None,
    }
}

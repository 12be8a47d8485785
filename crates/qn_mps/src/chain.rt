//! Chains of tensors on sites in a row.

ghost use Rattle.std.specs.Prelude.{◌≡◌, ◌<◌, ◌≤◌, ◌^◌, ◌-◌, length, IfOk, IfErr, OnOk};
ghost use Rattle.std.specs.List.{All};
ghost use Rattle.qn_charge.specs.Charges.{IsWithin};
ghost use Rattle.qn_index.specs.declared.leg.Dir.TheVariants.{Out};
ghost use Rattle.qn_block.specs.Blocked.{IsBlocked};
ghost use Rattle.qn_mps.specs.declared.chain.ChainKind.TheVariants.{State as state_kind, Operator as operator_kind};
ghost use Rattle.qn_braket.specs.Chains.{tensor_at};
ghost use Rattle.qn_mps.specs.Chains.{ChainValue, IsHeld, with_tensor};
ghost use Rattle.qn_mps.specs.Refusals.{IsFaultless, IsChainFault};

use crate::checks::first_fault;
use crate::fault::ChainFault;
use qn_block::BlockTensor;
use qn_charge::Group;
use qn_index::{Leg, copy_legs};
use std::alloc::{AllocError, Global};
use std::marker::Model;

/// What a chain stands for.
#[derive(Clone, Copy, Debug, PartialEq, Eq)]
pub enum ChainKind {
    /// A state: each tensor has one leg of its site, s.
    State,
    /// An operator: each tensor has two legs of its site, s' and s.
    Operator,
}

/// One of the two states of an expectation.
#[derive(Clone, Copy, Debug, PartialEq, Eq)]
pub enum Who {
    Bra,
    Ket,
}

/// A state or an operator on 1 to 64 sites in a row: one tensor for each site. Its legs are left, those of the site,
/// right; the first tensor has no left leg, the last no right one. The legs between two neighbours meet, with either
/// arrow first.
#[derive(Debug, Drop)]
pub struct Chain<const K: usize> {
    group: Group<K>,
    kind: ChainKind,
    sites: Vec<Leg<K>>,
    tensors: Vec<BlockTensor<K>>,
}

impl<const K: usize> Model for Chain<K> {
    ghost use Rattle.qn_mps.specs.Chains.{ChainValue, IsHeld};

    ghost Value = { ChainValue };

    ghost view = { λ c. record { group = c.group; kind = c.kind; sites = c.sites.items; tensors = c.tensors.items } };

    ghost invariant = { λ c. IsHeld (record { group = c.group; kind = c.kind; sites = c.sites.items; tensors = c.tensors.items }) };
}

/// Equal tensors.
fn copy_tensors<const K: usize>(
    alloc: Global,
    tensors: &[BlockTensor<K>],
) -> Result<Vec<BlockTensor<K>>, AllocError>
    ensures { IfOk result (λ v. v.items ≡ tensors.now) }
{
    let mut copies = Vec::with_capacity(alloc, tensors.len())?;
    for tensor in tensors {
        copies.push(tensor.copy()?)?;
    }
    Ok(copies)
}

/// What holds of each tensor.
fn known_tensors<const K: usize>(tensors: &[BlockTensor<K>])
    ensures { All IsBlocked tensors.now }
{
    for tensor in tensors {
        tensor.known();
    }
}

impl<const K: usize> Chain<K> {
    /// The chain of this kind, or the first reason why there is none.
    fn checked(
        alloc: Global,
        kind: ChainKind,
        group: Group<K>,
        sites: &[Leg<K>],
        tensors: Vec<BlockTensor<K>>,
    ) -> Result<Chain<K>, ChainFault>
        requires some { 0 < length sites.now }
        requires few { length sites.now ≤ 64 }
        requires out { All (λ l. l.arrow ≡ Out) sites.now }
        requires group { All (λ t. t.group ≡ group) tensors.items }
        requires fluxes { All (λ t. IsWithin (2 ^ 41) group t.flux) tensors.items }
        ensures ok { IfOk result (λ c.
            c ≡ record { group = group.entry; kind = kind; sites = sites.now; tensors = tensors.entry.items }) }
        ensures faultless { OnOk result (IsFaultless kind sites.now tensors.entry.items) }
        ensures err { IfErr result (IsChainFault kind sites.now tensors.entry.items) }
    {
        group.known();
        known_tensors(&tensors);
        match first_fault(kind, sites, &tensors) {
            Some(fault) => return Err(fault),
            None => {}
        }
        let sites = copy_legs(alloc, sites)?;
        Ok(Chain {
            group,
            kind,
            sites,
            tensors,
        })
    }

    /// The state of these tensors on sites with these legs. The first tensor has the legs s, right; one in the middle
    /// left, s, right; the last left, s; a single one s. The leg s is the site's.
    pub fn state(
        alloc: Global,
        group: Group<K>,
        sites: &[Leg<K>],
        tensors: Vec<BlockTensor<K>>,
    ) -> Result<Chain<K>, ChainFault>
        requires some { 0 < length sites.now }
        requires few { length sites.now ≤ 64 }
        requires out { All (λ l. l.arrow ≡ Out) sites.now }
        requires group { All (λ t. t.group ≡ group) tensors.items }
        requires fluxes { All (λ t. IsWithin (2 ^ 41) group t.flux) tensors.items }
        ensures ok { IfOk result (λ c.
            c ≡ record { group = group.entry; kind = state_kind; sites = sites.now; tensors = tensors.entry.items }) }
        ensures faultless { OnOk result (IsFaultless state_kind sites.now tensors.entry.items) }
        ensures err { IfErr result (IsChainFault state_kind sites.now tensors.entry.items) }
    {
        Chain::checked(alloc, ChainKind::State, group, sites, tensors)
    }

    /// The operator of these tensors on sites with these legs: as a state, but with the legs s', s in the place of s.
    /// The leg s' is the site's, the leg s its flip.
    pub fn operator(
        alloc: Global,
        group: Group<K>,
        sites: &[Leg<K>],
        tensors: Vec<BlockTensor<K>>,
    ) -> Result<Chain<K>, ChainFault>
        requires some { 0 < length sites.now }
        requires few { length sites.now ≤ 64 }
        requires out { All (λ l. l.arrow ≡ Out) sites.now }
        requires group { All (λ t. t.group ≡ group) tensors.items }
        requires fluxes { All (λ t. IsWithin (2 ^ 41) group t.flux) tensors.items }
        ensures ok { IfOk result (λ c.
            c ≡
            record { group = group.entry; kind = operator_kind; sites = sites.now; tensors = tensors.entry.items }) }
        ensures faultless { OnOk result (IsFaultless operator_kind sites.now tensors.entry.items) }
        ensures err { IfErr result (IsChainFault operator_kind sites.now tensors.entry.items) }
    {
        Chain::checked(alloc, ChainKind::Operator, group, sites, tensors)
    }

    /// What holds of each chain. Nothing is done.
    pub fn known(&self)
        ensures { IsHeld self.now }
    {
        let _group = &self.group;
    }

    /// The allocator of the tensors.
    pub(crate) fn allocator(&self) -> Global {
        *self.tensors.allocator()
    }

    /// The group of the charges.
    pub fn group(&self) -> &Group<K>
        ensures { result.now ≡ self.now.group }
    {
        &self.group
    }

    /// What the chain stands for.
    pub fn kind(&self) -> ChainKind
        ensures { result ≡ self.now.kind }
    {
        self.kind
    }

    /// The legs of the sites, all Out.
    pub fn sites(&self) -> &[Leg<K>]
        ensures { result.now ≡ self.now.sites }
    {
        &self.sites
    }

    /// The tensors, one for each site.
    pub fn tensors(&self) -> &[BlockTensor<K>]
        ensures { result.now ≡ self.now.tensors }
    {
        &self.tensors
    }

    /// Puts a tensor in the place of the one on a site, counted from 1. It has the legs and the flux of the one that it
    /// replaces. All other tensors stay. No memory is taken.
    pub fn put(&mut self, site: u32, tensor: BlockTensor<K>)
        requires some { 1 ≤ site }
        requires few { site ≤ length self.old.tensors }
        requires group { tensor.group ≡ self.old.group }
        requires legs { tensor.legs ≡ (tensor_at self.old.tensors (site - 1)).legs }
        requires flux { tensor.flux ≡ (tensor_at self.old.tensors (site - 1)).flux }
        ensures { self.new ≡ with_tensor self.old (site - 1) tensor.entry }
    {
        tensor.known();
        let place = site as usize - 1;
        self.tensors[place] = tensor;
    }

    /// An equal chain.
    pub fn copy(&self) -> Result<Chain<K>, AllocError>
        ensures { IfOk result (λ c. c ≡ self.now) }
    {
        let alloc = self.allocator();
        let sites = copy_legs(alloc, &self.sites)?;
        let tensors = copy_tensors(alloc, &self.tensors)?;
        Ok(Chain {
            group: self.group,
            kind: self.kind,
            sites,
            tensors,
        })
    }
}

//! Two states and an operator on the same sites.

ghost use Rattle.std.specs.Prelude.{◌≡◌, ◌≤◌, ◌<◌, ◌-◌, length, IfOk};
ghost use Rattle.qn_mps.specs.Chains.{IsHeld};
ghost use Rattle.qn_corr.specs.Correlators.{CorrValue, AreMatched, IsNetworkOf, chain_of, tensor_on, with_site};

use qn_block::BlockTensor;
use qn_mps::{Chain, Who, expect_net};
use qn_net::Network;
use std::alloc::AllocError;
use std::marker::Model;

/// Two states and an operator of one group, on the same sites.
#[derive(Drop)]
pub(crate) struct Chains<const K: usize> {
    pub bra: Chain<K>,
    pub op: Chain<K>,
    pub ket: Chain<K>,
}

impl<const K: usize> Model for Chains<K> {
    ghost use Rattle.qn_corr.specs.Correlators.{CorrValue, AreMatched};

    ghost Value = { CorrValue };

    ghost view = { λ c. record { bra = c.bra; op = c.op; ket = c.ket } };

    ghost invariant = { λ c. AreMatched c.bra c.op c.ket };
}

impl<const K: usize> Chains<K> {
    /// What holds of the chains. Nothing is done.
    pub(crate) fn known(&self)
        ensures matched { AreMatched self.now.bra self.now.op self.now.ket }
        ensures bra { IsHeld self.now.bra }
        ensures op { IsHeld self.now.op }
        ensures ket { IsHeld self.now.ket }
    {
        self.bra.known();
        self.op.known();
        self.ket.known();
    }

    /// The number of sites.
    pub(crate) fn sites(&self) -> usize
        ensures { result ≡ length self.now.bra.tensors }
    {
        let tensors = self.bra.tensors();
        tensors.len()
    }

    /// The network of the expectation.
    pub(crate) fn network(&self) -> Result<Network<K>, AllocError>
        ensures { IfOk result (IsNetworkOf self.now) }
    {
        expect_net(&self.bra, &self.op, &self.ket)
    }

    /// The tensor at a place of one of the two states.
    pub(crate) fn tensor(&self, who: Who, place: usize) -> &BlockTensor<K>
        requires { place < length self.now.bra.tensors }
        ensures { result.now ≡ tensor_on self.now who place }
    {
        self.bra.known();
        self.op.known();
        self.ket.known();
        match who {
            Who::Bra => {
                let tensors = self.bra.tensors();
                &tensors[place]
            }
            Who::Ket => {
                let tensors = self.ket.tensors();
                &tensors[place]
            }
        }
    }

    /// Puts a tensor in the place of the one on a site, counted from 1, of one of the two states.
    pub(crate) fn put(&mut self, who: Who, site: u32, tensor: BlockTensor<K>)
        requires low { 1 ≤ site }
        requires high { site ≤ length self.old.bra.tensors }
        requires group { tensor.group ≡ self.old.bra.group }
        requires legs { tensor.legs ≡ (tensor_on self.old who (site - 1)).legs }
        requires flux { tensor.flux ≡ (tensor_on self.old who (site - 1)).flux }
        ensures { self.new ≡ with_site self.old who (site - 1) tensor.entry }
    {
        self.bra.known();
        self.op.known();
        self.ket.known();
        match who {
            Who::Bra => self.bra.put(site, tensor),
            Who::Ket => self.ket.put(site, tensor),
        }
    }
}

//! Whether a chain is standard.

ghost use Rattle.std.specs.Prelude.{◌≡◌, ◌↔◌, ◌<◌, ◌+◌, length, IsTrue};
ghost use Rattle.qn_charge.specs.Charges.{zero_charge};
ghost use Rattle.qn_braket.specs.Chains.{tensor_at};
ghost use Rattle.qn_algebra.specs.Standard.{IsStandard};
ghost use Rattle.qn_mps.specs.StandardLinks.{IsStandardAt};

use crate::chain::Chain;
use qn_block::BlockTensor;
use qn_charge::{Abelian, Charge, Group};
use qn_index::Dir;

/// Whether the link after a place has the arrows of a standard chain and the tensor there has this flux, which is zero.
fn is_standard_at<const K: usize>(
    zero: &Charge<K>,
    tensors: &[BlockTensor<K>],
    place: usize,
) -> bool
    requires within { place + 1 < length tensors.now }
    requires left { 0 < length (tensor_at tensors.now place).legs }
    requires right { 0 < length (tensor_at tensors.now (place + 1)).legs }
    ensures { IsTrue result ↔ IsStandardAt zero.now tensors.now place }
{
    let left = tensors[place].legs();
    let right = tensors[place + 1].legs();
    left[left.len() - 1].dir() == Dir::In
        && right[0].dir() == Dir::Out
        && tensors[place].flux().same(zero)
}

impl<const K: usize> Chain<K> {
    /// Whether each leg left is Out, each leg right is In, and each tensor's flux but the last's is zero. Takes no
    /// memory.
    pub fn standard(&self) -> bool
        ensures { IsTrue result ↔ IsStandard self.now.group self.now.tensors }
    {
        self.known();
        let zero = self.group().zero();
        let tensors = self.tensors();
        for place in 1..tensors.len() {
            if !is_standard_at(&zero, tensors, place - 1) {
                return false;
            }
        }
        true
    }
}

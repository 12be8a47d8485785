//! A tensor from its blocks, checked.

ghost use Rattle.std.specs.Prelude.{◌≡◌, List, ℕ, IfOk, IfErr, OnOk};
ghost use Rattle.std.specs.Fn.{FnReturnsAt};
ghost use Rattle.std.specs.List.{All};
ghost use Rattle.qn_index.specs.Legs.{IsLegOf};
ghost use Rattle.qn_index.specs.Tuples.{IsFlux};
ghost use Rattle.qn_index.specs.Extents.{IsWithinLimits};
ghost use Rattle.qn_value.specs.Tensors.{IsBlock, AreAscending, entry_of};
ghost use Rattle.qn_block.specs.Blocked.{MeetFlux, tensor_of};
ghost use Rattle.qn_block.specs.Refusals.{IsBlockFault, IsShapeFault};

use crate::checks::{
    check_shape, first_bad_length, first_bad_tuple, first_not_ascending, first_off_flux,
};
use crate::fault::BlockFault;
use crate::from_fn::tensor_from;
use crate::tensor::{Block, BlockTensor};
use qn_charge::{Charge, Group};
use qn_gauss::Gauss;
use qn_index::Leg;
use std::alloc::Global;

/// What holds of the blocks of a tensor, or their first fault.
fn check_blocks<const K: usize>(
    group: &Group<K>,
    legs: &[Leg<K>],
    flux: &Charge<K>,
    blocks: &[Block],
) -> Result<(), BlockFault>
    requires group { All (IsLegOf group.now) legs.now }
    requires shape { IsWithinLimits group.now legs.now flux.now }
    ensures blocks { OnOk result (All (IsBlock group.now legs.now flux.now) blocks.now) }
    ensures ascending { OnOk result (AreAscending blocks.now) }
    ensures err { IfErr result (IsBlockFault group.now legs.now flux.now blocks.now) }
{
    match first_bad_tuple(legs, blocks) {
        Some(fault) => return Err(fault),
        None => {}
    }
    match first_off_flux(group, legs, flux, blocks) {
        Some(block) => return Err(BlockFault::OffFlux { block }),
        None => {}
    }
    match first_not_ascending(blocks) {
        Some(block) => return Err(BlockFault::NotAscending { block }),
        None => {}
    }
    match first_bad_length(legs, blocks) {
        Some(block) => return Err(BlockFault::DataLen { block }),
        None => {}
    }
    Ok(())
}

impl<const K: usize> BlockTensor<K> {
    /// The tensor of these blocks, or their first fault.
    pub fn new(
        alloc: Global,
        group: Group<K>,
        legs: Vec<Leg<K>>,
        flux: Charge<K>,
        blocks: Vec<Block>,
    ) -> Result<BlockTensor<K>, BlockFault>
        requires group { All (IsLegOf group) legs.items }
        requires flux { IsFlux group flux }
        ensures ok { IfOk result (λ t.
            t ≡ record { group = group.entry; legs = legs.entry.items; flux = flux.entry; blocks = blocks.items }) }
        ensures err { IfErr result (IsBlockFault group.entry legs.entry.items flux.entry blocks.items) }
    {
        check_shape(alloc, &group, &legs, &flux)?;
        check_blocks(&group, &legs, &flux, &blocks)?;
        Ok(BlockTensor::of_blocks(group, legs, flux, blocks))
    }

    /// The tensor whose entries are the function's answers. The function is called once at each
    /// value tuple in range that meets the flux, and nowhere else.
    pub fn from_fn<F: Fn(&[u32]) -> Gauss>(
        alloc: Global,
        group: Group<K>,
        legs: Vec<Leg<K>>,
        flux: Charge<K>,
        f: &F,
    ) -> Result<BlockTensor<K>, BlockFault>
        requires group { All (IsLegOf group) legs.items }
        requires flux { IsFlux group flux }
        requires callable { (x : _) → MeetFlux group legs.items flux x.now → F.pre f.now x }
        ensures group { IfOk result (λ t. t.group ≡ group.entry) }
        ensures legs { IfOk result (λ t. t.legs ≡ legs.entry.items) }
        ensures flux { IfOk result (λ t. t.flux ≡ flux.entry) }
        ensures entries { IfOk result (λ t.
            (xs : List ℕ) → MeetFlux t.group t.legs t.flux xs →
            FnReturnsAt F.Fn f.now xs (entry_of (tensor_of t) xs)) }
        ensures err { IfErr result (IsShapeFault group.entry legs.entry.items flux.entry) }
    {
        check_shape(alloc, &group, &legs, &flux)?;
        Ok(tensor_from(alloc, group, legs, flux, f)?)
    }
}

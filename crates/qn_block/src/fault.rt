//! Why blocks are no tensor, and why legs can't be fused.

use std::alloc::{AllocError, AllocFailed};
use thiserror::Error;

/// Why legs, a flux and blocks are no tensor. Blocks and legs are counted from 0.
#[derive(Clone, Copy, Debug, PartialEq, Eq, Error)]
pub enum BlockFault {
    /// More than 64 legs.
    #[error("more than 64 legs")]
    TooManyLegs,
    /// More than 2^20 tuples of sectors.
    #[error("more than 2^20 tuples of sectors")]
    TooManyTuples,
    /// More than 2^22 admissible entries.
    #[error("more than 2^22 admissible entries")]
    TooManyEntries,
    /// The block's tuple has not one number for each leg.
    #[error("block {block} has not one number for each leg")]
    Arity { block: usize },
    /// The number of the block's tuple at this leg is no sector of it.
    #[error("block {block} names no sector of leg {leg}")]
    BlockRange { block: usize, leg: usize },
    /// The block's tuple does not meet the flux.
    #[error("block {block} is off the flux")]
    OffFlux { block: usize },
    /// The block's tuple is not above that of the block before it.
    #[error("block {block} is not above the one before it")]
    NotAscending { block: usize },
    /// The block has not as many entries as its tuple asks for.
    #[error("block {block} has a wrong number of entries")]
    DataLen { block: usize },
    /// Memory was wanting.
    #[error("out of memory")]
    Memory,
}

impl From<AllocError> for BlockFault {
    ghost use Rattle.std.specs.Prelude.{◌≡◌};
    ghost use Rattle.qn_block.specs.declared.fault.BlockFault.TheVariants.{Memory};

    ghost from_gives = { λ _ e. e ≡ Memory };

    fn from(_e: AllocError) -> BlockFault {
        BlockFault::Memory
    }
}

impl<T: Drop> From<AllocFailed<T>> for BlockFault {
    ghost use Rattle.std.specs.Prelude.{◌≡◌};
    ghost use Rattle.qn_block.specs.declared.fault.BlockFault.TheVariants.{Memory};

    ghost from_gives = { λ _ e. e ≡ Memory };

    fn from(_e: AllocFailed<T>) -> BlockFault {
        BlockFault::Memory
    }
}

/// Why legs can't be fused.
#[derive(Clone, Copy, Debug, PartialEq, Eq, Error)]
pub enum FuseFault {
    /// There is no leg.
    #[error("no legs")]
    Empty,
    /// The fused leg breaks a limit of a leg: more than 64 charges, a sector of more than 65,536 values,
    /// more than 2^20 values, or a U(1) part above 10^9 in size.
    #[error("the fused leg is out of range")]
    FusedRange,
    /// Memory was wanting.
    #[error("out of memory")]
    Memory,
}

impl From<AllocError> for FuseFault {
    ghost use Rattle.std.specs.Prelude.{◌≡◌};
    ghost use Rattle.qn_block.specs.declared.fault.FuseFault.TheVariants.{Memory};

    ghost from_gives = { λ _ e. e ≡ Memory };

    fn from(_e: AllocError) -> FuseFault {
        FuseFault::Memory
    }
}

impl<T: Drop> From<AllocFailed<T>> for FuseFault {
    ghost use Rattle.std.specs.Prelude.{◌≡◌};
    ghost use Rattle.qn_block.specs.declared.fault.FuseFault.TheVariants.{Memory};

    ghost from_gives = { λ _ e. e ≡ Memory };

    fn from(_e: AllocFailed<T>) -> FuseFault {
        FuseFault::Memory
    }
}

//! Why a row makes nothing.

use qn_block::{BlockFault, FuseFault};
use qn_index::LegFault;
use std::alloc::{AllocError, AllocFailed};

/// Why a row makes nothing.
#[derive(Clone, Copy, Debug, PartialEq, Eq)]
pub enum SampleFault {
    /// The sectors are no leg.
    Leg(LegFault),
    /// A part of the flux is above 2^50 in size.
    Flux,
    /// A number is above the limit of an entry.
    Number,
    /// The legs, the flux and the blocks are no tensor.
    Block(BlockFault),
    /// The legs have no combiner.
    Fuse(FuseFault),
    /// More than 63 legs of a combiner.
    TooManyLegs,
    /// Memory was wanting.
    Memory,
}

impl From<AllocError> for SampleFault {
    fn from(_e: AllocError) -> SampleFault {
        SampleFault::Memory
    }
}

impl<T: Drop> From<AllocFailed<T>> for SampleFault {
    fn from(_e: AllocFailed<T>) -> SampleFault {
        SampleFault::Memory
    }
}

//! Why tensors are no chain of this kind on these sites.

use std::alloc::{AllocError, AllocFailed};
use thiserror::Error;

/// Why tensors are no chain. Sites are counted from 1.
#[derive(Clone, Copy, Debug, PartialEq, Eq, Error)]
pub enum ChainFault {
    /// The number of tensors is not that of the sites, where `site` is 0, or the tensor of this site has not the legs
    /// of its place.
    #[error("the tensor of site {site} has not the legs of its place (site 0: the number of tensors is wrong)")]
    ChainShape { site: usize },
    /// The leg right of this site and the leg left of the next one do not meet.
    #[error("the legs between site {site} and the next do not meet")]
    LinkClash { site: usize },
    /// Memory was wanting.
    #[error("out of memory")]
    Memory,
}

impl From<AllocError> for ChainFault {
    ghost use Rattle.std.specs.Prelude.{◌≡◌};
    ghost use Rattle.qn_mps.specs.declared.fault.ChainFault.TheVariants.{Memory};

    ghost from_gives = { λ _ e. e ≡ Memory };

    fn from(_e: AllocError) -> ChainFault {
        ChainFault::Memory
    }
}

impl<T: Drop> From<AllocFailed<T>> for ChainFault {
    ghost use Rattle.std.specs.Prelude.{◌≡◌};
    ghost use Rattle.qn_mps.specs.declared.fault.ChainFault.TheVariants.{Memory};

    ghost from_gives = { λ _ e. e ≡ Memory };

    fn from(_e: AllocFailed<T>) -> ChainFault {
        ChainFault::Memory
    }
}

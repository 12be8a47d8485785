//! Why a leg can't be split.
use std::alloc::{AllocError, AllocFailed};
use thiserror::Error;

/// Why a leg can't be split.
#[derive(Clone, Copy, Debug, PartialEq, Eq, Error)]
pub enum SplitFault {
    /// The result would have more than 64 legs, 2^20 tuples of sectors or 2^22 admissible entries.
    #[error("the split tensor is too wide")]
    TooWide,
    /// Memory was wanting.
    #[error("out of memory")]
    Memory,
}

impl From<AllocError> for SplitFault {
    ghost use Rattle.std.specs.Prelude.{◌≡◌};
    ghost use Rattle.qn_fuse.specs.declared.fault.SplitFault.TheVariants.{Memory};

    ghost from_gives = { λ _ e. e ≡ Memory };

    fn from(_e: AllocError) -> SplitFault {
        SplitFault::Memory
    }
}

impl<T: Drop> From<AllocFailed<T>> for SplitFault {
    ghost use Rattle.std.specs.Prelude.{◌≡◌};
    ghost use Rattle.qn_fuse.specs.declared.fault.SplitFault.TheVariants.{Memory};

    ghost from_gives = { λ _ e. e ≡ Memory };

    fn from(_e: AllocFailed<T>) -> SplitFault {
        SplitFault::Memory
    }
}

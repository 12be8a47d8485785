//! Why a step of a contraction stops.

use qn_index::Tuple;
use std::alloc::{AllocError, AllocFailed};
use thiserror::Error;

/// Why a step has no result.
#[derive(Debug, Drop, Error)]
pub enum StepFault {
    /// The first place of the result at which the sum of magnitudes is above 2^127 - 1: by the tuple of sectors,
    /// and in its block by the offset.
    #[error("the sum of magnitudes is above 2^127 - 1 at offset {offset} of a block")]
    Passed { at: Tuple, offset: u64 },
    /// Memory was wanting.
    #[error("out of memory")]
    Memory,
}

impl From<AllocError> for StepFault {
    ghost use Rattle.std.specs.Prelude.{◌≡◌};
    ghost use Rattle.qn_block.specs.declared.step.StepFault.TheVariants.{Memory};

    ghost from_gives = { λ _ e. e ≡ Memory };

    fn from(_e: AllocError) -> StepFault {
        StepFault::Memory
    }
}

impl<T: Drop> From<AllocFailed<T>> for StepFault {
    ghost use Rattle.std.specs.Prelude.{◌≡◌};
    ghost use Rattle.qn_block.specs.declared.step.StepFault.TheVariants.{Memory};

    ghost from_gives = { λ _ e. e ≡ Memory };

    fn from(_e: AllocFailed<T>) -> StepFault {
        StepFault::Memory
    }
}

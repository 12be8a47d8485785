//! Why a network has no value.

use qn_index::Tuple;
use std::alloc::{AllocError, AllocFailed};
use thiserror::Error;

/// Why a network has no value. Steps are numbered from 1.
#[derive(Debug, Drop, Error)]
pub enum EngineFault {
    /// The first step whose result has more than 64 legs, 2^20 tuples of sectors or 2^22 admissible entries.
    #[error("the result of step {step} is too wide")]
    Wide { step: u32 },
    /// The first place at which the sum of magnitudes of a step is above 2^127 - 1: by the step, then by the tuple
    /// of sectors of its result, and in its block by the offset.
    #[error("the sum of magnitudes of step {step} is above 2^127 - 1")]
    Passed { step: u32, at: Tuple, offset: u64 },
    /// Memory was wanting.
    #[error("out of memory")]
    Memory,
}

impl From<AllocError> for EngineFault {
    ghost use Rattle.std.specs.Prelude.{◌≡◌};
    ghost use Rattle.qn_engine.specs.declared.fault.EngineFault.TheVariants.{Memory};

    ghost from_gives = { λ _ e. e ≡ Memory };

    fn from(_e: AllocError) -> EngineFault {
        EngineFault::Memory
    }
}

impl<T: Drop> From<AllocFailed<T>> for EngineFault {
    ghost use Rattle.std.specs.Prelude.{◌≡◌};
    ghost use Rattle.qn_engine.specs.declared.fault.EngineFault.TheVariants.{Memory};

    ghost from_gives = { λ _ e. e ≡ Memory };

    fn from(_e: AllocFailed<T>) -> EngineFault {
        EngineFault::Memory
    }
}

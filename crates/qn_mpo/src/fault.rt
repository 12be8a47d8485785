//! Why an automaton can't be built.

use std::alloc::{AllocError, AllocFailed};
use thiserror::Error;

/// Why an operator sum has no automaton that can be kept. Sites are counted from 1.
#[derive(Clone, Copy, Debug, PartialEq, Eq, Error)]
pub enum BuildFault {
    /// The link right of this site has more than 64 charges, or its tensor is too wide.
    #[error("the automaton is too wide at site {site}")]
    Wide { site: u32 },
    /// A sum of magnitudes at this site is above 2^127 - 1.
    #[error("the automaton passes at site {site}")]
    Passed { site: u32 },
    /// Memory was wanting.
    #[error("out of memory")]
    Memory,
}

impl From<AllocError> for BuildFault {
    ghost use Rattle.std.specs.Prelude.{◌≡◌};
    ghost use Rattle.qn_mpo.specs.declared.fault.BuildFault.TheVariants.{Memory};

    ghost from_gives = { λ _ e. e ≡ Memory };

    fn from(_e: AllocError) -> BuildFault {
        BuildFault::Memory
    }
}

impl<T: Drop> From<AllocFailed<T>> for BuildFault {
    ghost use Rattle.std.specs.Prelude.{◌≡◌};
    ghost use Rattle.qn_mpo.specs.declared.fault.BuildFault.TheVariants.{Memory};

    ghost from_gives = { λ _ e. e ≡ Memory };

    fn from(_e: AllocFailed<T>) -> BuildFault {
        BuildFault::Memory
    }
}

/// Why the transitions from a state could not be made.
#[derive(Clone, Copy, Debug, PartialEq, Eq)]
pub(crate) enum Stop {
    /// A sum of magnitudes is above 2^127 - 1.
    Passes,
    /// Memory was wanting.
    Memory,
}

impl From<AllocError> for Stop {
    ghost use Rattle.std.specs.Prelude.{◌≡◌};
    ghost use Rattle.qn_mpo.specs.declared.fault.Stop.TheVariants.{Memory};

    ghost from_gives = { λ _ e. e ≡ Memory };

    fn from(_e: AllocError) -> Stop {
        Stop::Memory
    }
}

impl<T: Drop> From<AllocFailed<T>> for Stop {
    ghost use Rattle.std.specs.Prelude.{◌≡◌};
    ghost use Rattle.qn_mpo.specs.declared.fault.Stop.TheVariants.{Memory};

    ghost from_gives = { λ _ e. e ≡ Memory };

    fn from(_e: AllocFailed<T>) -> Stop {
        Stop::Memory
    }
}

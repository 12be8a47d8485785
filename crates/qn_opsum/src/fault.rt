//! Why a sum is refused.

use std::alloc::{AllocError, AllocFailed};
use thiserror::Error;

/// Why terms are no operator sum. Terms are counted from 0, their operators from 1.
#[derive(Clone, Copy, Debug, PartialEq, Eq, Error)]
pub enum SumFault {
    /// No term, or more than 2,000.
    #[error("no term, or more than 2,000")]
    TermCount,
    /// The term has more than 32 operators, where `item` is 0, or this operator's site is not there.
    #[error("operator {item} of term {term} is on no site")]
    SiteRange { term: usize, item: usize },
    /// The site of this operator has none of its name.
    #[error("operator {item} of term {term} is not known")]
    UnknownOp { term: usize, item: usize },
    /// The term has another charge than the first term.
    #[error("term {term} has another charge than the first")]
    MixedFlux { term: usize },
    /// Memory was wanting.
    #[error("out of memory")]
    Memory,
}

impl From<AllocError> for SumFault {
    ghost use Rattle.std.specs.Prelude.{◌≡◌};
    ghost use Rattle.qn_opsum.specs.declared.fault.SumFault.TheVariants.{Memory};

    ghost from_gives = { λ _ e. e ≡ Memory };

    fn from(_e: AllocError) -> SumFault {
        SumFault::Memory
    }
}

impl<T: Drop> From<AllocFailed<T>> for SumFault {
    ghost use Rattle.std.specs.Prelude.{◌≡◌};
    ghost use Rattle.qn_opsum.specs.declared.fault.SumFault.TheVariants.{Memory};

    ghost from_gives = { λ _ e. e ≡ Memory };

    fn from(_e: AllocFailed<T>) -> SumFault {
        SumFault::Memory
    }
}

//! Why a site is refused.

use std::alloc::{AllocError, AllocFailed};
use thiserror::Error;

/// Why there is no site.
#[derive(Clone, Copy, Debug, PartialEq, Eq, Error)]
pub enum SiteFault {
    /// There is no such kind, or its group is another.
    #[error("no such kind of site for this group")]
    SiteKind,
    /// The first operator at fault, from 0. `entry` is 0 where its charge is out of range or its name is
    /// `I`, and else the number, from 1, of its first entry that does not carry its charge.
    #[error("operator {op} is none of the site, at entry {entry}")]
    OpCharge { op: usize, entry: usize },
    /// Memory was wanting.
    #[error("out of memory")]
    Memory,
}

impl From<AllocError> for SiteFault {
    ghost use Rattle.std.specs.Prelude.{◌≡◌};
    ghost use Rattle.qn_sites.specs.declared.fault.SiteFault.TheVariants.{Memory};

    ghost from_gives = { λ _ e. e ≡ Memory };

    fn from(_e: AllocError) -> SiteFault {
        SiteFault::Memory
    }
}

impl<T: Drop> From<AllocFailed<T>> for SiteFault {
    ghost use Rattle.std.specs.Prelude.{◌≡◌};
    ghost use Rattle.qn_sites.specs.declared.fault.SiteFault.TheVariants.{Memory};

    ghost from_gives = { λ _ e. e ≡ Memory };

    fn from(_e: AllocFailed<T>) -> SiteFault {
        SiteFault::Memory
    }
}

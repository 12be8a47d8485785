//! Faults of documents, with their codes and places.

ghost use Rattle.std.specs.Prelude.{◌≡◌, ◌+◌, ◌<◌, ◌^◌};
ghost use Rattle.qn_parts.specs.Faults.{fault};

use std::alloc::{AllocError, AllocFailed};
use thiserror::Error;

/// What is wrong with a document, and where. Places count from 1; an item that is a label is the
/// label itself; what a code doesn't name is 0.
#[derive(Clone, Copy, Debug, PartialEq, Eq)]
pub struct Fault {
    pub code: u32,
    pub tensor: u32,
    pub part: u32,
    pub item: i64,
}

impl Fault {
    /// The fault of this code without a place.
    pub fn of_code(code: u32) -> Fault
        ensures { result ≡ fault code 0 0 0 }
    {
        Fault {
            code,
            tensor: 0,
            part: 0,
            item: 0,
        }
    }

    /// The fault of this code at this place.
    pub fn at(code: u32, tensor: u32, part: u32, item: u32) -> Fault
        ensures { result ≡ fault code tensor part item }
    {
        Fault {
            code,
            tensor,
            part,
            item: i64::from(item),
        }
    }

    /// The fault of this code at the i-th item, counted from 0.
    pub fn at_item(code: u32, tensor: u32, part: u32, i: usize) -> Fault
        requires { i + 1 < 2 ^ 63 }
        ensures { result ≡ fault code tensor part (i + 1) }
    {
        Fault {
            code,
            tensor,
            part,
            item: i as i64 + 1,
        }
    }
}

/// Why a document was not read.
#[derive(Clone, Copy, Debug, PartialEq, Eq, Error)]
pub enum DocFault {
    /// The document's first fault.
    #[error("the document is malformed")]
    Bad(Fault),
    /// Memory is wanting.
    #[error("memory")]
    Memory,
}

impl From<AllocError> for DocFault {
    ghost use Rattle.qn_parts.specs.declared.fault.DocFault.TheVariants.{Memory};

    ghost from_gives = { λ _ e. e ≡ Memory };

    fn from(_: AllocError) -> DocFault {
        DocFault::Memory
    }
}

impl<T: Drop> From<AllocFailed<T>> for DocFault {
    ghost use Rattle.qn_parts.specs.declared.fault.DocFault.TheVariants.{Memory};

    ghost from_gives = { λ _ e. e ≡ Memory };

    fn from(_: AllocFailed<T>) -> DocFault {
        DocFault::Memory
    }
}

//! Why tensors with labels are no network.

use std::alloc::{AllocError, AllocFailed};
use thiserror::Error;

/// Why members with labels, an order and twisted labels are no network. Tensors, legs and places are counted from 0.
#[derive(Clone, Copy, Debug, PartialEq, Eq, Error)]
pub enum NetFault {
    /// The tensor has not one label for each leg.
    #[error("tensor {tensor} has not one label for each leg")]
    LabelArity { tensor: usize },
    /// The label of the leg is 0, or not from -1,024 to 1,024.
    #[error("the label of leg {leg} of tensor {tensor} is out of range")]
    LabelRange { tensor: usize, leg: usize },
    /// The positive label is not on two legs, or the negative one is on more than one.
    #[error("label {label} stands on a wrong number of legs")]
    LabelCount { label: i64 },
    /// The two legs of the label have equal arrows.
    #[error("the legs of label {label} have equal arrows")]
    Arrow { label: i64 },
    /// The two legs of the label have different sectors.
    #[error("the legs of label {label} have different sectors")]
    Sectors { label: i64 },
    /// The negative label nearest to 0 that is missing above one that stands.
    #[error("label {label} is missing")]
    OpenLabels { label: i64 },
    /// The place of the order that is no positive label or a repeated one; one past the end where the order lacks a
    /// label.
    #[error("place {place} of the order is wrong")]
    Order { place: usize },
    /// The place of the twisted labels that is no positive label, or not above the one before it.
    #[error("place {place} of the twisted labels is wrong")]
    Twist { place: usize },
    /// Memory was wanting.
    #[error("out of memory")]
    Memory,
}

impl From<AllocError> for NetFault {
    ghost use Rattle.std.specs.Prelude.{◌≡◌};
    ghost use Rattle.qn_net.specs.declared.fault.NetFault.TheVariants.{Memory};

    ghost from_gives = { λ _ e. e ≡ Memory };

    fn from(_e: AllocError) -> NetFault {
        NetFault::Memory
    }
}

impl<T: Drop> From<AllocFailed<T>> for NetFault {
    ghost use Rattle.std.specs.Prelude.{◌≡◌};
    ghost use Rattle.qn_net.specs.declared.fault.NetFault.TheVariants.{Memory};

    ghost from_gives = { λ _ e. e ≡ Memory };

    fn from(_e: AllocFailed<T>) -> NetFault {
        NetFault::Memory
    }
}

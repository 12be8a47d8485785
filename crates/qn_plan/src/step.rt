//! The steps of a plan.

use std::alloc::{AllocError, AllocFailed};
use std::marker::Model;
use thiserror::Error;

/// What a step does.
#[derive(Clone, Copy, Debug, PartialEq, Eq)]
pub enum StepKind {
    /// Two tensors are contracted over all lines that they share.
    Pair,
    /// A tensor is summed over all lines that have both ends on it.
    Trace,
    /// Two tensors are brought together of which one is the table of a combiner, over just the legs that it combines.
    Fuse,
}

/// A step of a plan. Tensors have the numbers of their places in the network, from 1; the result of a step has that of its earliest one.
#[derive(Debug, Drop)]
pub struct Step {
    pub kind: StepKind,
    pub first: u32,
    /// 0 where there is no second tensor.
    pub second: u32,
    /// The labels that are summed, ascending.
    pub labels: Vec<i64>,
    /// How many multiplications the step takes at most.
    pub cost: u64,
}

impl Model for Step {
    ghost use Rattle.qn_plan.specs.Planned.{StepValue, kind_value};

    ghost Value = { StepValue };

    ghost view = { λ s. record { kind = kind_value s.kind; first = s.first; second = s.second; labels = s.labels.items; cost = s.cost } };
}

/// Why a network has no plan.
#[derive(Clone, Copy, Debug, PartialEq, Eq, Error)]
pub enum PlanFault {
    /// The first step whose result has more than 64 legs, 2^20 tuples of sectors or 2^22 admissible entries. Steps are numbered from 1.
    #[error("the result of step {step} is too wide")]
    StepWide { step: u32 },
    /// Memory was wanting.
    #[error("out of memory")]
    Memory,
}

impl From<AllocError> for PlanFault {
    ghost use Rattle.std.specs.Prelude.{◌≡◌};
    ghost use Rattle.qn_plan.specs.declared.step.PlanFault.TheVariants.{Memory};

    ghost from_gives = { λ _ e. e ≡ Memory };

    fn from(_e: AllocError) -> PlanFault {
        PlanFault::Memory
    }
}

impl<T: Drop> From<AllocFailed<T>> for PlanFault {
    ghost use Rattle.std.specs.Prelude.{◌≡◌};
    ghost use Rattle.qn_plan.specs.declared.step.PlanFault.TheVariants.{Memory};

    ghost from_gives = { λ _ e. e ≡ Memory };

    fn from(_e: AllocFailed<T>) -> PlanFault {
        PlanFault::Memory
    }
}

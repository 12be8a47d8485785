//! The tasks of a contraction, by their numbers.

ghost use Rattle.std.specs.Prelude.{◌≡◌, ◌≤◌, ◌<◌, ◌+◌, ◌^◌, length, IfOk, IfErr, OnOk};
ghost use Rattle.qn_pair.specs.Jobs.{tuples_of, task_block, products_at, Passes, ArePriced, tuple_at};
ghost use Rattle.qn_pair.specs.Steps.{IsTaskFault};

use crate::frame::Frame;
use qn_block::{Block, StepFault};
use qn_gauss::Steps;
use std::sync::ledger::Ledger;

/// The tasks of a contraction, behind a type of its own: a worker's counter can be chosen only where no number of factors
/// is in sight.
pub(crate) trait Tasks {
    ghost use Rattle.qn_pair.specs.Jobs.{JobValue};

    ghost job: { Self → JobValue };

    /// Tells that each task takes at most its share of the cost, and all together at most the cost.
    fn known(&self)
        ensures { ArePriced (job self.now) };

    /// How many products of single entries a task takes.
    fn products(&self, task: usize) -> u64
        requires { task < length (tuples_of (job self.now)) }
        ensures value { result ≡ products_at (job self.now) task }
        ensures small { result ≤ 2 ^ 44 };

    /// The block of a task, or its first place at which the sum of magnitudes is above 2^127 - 1.
    fn block<L: Ledger>(&self, task: usize, steps: &mut Steps<L>) -> Result<Block, StepFault>
        requires { task < length (tuples_of (job self.now)) }
        ensures block { IfOk result (λ b. b ≡ task_block (job self.now) task) }
        ensures clear { OnOk result (¬ Passes (job self.now) task) }
        ensures err { IfErr result (IsTaskFault (job self.now).first (job self.now).second (job self.now).shared (tuple_at (job self.now) task)) }
        ensures steps { steps.new ≤ steps.old + products_at (job self.now) task };
}

impl<'a, const K: usize> Tasks for Frame<'a, K> {
    ghost job = { λ f. f };

    fn known(&self) {
        self.priced();
    }

    fn products(&self, task: usize) -> u64 {
        self.products_of_task(task)
    }

    fn block<L: Ledger>(&self, task: usize, steps: &mut Steps<L>) -> Result<Block, StepFault> {
        self.block_of_task(task, steps)
    }
}

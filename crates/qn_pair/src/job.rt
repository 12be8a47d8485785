//! What is contracted, and its tasks.

ghost use Rattle.std.specs.Prelude.{◌≡◌, ◌≤◌, ◌<◌, ◌^◌, length, slice_index_or};
ghost use Rattle.qn_match.specs.Pairs.{task_for};
ghost use Rattle.qn_pair.specs.Jobs.{tuples_of, tuple_at, IsKnown, ArePriced};

use qn_block::BlockTensor;
use qn_match::Task;
use qn_match::laws::tasks_within_cost;
use std::marker::Model;

/// A contraction and the list of its tasks.
#[derive(Drop)]
pub(crate) struct Job<'a, const K: usize> {
    pub first: &'a BlockTensor<K>,
    pub second: &'a BlockTensor<K>,
    /// The shared pairs of legs.
    pub shared: &'a [(usize, usize)],
    /// Whether what stands between the two tensors is odd.
    pub between_odd: bool,
    pub tasks: &'a [Task],
}

impl<'a, const K: usize> Model for Job<'a, K> {
    ghost use Rattle.qn_pair.specs.Jobs.{JobValue, IsJob};

    ghost Value = { JobValue };

    ghost view = { λ j. record { first = j.first.now; second = j.second.now; shared = j.shared.now; between = j.between_odd } };

    ghost invariant = { λ j. IsJob j.first.now j.second.now j.shared.now j.tasks.now };
}

/// A task of a list.
fn task_in(tasks: &[Task], number: usize) -> &Task
    requires { number < length tasks.now }
    ensures { result.now ≡ slice_index_or tasks.now number result.now }
{
    &tasks[number]
}

impl<'a, const K: usize> Job<'a, K> {
    /// Tells what the two tensors are, and that they can be contracted.
    pub(crate) fn known(&self)
        ensures { IsKnown self.now }
    {
        self.first.known();
        self.second.known();
    }

    /// Tells that each task takes at most its share of the cost, and all together at most the cost.
    pub(crate) fn priced(&self)
        ensures { ArePriced self.now }
    {
        self.known();
        tasks_within_cost();
    }

    /// How many tasks there are.
    pub(crate) fn count(&self) -> usize
        ensures count { result ≡ length (tuples_of self.now) }
        ensures few { result ≤ 2 ^ 20 }
    {
        self.tasks.len()
    }

    /// A task.
    pub(crate) fn task(&self, number: usize) -> &Task
        requires { number < length (tuples_of self.now) }
        ensures { result.now ≡ task_for self.now.shared self.now.first.blocks self.now.second.blocks (tuple_at self.now number) }
    {
        task_in(self.tasks, number)
    }
}

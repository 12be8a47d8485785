//! What the tasks of a contraction take of its cost.
ghost use Rattle.qn_match.specs.Shares.{LegsLeftAreOpen, SharesWithinCost, TaskWithinShare};

/// Each task takes at most as many products of single entries as its share of the cost, and the shares of all tasks
/// together are at most the cost.
pub fn tasks_within_cost()
    ensures task { TaskWithinShare }
    ensures shares { SharesWithinCost }
{}

/// The legs of a contraction are those of the two tensors that stand in no shared pair, in their order.
pub fn legs_left_are_open()
    ensures { LegsLeftAreOpen }
{}

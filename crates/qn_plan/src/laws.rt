//! What holds along the steps of a network.

ghost use Rattle.qn_plan.specs.Limits.{GroupsWithinLimits, PairsWithinLimits};

use qn_match::laws::legs_left_are_open;
use qn_net::member_law;
use qn_net::operations::first_tensors_law;
use qn_net::values::network_value_law;

/// Where no step has a result that is too wide, the groups of tensors stay within the limits, and the two of a pair step can be contracted.
pub fn steps_within_limits()
    ensures groups { GroupsWithinLimits }
    ensures pairs { PairsWithinLimits }
{
    first_tensors_law();
    network_value_law();
    member_law();
    legs_left_are_open();
}

//! The steps that an order of the labels gives, and what holds along them.

ghost use Rattle.qn_net.specs.Carried.{PartLaw, PlanLaw, StepsLaw};
ghost use Rattle.qn_net.specs.Plans.{TakenLaw};
ghost use Rattle.qn_net.specs.TwistedSteps.{AllTwistedLaw, PlainStepLaw, TwistedStepLaw};

/// Whatever the order of the labels, the steps of the plan end with one tensor, which has the value of the network.
pub fn plan_law()
    ensures { PlanLaw }
{}

/// What holds along steps holds after some of them.
pub fn steps_law()
    ensures { StepsLaw }
{}

/// The step at a label, where the groups that have it were found.
pub fn taken_law()
    ensures { TakenLaw }
{}

/// A step over twisted lines is a step over lines that are not, after a tensor was twisted.
pub fn twisted_step_law()
    ensures { TwistedStepLaw }
{}

/// After any of the steps of a plan each tensor that they made is the part of its group.
pub fn part_law()
    ensures { PartLaw }
{}

/// A step over twisted lines is a step over lines that are not, of a state in which a tensor was twisted.
pub fn plain_step_law()
    ensures { PlainStepLaw }
{}

/// All lines between two tensors, one of which has no other legs, twisted together change nothing but by the parity of
/// its flux.
pub fn all_twisted_law()
    ensures { AllTwistedLaw }
{}

//! Other orders of bonds and of legs.

ghost use Rattle.qn_value.specs.Orders.{FinalLaw, MovedLaw, OpensLaw, OrderLaw};

/// The bonds may be named in any order.
pub fn order_law()
    ensures { OrderLaw }
{}

/// A tensor is replaced by the same tensor with its legs in another order.
pub fn moved_law()
    ensures { MovedLaw }
{}

/// The open legs of a network in another order: the value has the sign of the rearrangement.
pub fn opens_law()
    ensures { OpensLaw }
{}

/// A network of one tensor without bonds: its legs are brought into the order of the open legs.
pub fn final_law()
    ensures { FinalLaw }
{}

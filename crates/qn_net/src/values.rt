//! Networks of given tensors: their values, step by step, and their first passing places.

ghost use Rattle.qn_net.specs.NetworkValues.{NetworkPassingLaw, NetworkValueLaw};
ghost use Rattle.qn_net.specs.Refusals.{WellFormedLaw};
ghost use Rattle.qn_net.specs.Unique.{NoFaultLaw, OneFaultLaw};

/// Carrying out the steps of a network leaves one tensor, which has the value of the network.
pub fn network_value_law()
    ensures { NetworkValueLaw }
{}

/// The first passing place of a network is found by what the steps made, among admissible tuples.
pub fn network_passing_law()
    ensures { NetworkPassingLaw }
{}

/// Members whose labels and order have no fault are a well-formed network.
pub fn well_formed_law()
    ensures { WellFormedLaw }
{}

/// Members with labels and an order have at most one first fault.
pub fn one_fault_law()
    ensures { OneFaultLaw }
{}

/// Where nothing is wrong with members and order, they have no fault.
pub fn no_fault_law()
    ensures { NoFaultLaw }
{}

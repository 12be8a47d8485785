//! Laws of the automaton of an operator sum.
ghost use Rattle.qn_auto.specs.Flux.{FluxLaw, LeftProductLaw, NormalFluxLaw};
ghost use Rattle.qn_auto.specs.LinkOrder.{LinkLaw};

/// An entry of the automaton is 0 off the flux; terms of one charge keep it in site order.
pub fn entries_conserve_charge()
    ensures entries { FluxLaw }
    ensures sorted { NormalFluxLaw }
{}

/// The states at a link ascend and make one sector a charge, ascending, in which each value has the
/// charge of its state.
pub fn links_ascend()
    ensures { LinkLaw }
{}

/// A product of operators on a site that is made from left to right is the matrix of these operators.
pub fn products_from_the_left()
    ensures { LeftProductLaw }
{}

//! Chains of tensors held in blocks: the values, labels and fluxes of their networks.

ghost use Rattle.qn_braket.specs.ChainLaws.{ChainFaultlessLaw, ElementsLaw, ExpectFaultlessLaw, ExpectFluxLaw, ExpectNetworkLaw, OverlapFaultlessLaw, OverlapFluxLaw, OverlapNetworkLaw};

/// The value of the network of an overlap is the overlap.
pub fn overlap_network_law()
    ensures { OverlapNetworkLaw }
{}

/// The value of the network of an expectation is the expectation of the operator chain.
pub fn expect_network_law()
    ensures { ExpectNetworkLaw }
{}

/// Only the matrix elements at values of the sites matter to an expectation.
pub fn elements_law()
    ensures { ElementsLaw }
{}

/// Nothing is wrong with the labels of a chain's network.
pub fn chain_faultless_law()
    ensures { ChainFaultlessLaw }
{}

/// Nothing is wrong with the labels of the network of an overlap.
pub fn overlap_faultless_law()
    ensures { OverlapFaultlessLaw }
{}

/// Nothing is wrong with the labels of the network of an expectation.
pub fn expect_faultless_law()
    ensures { ExpectFaultlessLaw }
{}

/// The flux of the network of an overlap is that of the ket minus that of the bra.
pub fn overlap_flux_law()
    ensures { OverlapFluxLaw }
{}

/// The flux of the network of an expectation is that of the operator and the ket minus that of the bra.
pub fn expect_flux_law()
    ensures { ExpectFluxLaw }
{}

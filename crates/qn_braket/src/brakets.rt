//! Conjugates, overlaps and expectations of any networks, and of chains of tensors that are given by their entries.

ghost use Rattle.qn_braket.specs.Brakets.{ConjLaw, ExpectLaw, OverlapLaw};
ghost use Rattle.qn_braket.specs.OperatorSigns.{OperatorSignLaw, OwnLabelsLaw};
ghost use Rattle.qn_braket.specs.Pieces.{ExpectChainLaw, OverlapChainLaw};

/// The conjugates of the tensors of a network, the last one's first, are a network with the conjugate value.
pub fn conj_law()
    ensures { ConjLaw }
{}

/// The network of a bra's conjugates and a ket is their overlap.
pub fn overlap_law()
    ensures { OverlapLaw }
{}

/// The network of a bra's conjugates, an operator and a ket is its expectation.
pub fn expect_law()
    ensures { ExpectLaw }
{}

/// The network of the overlap of two chains is the sum over the values of the sites of conj(bra's amplitude) times the
/// ket's.
pub fn overlap_chain_law()
    ensures { OverlapChainLaw }
{}

/// The network of the expectation of an operator chain is the sum over the values of the sites, twice,
/// of conj(bra's amplitude) times the operator's matrix element times the ket's amplitude.
pub fn expect_chain_law()
    ensures { ExpectChainLaw }
{}

/// The value of an operator chain is a sum over its links with one sign.
pub fn operator_sign_law()
    ensures { OperatorSignLaw }
{}

/// The labels of an operator's own network differ.
pub fn own_labels_law()
    ensures { OwnLabelsLaw }
{}

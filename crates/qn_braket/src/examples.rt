//! Worked examples: a state of two fermion sites, its overlap, and the expectation of a hop.

ghost use Rattle.std.specs.Prelude.{[], ◌∷◌, ◌≡◌, pos, negsuc};
ghost use Rattle.qn_value.specs.Examples.{fermions};
ghost use Rattle.qn_net.specs.NetworkValues.{value};
ghost use Rattle.qn_braket.specs.ChainLaws.{network_flux};
ghost use Rattle.qn_braket.specs.Chains.{AreConjugates, IsOperatorChain, IsStateChain, amplitude, chain_flux, element, expect_network, expectation, overlap, overlap_network};
ghost use Rattle.qn_braket.specs.Examples.{conjugates, hop, number, state, turned_state, two_sites};

/// Amplitudes, overlap and expectation, computed from the definitions.
pub fn worked_examples()
    ensures amplitude_10 { amplitude fermions state (1 ∷ 0 ∷ []) ≡ number (pos 0) (pos 2) }
    ensures amplitude_01 { amplitude fermions state (0 ∷ 1 ∷ []) ≡ number (pos 3) (pos 0) }
    ensures turned_01 { amplitude fermions turned_state (0 ∷ 1 ∷ []) ≡ number (pos 3) (pos 0) }
    ensures overlap { overlap fermions two_sites state state ≡ number (pos 13) (pos 0) }
    ensures element { element fermions hop (1 ∷ 0 ∷ []) (0 ∷ 1 ∷ []) ≡ number (pos 1) (pos 0) }
    ensures expectation { expectation fermions two_sites (element fermions hop) state state ≡ number (pos 0) (negsuc 5) }
    ensures flux { chain_flux fermions state ≡ pos 1 ∷ [] }
    // the networks have these values
    ensures overlap_value { value (overlap_network fermions conjugates state) [] ≡ number (pos 13) (pos 0) }
    ensures expectation_value { value (expect_network fermions conjugates hop state) [] ≡ number (pos 0) (negsuc 5) }
    ensures overlap_flux { network_flux (overlap_network fermions conjugates state) ≡ pos 0 ∷ [] }
{}

/// What the laws ask for is met: chains with either arrow first on their links.
pub fn worked_premises()
    ensures state { IsStateChain two_sites state }
    ensures turned { IsStateChain two_sites turned_state }
    ensures operator { IsOperatorChain two_sites hop }
    ensures conjugates { AreConjugates state conjugates }
{}

//! Worked examples: a fermion moves from one site to another.

ghost use Rattle.std.specs.Prelude.{[], ◌∷◌, ◌≡◌, map, negsuc, pos};
ghost use Rattle.qn_opsum.specs.Refusals.{IsSum};
ghost use Rattle.qn_opsum.specs.Strings.{HasParities};
ghost use Rattle.qn_auto.specs.Automaton.{AllBelow};
ghost use Rattle.qn_auto.specs.SumAutomaton.{IsAutomatonOf, sites_in, term_in};
ghost use Rattle.qn_braket.specs.Chains.{IsOperatorChain};
ghost use Rattle.qn_braket.specs.Examples.{hop, number};
ghost use Rattle.qn_paths.specs.Examples.{far_hopping, fermion_lines, hopping, network_element, turned_hopping};
ghost use Rattle.qn_paths.specs.Paths.{SuitSites};
ghost use Rattle.qn_paths.specs.Sums.{site_legs, sum_element};

/// Matrix elements of operator sums, computed from the definitions.
pub fn worked_examples()
    ensures hop { sum_element hopping (1 ∷ 0 ∷ []) (0 ∷ 1 ∷ []) ≡ number (pos 1) (pos 0) }
    // the two operators in the other order
    ensures turned { sum_element turned_hopping (1 ∷ 0 ∷ []) (0 ∷ 1 ∷ []) ≡ number (negsuc 0) (pos 0) }
    ensures far { sum_element far_hopping (1 ∷ 0 ∷ 0 ∷ []) (0 ∷ 0 ∷ 1 ∷ []) ≡ number (pos 1) (pos 0) }
    // another fermion stands between
    ensures passed { sum_element far_hopping (1 ∷ 1 ∷ 0 ∷ []) (0 ∷ 1 ∷ 1 ∷ []) ≡ number (negsuc 0) (pos 0) }
    // the networks of the automata
    ensures turned_network { network_element turned_hopping 1 (1 ∷ 0 ∷ []) (0 ∷ 1 ∷ []) ≡ number (negsuc 0) (pos 0) }
    ensures passed_network { network_element far_hopping 2 (1 ∷ 1 ∷ 0 ∷ []) (0 ∷ 1 ∷ 1 ∷ []) ≡ number (negsuc 0) (pos 0) }
{}

/// What the laws ask for is met.
pub fn worked_premises()
    ensures sum { IsSum hopping }
    ensures automaton { IsAutomatonOf hopping hop }
    ensures chain { IsOperatorChain (site_legs hopping) hop }
    ensures parities { HasParities (sites_in hopping) }
    ensures count { (sites_in hopping).count ≡ 2 }
    ensures below { AllBelow (sites_in hopping).count (map (term_in hopping.sites) hopping.terms) }
    ensures lines { SuitSites fermion_lines (sites_in hopping) 1 }
{}

//! Worked examples: the values of small networks of fermions.

ghost use Rattle.std.specs.Prelude.{List, [], ◌∷◌, ◌≡◌, map, pos, negsuc, true, false};
ghost use Rattle.qn_gauss.specs.Gaussian.{zero_g, neg_g};
ghost use Rattle.qn_index.specs.declared.leg.Dir.TheVariants.{Out, In};
ghost use Rattle.qn_value.specs.Labels.{AllPlaced, IsUniform, bonds_of, node_of, slots, value_of};
ghost use Rattle.qn_value.specs.Networks.{IsNetwork};
ghost use Rattle.qn_value.specs.TensorBlocks.{HasBlocks};
ghost use Rattle.qn_value.specs.Tensors.{IsTensor};
ghost use Rattle.qn_value.specs.Local.{IsCoupling, pair_entry, trace_entry};
ghost use Rattle.qn_value.specs.Magnitudes.{pair_magnitude};
ghost use Rattle.qn_value.specs.Examples.{mode, single, fermions, whole, created, taken, diagonal, pair_created, pair_taken, placed};

/// The values of small networks of fermions, computed from the definitions.
pub fn worked_examples()
    // the trace of a matrix with the diagonal 2, 3, and the supertrace, where the Out leg stands first
    ensures trace { value_of fermions (placed (diagonal In Out) (pos 1 ∷ pos 1 ∷ []) ∷ []) [] 0 [] ≡ whole 5 }
    ensures supertrace { value_of fermions (placed (diagonal Out In) (pos 1 ∷ pos 1 ∷ []) ∷ []) [] 0 [] ≡ neg_g (whole 1) }
    // a twisted line turns one into the other
    ensures twisted_trace { value_of fermions (placed (diagonal In Out) (pos 1 ∷ pos 1 ∷ []) ∷ []) (pos 1 ∷ []) 0 [] ≡ neg_g (whole 1) }
    ensures twisted_supertrace { value_of fermions (placed (diagonal Out In) (pos 1 ∷ pos 1 ∷ []) ∷ []) (pos 1 ∷ []) 0 [] ≡ whole 5 }
    // two odd tensors: the sign depends on their order in the list
    ensures created_first { value_of fermions (placed (created 2) (pos 1 ∷ []) ∷ placed (taken 3) (pos 1 ∷ []) ∷ []) [] 0 [] ≡
        neg_g (whole 6) }
    ensures taken_first { value_of fermions (placed (taken 3) (pos 1 ∷ []) ∷ placed (created 2) (pos 1 ∷ []) ∷ []) [] 0 [] ≡ whole 6 }
    ensures created_first_twisted { value_of fermions (placed (created 2) (pos 1 ∷ []) ∷ placed (taken 3) (pos 1 ∷ []) ∷ []) (pos 1 ∷ []) 0 [] ≡
        whole 6 }
    // two shared lines, and the same with the lines exchanged
    ensures shared_lines { value_of fermions (placed pair_created (pos 1 ∷ pos 2 ∷ []) ∷ placed pair_taken (pos 1 ∷ pos 2 ∷ []) ∷ []) [] 0 [] ≡
        neg_g (whole 1) }
    ensures exchanged_lines { value_of fermions (placed pair_created (pos 1 ∷ pos 2 ∷ []) ∷ placed pair_taken (pos 2 ∷ pos 1 ∷ []) ∷ []) [] 0 [] ≡
        whole 1 }
    // an odd tensor stands between the two that share a line
    ensures odd_between { value_of fermions (placed (created 1) (pos 1 ∷ []) ∷ placed (created 1) (negsuc 0 ∷ []) ∷ placed (taken 1) (pos 1 ∷ []) ∷ []) [] 1 (0 ∷ []) ≡
        whole 1 }
    // single operations
    ensures own_trace { trace_entry (diagonal In Out) ((0, 1) ∷ []) [] ≡ whole 5 }
    ensures own_pair { pair_entry (created 2) (taken 3) ((0, 0) ∷ []) false [] ≡ neg_g (whole 6) }
    ensures own_pair_past_odd { pair_entry (created 2) (taken 3) ((0, 0) ∷ []) true [] ≡ whole 6 }
    ensures matrix_product { pair_entry (diagonal Out In) (diagonal Out In) ((1, 0) ∷ []) false (1 ∷ 1 ∷ []) ≡ whole 9 }
    ensures matrix_product_off { pair_entry (diagonal Out In) (diagonal Out In) ((1, 0) ∷ []) false (0 ∷ 1 ∷ []) ≡ zero_g }
    ensures magnitudes { pair_magnitude (diagonal Out In) (diagonal Out In) ((1, 0) ∷ []) (1 ∷ 1 ∷ []) ≡ 9 }
{}

/// What the laws ask for is met: a tensor, its blocks, a couple of its legs, and a network.
pub fn worked_premises()
    ensures tensor { IsTensor (diagonal In Out) }
    ensures blocks { HasBlocks (diagonal In Out) (single (0 ∷ 0 ∷ []) 2 ∷ single (1 ∷ 1 ∷ []) 3 ∷ []) }
    ensures coupling { IsCoupling (mode In ∷ mode Out ∷ []) ((0, 1) ∷ []) }
    ensures placed { AllPlaced fermions (placed (diagonal In Out) (pos 1 ∷ pos 1 ∷ []) ∷ []) }
    ensures uniform { IsUniform (slots (placed (diagonal In Out) (pos 1 ∷ pos 1 ∷ []) ∷ [])) }
    ensures network { IsNetwork (map node_of (placed (diagonal In Out) (pos 1 ∷ pos 1 ∷ []) ∷ [])) (bonds_of [] (slots (placed (diagonal In Out) (pos 1 ∷ pos 1 ∷ []) ∷ []))) [] }
{}

//! Worked examples: the steps, values and passing places of small networks.

ghost use Rattle.std.specs.Prelude.{List, [], ◌∷◌, ◌≡◌, ◌-◌, ◌^◌, pos, negsuc, Some, None, map};
ghost use Rattle.qn_gauss.specs.Gaussian.{zero_g, neg_g};
ghost use Rattle.qn_value.specs.Examples.{whole};
ghost use Rattle.qn_net.specs.Steps.{written};
ghost use Rattle.qn_net.specs.Steps.Kind.{pair_step, trace_step, fuse_step};
ghost use Rattle.qn_block.specs.Tables.{fuse_tensor};
ghost use Rattle.qn_net.specs.NetworkValues.{IsWellFormed, value, bonds, sectors, steps, passing_place};
ghost use Rattle.qn_net.specs.Operations.{AreLines, AreCouplesOf, ArePairsOf};
ghost use Rattle.qn_net.specs.Examples.{written_as, left_entries, two, between, twice, trace_alone, ring, loop, fuse, not_fused, large, one_fused, one_combiner, turned_fused, turned_combiner};

/// The steps of small networks, what they leave, and the values of the networks, computed from the definitions.
pub fn worked_examples()
    // two odd tensors, the outward leg first
    ensures two_steps { map written (steps two) ≡ written_as pair_step 1 2 (pos 1 ∷ []) ∷ [] }
    ensures two_value { value two [] ≡ neg_g (whole 6) }
    ensures two_left { left_entries two [] ≡ neg_g (whole 6) ∷ [] }
    // an odd tensor between: the step, and then a product
    ensures between_steps { map written (steps between) ≡ written_as pair_step 1 3 (pos 1 ∷ []) ∷ written_as pair_step 1 2 [] ∷ [] }
    ensures between_left { left_entries between (0 ∷ []) ≡ whole 1 ∷ [] }
    // two labels in one step
    ensures twice_steps { map written (steps twice) ≡ written_as pair_step 1 2 (pos 1 ∷ pos 2 ∷ []) ∷ [] }
    ensures twice_left { left_entries twice [] ≡ neg_g (whole 1) ∷ [] }
    // a trace
    ensures trace_steps { map written (steps trace_alone) ≡ written_as trace_step 1 0 (pos 1 ∷ []) ∷ [] }
    ensures trace_left { left_entries trace_alone [] ≡ whole 5 ∷ [] }
    // a label that was summed with an earlier one is passed over
    ensures ring_steps { map written (steps ring) ≡ written_as pair_step 1 2 (pos 1 ∷ pos 2 ∷ []) ∷ [] }
    ensures ring_value { value ring [] ≡ neg_g (whole 5) }
    ensures ring_left { left_entries ring [] ≡ neg_g (whole 5) ∷ [] }
    // a line on one tensor
    ensures loop_steps { map written (steps loop) ≡ written_as pair_step 1 2 (pos 1 ∷ []) ∷ written_as trace_step 1 0 (pos 3 ∷ []) ∷ [] }
    // a combiner that is summed over its flipped leg fuses; over its fused leg it does not
    ensures fuse_steps { map written (steps fuse) ≡ written_as fuse_step 1 2 (pos 1 ∷ []) ∷ [] }
    ensures fuse_left { left_entries fuse (0 ∷ []) ≡ whole 3 ∷ [] }
    ensures not_fused_steps { map written (steps not_fused) ≡ written_as pair_step 1 2 (pos 1 ∷ []) ∷ [] }
    // the sum is 0, and the sum of magnitudes is above the limit, or just not
    ensures passes { passing_place (large (2 ^ 126) (2 ^ 126)) ≡ Some (record { step = 1; tuple = []; offset = 0 }) }
    ensures stays { passing_place (large (2 ^ 126) (2 ^ 126 - 1)) ≡ None }
{}

/// What the laws ask for is met: a well-formed network with its couple of legs, pairs of legs, and tables of combiners.
pub fn worked_premises()
    ensures well_formed { IsWellFormed trace_alone }
    ensures lines { AreLines (sectors trace_alone) (bonds trace_alone) }
    ensures couples { AreCouplesOf (pos 1 ∷ pos 1 ∷ []) (bonds trace_alone) ((0, 1) ∷ []) }
    ensures pairs { ArePairsOf (pos 1 ∷ []) (pos 1 ∷ []) (bonds two) ((0, 0) ∷ []) }
    ensures table { one_fused ≡ fuse_tensor one_combiner }
    ensures turned_table { turned_fused ≡ fuse_tensor turned_combiner }
{}

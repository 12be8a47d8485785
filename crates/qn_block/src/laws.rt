//! What holds of any tensor held in blocks, and of any combiner.
ghost use Rattle.std.specs.Prelude.{◌≡◌, ◌≢◌, List, ℕ, filter, true};
ghost use Rattle.std.specs.List.{All};
ghost use Rattle.qn_gauss.specs.Gaussian.{Gaussian, zero_g};
ghost use Rattle.qn_index.specs.Tuples.{admitted, net};
ghost use Rattle.qn_index.specs.Places.{IsValues, sectors_at};
ghost use Rattle.qn_value.specs.Tensors.{IsTensor, entry_of, entry_in};
ghost use Rattle.qn_value.specs.Magnitudes.{all_blocks};
ghost use Rattle.qn_block.specs.Blocked.{BlockedValue, IsBlocked, is_filled, tensor_of};
ghost use Rattle.qn_block.specs.Combiners.{CombinerValue, IsCombiner};
ghost use Rattle.qn_block.specs.Tables.{fuse_tensor, fuse_entry, split_tensor, split_entry, IsMatching};

/// A tensor held in blocks is a tensor: its single entries conserve charge. Its entry at values in
/// range is that in the block of their sectors, and 0 where there is none. Out of range and off the
/// flux its entries are 0.
pub fn entries_of_blocks()
    ensures tensor { (t : BlockedValue) → IsBlocked t → IsTensor (tensor_of t) }
    ensures by_blocks { (t : BlockedValue) (xs : List ℕ) → IsBlocked t → IsValues t.legs xs →
        entry_of (tensor_of t) xs ≡ entry_in t.legs t.blocks xs }
    ensures out_of_range { (t : BlockedValue) (xs : List ℕ) → IsBlocked t → (IsValues t.legs xs → ⊥) → entry_of (tensor_of t) xs ≡ zero_g }
    ensures off_flux { (t : BlockedValue) (xs : List ℕ) → IsBlocked t → IsValues t.legs xs →
        net t.group t.legs (sectors_at t.legs xs) ≢ t.flux → entry_of (tensor_of t) xs ≡ zero_g }
{}

/// Both tables of a combiner are tensors: their entries conserve charge with flux zero. The fuse
/// table's entry at a value of the fused leg and values of the legs, last first, is 1 or -1 where
/// they match, and else 0; and so is the split table's at values of the legs and one of the fused
/// leg. Each value of the fused leg matches values of the legs, and these match no other.
pub fn tables_of_combiners()
    ensures fuse { (c : CombinerValue) → IsCombiner c → IsTensor (fuse_tensor c) }
    ensures split { (c : CombinerValue) → IsCombiner c → IsTensor (split_tensor c) }
    ensures fuse_entries { (c : CombinerValue) (xs : List ℕ) → entry_of (fuse_tensor c) xs ≡ fuse_entry c.group c.legs c.arrow xs }
    ensures split_entries { (c : CombinerValue) (xs : List ℕ) → entry_of (split_tensor c) xs ≡ split_entry c.group c.legs c.arrow xs }
    ensures matching { (c : CombinerValue) → IsCombiner c → IsMatching c }
{}

/// A tensor without a block of zeros is told by its entries: its blocks are those of all admissible
/// tuples, ascending, in which some entry is not 0.
pub fn blocks_of_entries()
    ensures { (t : BlockedValue) (entry : List ℕ → Gaussian) → IsBlocked t → All (λ b. is_filled b ≡ true) t.blocks
        → ((xs : List ℕ) → IsValues t.legs xs → entry_of (tensor_of t) xs ≡ entry xs)
        → t.blocks ≡ filter is_filled (all_blocks entry t.legs (admitted t.group t.legs t.flux)) }
{}

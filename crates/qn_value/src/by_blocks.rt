//! Contractions block by block.

ghost use Rattle.qn_value.specs.Blocks.{BlockPairsLaw, BlockRowsLaw, BlockTensorLaw, BlockTraceLaw, BlockTwistLaw, ChoicesLaw};
ghost use Rattle.qn_value.specs.TensorBlocks.{PairBlocksLaw, TraceBlocksLaw};
ghost use Rattle.qn_value.specs.Bounds.{BlockBoundsLaw};

/// The value of a network is a sum over one block of each tensor.
pub fn choices_law()
    ensures { ChoicesLaw }
{}

/// A contraction of two tensors is a sum over pairs of blocks, with one sign for each pair.
pub fn block_pairs_law()
    ensures { BlockPairsLaw }
{}

/// A contraction of one tensor is a sum over its blocks, with one sign for each.
pub fn block_trace_law()
    ensures { BlockTraceLaw }
{}

/// A tensor is twisted block by block.
pub fn block_twist_law()
    ensures { BlockTwistLaw }
{}

/// A tensor held in blocks is 0 at values out of range.
pub fn block_bounds_law()
    ensures { BlockBoundsLaw }
{}

/// The entries of a tensor held in blocks.
pub fn block_rows_law()
    ensures { BlockRowsLaw }
{}

/// Ascending blocks are a tensor.
pub fn block_tensor_law()
    ensures { BlockTensorLaw }
{}

/// An entry of a contraction of two tensors is a sum over pairs of their blocks.
pub fn pair_blocks_law()
    ensures { PairBlocksLaw }
{}

/// An entry of a trace is a sum over the blocks of the tensor.
pub fn trace_blocks_law()
    ensures { TraceBlocksLaw }
{}

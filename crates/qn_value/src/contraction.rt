//! Steps of a contraction leave the value of a network as it is.

ghost use Rattle.qn_value.specs.Contractions.{NeighboursLaw, PairLaw, StepLaw, TraceLaw};

/// Two neighbouring tensors are replaced by their contraction over shared lines.
pub fn pair_law()
    ensures { PairLaw }
{}

/// A tensor is replaced by its trace over its own lines.
pub fn trace_law()
    ensures { TraceLaw }
{}

/// Two tensors are replaced by their contraction, past the tensors that stand between them.
pub fn step_law()
    ensures { StepLaw }
{}

/// Any neighbouring tensors are replaced by their contraction, whose open legs stand in any order.
pub fn neighbours_law()
    ensures { NeighboursLaw }
{}

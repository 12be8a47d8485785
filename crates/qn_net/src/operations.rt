//! Operations on tensors as steps of a network: what is kept for a group is its tensor.

ghost use Rattle.qn_net.specs.Operations.{FirstTensorsLaw, LinesLaw, PairStepLaw, TraceStepLaw, LastTensorLaw};
ghost use Rattle.qn_net.specs.Results.{ResultTensorLaw};

/// Before the first step the tensors of the groups are those of the members.
pub fn first_tensors_law()
    ensures { FirstTensorsLaw }
{}

/// A step leaves lines that are not twisted and have the values of their sectors.
pub fn lines_law()
    ensures { LinesLaw }
{}

/// The contraction of the tensors of two groups is the tensor of the pair step's result, and passes where the step
/// does.
pub fn pair_step_law()
    ensures { PairStepLaw }
{}

/// The trace of the tensor of a group is the tensor of the trace step's result, and passes where the step does.
pub fn trace_step_law()
    ensures { TraceStepLaw }
{}

/// The last tensor, with its legs in the order of the open labels, has the value of the network.
pub fn last_tensor_law()
    ensures { LastTensorLaw }
{}

/// A tensor with the legs, the flux and the entries of a pair step's result is the tensor of the result.
pub fn result_tensor_law()
    ensures { ResultTensorLaw }
{}

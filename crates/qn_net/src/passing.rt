//! Where the sums of magnitudes of a plan pass the limit.

ghost use Rattle.qn_net.specs.FirstSteps.{FirstStepsLaw};
ghost use Rattle.qn_net.specs.Parts.{PartMagnitudeLaw};
ghost use Rattle.qn_net.specs.Passing.{AdmissibleLaw, PassLaw};

/// The entries of the tensor that the steps made of a group have the magnitudes of the part's.
pub fn part_magnitude_law()
    ensures { PartMagnitudeLaw }
{}

/// The first passing place by the tensors that the steps made is the one by the parts of the network.
pub fn pass_law()
    ensures { PassLaw }
{}

/// The first passing place is found among the admissible tuples.
pub fn admissible_law()
    ensures { AdmissibleLaw }
{}

/// The first passing place of the first steps of a network is found among the admissible tuples.
pub fn first_steps_law()
    ensures { FirstStepsLaw }
{}

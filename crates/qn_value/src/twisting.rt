//! Twisted lines, and tensors that are twisted in place of them.

ghost use Rattle.qn_value.specs.Twists.{TwistFluxLaw, TwistLaw, TwistPairLaw, TwistSecondLaw, TwistTraceLaw};

/// A tensor is twisted in place of the lines of a network.
pub fn twist_law()
    ensures { TwistLaw }
{}

/// In a contraction of two tensors, the earlier one is twisted.
pub fn twist_pair_law()
    ensures { TwistPairLaw }
{}

/// In a contraction of two tensors, the later one is twisted.
pub fn twist_second_law()
    ensures { TwistSecondLaw }
{}

/// In a trace, the tensor is twisted at one leg of each couple.
pub fn twist_trace_law()
    ensures { TwistTraceLaw }
{}

/// A twisted tensor has the same flux.
pub fn twist_flux_law()
    ensures { TwistFluxLaw }
{}

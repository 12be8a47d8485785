//! Sums of magnitudes.

ghost use Rattle.qn_value.specs.Magnitudes.{FirstPassingLaw, MagnitudeLaw, SingleLaw};
ghost use Rattle.qn_value.specs.Fluxes.{SilentLaw};

/// The magnitude of a value is at most the sum of magnitudes.
pub fn magnitude_law()
    ensures { MagnitudeLaw }
{}

/// Off the flux the sum of magnitudes is 0.
pub fn silent_law()
    ensures { SilentLaw }
{}

/// A sum of magnitudes with one summand is no larger than this summand may be.
pub fn single_law()
    ensures { SingleLaw }
{}

/// Tuples in whose blocks nothing passes may be left out.
pub fn first_passing_law()
    ensures { FirstPassingLaw }
{}

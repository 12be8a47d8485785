//! Contractions conserve charge.

ghost use Rattle.qn_value.specs.Fluxes.{FluxLaw, FluxParityLaw, PlacedLaw};
ghost use Rattle.qn_value.specs.OffFlux.{OffFluxLaw};
ghost use Rattle.qn_value.specs.Bounds.{BoundsLaw};

/// A contraction of tensors that conserve charge conserves it, with the sum of their fluxes.
pub fn flux_law()
    ensures { FluxLaw }
{}

/// A tensor that conserves charge has the parity of its flux.
pub fn flux_parity_law()
    ensures { FluxParityLaw }
{}

/// Tensors whose legs meet on each line conserve charge in their network.
pub fn placed_law()
    ensures { PlacedLaw }
{}

/// A contraction is 0 at values out of range.
pub fn bounds_law()
    ensures { BoundsLaw }
{}

/// Off its flux a contraction of coupled tensors is 0.
pub fn off_flux_law()
    ensures { OffFluxLaw }
{}

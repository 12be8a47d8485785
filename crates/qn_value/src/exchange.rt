//! Neighbouring tensors change places.

ghost use Rattle.qn_value.specs.Contractions.{ExchangeLaw};

/// Two neighbouring tensors of a network change places: its value changes its sign where both fluxes are odd, and else
/// stays.
pub fn exchange_law()
    ensures { ExchangeLaw }
{}

//! Sums with their sums of magnitudes.
ghost use Rattle.std.specs.Prelude.{◌≡◌, ◌≤◌, ◌<◌, ◌+◌, ◌*◌, MatchOption};
ghost use Rattle.qn_gauss.specs.Gaussian.{add_g, mul_g, mag, limit};
ghost use Rattle.qn_mpo.specs.Sizes.{size_with, with_product};

use qn_gauss::{Gauss, Steps, mag_add, mag_mul};
use std::marker::Model;
use std::sync::ledger::Ledger;

/// A sum, and the sum of the magnitudes of its summands, which is at most 2^127 - 1.
#[derive(Clone, Copy, Debug, PartialEq, Eq)]
pub(crate) struct Sum {
    pub(crate) value: Gauss,
    size: u128,
}

impl Model for Sum {
    ghost use Rattle.std.specs.Prelude.{◌≤◌};
    ghost use Rattle.qn_gauss.specs.Gaussian.{mag, limit};
    ghost use Rattle.qn_mpo.specs.Sizes.{SumValue};

    ghost Value = { SumValue };

    ghost view = { λ s. record { value = s.value; size = s.size } };

    ghost invariant = { λ s. (s.size ≤ limit) × (mag s.value ≤ s.size) };

    ghost inverse = { λ s. record { value = s.value; size = s.size } };
}

impl Sum {
    /// The sum of nothing.
    pub(crate) const ZERO: Sum = Sum {
        value: Gauss::ZERO,
        size: 0,
    };

    /// The sum of 1 alone.
    pub(crate) const ONE: Sum = Sum {
        value: Gauss::ONE,
        size: 1,
    };

    /// The sum alone.
    pub(crate) fn number(self) -> Gauss
        ensures value { result ≡ self.value }
        ensures fits { self.size ≤ limit }
    {
        self.value
    }

    /// The sum with a product more, or `None` where the sum of magnitudes is above 2^127 - 1.
    pub(crate) fn plus<L: Ledger>(
        self,
        first: Gauss,
        second: Gauss,
        steps: &mut Steps<L>,
    ) -> Option<Sum>
        ensures value { MatchOption result (limit < size_with self first second) (λ s. s ≡ with_product self first second) }
        ensures ticks { steps.new ≤ steps.old + 1 }
    {
        let Some(product) = mag_mul(first.mag(), second.mag()) else {
            return None;
        };
        let Some(size) = mag_add(self.size, product) else {
            return None;
        };
        let value = self.value.add(first.mul(second, steps));
        Some(Sum { value, size })
    }
}

//! A term, and its normal form.

ghost use Rattle.std.specs.Prelude.{◌≡◌};

use qn_gauss::Gauss;
use qn_sites::Name;
use std::marker::Model;

/// A term of an operator sum: a coefficient times a product of operators, each by the number of its
/// site, from 1, and its name. The operators act from the right to the left.
#[derive(Debug, Drop)]
pub struct Term {
    pub coef: Gauss,
    pub factors: Vec<(u32, Name)>,
}

impl Model for Term {
    ghost use Rattle.qn_opsum.specs.Sums.{TermValue};

    ghost Value = { TermValue };

    ghost view = { λ t. record { coef = t.coef; factors = t.factors.items } };
}

impl Term {
    /// The operators.
    pub fn factors(&self) -> &[(u32, Name)]
        ensures { result.now ≡ self.now.factors }
    {
        &self.factors
    }
}

/// A term's operators in site order, and whether the sign of bringing them there is minus.
#[derive(Debug, Drop)]
pub struct Normal {
    pub negative: bool,
    pub factors: Vec<(u32, Name)>,
}

impl Model for Normal {
    ghost use Rattle.qn_opsum.specs.Sums.{NormalValue};

    ghost Value = { NormalValue };

    ghost view = { λ n. record { negative = n.negative; factors = n.factors.items } };
}

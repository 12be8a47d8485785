//! Operators as rules: the entries of the tensors of an automaton.

ghost use Rattle.std.specs.Prelude.{◌≡◌, List, ℕ, IfOk};
ghost use Rattle.std.specs.List.{All};
ghost use Rattle.qn_gauss.specs.Gaussian.{Gaussian, zero_g};
ghost use Rattle.qn_index.specs.Legs.{IsLegOf};
ghost use Rattle.qn_index.specs.Tuples.{IsFlux};
ghost use Rattle.qn_rule.specs.Rules.{IsOffFlux};
ghost use Rattle.qn_index.specs.Places.{IsValues};
ghost use Rattle.qn_sites.specs.Operators.{element, op_legs, row_of, column_of};

use crate::operator::OpTable;
use qn_gauss::Gauss;
use qn_index::Leg;
use qn_rule::{EntryFunction, Rule};
use std::alloc::{AllocError, Global};

/// An operator gives the entries of a tensor with two legs: the row's leg Out, then the column's leg In.
impl<const K: usize> EntryFunction for OpTable<K> {
    ghost use Rattle.std.specs.Prelude.{◌≡◌};
    ghost use Rattle.qn_index.specs.Places.{IsValues};
    ghost use Rattle.qn_sites.specs.Operators.{element, op_legs, row_of, column_of};

    ghost asks = { λ o xs. IsValues (op_legs o.leg) xs };

    ghost answers = { λ o xs z. z ≡ element o (row_of xs) (column_of xs) };

    fn entry(&self, values: &[u32]) -> Gauss {
        OpTable::entry(self, values[0], values[1])
    }
}

/// The legs of an operator as a tensor.
fn op_legs<const K: usize>(alloc: Global, leg: &Leg<K>) -> Result<Vec<Leg<K>>, AllocError>
    ensures { IfOk result (λ v. v.items ≡ op_legs leg.now) }
{
    let mut legs = Vec::with_capacity(alloc, 2)?;
    legs.push(leg.copy()?)?;
    legs.push(leg.copy()?.flip())?;
    Ok(legs)
}

impl<const K: usize> OpTable<K> {
    /// What an operator is as a tensor. Nothing is done.
    #[tactic(auto, using(crate::proofs::OnFlux::op_charges, crate::proofs::OnFlux::op_flux, crate::proofs::OnFlux::op_conserves))]
    fn known_as_rule(&self)
        ensures charges { All (IsLegOf self.now.group) (op_legs self.now.leg) }
        ensures flux { IsFlux self.now.group self.now.charge }
        ensures conserves { (xs : List ℕ) (z : Gaussian) → IsOffFlux self.now.group (op_legs self.now.leg) self.now.charge xs →
            z ≡ element self.now (row_of xs) (column_of xs) → z ≡ zero_g }
    {
        self.known();
    }

    /// The operator as a rule, with the row's leg Out and the column's leg In.
    pub fn rule(self, alloc: Global) -> Result<Rule<K, OpTable<K>>, AllocError>
        ensures { IfOk result (λ r.
            r ≡
            record { group = self.entry.group; legs = op_legs self.entry.leg; flux = self.entry.charge; function = self.entry }) }
    {
        self.known_as_rule();
        let legs = op_legs(alloc, self.leg())?;
        Ok(Rule::new(*self.group(), legs, *self.charge(), self))
    }
}

/// One rule for each operator of a site, in the order of the operators.
#[derive(Drop)]
pub struct SiteRules<const K: usize, F: EntryFunction> {
    pub rules: Vec<Rule<K, F>>,
}

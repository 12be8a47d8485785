//! The function of a rule that weighs the values of one leg.

ghost use Rattle.std.specs.Prelude.{◌≡◌, ◌<◌, ◌&&◌, ℕ, ℤ, pos, List, length, IfOk};
ghost use Rattle.std.specs.List.{All};
ghost use Rattle.qn_gauss.specs.Gaussian.{Gaussian, zero_g, one_g, signed};
ghost use Rattle.qn_charge.specs.Charges.{IsGroup, zero_charge, parity};
ghost use Rattle.qn_index.specs.Legs.{IsLegOf, sector_at};
ghost use Rattle.qn_index.specs.Tuples.{IsFlux};
ghost use Rattle.qn_index.specs.Places.{IsValues};
ghost use Rattle.qn_rule.specs.Rules.{IsOffFlux};
ghost use Rattle.qn_value.specs.Labels.{is_inward};
ghost use Rattle.qn_lazy.specs.LegRules.{IsPartOf, sector_weight, legs_of, entry_of_rule};

use qn_charge::{Abelian, Group};
use qn_gauss::Gauss;
use qn_index::{Dir, Leg};
use qn_rule::{CountedRule, EntryFunction, Rule};
use std::alloc::{AllocError, Global};
use std::marker::Model;

/// The function of a rule that weighs the values of one leg: by 1, or by one part of their charge.
#[derive(Drop)]
pub struct LegRule<const K: usize> {
    group: Group<K>,
    leg: Leg<K>,
    part: Option<usize>,
}

impl<const K: usize> Model for LegRule<K> {
    ghost use Rattle.qn_lazy.specs.LegRules.{LegRuleValue, IsLegRule};

    ghost Value = { LegRuleValue };

    ghost view = { λ r. record { group = r.group; leg = r.leg; part = r.part } };

    ghost invariant = { λ r. IsLegRule K (record { group = r.group; leg = r.leg; part = r.part }) };
}

/// The number 0.
fn zero() -> Gauss
    ensures { result ≡ zero_g }
{
    Gauss::ZERO
}

/// The number 1.
fn one() -> Gauss
    ensures { result ≡ one_g }
{
    Gauss::ONE
}

/// The number, negated where `minus` holds.
fn signed(minus: bool, number: Gauss) -> Gauss
    ensures { result ≡ signed minus number }
{
    if minus { number.neg() } else { number }
}

/// A whole number as a Gaussian integer.
fn real(part: i64) -> Gauss
    ensures { result ≡ record { re = part; im = pos 0 } }
{
    match Gauss::new(i128::from(part), 0) {
        Some(number) => number,
        None => unreachable!(),
    }
}

impl<const K: usize> LegRule<K> {
    /// The weight of the values of a sector.
    fn weight(&self, sector: u32) -> Gauss
        requires { sector < length self.now.leg.sectors }
        ensures { result ≡ sector_weight self.now.leg self.now.part sector }
    {
        match self.part {
            None => one(),
            Some(k) => real(self.leg.charge(sector).part(k)),
        }
    }

    /// Whether the leg is In and the values of a sector are odd.
    fn is_minus(&self, sector: u32) -> bool
        requires { sector < length self.now.leg.sectors }
        ensures { result ≡ (is_inward self.now.leg.arrow && parity self.now.group (sector_at self.now.leg.sectors sector).charge) }
    {
        match self.leg.dir() {
            Dir::Out => false,
            Dir::In => self.group.parity(self.leg.charge(sector)),
        }
    }

    /// The function that weighs the values of this leg, by 1 or by this part of their charge. Takes no memory.
    pub fn new(group: Group<K>, leg: Leg<K>, part: Option<usize>) -> LegRule<K>
        requires charges { IsLegOf group leg }
        requires part { IsPartOf K part }
        ensures { result ≡ record { group = group.entry; leg = leg.entry; part = part } }
    {
        LegRule { group, leg, part }
    }

    /// The group of the charges.
    pub fn group(&self) -> &Group<K>
        ensures { result.now ≡ self.now.group }
    {
        &self.group
    }

    /// The leg.
    pub fn leg(&self) -> &Leg<K>
        ensures { result.now ≡ self.now.leg }
    {
        &self.leg
    }

    /// What holds of each such function. Nothing is done.
    fn known(&self)
        ensures group { IsGroup self.now.group }
        ensures charges { IsLegOf self.now.group self.now.leg }
    {
        self.group.known();
    }

    /// What the function is as a tensor. Nothing is done.
    #[tactic(auto, using(crate::proofs::Lawful::both_charges, crate::proofs::Lawful::zero_flux, crate::proofs::Lawful::conserves))]
    fn known_as_rule(&self)
        ensures charges { All (IsLegOf self.now.group) (legs_of self.now.leg) }
        ensures flux { IsFlux self.now.group (zero_charge self.now.group) }
        ensures conserves { (xs : List ℕ) (z : Gaussian) → IsOffFlux self.now.group (legs_of self.now.leg) (zero_charge self.now.group) xs → z ≡ entry_of_rule self.now xs → z ≡ zero_g }
    {
        self.known();
    }

    /// The rule with this function. Its legs are the leg and the same leg turned, its flux is zero.
    pub fn rule(self, alloc: Global) -> Result<CountedRule<K, LegRule<K>>, AllocError>
        ensures { IfOk result (λ r. r ≡ record { group = self.entry.group; legs = legs_of self.entry.leg; flux = zero_charge self.entry.group; function = self.entry }) }
    {
        self.known_as_rule();
        let legs = both_legs(alloc, self.leg())?;
        let flux = self.group().zero();
        Ok(CountedRule::new(Rule::new(*self.group(), legs, flux, self)))
    }
}

impl<const K: usize> EntryFunction for LegRule<K> {
    ghost use Rattle.std.specs.Prelude.{◌≡◌};
    ghost use Rattle.qn_index.specs.Places.{IsValues};
    ghost use Rattle.qn_lazy.specs.LegRules.{legs_of, entry_of_rule};

    ghost asks = { λ r xs. IsValues (legs_of r.leg) xs };

    ghost answers = { λ r xs z. z ≡ entry_of_rule r xs };

    fn entry(&self, values: &[u32]) -> Gauss {
        let value = values[0];
        if value != values[1] {
            return zero();
        }
        let (sector, _offset) = self.leg.at(value);
        signed(self.is_minus(sector), self.weight(sector))
    }
}

/// The leg and the same leg turned.
pub fn both_legs<const K: usize>(alloc: Global, leg: &Leg<K>) -> Result<Vec<Leg<K>>, AllocError>
    ensures { IfOk result (λ v. v.items ≡ legs_of leg.now) }
{
    let mut legs = Vec::with_capacity(alloc, 2)?;
    legs.push(leg.copy()?)?;
    legs.push(leg.copy()?.flip())?;
    Ok(legs)
}

//! A rule of which each ask is counted.

ghost use Rattle.std.specs.Prelude.{◌≡◌, ◌+◌};
ghost use Rattle.qn_gauss.specs.Gaussian.{zero_g};
ghost use Rattle.qn_index.specs.Places.{IsValues};
ghost use Rattle.qn_rule.specs.Rules.{IsOffFlux, IsRule};

use crate::function::EntryFunction;
use crate::rule::Rule;
use qn_charge::Charge;
use qn_gauss::{Gauss, Steps};
use qn_index::Leg;
use std::marker::Model;
use std::sync::ledger::Ledger;

/// A rule that counts how often it is asked. The rule inside can't be taken out, so each ask is counted.
#[derive(Drop)]
pub struct CountedRule<const K: usize, F: EntryFunction> {
    rule: Rule<K, F>,
}

impl<const K: usize, F: EntryFunction> Model for CountedRule<K, F> {
    ghost use Rattle.qn_rule.specs.Rules.{RuleValue};

    ghost Value = { RuleValue F };

    ghost view = { λ r. r.rule };
}

impl<const K: usize, F: EntryFunction> CountedRule<K, F> {
    /// The same rule, counted. Takes no memory.
    pub fn new(rule: Rule<K, F>) -> CountedRule<K, F>
        ensures { result ≡ rule }
    {
        CountedRule { rule }
    }

    /// What holds of each rule. Nothing is done.
    pub fn known(&self)
        ensures { IsRule F.asks F.answers self.now }
    {
        self.rule.known();
    }

    /// The legs.
    pub fn legs(&self) -> &[Leg<K>]
        ensures { result.now ≡ self.now.legs }
    {
        self.rule.legs()
    }

    /// The flux.
    pub fn flux(&self) -> &Charge<K>
        ensures { result.now ≡ self.now.flux }
    {
        self.rule.flux()
    }

    /// The function's answer at one value for each leg. It is one of `asks`. Takes no memory but what the function takes.
    pub fn ask<M: Ledger>(&self, values: &[u32], asks: &mut Steps<M>) -> Gauss
        requires { IsValues self.now.legs values.now }
        ensures answer { F.answers self.now.function values.now result }
        ensures off_flux { IsOffFlux self.now.group self.now.legs self.now.flux values.now → result ≡ zero_g }
        ensures ticks { asks.new ≡ asks.old + 1 }
    {
        asks.tick();
        self.rule.ask(values)
    }
}

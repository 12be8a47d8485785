//! The states of a link with their charges.
ghost use Rattle.std.specs.Prelude.{◌≡◌};
ghost use Rattle.std.specs.Ordering.{is_lt};
ghost use Rattle.qn_charge.specs.Charges.{IsCanonical, IsWithin, neg_charge, sum_charge};
ghost use Rattle.qn_auto.specs.SumAutomaton.{charge_lower, op_charge, state_charge};
ghost use Rattle.qn_auto.specs.Terms.{AreTermOf, IsFactorOf, IsStageOf, charge_in};
ghost use Rattle.qn_mpo.specs.States.{order_by, value_lower, with_charge};

use crate::factor::Factor;
use crate::stage::Stage;
use qn_charge::{Abelian, Charge, Group};
use qn_opsum::OpSum;
use qn_sites::OpTable;
use std::alloc::{AllocError, Global};
use std::cmp::Ordering;
use std::marker::Model;

/// A state with its charge, that of the operators placed so far.
#[derive(Debug, Drop)]
pub(crate) struct State<const K: usize> {
    charge: Charge<K>,
    stage: Stage,
}

impl<const K: usize> Model for State<K> {
    ghost use Rattle.qn_mpo.specs.States.{StateValue};

    ghost Value = { StateValue };

    ghost view = { λ s. record { charge = s.charge; stage = s.stage } };
}

/// Whether a charge comes before another, compared part by part.
fn is_lower<const K: usize>(a: &Charge<K>, b: &Charge<K>) -> bool
    ensures { result ≡ charge_lower a.now b.now }
{
    a.compare(b).is_lt()
}

impl<const K: usize> State<K> {
    /// The charge.
    pub(crate) fn charge(&self) -> &Charge<K>
        ensures { result.now ≡ self.now.charge }
    {
        &self.charge
    }

    /// What is still to come.
    pub(crate) fn stage(&self) -> &Stage
        ensures { result.now ≡ self.now.stage }
    {
        &self.stage
    }

    /// Whether the state comes before another: by charge, then not begun, then the lists, then done.
    pub(crate) fn is_before(&self, other: &State<K>) -> bool
        ensures { result ≡ value_lower self.now other.now }
    {
        if is_lower(&self.charge, &other.charge) {
            return true;
        }
        if is_lower(&other.charge, &self.charge) {
            return false;
        }
        self.stage.is_before(&other.stage)
    }

    /// How the state stands to another.
    pub(crate) fn compare(&self, other: &State<K>) -> Ordering
        ensures order { result ≡ order_by value_lower self.now other.now }
        ensures less { is_lt result ≡ value_lower self.now other.now }
    {
        if self.is_before(other) {
            return Ordering::Less;
        }
        if other.is_before(self) {
            return Ordering::Greater;
        }
        Ordering::Equal
    }
}

/// An operator of a term.
fn op_of<'a, const K: usize>(sum: &'a OpSum<K>, factor: &Factor) -> &'a OpTable<K>
    requires { IsFactorOf sum.now factor.now }
    ensures { result.now.charge ≡ op_charge sum.now.sites factor.now.site factor.now.op }
{
    let site = &sum.sites()[factor.site as usize];
    &site.ops()[factor.op as usize]
}

/// The charge of some operators of a term.
fn charge_of<const K: usize>(sum: &OpSum<K>, factors: &[Factor]) -> Charge<K>
    requires { AreTermOf sum.now factors.now }
    ensures { result ≡ charge_in sum.now factors.now }
{
    sum.known();
    let group = sum.group();
    group.known();
    let mut total = group.zero();
    for i in 0..factors.len() {
        let op = op_of(sum, &factors[i]);
        total = group.add(&total, op.charge());
    }
    total
}

/// The difference of two charges.
fn difference<const K: usize>(group: &Group<K>, a: &Charge<K>, b: &Charge<K>) -> Charge<K>
    requires first { IsCanonical group.now a.now }
    requires second { IsCanonical group.now b.now }
    requires first_within { IsWithin 320000000 group.now a.now }
    requires second_within { IsWithin 320000000 group.now b.now }
    ensures { result ≡ sum_charge group.now a.now (neg_charge group.now b.now) }
{
    let opposite = group.neg(b);
    group.add(a, &opposite)
}

/// The charge of a state of a term that has begun: the flux less the charge of what is to come.
fn charge_left<const K: usize>(sum: &OpSum<K>, rest: &[Factor]) -> Charge<K>
    requires { AreTermOf sum.now rest.now }
    ensures { result ≡ sum_charge sum.now.group sum.now.flux (neg_charge sum.now.group (charge_in sum.now rest.now)) }
{
    sum.known();
    let later = charge_of(sum, rest);
    difference(sum.group(), sum.flux(), &later)
}

/// The charge of a state.
fn stage_charge<const K: usize>(sum: &OpSum<K>, stage: &Stage) -> Charge<K>
    requires { IsStageOf sum.now stage.now }
    ensures { result ≡ state_charge sum.now stage.now }
{
    sum.known();
    match stage.begun() {
        None => sum.group().zero(),
        Some(rest) => charge_left(sum, rest),
    }
}

/// A state with its charge.
pub(crate) fn charged<const K: usize>(sum: &OpSum<K>, stage: Stage) -> State<K>
    requires { IsStageOf sum.now stage }
    ensures { result ≡ with_charge sum.now stage }
{
    let charge = stage_charge(sum, &stage);
    State { charge, stage }
}

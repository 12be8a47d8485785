//! The command on documents of two states and an operator sum: `expect`.
ghost use Rattle.std.specs.Prelude.{◌≡◌, ◌≤◌, [], IfOk, OnOk, IfErr};
ghost use Rattle.qn_net.specs.NetworkValues.{value};
ghost use Rattle.qn_braket.specs.ChainLaws.{network_flux};
ghost use Rattle.qn_mpo.specs.Builds.{IsBuilt};
ghost use Rattle.qn_sumdoc.specs.States.{any_states};
ghost use Rattle.qn_words.specs.declared.words.Job.TheVariants.{Expect};
ghost use Rattle.qn_cli.specs.Outcomes.{answered};
ghost use Rattle.qn_cli.specs.Operators.{IsBuildable};
ghost use Rattle.qn_cli.specs.Brakets.{IsExpectOf, IsExpectPlan, IsExpectText, expect_flux, expect_text, expectation_of, pair_of};
ghost use Rattle.qn_cli.specs.States.{ArePair, AreTwoStates, ComesToExpect, HasSumSuch, IsOnStates, braket_of};
ghost use Rattle.qn_cli.specs.Jobs.{Multiplies};
ghost use Rattle.qn_cli.specs.Answers.{HasNarrow, IsExpectRefusal, IsWidthRefusal, IsWithinBuild, IsWithinExpect, Refuses};

use crate::brakets::states;
use crate::networks::{plan_steps, planned_text};
use crate::operators::{automaton, wide_site};
use crate::status::Status;
use qn_gauss::Steps;
use qn_mpo::{BuildFault, skeleton};
use qn_mps::laws::same_expect_law;
use qn_mps::{Chain, expect_net};
use qn_net::Network;
use qn_opsum::OpSum;
use qn_pair::Gate;
use qn_paths::laws::sum_law;
use qn_plan::Step;
use qn_sumdoc::{AnyStates, States};
use std::alloc::{AllocError, Global};
use std::sync::ledger::Ledger;
use std::thread::Threads;

/// A network and its plan.
#[derive(Drop)]
pub(crate) struct PlannedNet<const K: usize> {
    pub(crate) net: Network<K>,
    pub(crate) plan: Vec<Step>,
}

/// The plan of an expectation, where its automaton and its network are narrow enough. The shapes of the tensors tell,
/// before anything is multiplied.
#[tactic(auto, using(crate::proofs::ExpectNetworks::kind_fits, crate::proofs::ExpectNetworks::groups_fit, crate::proofs::ExpectNetworks::sites_fit, crate::proofs::ExpectNetworks::frame_on, crate::proofs::ExpectNetworks::narrow_expect, crate::proofs::ExpectNetworks::frame_refusal, crate::proofs::ExpectNetworks::step_refusal))]
fn narrow_plan<const K: usize>(
    alloc: Global,
    bra: &Chain<K>,
    ket: &Chain<K>,
    sum: &OpSum<K>,
) -> Result<Vec<Step>, Status>
    requires pair { ArePair bra.now ket.now }
    requires on { IsOnStates (pair_of bra.now ket.now) sum.now }
    ensures plan { IfOk result (λ plan. IsExpectPlan (pair_of bra.now ket.now) sum.now plan.items) }
    ensures ok { OnOk result (HasNarrow (pair_of bra.now ket.now) sum.now) }
    ensures err { IfErr result (IsWidthRefusal (pair_of bra.now ket.now) sum.now) }
{
    same_expect_law();
    let frame = match skeleton(alloc, sum) {
        Ok(frame) => frame,
        Err(BuildFault::Wide { site }) => return Err(wide_site(site)),
        Err(BuildFault::Passed { .. }) => unreachable!(),
        Err(BuildFault::Memory) => return Err(Status::Memory),
    };
    let net = match expect_net(bra, &frame, ket) {
        Ok(net) => net,
        Err(_) => return Err(Status::Memory),
    };
    match plan_steps(alloc, &net) {
        Ok(plan) => Ok(plan),
        Err(status) => Err(status),
    }
}

/// The network of an expectation, with the automaton between the states.
#[tactic(auto, using(crate::proofs::ExpectNetworks::kind_fits, crate::proofs::ExpectNetworks::groups_fit, crate::proofs::ExpectNetworks::sites_fit, crate::proofs::ExpectNetworks::built_on, crate::proofs::ExpectNetworks::built_network, crate::proofs::ExpectNetworks::built_value, crate::proofs::ExpectNetworks::built_flux))]
fn expectation_net<const K: usize>(
    bra: &Chain<K>,
    ket: &Chain<K>,
    sum: &OpSum<K>,
    op: &Chain<K>,
) -> Result<Network<K>, AllocError>
    requires pair { ArePair bra.now ket.now }
    requires on { IsOnStates (pair_of bra.now ket.now) sum.now }
    requires built { IsBuilt sum.now op.now }
    ensures network { IfOk result (IsExpectOf (pair_of bra.now ket.now) sum.now) }
    ensures value { IfOk result (λ net. value net [] ≡ expectation_of (pair_of bra.now ket.now) sum.now) }
    ensures flux { IfOk result (λ net. network_flux net ≡ expect_flux (pair_of bra.now ket.now) sum.now) }
{
    sum_law();
    sum.known();
    op.known();
    expect_net(bra, op, ket)
}

/// The network of an expectation in which nothing is too wide, and its plan, or the status in their place.
#[tactic(auto, using(crate::proofs::ExpectNetworks::width_refused, crate::proofs::ExpectNetworks::build_refused, crate::proofs::ExpectNetworks::within_build_alone, crate::proofs::ExpectNetworks::no_expect_yet, crate::proofs::Costs::not_built))]
pub(crate) fn narrow_net<const K: usize, L: Ledger>(
    alloc: Global,
    bra: &Chain<K>,
    ket: &Chain<K>,
    sum: &OpSum<K>,
    steps: &mut Steps<L>,
) -> Result<PlannedNet<K>, Status>
    requires pair { ArePair bra.now ket.now }
    requires on { IsOnStates (pair_of bra.now ket.now) sum.now }
    ensures network { IfOk result (λ made. IsExpectOf (pair_of bra.now ket.now) sum.now made.net) }
    ensures value { IfOk result (λ made. value made.net [] ≡ expectation_of (pair_of bra.now ket.now) sum.now) }
    ensures flux { IfOk result (λ made. network_flux made.net ≡ expect_flux (pair_of bra.now ket.now) sum.now) }
    ensures plan { IfOk result (λ made. IsExpectPlan (pair_of bra.now ket.now) sum.now made.plan.items) }
    ensures narrow { OnOk result (HasNarrow (pair_of bra.now ket.now) sum.now) }
    ensures buildable { OnOk result (IsBuildable sum.now) }
    ensures status { IfErr result (IsExpectRefusal (pair_of bra.now ket.now) sum.now) }
    ensures build { OnOk result (IsWithinBuild sum.now steps.old steps.new) }
    ensures cost { IsWithinExpect (pair_of bra.now ket.now) sum.now steps.old steps.new }
{
    let plan = narrow_plan(alloc, bra, ket, sum)?;
    let op = automaton(alloc, sum, steps)?;
    match expectation_net(bra, ket, sum, &op) {
        Ok(net) => Ok(PlannedNet { net, plan }),
        Err(_) => Err(Status::Memory),
    }
}

/// The text of the expectation of an operator sum between two states, or the status in its place.
#[tactic(auto, using(crate::proofs::ExpectNetworks::expect_told, crate::proofs::ExpectNetworks::value_refused, crate::proofs::ExpectNetworks::within_both))]
fn expect_text<const K: usize, R: Threads + Sync, G: Gate, L: Ledger>(
    rt: &R,
    alloc: Global,
    workers: u32,
    gate: &G,
    bra: &Chain<K>,
    ket: &Chain<K>,
    sum: &OpSum<K>,
    steps: &mut Steps<L>,
) -> Result<Vec<u8>, Status>
    requires some { 1 ≤ workers }
    requires few { workers ≤ 64 }
    requires pair { ArePair bra.now ket.now }
    requires on { IsOnStates (pair_of bra.now ket.now) sum.now }
    ensures text { IfOk result (λ text. IsExpectText expect_text text.items (pair_of bra.now ket.now) sum.now) }
    ensures status { IfErr result (IsExpectRefusal (pair_of bra.now ket.now) sum.now) }
    ensures cost { IsWithinExpect (pair_of bra.now ket.now) sum.now steps.old steps.new }
{
    let made = narrow_net(alloc, bra, ket, sum, steps)?;
    let plan = made.plan.as_slice();
    planned_text(rt, alloc, workers, gate, &made.net, plan, steps)
}

/// The text of the expectation of the operator sum that goes with two states, or the status in its place.
fn states_text<const K: usize, R: Threads + Sync, G: Gate, L: Ledger>(
    rt: &R,
    alloc: Global,
    workers: u32,
    gate: &G,
    states: &States<K>,
    steps: &mut Steps<L>,
) -> Result<Vec<u8>, Status>
    requires some { 1 ≤ workers }
    requires few { workers ≤ 64 }
    requires two { AreTwoStates states.now }
    requires sum { HasSumSuch states.now (IsOnStates (braket_of states.now)) }
    ensures text { IfOk result (λ text. HasSumSuch states.now (IsExpectText expect_text text.items (braket_of states.now))) }
    ensures status { IfErr result (λ status. HasSumSuch states.now (λ sum. IsExpectRefusal (braket_of states.now) sum status)) }
    ensures cost { HasSumSuch states.now (λ sum. IsWithinExpect (braket_of states.now) sum steps.old steps.new) }
{
    match &states.sum {
        Some(sum) => expect_text(
            rt,
            alloc,
            workers,
            gate,
            &states.bra,
            &states.ket,
            sum,
            steps,
        ),
        None => unreachable!(),
    }
}

fn any_expect_text<R: Threads + Sync, G: Gate, L: Ledger>(
    rt: &R,
    alloc: Global,
    workers: u32,
    gate: &G,
    any: &AnyStates,
    steps: &mut Steps<L>,
) -> Result<Vec<u8>, Status>
    requires some { 1 ≤ workers }
    requires few { workers ≤ 64 }
    requires two { AreTwoStates (any_states any.now) }
    requires sum { HasSumSuch (any_states any.now) (IsOnStates (braket_of (any_states any.now))) }
    ensures text { IfOk result (λ text. HasSumSuch (any_states any.now) (IsExpectText expect_text text.items (braket_of (any_states any.now)))) }
    ensures status { IfErr result (λ status. HasSumSuch (any_states any.now) (λ sum. IsExpectRefusal (braket_of (any_states any.now)) sum status)) }
    ensures cost { HasSumSuch (any_states any.now) (λ sum. IsWithinExpect (braket_of (any_states any.now)) sum steps.old steps.new) }
{
    match any {
        AnyStates::N0(states) => states_text(rt, alloc, workers, gate, states, steps),
        AnyStates::N1(states) => states_text(rt, alloc, workers, gate, states, steps),
        AnyStates::N2(states) => states_text(rt, alloc, workers, gate, states, steps),
        AnyStates::N3(states) => states_text(rt, alloc, workers, gate, states, steps),
        AnyStates::N4(states) => states_text(rt, alloc, workers, gate, states, steps),
    }
}

/// The text of the expectation of the operator sum between the states that the bytes say, or the
/// status in its place.
#[tactic(auto, using(crate::proofs::ExpectBytes::states_with_sum, crate::proofs::ExpectBytes::expect_of_bytes, crate::proofs::ExpectBytes::expect_refusal_of_bytes, crate::proofs::ExpectBytes::states_refused, crate::proofs::ExpectBytes::multiplied_in_expect, crate::proofs::Costs::nothing))]
pub(crate) fn expect<R: Threads + Sync, G: Gate, L: Ledger>(
    rt: &R,
    alloc: Global,
    workers: u32,
    gate: &G,
    bytes: &[u8],
    steps: &mut Steps<L>,
) -> Result<Vec<u8>, Status>
    requires some { 1 ≤ workers }
    requires few { workers ≤ 64 }
    ensures text { IfOk result (λ text. ComesToExpect bytes.now (answered text.items)) }
    ensures status { IfErr result (Refuses (Expect workers) bytes.now) }
    ensures cost { Multiplies (Expect workers) bytes.now steps.old steps.new }
{
    let any = states(alloc, bytes, true)?;
    any_expect_text(rt, alloc, workers, gate, &any, steps)
}

//! The command on the generated workload: `gen`.
ghost use Rattle.std.specs.Prelude.{◌≡◌, ◌≤◌, ◌<◌, ◌^◌, ℕ, [], List, None, IfOk, IfErr, length};
ghost use Rattle.std.specs.List.{sum_by};
ghost use Rattle.qn_net.specs.NetworkValues.{opens, passing_place, steps as steps_of, value};
ghost use Rattle.qn_plan.specs.Planned.{cost_of_plan, first_wide, planned};
ghost use Rattle.qn_texts.specs.SummaryTexts.{summary_text};
ghost use Rattle.qn_gen.specs.Workload.{generated_sum};
ghost use Rattle.qn_words.specs.declared.words.Job.TheVariants.{Gen};
ghost use Rattle.qn_cli.specs.Outcomes.{answered};
ghost use Rattle.qn_cli.specs.Brakets.{IsExpectText, pair_of};
ghost use Rattle.qn_cli.specs.Generated.{generated_states, text_for};
ghost use Rattle.qn_cli.specs.States.{ArePair, IsOnStates};
ghost use Rattle.qn_cli.specs.Jobs.{ComesTo, Multiplies};
ghost use Rattle.qn_cli.specs.Answers.{IsExpectRefusal, IsValueRefusal, IsWithinExpect, IsWithinPlan, Refuses};

use crate::expectations::{PlannedNet, narrow_net};
use crate::networks::value_of;
use crate::status::Status;
use qn_gauss::Steps;
use qn_gen::generate;
use qn_mps::Chain;
use qn_opsum::OpSum;
use qn_pair::Gate;
use qn_plan::Step;
use qn_texts::{Summary, write_summary};
use std::alloc::Global;
use std::sync::ledger::Ledger;
use std::thread::Threads;

/// What all steps cost together.
fn total_cost(steps: &[Step]) -> u64
    requires { sum_by (λ s. s.cost) steps.now < 2 ^ 64 }
    ensures { result ≡ sum_by (λ s. s.cost) steps.now }
{
    let mut total = 0;
    let mut rest = steps;
    while let [step, tail @ ..] = rest {
        total += step.cost;
        rest = tail;
    }
    total
}

/// The line that sums up a network without open legs, on so many sites, or the status in its place.
#[tactic(auto, using(crate::proofs::Summaries::summary_told, crate::proofs::Summaries::no_values))]
fn network_summary<const K: usize, R: Threads + Sync, G: Gate, L: Ledger>(
    rt: &R,
    alloc: Global,
    workers: u32,
    gate: &G,
    sites: u32,
    made: &PlannedNet<K>,
    steps: &mut Steps<L>,
) -> Result<Vec<u8>, Status>
    requires some { 1 ≤ workers }
    requires few { workers ≤ 64 }
    requires closed { opens made.now.net ≡ [] }
    requires planned { made.now.plan.items ≡ planned made.now.net }
    requires short { length made.now.plan.items ≤ 8448 }
    requires bounded { sum_by (λ s. s.cost) made.now.plan.items < 2 ^ 64 }
    requires narrow { first_wide made.now.net ≡ None }
    ensures text { IfOk result (λ text. (first_wide made.now.net ≡ None) × (passing_place made.now.net ≡ None)
        × (text.items ≡ summary_text (record { sites = sites; scalar = value made.now.net []; steps = length (steps_of made.now.net); cost = cost_of_plan made.now.net }))) }
    ensures status { IfErr result (IsValueRefusal made.now.net) }
    ensures cost { IsWithinPlan made.now.net steps.old steps.new }
{
    let plan = made.plan.as_slice();
    let tensor = value_of(rt, alloc, workers, gate, &made.net, plan, steps)?;
    let summary = Summary {
        sites,
        scalar: tensor.entry(&[]),
        steps: plan.len() as u32,
        cost: total_cost(plan),
    };
    match write_summary(alloc, &summary) {
        Ok(text) => Ok(text),
        Err(_) => Err(Status::Memory),
    }
}

/// The line that sums up the expectation of an operator sum between two states, or the status in its
/// place.
#[tactic(auto, using(crate::proofs::Summaries::expect_summed, crate::proofs::Scalars::expect_closed, crate::proofs::ExpectNetworks::value_refused, crate::proofs::ExpectNetworks::within_both))]
fn expect_summary<const K: usize, R: Threads + Sync, G: Gate, L: Ledger>(
    rt: &R,
    alloc: Global,
    workers: u32,
    gate: &G,
    bra: &Chain<K>,
    ket: &Chain<K>,
    sum: &OpSum<K>,
    steps: &mut Steps<L>,
) -> Result<Vec<u8>, Status>
    requires some { 1 ≤ workers }
    requires few { workers ≤ 64 }
    requires pair { ArePair bra.now ket.now }
    requires on { IsOnStates (pair_of bra.now ket.now) sum.now }
    ensures text { IfOk result (λ text. IsExpectText text_for text.items (pair_of bra.now ket.now) sum.now) }
    ensures status { IfErr result (IsExpectRefusal (pair_of bra.now ket.now) sum.now) }
    ensures cost { IsWithinExpect (pair_of bra.now ket.now) sum.now steps.old steps.new }
{
    let made = narrow_net(alloc, bra, ket, sum, steps)?;
    bra.known();
    let sites = bra.sites().len() as u32;
    network_summary(rt, alloc, workers, gate, sites, &made, steps)
}

/// The line that sums up the workload of this number, or the status in its place.
#[tactic(auto, using(crate::proofs::Workloads::summary_of_seed, crate::proofs::Workloads::refusal_of_seed, crate::proofs::Workloads::multiplied_for_seed, crate::proofs::Workloads::pair_of_seed, crate::proofs::Workloads::sum_of_seed, crate::proofs::Costs::nothing))]
pub(crate) fn summary_of<R: Threads + Sync, G: Gate, L: Ledger>(
    rt: &R,
    alloc: Global,
    workers: u32,
    gate: &G,
    seed: u32,
    steps: &mut Steps<L>,
) -> Result<Vec<u8>, Status>
    requires some { 1 ≤ workers }
    requires few { workers ≤ 64 }
    ensures text { IfOk result (λ text. (bytes : List ℕ) → ComesTo (Gen seed workers) bytes (answered text.items)) }
    ensures status { IfErr result (λ status. (bytes : List ℕ) → Refuses (Gen seed workers) bytes status) }
    ensures cost { (bytes : List ℕ) → Multiplies (Gen seed workers) bytes steps.old steps.new }
{
    let workload = match generate(alloc, seed) {
        Ok(workload) => workload,
        Err(_) => return Err(Status::Memory),
    };
    expect_summary(
        rt,
        alloc,
        workers,
        gate,
        &workload.bra,
        &workload.ket,
        &workload.sum,
        steps,
    )
}

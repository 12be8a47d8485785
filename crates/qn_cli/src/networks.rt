//! The commands on documents of networks: `contract` and `plan`.
ghost use Rattle.std.specs.Prelude.{◌≡◌, ◌≤◌, ◌<◌, ◌^◌, None, length, IfOk, IfErr, OnOk};
ghost use Rattle.std.specs.List.{sum_by};
ghost use Rattle.qn_net.specs.NetworkValues.{passing_place};
ghost use Rattle.qn_plan.specs.Planned.{first_wide, planned};
ghost use Rattle.qn_engine.specs.Evaluated.{IsValueOf};
ghost use Rattle.qn_parts.specs.Faults.{fault};
ghost use Rattle.qn_parts.specs.TensorTexts.{tensor_text};
ghost use Rattle.qn_doc.specs.Networks.{any_network};
ghost use Rattle.qn_texts.specs.PlanTexts.{plan_text};
ghost use Rattle.qn_words.specs.declared.words.Job.TheVariants.{Contract, Plan};
ghost use Rattle.qn_cli.specs.Outcomes.{answered};
ghost use Rattle.qn_cli.specs.Networks.{IsNetworkIn, value_tensor, Contracts, Plans};
ghost use Rattle.qn_cli.specs.Jobs.{Multiplies};
ghost use Rattle.qn_cli.specs.Answers.{IsReadFault, IsPlanRefusal, IsValueRefusal, IsWithinPlan, Refuses};

use crate::status::Status;
use qn_block::BlockTensor;
use qn_block::laws::blocks_of_entries;
use qn_doc::{AnyNet, read_network};
use qn_engine::{EngineFault, evaluate_planned};
use qn_gauss::Steps;
use qn_net::Network;
use qn_pair::Gate;
use qn_parts::{DocFault, Fault, write_tensor};
use qn_plan::{PlanFault, Step, plan};
use qn_texts::write_plan;
use std::alloc::Global;
use std::sync::ledger::Ledger;
use std::thread::Threads;

/// The network that the bytes say, or the status in its place. The bytes are let go.
fn network(alloc: Global, bytes: Vec<u8>) -> Result<AnyNet, Status>
    ensures ok { IfOk result (λ any. IsNetworkIn bytes.items (any_network any)) }
    ensures err { IfErr result (IsReadFault bytes.items) }
{
    match read_network(alloc, bytes.as_slice()) {
        Ok(any) => Ok(any),
        Err(DocFault::Bad(fault)) => Err(Status::Malformed { fault }),
        Err(DocFault::Memory) => Err(Status::Memory),
    }
}

/// The first step whose result is too wide.
fn wide(step: u32) -> Status
    ensures { result ≡ Status.Malformed (fault 27 0 step 0) }
{
    Status::Malformed {
        fault: Fault::at(27, 0, step, 0),
    }
}

/// The steps of a network's plan, or the status in their place.
pub(crate) fn plan_steps<const K: usize>(
    alloc: Global,
    net: &Network<K>,
) -> Result<Vec<Step>, Status>
    ensures steps { IfOk result (λ v. v.items ≡ planned net.now) }
    ensures bounded { IfOk result (λ v. sum_by (λ t. t.cost) v.items < 2 ^ 64) }
    ensures few { IfOk result (λ v. length v.items ≤ 8448) }
    ensures narrow { OnOk result (first_wide net.now ≡ None) }
    ensures status { IfErr result (IsPlanRefusal net.now) }
{
    match plan(alloc, net) {
        Ok(steps) => Ok(steps),
        Err(PlanFault::StepWide { step }) => Err(wide(step)),
        Err(PlanFault::Memory) => Err(Status::Memory),
    }
}

/// The text of a network's plan, or the status in its place.
fn plan_text_of<const K: usize>(alloc: Global, net: &Network<K>) -> Result<Vec<u8>, Status>
    ensures text { IfOk result (λ text. (first_wide net.now ≡ None) × (text.items ≡ plan_text (planned net.now))) }
    ensures status { IfErr result (IsPlanRefusal net.now) }
{
    let steps = plan_steps(alloc, net)?;
    match write_plan(alloc, &steps) {
        Ok(text) => Ok(text),
        Err(_) => Err(Status::Memory),
    }
}

/// The value of a network along the plan that was made of it, or the status in its place.
#[tactic(auto, using(crate::proofs::Costs::within_narrow))]
pub(crate) fn value_of<const K: usize, R: Threads + Sync, G: Gate, L: Ledger>(
    rt: &R,
    alloc: Global,
    workers: u32,
    gate: &G,
    net: &Network<K>,
    plan: &[Step],
    steps: &mut Steps<L>,
) -> Result<BlockTensor<K>, Status>
    requires some { 1 ≤ workers }
    requires few { workers ≤ 64 }
    requires planned { plan.now ≡ planned net.now }
    requires short { length plan.now ≤ 8448 }
    requires narrow { first_wide net.now ≡ None }
    ensures value { IfOk result (λ t. (first_wide net.now ≡ None) × (passing_place net.now ≡ None) × (t ≡ value_tensor net.now)) }
    ensures evaluated { IfOk result (IsValueOf net.now) }
    ensures status { IfErr result (IsValueRefusal net.now) }
    ensures cost { IsWithinPlan net.now steps.old steps.new }
{
    blocks_of_entries();
    match evaluate_planned(rt, alloc, net, plan, workers, gate, steps) {
        Ok(value) => {
            value.known();
            Ok(value)
        }
        Err(EngineFault::Wide { step }) => Err(wide(step)),
        Err(EngineFault::Passed { step, at, offset }) => Err(Status::Passed { step, at, offset }),
        Err(EngineFault::Memory) => Err(Status::Memory),
    }
}

/// The text of a network's value along the plan that was made of it, or the status in its place.
pub(crate) fn planned_text<const K: usize, R: Threads + Sync, G: Gate, L: Ledger>(
    rt: &R,
    alloc: Global,
    workers: u32,
    gate: &G,
    net: &Network<K>,
    plan: &[Step],
    steps: &mut Steps<L>,
) -> Result<Vec<u8>, Status>
    requires some { 1 ≤ workers }
    requires few { workers ≤ 64 }
    requires planned { plan.now ≡ planned net.now }
    requires short { length plan.now ≤ 8448 }
    requires narrow { first_wide net.now ≡ None }
    ensures text { IfOk result (λ text. (first_wide net.now ≡ None) × (passing_place net.now ≡ None) × (text.items ≡ tensor_text (value_tensor net.now))) }
    ensures status { IfErr result (IsValueRefusal net.now) }
    ensures cost { IsWithinPlan net.now steps.old steps.new }
{
    let value = value_of(rt, alloc, workers, gate, net, plan, steps)?;
    match write_tensor(alloc, &value) {
        Ok(text) => Ok(text),
        Err(_) => Err(Status::Memory),
    }
}

/// The text of a network's value, or the status in its place.
#[tactic(auto, using(crate::proofs::Summaries::plan_refused, crate::proofs::Costs::no_value_yet))]
pub(crate) fn value_text<const K: usize, R: Threads + Sync, G: Gate, L: Ledger>(
    rt: &R,
    alloc: Global,
    workers: u32,
    gate: &G,
    net: &Network<K>,
    steps: &mut Steps<L>,
) -> Result<Vec<u8>, Status>
    requires some { 1 ≤ workers }
    requires few { workers ≤ 64 }
    ensures text { IfOk result (λ text. (first_wide net.now ≡ None) × (passing_place net.now ≡ None) × (text.items ≡ tensor_text (value_tensor net.now))) }
    ensures status { IfErr result (IsValueRefusal net.now) }
    ensures cost { IsWithinPlan net.now steps.old steps.new }
{
    let plan = plan_steps(alloc, net)?;
    planned_text(rt, alloc, workers, gate, net, plan.as_slice(), steps)
}

fn any_plan_text(alloc: Global, any: &AnyNet) -> Result<Vec<u8>, Status>
    ensures text { IfOk result (λ text. (first_wide (any_network any.now) ≡ None) × (text.items ≡ plan_text (planned (any_network any.now)))) }
    ensures status { IfErr result (IsPlanRefusal (any_network any.now)) }
{
    match any {
        AnyNet::N0(net) => plan_text_of(alloc, net),
        AnyNet::N1(net) => plan_text_of(alloc, net),
        AnyNet::N2(net) => plan_text_of(alloc, net),
        AnyNet::N3(net) => plan_text_of(alloc, net),
        AnyNet::N4(net) => plan_text_of(alloc, net),
    }
}

fn any_value_text<R: Threads + Sync, G: Gate, L: Ledger>(
    rt: &R,
    alloc: Global,
    workers: u32,
    gate: &G,
    any: &AnyNet,
    steps: &mut Steps<L>,
) -> Result<Vec<u8>, Status>
    requires some { 1 ≤ workers }
    requires few { workers ≤ 64 }
    ensures text { IfOk result (λ text. (first_wide (any_network any.now) ≡ None) × (passing_place (any_network any.now) ≡ None) × (text.items ≡ tensor_text (value_tensor (any_network any.now)))) }
    ensures status { IfErr result (IsValueRefusal (any_network any.now)) }
    ensures cost { IsWithinPlan (any_network any.now) steps.old steps.new }
{
    match any {
        AnyNet::N0(net) => value_text(rt, alloc, workers, gate, net, steps),
        AnyNet::N1(net) => value_text(rt, alloc, workers, gate, net, steps),
        AnyNet::N2(net) => value_text(rt, alloc, workers, gate, net, steps),
        AnyNet::N3(net) => value_text(rt, alloc, workers, gate, net, steps),
        AnyNet::N4(net) => value_text(rt, alloc, workers, gate, net, steps),
    }
}

/// The text of the plan of the network that the bytes say, or the status in its place.
pub(crate) fn plan_of(alloc: Global, bytes: Vec<u8>) -> Result<Vec<u8>, Status>
    ensures text { IfOk result (λ text. Plans bytes.items (answered text.items)) }
    ensures status { IfErr result (Refuses Plan bytes.items) }
{
    let any = network(alloc, bytes)?;
    any_plan_text(alloc, &any)
}

/// The text of the value of the network that the bytes say, or the status in its place.
#[tactic(auto, using(crate::proofs::Costs::multiplied, crate::proofs::Costs::nothing))]
pub(crate) fn contract<R: Threads + Sync, G: Gate, L: Ledger>(
    rt: &R,
    alloc: Global,
    workers: u32,
    gate: &G,
    bytes: Vec<u8>,
    steps: &mut Steps<L>,
) -> Result<Vec<u8>, Status>
    requires some { 1 ≤ workers }
    requires few { workers ≤ 64 }
    ensures text { IfOk result (λ text. Contracts bytes.items (answered text.items)) }
    ensures status { IfErr result (Refuses (Contract workers) bytes.items) }
    ensures cost { Multiplies (Contract workers) bytes.items steps.old steps.new }
{
    let any = network(alloc, bytes)?;
    any_value_text(rt, alloc, workers, gate, &any, steps)
}

//! The commands on documents of two states: `overlap`.
ghost use Rattle.std.specs.Prelude.{◌≡◌, ◌≤◌, false, IfOk, IfErr};
ghost use Rattle.qn_sumdoc.specs.States.{any_states};
ghost use Rattle.qn_words.specs.declared.words.Job.TheVariants.{Overlap};
ghost use Rattle.qn_cli.specs.Outcomes.{answered};
ghost use Rattle.qn_cli.specs.Brakets.{IsOverlapText};
ghost use Rattle.qn_cli.specs.States.{AreStatesIn, AreTwoStates, ComesToOverlap, braket_of};
ghost use Rattle.qn_cli.specs.Jobs.{Multiplies};
ghost use Rattle.qn_cli.specs.Answers.{IsStatesRefusal, IsOverlapRefusal, IsWithinOverlap, Refuses};

use crate::networks::value_text;
use crate::status::Status;
use qn_gauss::Steps;
use qn_mps::overlap_net;
use qn_pair::Gate;
use qn_parts::DocFault;
use qn_sumdoc::{AnyStates, States, read_states};
use std::alloc::Global;
use std::sync::ledger::Ledger;
use std::thread::Threads;

/// The states that the bytes say, where wanted with an operator sum, or the status in their place.
#[tactic(auto, using(crate::proofs::OverlapNetworks::two_states))]
pub(crate) fn states(alloc: Global, bytes: &[u8], with_sum: bool) -> Result<AnyStates, Status>
    ensures ok { IfOk result (λ any. AreStatesIn with_sum bytes.now (any_states any)) }
    ensures two { IfOk result (λ any. AreTwoStates (any_states any)) }
    ensures err { IfErr result (IsStatesRefusal with_sum bytes.now) }
{
    match read_states(alloc, bytes, with_sum) {
        Ok(any) => Ok(any),
        Err(DocFault::Bad(fault)) => Err(Status::Malformed { fault }),
        Err(DocFault::Memory) => Err(Status::Memory),
    }
}

/// The text of the overlap of two states, or the status in its place.
#[tactic(auto, using(crate::proofs::OverlapNetworks::overlap_told, crate::proofs::OverlapNetworks::overlap_refusal, crate::proofs::OverlapNetworks::within_overlap, crate::proofs::OverlapNetworks::no_overlap_yet))]
fn overlap_text<const K: usize, R: Threads + Sync, G: Gate, L: Ledger>(
    rt: &R,
    alloc: Global,
    workers: u32,
    gate: &G,
    states: &States<K>,
    steps: &mut Steps<L>,
) -> Result<Vec<u8>, Status>
    requires some { 1 ≤ workers }
    requires few { workers ≤ 64 }
    requires two { AreTwoStates states.now }
    ensures text { IfOk result (λ text. IsOverlapText text.items (braket_of states.now)) }
    ensures status { IfErr result (IsOverlapRefusal (braket_of states.now)) }
    ensures cost { IsWithinOverlap (braket_of states.now) steps.old steps.new }
{
    let net = match overlap_net(&states.bra, &states.ket) {
        Ok(net) => net,
        Err(_) => return Err(Status::Memory),
    };
    value_text(rt, alloc, workers, gate, &net, steps)
}

fn any_overlap_text<R: Threads + Sync, G: Gate, L: Ledger>(
    rt: &R,
    alloc: Global,
    workers: u32,
    gate: &G,
    any: &AnyStates,
    steps: &mut Steps<L>,
) -> Result<Vec<u8>, Status>
    requires some { 1 ≤ workers }
    requires few { workers ≤ 64 }
    requires two { AreTwoStates (any_states any.now) }
    ensures text { IfOk result (λ text. IsOverlapText text.items (braket_of (any_states any.now))) }
    ensures status { IfErr result (IsOverlapRefusal (braket_of (any_states any.now))) }
    ensures cost { IsWithinOverlap (braket_of (any_states any.now)) steps.old steps.new }
{
    match any {
        AnyStates::N0(states) => overlap_text(rt, alloc, workers, gate, states, steps),
        AnyStates::N1(states) => overlap_text(rt, alloc, workers, gate, states, steps),
        AnyStates::N2(states) => overlap_text(rt, alloc, workers, gate, states, steps),
        AnyStates::N3(states) => overlap_text(rt, alloc, workers, gate, states, steps),
        AnyStates::N4(states) => overlap_text(rt, alloc, workers, gate, states, steps),
    }
}

/// The text of the overlap of the states that the bytes say, or the status in its place.
#[tactic(auto, using(crate::proofs::OverlapNetworks::overlap_of_bytes, crate::proofs::OverlapNetworks::overlap_refusal_of_bytes, crate::proofs::OverlapNetworks::states_refused, crate::proofs::OverlapNetworks::multiplied_in_overlap, crate::proofs::Costs::nothing))]
pub(crate) fn overlap<R: Threads + Sync, G: Gate, L: Ledger>(
    rt: &R,
    alloc: Global,
    workers: u32,
    gate: &G,
    bytes: &[u8],
    steps: &mut Steps<L>,
) -> Result<Vec<u8>, Status>
    requires some { 1 ≤ workers }
    requires few { workers ≤ 64 }
    ensures text { IfOk result (λ text. ComesToOverlap bytes.now (answered text.items)) }
    ensures status { IfErr result (Refuses (Overlap workers) bytes.now) }
    ensures cost { Multiplies (Overlap workers) bytes.now steps.old steps.new }
{
    let any = states(alloc, bytes, false)?;
    any_overlap_text(rt, alloc, workers, gate, &any, steps)
}

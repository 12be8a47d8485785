//! The expectation of an operator between two states, kept while tensors of the states are replaced.

ghost use Rattle.std.specs.Prelude.{◌≡◌, ◌≤◌, ◌<◌, ◌+◌, ◌-◌, ◌++◌, ℕ, None, length, take, IsTrue, ◌↔◌, IfOk, OnOk, IfErr, OnErr};
ghost use Rattle.qn_gauss.specs.Gaussian.{Gaussian};
ghost use Rattle.qn_net.specs.NetworkValues.{NetworkValue, passing_place};
ghost use Rattle.qn_plan.specs.Planned.{cost_of_plan, first_wide, planned as planned_steps};
ghost use Rattle.qn_engine.specs.Evaluated.{IsEngineFault};
ghost use Rattle.qn_engine.specs.Carrying.{IsCarried};
ghost use Rattle.qn_sweep.specs.LeftToRight.{IsLeftToRight};
ghost use Rattle.qn_corr.specs.Sweeping.{IsResumed};
ghost use Rattle.qn_corr.specs.Correlators.{CorrValue, AreMatched, IsNetworkOf, IsClear, IsCorrFault, IsPutFault, IsPassingFault, IsChanged, IsCost, IsRest, IsKept, expectation_of, with_site, tensor_on};

use crate::chains::Chains;
use crate::fault::{CorrFault, PutFault};
use crate::sweep::{Swept, renew, resumed, sweep_from};
use qn_block::BlockTensor;
use qn_braket::chains::expect_network_law;
use qn_engine::{EngineFault, Kept, Part, known_steps, start};
use qn_gauss::{Gauss, Steps};
use qn_index::Leg;
use qn_mps::laws::same_expect_law;
use qn_mps::{Chain, Who, same_leg};
use qn_net::Network;
use qn_pair::Gate;
use qn_plan::{PlanFault, Step, plan};
use qn_replace::laws::replaced_law;
use qn_sweep::laws::{left_to_right_law, stays_before_law};
use std::alloc::{AllocError, Global};
use std::marker::Model;
use std::sync::ledger::Ledger;
use std::thread::Threads;

/// The expectation of an operator between two states on the same sites, with what is needed to replace a tensor of a state and
/// to take only the steps from its site on again.
#[derive(Drop)]
pub struct Corr<const K: usize> {
    chains: Chains<K>,
    plan: Vec<Step>,
    kept: Vec<Kept<K>>,
    value: Gauss,
}

impl<const K: usize> Model for Corr<K> {
    ghost use Rattle.qn_corr.specs.Correlators.{CorrValue, IsKept};

    ghost Value = { CorrValue };

    ghost view = { λ c. c.chains };

    ghost invariant = { λ c. IsKept c.chains c.plan.items c.kept.items c.value };
}

/// Whether two lists of legs are the same.
fn same_legs<const K: usize>(a: &[Leg<K>], b: &[Leg<K>]) -> bool
    ensures { IsTrue result ↔ (a.now ≡ b.now) }
{
    if a.len() != b.len() {
        return false;
    }
    for i in 0..a.len() {
        let s = &a[i];
        let t = &b[i];
        if !same_leg(s, t) {
            return false;
        }
    }
    true
}

/// The tensor at a place of one of the two states, where another one has its legs and its flux.
fn fitting<const K: usize>(
    chains: &Chains<K>,
    who: Who,
    place: usize,
    tensor: &BlockTensor<K>,
) -> Result<BlockTensor<K>, PutFault>
    requires { place < length chains.now.bra.tensors }
    ensures earlier { IfOk result (λ e. e ≡ tensor_on chains.now who place) }
    ensures legs { OnOk result (tensor.now.legs ≡ (tensor_on chains.now who place).legs) }
    ensures flux { OnOk result (tensor.now.flux ≡ (tensor_on chains.now who place).flux) }
    ensures err { IfErr result (IsPutFault chains.now who place tensor.now) }
{
    let here = chains.tensor(who, place);
    if !same_legs(tensor.legs(), here.legs()) {
        return Err(PutFault::Legs);
    }
    if !tensor.flux().same(here.flux()) {
        return Err(PutFault::Flux);
    }
    Ok(here.copy()?)
}

/// Takes all steps of the network of the expectation of these chains.
fn sweep_planned<const K: usize, R: Threads + Sync, G: Gate, L: Ledger>(
    rt: &R,
    alloc: Global,
    chains: &Chains<K>,
    net: &Network<K>,
    plan: &[Step],
    workers: u32,
    gate: &G,
    steps: &mut Steps<L>,
) -> Result<Swept<K>, EngineFault>
    requires some { 1 ≤ workers }
    requires few { workers ≤ 64 }
    requires network { IsNetworkOf chains.now net.now }
    requires planned { plan.now ≡ planned_steps net.now }
    requires narrow { first_wide net.now ≡ None }
    ensures kept { IfOk result (λ s. IsKept chains.now plan.now s.kept.items s.value) }
    ensures clear { OnOk result (passing_place net.now ≡ None) }
    ensures err { IfErr result (IsEngineFault net.now) }
    ensures steps { steps.new ≤ steps.old + cost_of_plan net.now }
{
    chains.known();
    net.known();
    known_steps(net);
    left_to_right_law();
    let sites = chains.sites();
    let parts = start(alloc, net)?;
    match sweep_from(rt, alloc, parts, plan, sites, 0, workers, gate, steps) {
        Ok(swept) => Ok(swept),
        Err(fault) => Err(fault),
    }
}

/// The plan of an expectation, and what all its steps make.
struct Whole<const K: usize> {
    plan: Vec<Step>,
    swept: Swept<K>,
}

/// The plan of the expectation of these chains, and what all its steps make.
fn sweep_whole<const K: usize, R: Threads + Sync, G: Gate, L: Ledger>(
    rt: &R,
    alloc: Global,
    chains: &Chains<K>,
    workers: u32,
    gate: &G,
    steps: &mut Steps<L>,
) -> Result<Whole<K>, CorrFault>
    requires some { 1 ≤ workers }
    requires few { workers ≤ 64 }
    ensures kept { IfOk result (λ w. IsKept chains.now w.plan.items w.swept.kept.items w.swept.value) }
    ensures clear { OnOk result (IsClear chains.now) }
    ensures err { IfErr result (IsCorrFault chains.now) }
    ensures steps { (k : ℕ) → IsCost chains.now k → steps.new ≤ steps.old + k }
{
    replaced_law();
    same_expect_law();
    let net = chains.network()?;
    let plan = match plan(alloc, &net) {
        Ok(plan) => plan,
        Err(PlanFault::StepWide { step }) => return Err(CorrFault::Wide { step }),
        Err(PlanFault::Memory) => return Err(CorrFault::Memory),
    };
    match sweep_planned(
        rt,
        alloc,
        chains,
        &net,
        plan.as_slice(),
        workers,
        gate,
        steps,
    ) {
        Ok(swept) => Ok(Whole { plan, swept }),
        Err(EngineFault::Wide { step }) => Err(CorrFault::Wide { step }),
        Err(EngineFault::Passed { step, at, offset }) => {
            Err(CorrFault::Passed { step, at, offset })
        }
        Err(EngineFault::Memory) => Err(CorrFault::Memory),
    }
}

/// The parts before the steps of a site: the members, with what was kept in the place of those of the sites before.
fn parts_before<'a, const K: usize>(
    alloc: Global,
    net: &'a Network<K>,
    kept: &'a [Kept<K>],
    sites: usize,
    place: usize,
) -> Result<Vec<Part<'a, K>>, AllocError>
    requires small { sites ≤ 64 }
    requires place { place < sites }
    requires kept { length kept.now + 1 ≡ sites }
    requires sweep { IsLeftToRight net.now sites }
    ensures first { IfOk result (λ v. place ≡ 0 → IsCarried net.now 0 v.items) }
    ensures later { IfOk result (λ v. 0 < place → IsResumed net.now kept.now sites place v.items) }
{
    let parts = start(alloc, net)?;
    if place == 0 {
        return Ok(parts);
    }
    let parts = resumed(alloc, parts, &kept[place - 1], sites, place)?;
    Ok(parts)
}

/// Takes the steps of the network of the expectation of these chains from those of a site on, with what was kept of chains
/// that differ on this site alone.
fn sweep_again<const K: usize, R: Threads + Sync, G: Gate, L: Ledger>(
    rt: &R,
    alloc: Global,
    chains: &Chains<K>,
    net: &Network<K>,
    plan: &[Step],
    kept: &[Kept<K>],
    place: usize,
    workers: u32,
    gate: &G,
    steps: &mut Steps<L>,
) -> Result<Swept<K>, EngineFault>
    requires some { 1 ≤ workers }
    requires few { workers ≤ 64 }
    requires place { place < length chains.now.bra.tensors }
    requires network { IsNetworkOf chains.now net.now }
    requires before { (old : CorrValue) × (result : Gaussian) × IsKept old plan.now kept.now result × IsChanged place old chains.now }
    ensures kept { IfOk result (λ s. (old : CorrValue) (before : Gaussian) → IsKept old plan.now kept.now before → IsChanged place old chains.now →
        IsKept chains.now plan.now (take place kept.now ++ s.kept.items) s.value) }
    ensures err { IfErr result (IsEngineFault net.now) }
    ensures narrow { first_wide net.now ≡ None }
    ensures steps { (old : CorrValue) (before : Gaussian) (k : ℕ) → IsKept old plan.now kept.now before → IsChanged place old chains.now → IsRest old place k → steps.new ≤ steps.old + k }
{
    chains.known();
    net.known();
    known_steps(net);
    left_to_right_law();
    stays_before_law();
    let sites = chains.sites();
    let parts = parts_before(alloc, net, kept, sites, place)?;
    match sweep_from(rt, alloc, parts, plan, sites, place, workers, gate, steps) {
        Ok(swept) => Ok(swept),
        Err(fault) => Err(fault),
    }
}

/// The value of the expectation of these chains, for which what was kept of chains that differ on one site alone is renewed
/// from this site on. After a failure it is as before.
fn value_again<const K: usize, R: Threads + Sync, G: Gate, L: Ledger>(
    rt: &R,
    alloc: Global,
    chains: &Chains<K>,
    plan: &[Step],
    kept: &mut Vec<Kept<K>>,
    place: usize,
    workers: u32,
    gate: &G,
    steps: &mut Steps<L>,
) -> Result<Gauss, PutFault>
    requires some { 1 ≤ workers }
    requires few { workers ≤ 64 }
    requires place { place < length chains.now.bra.tensors }
    requires before { (old : CorrValue) × (result : Gaussian) × IsKept old plan.now kept.old.items result × IsChanged place old chains.now }
    ensures kept { IfOk result (λ v. (old : CorrValue) (before : Gaussian) → IsKept old plan.now kept.old.items before → IsChanged place old chains.now → IsKept chains.now plan.now kept.new.items v) }
    ensures clear { OnOk result (IsClear chains.now) }
    ensures same { OnErr result (kept.new.items ≡ kept.old.items) }
    ensures err { IfErr result (IsPassingFault chains.now) }
    ensures steps { (old : CorrValue) (before : Gaussian) (k : ℕ) → IsKept old plan.now kept.old.items before → IsChanged place old chains.now → IsRest old place k → steps.new ≤ steps.old + k }
{
    replaced_law();
    same_expect_law();
    let net = chains.network()?;
    match sweep_again(
        rt,
        alloc,
        chains,
        &net,
        plan,
        kept.as_slice(),
        place,
        workers,
        gate,
        steps,
    ) {
        Ok(swept) => {
            let Swept { kept: newer, value } = swept;
            match renew(kept, place, newer) {
                Ok(()) => Ok(value),
                Err(_) => Err(PutFault::Memory),
            }
        }
        Err(EngineFault::Wide { .. }) => unreachable!(),
        Err(EngineFault::Passed { step, at, offset }) => {
            Err(PutFault::Passed { step, at, offset })
        }
        Err(EngineFault::Memory) => Err(PutFault::Memory),
    }
}

impl<const K: usize> Corr<K> {
    /// The expectation of the operator between the two states. Each multiplication is one of `steps`.
    pub fn new<R: Threads + Sync, G: Gate, L: Ledger>(
        rt: &R,
        alloc: Global,
        bra: Chain<K>,
        op: Chain<K>,
        ket: Chain<K>,
        workers: u32,
        gate: &G,
        steps: &mut Steps<L>,
    ) -> Result<Corr<K>, CorrFault>
        requires matched { AreMatched bra op ket }
        requires some { 1 ≤ workers }
        requires few { workers ≤ 64 }
        ensures chains { IfOk result (λ c. c ≡ record { bra = bra.entry; op = op.entry; ket = ket.entry }) }
        ensures clear { OnOk result (IsClear (record { bra = bra.entry; op = op.entry; ket = ket.entry })) }
        ensures err { IfErr result (IsCorrFault (record { bra = bra.entry; op = op.entry; ket = ket.entry })) }
        ensures steps { (k : ℕ) → IsCost (record { bra = bra.entry; op = op.entry; ket = ket.entry }) k → steps.new ≤ steps.old + k }
    {
        let chains = Chains { bra, op, ket };
        match sweep_whole(rt, alloc, &chains, workers, gate, steps) {
            Ok(whole) => {
                let Whole { plan, swept } = whole;
                let Swept { kept, value } = swept;
                Ok(Corr {
                    chains,
                    plan,
                    kept,
                    value,
                })
            }
            Err(fault) => Err(fault),
        }
    }

    /// The expectation: the entry of the value of its network, or zero where the fluxes do not add up to zero. Takes no memory.
    pub fn value(&self) -> Gauss
        ensures { result ≡ expectation_of self.now }
    {
        self.chains.known();
        expect_network_law();
        self.value
    }

    /// Puts a tensor in the place of the one on a site, counted from 1, of one of the two states, and takes only the steps
    /// from this site on again. After a refusal all is as before. Each multiplication is one of `steps`.
    pub fn replace<R: Threads + Sync, G: Gate, L: Ledger>(
        &mut self,
        rt: &R,
        alloc: Global,
        who: Who,
        site: u32,
        tensor: BlockTensor<K>,
        workers: u32,
        gate: &G,
        steps: &mut Steps<L>,
    ) -> Result<(), PutFault>
        requires low { 1 ≤ site }
        requires high { site ≤ length self.old.bra.tensors }
        requires group { tensor.group ≡ self.old.bra.group }
        requires some { 1 ≤ workers }
        requires few { workers ≤ 64 }
        ensures ok { OnOk result (self.new ≡ with_site self.old who (site - 1) tensor.entry) }
        ensures same { OnOk result ((tensor.entry.legs ≡ (tensor_on self.old who (site - 1)).legs) × (tensor.entry.flux ≡ (tensor_on self.old who (site - 1)).flux)) }
        ensures clear { OnOk result (IsClear (with_site self.old who (site - 1) tensor.entry)) }
        ensures refused { OnErr result (self.new ≡ self.old) }
        ensures err { IfErr result (IsPutFault self.old who (site - 1) tensor.entry) }
        ensures steps { (k : ℕ) → IsRest self.old (site - 1) k → steps.new ≤ steps.old + k }
    {
        self.chains.known();
        let place = site as usize - 1;
        let earlier = match fitting(&self.chains, who, place, &tensor) {
            Ok(earlier) => earlier,
            Err(fault) => return Err(fault),
        };
        self.chains.put(who, site, tensor);
        match value_again(
            rt,
            alloc,
            &self.chains,
            self.plan.as_slice(),
            &mut self.kept,
            place,
            workers,
            gate,
            steps,
        ) {
            Ok(value) => {
                self.value = value;
                Ok(())
            }
            Err(fault) => {
                self.chains.put(who, site, earlier);
                Err(fault)
            }
        }
    }

    /// What holds of each correlator: the chains are two states and an operator on the same sites. Nothing is done.
    pub fn known(&self)
        ensures { AreMatched self.now.bra self.now.op self.now.ket }
    {
        self.chains.known();
    }

    /// The bra.
    pub fn bra(&self) -> &Chain<K>
        ensures { result.now ≡ self.now.bra }
    {
        &self.chains.bra
    }

    /// The operator.
    pub fn op(&self) -> &Chain<K>
        ensures { result.now ≡ self.now.op }
    {
        &self.chains.op
    }

    /// The ket.
    pub fn ket(&self) -> &Chain<K>
        ensures { result.now ≡ self.now.ket }
    {
        &self.chains.ket
    }
}

//! The steps of an expectation, site by site.

ghost use Rattle.std.specs.Prelude.{◌≡◌, ◌≤◌, ◌<◌, ◌+◌, ◌-◌, ◌*◌, ◌++◌, ◌∷◌, [], ℕ, None, length, take, drop, IfOk, OnOk, IfErr, OnErr};
ghost use Rattle.std.specs.List.{sum_by};
ghost use Rattle.qn_net.specs.NetworkValues.{NetworkValue, value, passing_place};
ghost use Rattle.qn_engine.specs.Parts.{PartValue};
ghost use Rattle.qn_engine.specs.Evaluated.{IsEngineFault};
ghost use Rattle.qn_sweep.specs.LeftToRight.{steps_before};
ghost use Rattle.qn_corr.specs.Sweeping.{IsSweepAt, IsEnvironment, AreEnvironments, with_environment};

use qn_engine::{EngineFault, Kept, Part, carry, finished};
use qn_gauss::{Gauss, Steps};
use qn_pair::Gate;
use qn_plan::Step;
use std::alloc::{AllocError, Global};
use std::sync::ledger::Ledger;
use std::thread::Threads;

/// How many steps come before the first that touches a site, counted from 0.
pub(crate) fn steps_before(site: usize) -> usize
    requires { site ≤ 64 }
    ensures { result ≡ steps_before site }
{
    if site == 0 { 0 } else { 3 * (site - 1) + 2 }
}

/// Takes the steps of a site, and keeps the tensor of all sites up to it.
fn take_site<'a, const K: usize, R: Threads + Sync, G: Gate, L: Ledger>(
    rt: &R,
    alloc: Global,
    parts: &mut Vec<Part<'a, K>>,
    plan: &[Step],
    sites: usize,
    site: usize,
    kept: &mut Vec<Kept<K>>,
    workers: u32,
    gate: &G,
    steps: &mut Steps<L>,
) -> Result<(), EngineFault>
    requires within { site + 1 < sites }
    requires small { sites ≤ 64 }
    requires some { 1 ≤ workers }
    requires few { workers ≤ 64 }
    requires way { (net : NetworkValue) × IsSweepAt net plan.now sites site parts.old.items }
    ensures way { OnOk result ((net : NetworkValue) → IsSweepAt net plan.now sites site parts.old.items → IsSweepAt net plan.now sites (site + 1) parts.new.items) }
    ensures kept { OnOk result ((net : NetworkValue) → IsSweepAt net plan.now sites site parts.old.items → (p : PartValue) × (kept.new.items ≡ kept.old.items ++ p ∷ []) × IsEnvironment net sites (site + 1) p) }
    ensures err { IfErr result (λ e. (net : NetworkValue) → IsSweepAt net plan.now sites site parts.old.items → IsEngineFault net e) }
    ensures steps { steps.new ≤ steps.old + sum_by (λ t. t.cost) (take (steps_before (site + 1) - steps_before site) (drop (steps_before site) plan.now)) }
{
    match carry(
        rt,
        alloc,
        parts,
        plan,
        &[],
        steps_before(site),
        steps_before(site + 1),
        workers,
        gate,
        steps,
    ) {
        Ok(()) => {}
        Err(fault) => return Err(fault),
    }
    let place = sites - (site + 1);
    kept.push(parts[place].keep(alloc)?)?;
    Ok(())
}

/// What the steps from a site on make: the tensors of the sites before each later one, and the value.
pub(crate) struct Swept<const K: usize> {
    pub kept: Vec<Kept<K>>,
    pub value: Gauss,
}

/// Takes all steps from those of a site on.
pub(crate) fn sweep_from<'a, const K: usize, R: Threads + Sync, G: Gate, L: Ledger>(
    rt: &R,
    alloc: Global,
    parts: Vec<Part<'a, K>>,
    plan: &[Step],
    sites: usize,
    first: usize,
    workers: u32,
    gate: &G,
    steps: &mut Steps<L>,
) -> Result<Swept<K>, EngineFault>
    requires within { first < sites }
    requires small { sites ≤ 64 }
    requires some { 1 ≤ workers }
    requires few { workers ≤ 64 }
    requires way { (net : NetworkValue) × IsSweepAt net plan.now sites first parts.items }
    ensures kept { IfOk result (λ s. (net : NetworkValue) → IsSweepAt net plan.now sites first parts.entry.items → AreEnvironments net sites (first + 1) s.kept.items) }
    ensures count { IfOk result (λ s. length s.kept.items + (first + 1) ≡ sites) }
    ensures value { IfOk result (λ s. (net : NetworkValue) → IsSweepAt net plan.now sites first parts.entry.items → s.value ≡ value net []) }
    ensures clear { OnOk result ((net : NetworkValue) → IsSweepAt net plan.now sites first parts.entry.items → passing_place net ≡ None) }
    ensures err { IfErr result (λ e. (net : NetworkValue) → IsSweepAt net plan.now sites first parts.entry.items → IsEngineFault net e) }
    ensures steps { steps.new ≤ steps.old + sum_by (λ t. t.cost) (drop (steps_before first) plan.now) }
{
    let mut parts = parts;
    let mut kept = Vec::with_capacity(alloc, sites)?;
    for site in first..sites - 1 {
        match take_site(
            rt, alloc, &mut parts, plan, sites, site, &mut kept, workers, gate, steps,
        ) {
            Ok(()) => {}
            Err(fault) => return Err(fault),
        }
    }
    match carry(
        rt,
        alloc,
        &mut parts,
        plan,
        &[],
        steps_before(sites - 1),
        plan.len(),
        workers,
        gate,
        steps,
    ) {
        Ok(()) => {}
        Err(fault) => return Err(fault),
    }
    let scalar = finished(rt, alloc, parts)?;
    let value = scalar.entry(&[]);
    Ok(Swept { kept, value })
}

/// The parts before the steps of a site, which is not the first: the members of this site and the later ones, and the
/// tensor of all sites before. They are made of the parts before the first step.
pub(crate) fn resumed<'a, const K: usize>(
    alloc: Global,
    parts: Vec<Part<'a, K>>,
    before: &'a Kept<K>,
    sites: usize,
    site: usize,
) -> Result<Vec<Part<'a, K>>, AllocError>
    requires within { site ≤ sites }
    requires small { sites ≤ 64 }
    requires count { length parts.items ≡ 3 * sites }
    ensures { IfOk result (λ v. v.items ≡ with_environment sites site parts.entry.items before.now) }
{
    let mut parts = parts;
    let mut kets = parts.split_off(2 * sites + site)?;
    parts.truncate(2 * sites);
    let mut ops = parts.split_off(sites + site)?;
    parts.truncate(sites - site);
    parts.push(before.lend(alloc)?)?;
    parts.append(&mut ops)?;
    parts.append(&mut kets)?;
    Ok(parts)
}

/// Puts newer tensors in the place of those from a place on. After a failure all is as before.
pub(crate) fn renew<const K: usize>(
    kept: &mut Vec<Kept<K>>,
    from: usize,
    newer: Vec<Kept<K>>,
) -> Result<(), AllocError>
    ensures ok { OnOk result (kept.new.items ≡ take from kept.old.items ++ newer.entry.items) }
    ensures err { OnErr result (kept.new.items ≡ kept.old.items) }
{
    let mut newer = newer;
    kept.reserve(newer.len())?;
    kept.truncate(from);
    match kept.append(&mut newer) {
        Ok(()) => Ok(()),
        Err(_) => unreachable!(),
    }
}

//! A correlator of the generated chain over twelve replacements, each value beside that of a network made anew.

ghost use Rattle.std.specs.Prelude.{◌≡◌, ◌<◌, ◌≤◌, ℕ, length, IfOk, OnOk};
ghost use Rattle.qn_mps.specs.Chains.{ChainValue, IsHeld};
ghost use Rattle.qn_mpo.specs.Builds.{IsBuilt};
ghost use Rattle.qn_corr.specs.Correlators.{AreMatched};

use crate::basis::entry_at;
use crate::number::Number;
use qn_corr::Corr;
use qn_engine::evaluate;
use qn_gauss::Steps;
use qn_gen::{Workload, generate};
use qn_mpo::{build, operator_rules};
use qn_mps::{Chain, Who, expect_net};
use qn_pair::OpenGate;
use std::alloc::{AllocError, Global};
use std::marker::Brand;
use std::process::Abort;
use std::sync::ledger::{Blank, Ledger};
use std::test::Fail;
use std::thread::Threads;

// The sites at which tensors of the ket are replaced, and then those of the bra.
const KET_SITES: &[u32] = &[8, 1, 4, 5, 2, 7];

const BRA_SITES: &[u32] = &[3, 6, 8, 4, 1, 8];

// The expectation of the chains as they stand, from a network made anew.
fn made_anew<L: Ledger, R: Abort + Threads + Sync>(
    rt: &R,
    alloc: Global,
    corr: &Corr<1>,
    steps: &mut Steps<L>,
) -> Result<Number, AllocError> {
    corr.known();
    let net = expect_net(corr.bra(), corr.op(), corr.ket())?;
    match evaluate(rt, alloc, &net, 1, &OpenGate, steps) {
        Ok(tensor) => Ok(entry_at(rt, &tensor, &[])),
        Err(fault) => panic!(rt; "{fault:?}"),
    }
}

// The correlator of the states with the automaton of the sum between them.
fn correlator<L: Ledger, R: Abort + Threads + Sync>(
    rt: &R,
    alloc: Global,
    workload: &Workload,
    steps: &mut Steps<L>,
) -> Result<Corr<1>, AllocError>
    requires { (op : ChainValue) → IsBuilt workload.now.sum op → AreMatched workload.now.bra op workload.now.ket }
    ensures { IfOk result (λ c. (c.bra ≡ workload.now.bra) × (c.ket ≡ workload.now.ket)) }
{
    let sum = &workload.sum;
    let rules = operator_rules(alloc, sum)?;
    let op = match build(alloc, sum, &rules, steps) {
        Ok(op) => op,
        Err(fault) => panic!(rt; "{fault:?}"),
    };
    let bra = workload.bra.copy()?;
    let ket = workload.ket.copy()?;
    match Corr::new(rt, alloc, bra, op, ket, 1, &OpenGate, steps) {
        Ok(corr) => Ok(corr),
        Err(fault) => panic!(rt; "{fault:?}"),
    }
}

// Puts the tensor of another chain on this site, and compares.
fn expect_replaced<L: Ledger, R: Abort + Threads + Sync>(
    rt: &R,
    alloc: Global,
    corr: &mut Corr<1>,
    who: Who,
    site: u32,
    other: &Chain<1>,
    steps: &mut Steps<L>,
) -> Result<(), AllocError>
    requires { other.now.group ≡ corr.old.bra.group }
    ensures { OnOk result (corr.new.bra.group ≡ corr.old.bra.group) }
{
    other.known();
    let tensors = other.tensors();
    let count = corr.bra().tensors().len();
    if site == 0 || site as usize > tensors.len() || site as usize > count {
        panic!(rt; "there is no site {site}");
    }
    let tensor = tensors[site as usize - 1].copy()?;
    match corr.replace(rt, alloc, who, site, tensor, 1, &OpenGate, steps) {
        Ok(()) => {}
        Err(fault) => panic!(rt; "{fault:?}"),
    }
    let wanted = made_anew(rt, alloc, corr, steps)?;
    assert_eq!(rt; Number::of(corr.value()), wanted);
    Ok(())
}

// Twelve replacements: first tensors of the ket by those of the bra on their sites, and then of the bra by those of the ket.
#[tactic(auto, using(crate::proofs::Matched::matched_of_seed))]
fn expect_all_replaced<L: Ledger, R: Abort + Threads + Sync>(
    blank: Blank,
    rt: &R,
    alloc: Global,
) -> Result<(), AllocError>
    requires name { blank.name ≡ L.name }
    requires parts { blank.parts ≡ L.parts }
    requires some { 0 < L.parts }
{
    let mut steps = Steps::<L>::new(blank);
    let workload = generate(alloc, 0)?;
    let mut corr = correlator(rt, alloc, &workload, &mut steps)?;
    for site in KET_SITES {
        expect_replaced(
            rt,
            alloc,
            &mut corr,
            Who::Ket,
            *site,
            &workload.bra,
            &mut steps,
        )?;
    }
    for site in BRA_SITES {
        expect_replaced(
            rt,
            alloc,
            &mut corr,
            Who::Bra,
            *site,
            &workload.ket,
            &mut steps,
        )?;
    }
    Ok(())
}

#[test]
fn replaced_tensors_against_networks(rt: HostRuntime) -> Result<(), Fail> {
    expect_all_replaced::<Brand, _>(Blank::new(1), &rt, rt.alloc())?;
    Ok(())
}

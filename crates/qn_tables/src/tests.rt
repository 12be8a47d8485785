//! Automata against strings of operators, and texts of the program against sums over all basis states.

ghost use Rattle.std.specs.Prelude.{◌≡◌, ◌<◌};

use crate::amplitudes::{expectation, overlap};
use crate::basis::{basis, entry_at};
use crate::documents::DOCUMENTS;
use crate::number::Number;
use crate::strings::{amplitude_at, image};
use qn_block::BlockTensor;
use qn_cli::run;
use qn_engine::evaluate;
use qn_gauss::Steps;
use qn_mpo::{build, operator_rules};
use qn_opsum::OpSum;
use qn_outside::{MemSink, MemSource};
use qn_pair::OpenGate;
use qn_sumdoc::{AnyStates, AnySum, States, read_states, read_sum};
use std::alloc::{AllocError, Global};
use std::marker::Brand;
use std::process::Abort;
use std::sync::ledger::{Blank, Ledger};
use std::test::Fail;
use std::thread::Threads;

// The automaton of a sum, contracted: the legs s' of the sites, then their legs s from the last to the first.
fn contracted<const K: usize, L: Ledger, R: Abort + Threads + Sync>(
    rt: &R,
    alloc: Global,
    sum: &OpSum<K>,
    steps: &mut Steps<L>,
) -> Result<BlockTensor<K>, AllocError> {
    let rules = operator_rules(alloc, sum)?;
    let chain = match build(alloc, sum, &rules, steps) {
        Ok(chain) => chain,
        Err(fault) => panic!(rt; "{fault:?}"),
    };
    let net = chain.network()?;
    match evaluate(rt, alloc, &net, 1, &OpenGate, steps) {
        Ok(tensor) => Ok(tensor),
        Err(fault) => panic!(rt; "{fault:?}"),
    }
}

// One state, and then another from its last value to its first.
fn joined(alloc: Global, first: &[u32], second: &[u32]) -> Result<Vec<u32>, AllocError> {
    let mut values = Vec::new(alloc);
    for x in first {
        values.push(*x)?;
    }
    for x in second.iter().rev() {
        values.push(*x)?;
    }
    Ok(values)
}

// At all basis states the contracted automaton has what the strings of the sum make of one of them.
fn expect_column<const K: usize>(
    rt: &impl Abort,
    alloc: Global,
    sum: &OpSum<K>,
    tensor: &BlockTensor<K>,
    states: &[Vec<u32>],
    state: &Vec<u32>,
) -> Result<(), AllocError> {
    let components = image(rt, alloc, sum, state)?;
    for other in states {
        let values = joined(alloc, other, state)?;
        let wanted = amplitude_at(&components, other);
        assert_eq!(rt; entry_at(rt, tensor, &values), wanted);
    }
    Ok(())
}

fn expect_elements<const K: usize, L: Ledger, R: Abort + Threads + Sync>(
    rt: &R,
    alloc: Global,
    sum: &OpSum<K>,
    steps: &mut Steps<L>,
) -> Result<(), AllocError> {
    let tensor = contracted(rt, alloc, sum, steps)?;
    let states = basis(alloc, sum.sites())?;
    for state in &states {
        expect_column(rt, alloc, sum, &tensor, &states, state)?;
    }
    Ok(())
}

fn expect_any_elements<L: Ledger, R: Abort + Threads + Sync>(
    rt: &R,
    alloc: Global,
    text: &str,
    steps: &mut Steps<L>,
) -> Result<(), AllocError> {
    match read_sum(alloc, text.as_bytes()) {
        Ok(AnySum::N0(sum)) => expect_elements(rt, alloc, &sum, steps),
        Ok(AnySum::N1(sum)) => expect_elements(rt, alloc, &sum, steps),
        Ok(AnySum::N2(sum)) => expect_elements(rt, alloc, &sum, steps),
        Ok(AnySum::N3(sum)) => expect_elements(rt, alloc, &sum, steps),
        Ok(AnySum::N4(sum)) => expect_elements(rt, alloc, &sum, steps),
        Err(fault) => panic!(rt; "{fault:?}"),
    }
}

fn expect_all_elements<L: Ledger, R: Abort + Threads + Sync>(
    blank: Blank,
    rt: &R,
    alloc: Global,
) -> Result<(), AllocError>
    requires name { blank.name ≡ L.name }
    requires parts { blank.parts ≡ L.parts }
    requires some { 0 < L.parts }
{
    let mut steps = Steps::<L>::new(blank);
    for text in DOCUMENTS {
        expect_any_elements(rt, alloc, text, &mut steps)?;
    }
    Ok(())
}

#[test]
fn automata_against_strings(rt: HostRuntime) -> Result<(), Fail> {
    expect_all_elements::<Brand, _>(Blank::new(1), &rt, rt.alloc())?;
    Ok(())
}

// The overlap and the expectation of two states, from sums over all basis states.
fn wanted<const K: usize>(
    rt: &impl Abort,
    alloc: Global,
    states: &States<K>,
) -> Result<(Number, Number), AllocError> {
    let Some(sum) = &states.sum else {
        panic!(rt; "there is no operator sum")
    };
    let first = overlap(rt, alloc, &states.sites, &states.bra, &states.ket)?;
    let second = expectation(rt, alloc, sum, &states.bra, &states.ket)?;
    Ok((first, second))
}

fn any_wanted(rt: &impl Abort, alloc: Global, text: &str) -> Result<(Number, Number), AllocError> {
    match read_states(alloc, text.as_bytes(), true) {
        Ok(AnyStates::N0(states)) => wanted(rt, alloc, &states),
        Ok(AnyStates::N1(states)) => wanted(rt, alloc, &states),
        Ok(AnyStates::N2(states)) => wanted(rt, alloc, &states),
        Ok(AnyStates::N3(states)) => wanted(rt, alloc, &states),
        Ok(AnyStates::N4(states)) => wanted(rt, alloc, &states),
        Err(fault) => panic!(rt; "{fault:?}"),
    }
}

// What the command writes on the document.
fn written<L: Ledger, R: Threads + Sync>(
    rt: &R,
    alloc: Global,
    command: &str,
    text: &str,
    steps: &mut Steps<L>,
) -> Result<MemSink, AllocError> {
    let mut words = Vec::new(alloc);
    words.push(String::from_str(alloc, command)?)?;
    let bytes = text.as_bytes().to_vec(alloc)?;
    let mut source = MemSource::new(bytes, 1000, Vec::new(alloc));
    let mut out = MemSink::new(alloc, 10000, 1000, Vec::new(alloc))?;
    let mut err = MemSink::new(alloc, 1000, 1000, Vec::new(alloc))?;
    let _ = run(
        rt,
        alloc,
        words.as_slice(),
        &mut source,
        &mut out,
        &mut err,
        &OpenGate,
        steps,
    );
    Ok(out)
}

// The text of a number other than 0 as a tensor without legs, up to its flux.
fn front_of(alloc: Global, number: Number) -> Result<String, AllocError> {
    if number.is_zero() {
        String::from_str(alloc, "{\"blocks\":[],\"flux\":[")
    } else {
        format!(in alloc;
            "{{\"blocks\":[[[],[[\"{}\",\"{}\"]]]],\"flux\":[",
            number.re, number.im
        )
    }
}

fn expect_number<L: Ledger, R: Abort + Threads + Sync>(
    rt: &R,
    alloc: Global,
    command: &str,
    text: &str,
    number: Number,
    steps: &mut Steps<L>,
) -> Result<(), AllocError> {
    let out = written(rt, alloc, command, text, steps)?;
    let front = front_of(alloc, number)?;
    assert!(rt;
        out.held().starts_with(front.as_bytes()),
        "{command}: {number:?} {text}"
    );
    Ok(())
}

fn expect_numbers<L: Ledger, R: Abort + Threads + Sync>(
    rt: &R,
    alloc: Global,
    text: &str,
    steps: &mut Steps<L>,
) -> Result<(), AllocError> {
    let (first, second) = any_wanted(rt, alloc, text)?;
    expect_number(rt, alloc, "overlap", text, first, steps)?;
    expect_number(rt, alloc, "expect", text, second, steps)
}

fn expect_all_numbers<L: Ledger, R: Abort + Threads + Sync>(
    blank: Blank,
    rt: &R,
    alloc: Global,
) -> Result<(), AllocError>
    requires name { blank.name ≡ L.name }
    requires parts { blank.parts ≡ L.parts }
    requires some { 0 < L.parts }
{
    let mut steps = Steps::<L>::new(blank);
    for text in DOCUMENTS {
        expect_numbers(rt, alloc, text, &mut steps)?;
    }
    Ok(())
}

#[test]
fn brakets_against_amplitudes(rt: HostRuntime) -> Result<(), Fail> {
    expect_all_numbers::<Brand, _>(Blank::new(1), &rt, rt.alloc())?;
    Ok(())
}

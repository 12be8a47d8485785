//! Traces over couples of legs, and sums that pass the limit.

ghost use Rattle.std.specs.Prelude.{◌≡◌, ◌==◌, All, IsTrue};
ghost use Rattle.qn_sign.specs.Sign.{IsDistinct};
ghost use Rattle.qn_value.specs.Local.{places_of, IsCouple, IsCoupling};

use crate::rows::tensor;
use qn_block::StepFault;
use qn_charge::Factor;
use qn_index::{Dir, Leg};
use qn_samples::{BOSON, BlockRow, FERMION, LegRow, Sectors, are_blocks};
use qn_strides::is_coupled;
use qn_trace::trace;
use std::alloc::Global;
use std::process::Abort;
use std::test::Fail;

fn is_couple(legs: &[Leg<1>], couple: (usize, usize)) -> bool
    ensures { IsTrue result → IsCouple legs.now couple }
{
    if couple.0 >= legs.len() || couple.1 >= legs.len() {
        return false;
    }
    match legs[couple.0].meets(&legs[couple.1]) {
        None => true,
        Some(_) => false,
    }
}

fn are_couples(legs: &[Leg<1>], couples: &[(usize, usize)]) -> bool
    ensures { IsTrue result → All (IsCouple legs.now) couples.now }
{
    couples.iter().all(|couple| is_couple(legs, *couple))
}

fn are_apart(couples: &[(usize, usize)]) -> bool
    ensures { IsTrue result → IsDistinct ◌==◌ (places_of couples.now) }
{
    match couples {
        [] => true,
        [couple, rest @ ..] => {
            couple.0 != couple.1
                && !is_coupled(rest, couple.0)
                && !is_coupled(rest, couple.1)
                && are_apart(rest)
        }
    }
}

// The couples are what `trace` asks for.
fn expect_couples(rt: &impl Abort, legs: &[Leg<1>], couples: &[(usize, usize)])
    ensures { IsCoupling legs.now couples.now }
{
    assert!(rt; are_couples(legs, couples));
    assert!(rt; are_apart(couples));
}

// What a trace answers: its blocks, or the first passing place.
#[derive(Clone, Copy)]
enum Answer<'a> {
    Blocks(&'a [BlockRow<'a>]),
    Passed(&'a [u32], u64),
}

// A tensor, the couples of its legs, and its trace.
#[derive(Clone, Copy)]
struct Case<'a> {
    factor: Factor,
    legs: &'a [LegRow<'a>],
    flux: i64,
    blocks: &'a [BlockRow<'a>],
    couples: &'a [(usize, usize)],
    answer: Answer<'a>,
}

const SITE: Sectors<'static> = &[(0, 1), (1, 1)];

const THREE: Sectors<'static> = &[(0, 1), (1, 2), (2, 1)];

const MOST: i128 = i128::MAX;

const CASES: &[Case<'static>] = &[
    // The trace, and where the Out leg stands first and values are odd the supertrace.
    Case {
        factor: FERMION,
        legs: &[(Dir::In, SITE), (Dir::Out, SITE)],
        flux: 0,
        blocks: &[(&[0, 0], &[2]), (&[1, 1], &[3])],
        couples: &[(1, 0)],
        answer: Answer::Blocks(&[(&[], &[5])]),
    },
    Case {
        factor: FERMION,
        legs: &[(Dir::Out, SITE), (Dir::In, SITE)],
        flux: 0,
        blocks: &[(&[0, 0], &[2]), (&[1, 1], &[3])],
        couples: &[(0, 1)],
        answer: Answer::Blocks(&[(&[], &[-1])]),
    },
    // Two couples that cross, along the diagonals of a sector.
    Case {
        factor: BOSON,
        legs: &[
            (Dir::In, &[(0, 2)]),
            (Dir::In, &[(0, 2)]),
            (Dir::Out, &[(0, 2)]),
            (Dir::Out, &[(0, 2)]),
        ],
        flux: 0,
        blocks: &[(
            &[0, 0, 0, 0],
            &[
                1, 2, 4, 8, 16, 32, 64, 128, 256, 512, 1024, 2048, 4096, 8192, 16384, 32768,
            ],
        )],
        couples: &[(0, 2), (1, 3)],
        answer: Answer::Blocks(&[(&[], &[33825])]),
    },
    // The sum of magnitudes passes, although the sum is 0.
    Case {
        factor: BOSON,
        legs: &[(Dir::In, SITE), (Dir::Out, SITE)],
        flux: 0,
        blocks: &[(&[0, 0], &[MOST]), (&[1, 1], &[-MOST])],
        couples: &[(0, 1)],
        answer: Answer::Passed(&[], 0),
    },
    // The first passing place of three blocks.
    Case {
        factor: FERMION,
        legs: &[
            (Dir::Out, THREE),
            (Dir::Out, SITE),
            (Dir::In, SITE),
            (Dir::In, THREE),
        ],
        flux: 0,
        blocks: &[
            (&[0, 0, 0, 0], &[MOST]),
            (&[1, 0, 0, 1], &[1, MOST, MOST, 0]),
            (&[1, 1, 1, 1], &[1, 1, 1, 0]),
            (&[2, 0, 0, 2], &[MOST]),
            (&[2, 1, 1, 2], &[MOST]),
        ],
        couples: &[(1, 2)],
        answer: Answer::Passed(&[1, 1], 1),
    },
];

fn expect_traced(rt: &impl Abort, alloc: Global, case: Case) -> Result<(), Fail> {
    let t = tensor(alloc, case.factor, case.legs, case.flux, case.blocks)?;
    expect_couples(rt, t.legs(), case.couples);
    match (trace(alloc, &t, case.couples), case.answer) {
        (Ok(result), Answer::Blocks(want)) => {
            assert!(rt; are_blocks(result.blocks(), want));
        }
        (Err(StepFault::Passed { at, offset }), Answer::Passed(tuple, place)) => {
            assert!(rt; at.as_slice() == tuple && offset == place);
        }
        _ => panic!(rt; "another answer"),
    }
    Ok(())
}

#[test]
fn traces(rt: HostRuntime) -> Result<(), Fail> {
    for case in CASES {
        expect_traced(&rt, rt.alloc(), *case)?;
    }
    Ok(())
}

#[test]
fn a_passing_place_is_told(rt: HostRuntime) -> Result<(), Fail> {
    let at = qn_index::Tuple::new(Vec::new(rt.alloc()));
    let text = StepFault::Passed { at, offset: 7 }.to_string(rt.alloc())?;
    assert!(rt; text.as_str() == "the sum of magnitudes is above 2^127 - 1 at offset 7 of a block");
    Ok(())
}

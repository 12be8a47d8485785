//! Contractions, and sums that pass the limit, for one worker and for several.

ghost use Rattle.std.specs.Prelude.{◌≡◌, ◌≤◌, ◌<◌};

use crate::rows::{expect_pair, tensor};
use qn_block::StepFault;
use qn_gauss::Steps;
use qn_index::Dir;
use qn_pair::{OpenGate, contract};
use qn_samples::{BlockRow, FERMION, LegRow, Sectors, are_blocks};
use std::alloc::Global;
use std::marker::Brand;
use std::process::Abort;
use std::sync::ledger::{Blank, Ledger};
use std::test::Fail;
use std::thread::Threads;

// What a contraction answers: the blocks of the result, or the first passing place.
#[derive(Clone, Copy)]
enum Answer<'a> {
    Blocks(&'a [BlockRow<'a>]),
    Passed(&'a [u32], u64),
}

// Two tensors, their legs, the flux of the first, which is that of the second with a minus, and their blocks; the shared
// legs, whether what stands between is odd, and the answer.
#[derive(Clone, Copy)]
struct Case<'a> {
    legs: (&'a [LegRow<'a>], &'a [LegRow<'a>]),
    flux: i64,
    blocks: (&'a [BlockRow<'a>], &'a [BlockRow<'a>]),
    shared: &'a [(usize, usize)],
    between_odd: bool,
    answer: Answer<'a>,
}

// 2^126.
const HALF: i128 = 85070591730234615865843651857942052864;

const ONE: Sectors<'static> = &[(1, 1)];

const THREE: Sectors<'static> = &[(0, 1), (1, 1), (2, 1)];

const CHAIN: &[LegRow<'static>] = &[(Dir::In, THREE), (Dir::Out, THREE)];

const TWOS: &[BlockRow<'static>] = &[(&[0, 0], &[2]), (&[1, 1], &[2]), (&[2, 2], &[2])];

const CASES: &[Case<'static>] = &[
    // An Out end before its In end: a sign where the value is odd; and another one where what stands between is.
    Case {
        legs: (&[(Dir::Out, ONE)], &[(Dir::In, ONE)]),
        flux: 1,
        blocks: (&[(&[0], &[2])], &[(&[0], &[3])]),
        shared: &[(0, 0)],
        between_odd: false,
        answer: Answer::Blocks(&[(&[], &[-6])]),
    },
    Case {
        legs: (&[(Dir::Out, ONE)], &[(Dir::In, ONE)]),
        flux: 1,
        blocks: (&[(&[0], &[2])], &[(&[0], &[3])]),
        shared: &[(0, 0)],
        between_odd: true,
        answer: Answer::Blocks(&[(&[], &[6])]),
    },
    // Two lines that cross.
    Case {
        legs: (
            &[(Dir::Out, ONE), (Dir::Out, ONE)],
            &[(Dir::In, ONE), (Dir::In, ONE)],
        ),
        flux: 2,
        blocks: (&[(&[0, 0], &[1])], &[(&[0, 0], &[1])]),
        shared: &[(0, 0), (1, 1)],
        between_odd: false,
        answer: Answer::Blocks(&[(&[], &[-1])]),
    },
    // A product of matrices.
    Case {
        legs: (
            &[(Dir::Out, &[(0, 2)]), (Dir::Out, &[(0, 3)])],
            &[(Dir::In, &[(0, 3)]), (Dir::Out, &[(0, 2)])],
        ),
        flux: 0,
        blocks: (
            &[(&[0, 0], &[1, 2, 3, 4, 5, 6])],
            &[(&[0, 0], &[1, 2, 3, 4, 5, 6])],
        ),
        shared: &[(1, 0)],
        between_odd: false,
        answer: Answer::Blocks(&[(&[0, 0], &[22, 28, 49, 64])]),
    },
    // Three blocks, the second one odd.
    Case {
        legs: (CHAIN, CHAIN),
        flux: 0,
        blocks: (
            &[(&[0, 0], &[5]), (&[1, 1], &[7]), (&[2, 2], &[HALF - 1])],
            TWOS,
        ),
        shared: &[(1, 0)],
        between_odd: false,
        answer: Answer::Blocks(&[
            (&[0, 0], &[10]),
            (&[1, 1], &[-14]),
            (&[2, 2], &[i128::MAX - 1]),
        ]),
    },
    // The first of two blocks that pass.
    Case {
        legs: (CHAIN, CHAIN),
        flux: 0,
        blocks: (
            &[(&[0, 0], &[1]), (&[1, 1], &[HALF]), (&[2, 2], &[HALF])],
            TWOS,
        ),
        shared: &[(1, 0)],
        between_odd: false,
        answer: Answer::Passed(&[1, 1], 0),
    },
    // The sum is 0, and its magnitudes pass.
    Case {
        legs: (&[(Dir::Out, &[(0, 2)])], &[(Dir::In, &[(0, 2)])]),
        flux: 0,
        blocks: (&[(&[0], &[HALF, HALF])], &[(&[0], &[1, -1])]),
        shared: &[(0, 0)],
        between_odd: false,
        answer: Answer::Passed(&[], 0),
    },
];

fn expect_case<L: Ledger, R: Abort + Threads + Sync>(
    blank: Blank,
    rt: &R,
    alloc: Global,
    workers: u32,
    case: Case,
) -> Result<(), Fail>
    requires name { blank.name ≡ L.name }
    requires parts { blank.parts ≡ L.parts }
    requires some { 0 < L.parts }
    requires workers { 1 ≤ workers }
    requires few { workers ≤ 64 }
{
    let mut steps = Steps::<L>::new(blank);
    let flux = case.flux.wrapping_neg();
    let a = tensor(alloc, FERMION, case.legs.0, case.flux, case.blocks.0)?;
    let b = tensor(alloc, FERMION, case.legs.1, flux, case.blocks.1)?;
    let (shared, odd) = (case.shared, case.between_odd);
    expect_pair(rt, alloc, &a, &b, shared)?;
    let found = contract(
        rt, alloc, &a, &b, shared, odd, workers, &OpenGate, &mut steps,
    );
    match (found, case.answer) {
        (Ok(result), Answer::Blocks(want)) => {
            assert!(rt; are_blocks(result.blocks(), want));
        }
        (Err(StepFault::Passed { at, offset }), Answer::Passed(tuple, place)) => {
            assert!(rt; at.as_slice() == tuple && offset == place);
        }
        _ => panic!(rt; "another answer"),
    }
    Ok(())
}

#[test]
fn contractions(rt: HostRuntime) -> Result<(), Fail> {
    for case in CASES {
        for workers in [1, 2, 64] {
            expect_case::<Brand, _>(Blank::new(1), &rt, rt.alloc(), workers, *case)?;
        }
    }
    Ok(())
}

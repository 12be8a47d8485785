//! Pairs of blocks that the index finds and that a scan finds, and costs of contractions.

ghost use Rattle.qn_match.specs.Pairs.{IsPair};

use crate::rows::{expect_pair, tensor};
use qn_block::{Block, BlockTensor};
use qn_index::Dir;
use qn_match::{Task, cost, is_pair, pairs};
use qn_samples::{BOSON, BlockRow, LegRow, Sectors};
use std::alloc::{AllocError, Global};
use std::process::Abort;
use std::test::Fail;

// Two tensors, their legs, the flux of the first, which is that of the second with a minus, and their blocks; the shared
// legs; the cost, and how many pairs of blocks there are.
#[derive(Clone, Copy)]
struct Case<'a> {
    legs: (&'a [LegRow<'a>], &'a [LegRow<'a>]),
    flux: i64,
    blocks: (&'a [BlockRow<'a>], &'a [BlockRow<'a>]),
    shared: &'a [(usize, usize)],
    cost: u64,
    pairs: usize,
}

const SITE: Sectors<'static> = &[(0, 1), (1, 1)];

// Two sectors of one charge.
const TWICE: Sectors<'static> = &[(0, 1), (0, 1)];

const MATRIX: &[LegRow<'static>] = &[(Dir::In, SITE), (Dir::Out, SITE)];

const SQUARE: &[LegRow<'static>] = &[(Dir::In, TWICE), (Dir::Out, TWICE)];

const DIAGONAL: &[BlockRow<'static>] = &[(&[0, 0], &[1]), (&[1, 1], &[1])];

const FULL: &[BlockRow<'static>] = &[
    (&[0, 0], &[1]),
    (&[0, 1], &[1]),
    (&[1, 0], &[1]),
    (&[1, 1], &[1]),
];

const CASES: &[Case<'static>] = &[
    // No shared leg.
    Case {
        legs: (SQUARE, MATRIX),
        flux: 0,
        blocks: (FULL, DIAGONAL),
        shared: &[],
        cost: 8,
        pairs: 8,
    },
    // One. The cost does not depend on what is stored.
    Case {
        legs: (MATRIX, MATRIX),
        flux: 0,
        blocks: (DIAGONAL, DIAGONAL),
        shared: &[(1, 0)],
        cost: 2,
        pairs: 2,
    },
    Case {
        legs: (MATRIX, MATRIX),
        flux: 0,
        blocks: (DIAGONAL, &[]),
        shared: &[(1, 0)],
        cost: 2,
        pairs: 0,
    },
    // Equal charges in two sectors.
    Case {
        legs: (SQUARE, SQUARE),
        flux: 0,
        blocks: (
            &[(&[0, 1], &[1]), (&[1, 1], &[1])],
            &[(&[0, 0], &[1]), (&[1, 0], &[1])],
        ),
        shared: &[(1, 0)],
        cost: 8,
        pairs: 2,
    },
    // The dimension of a shared leg counts once.
    Case {
        legs: (
            &[(Dir::In, &[(0, 2)]), (Dir::Out, &[(0, 3)])],
            &[(Dir::In, &[(0, 3)]), (Dir::Out, &[(0, 5)])],
        ),
        flux: 0,
        blocks: (&[(&[0, 0], &[1, 2, 3, 4, 5, 6])], &[]),
        shared: &[(1, 0)],
        cost: 30,
        pairs: 0,
    },
    // Three that cross.
    Case {
        legs: (
            &[
                (Dir::Out, SITE),
                (Dir::Out, SITE),
                (Dir::Out, SITE),
                (Dir::Out, TWICE),
            ],
            &[
                (Dir::In, SITE),
                (Dir::In, SITE),
                (Dir::In, SITE),
                (Dir::In, TWICE),
            ],
        ),
        flux: 1,
        blocks: (
            &[
                (&[0, 0, 1, 0], &[1]),
                (&[0, 0, 1, 1], &[1]),
                (&[0, 1, 0, 0], &[1]),
                (&[1, 0, 0, 1], &[1]),
            ],
            &[
                (&[0, 0, 1, 1], &[1]),
                (&[0, 1, 0, 0], &[1]),
                (&[1, 0, 0, 0], &[1]),
                (&[1, 0, 0, 1], &[1]),
            ],
        ),
        shared: &[(0, 2), (1, 1), (2, 0)],
        cost: 12,
        pairs: 6,
    },
    // Nine that are turned round.
    Case {
        legs: (&[(Dir::Out, TWICE); 10], &[(Dir::In, TWICE); 10]),
        flux: 0,
        blocks: (
            &[
                (&[0, 0, 0, 0, 0, 0, 0, 0, 0, 0], &[1]),
                (&[0, 0, 0, 0, 0, 0, 0, 0, 1, 0], &[1]),
                (&[0, 0, 0, 0, 0, 0, 0, 0, 1, 1], &[1]),
                (&[1, 0, 0, 0, 0, 0, 0, 0, 0, 1], &[1]),
            ],
            &[
                (&[0, 0, 0, 0, 0, 0, 0, 0, 0, 1], &[1]),
                (&[0, 0, 0, 0, 0, 0, 0, 0, 1, 0], &[1]),
                (&[1, 0, 0, 0, 0, 0, 0, 0, 0, 0], &[1]),
            ],
        ),
        shared: &[
            (0, 8),
            (1, 7),
            (2, 6),
            (3, 5),
            (4, 4),
            (5, 3),
            (6, 2),
            (7, 1),
            (8, 0),
        ],
        cost: 2048,
        pairs: 4,
    },
];

// Whether two tuples have one sector on each shared leg.
fn agree(shared: &[(usize, usize)], first: &[u32], second: &[u32]) -> bool {
    for (k, l) in shared {
        if first.get(*k).copied() != second.get(*l).copied() {
            return false;
        }
    }
    true
}

// What is left of two tuples beside the shared legs.
fn joined(
    alloc: Global,
    shared: &[(usize, usize)],
    first: &[u32],
    second: &[u32],
) -> Result<Vec<u32>, AllocError> {
    let mut left = Vec::new(alloc);
    for (k, sector) in first.iter().enumerate() {
        if shared.iter().all(|pair| pair.0 != k) {
            left.push(*sector)?;
        }
    }
    for (k, sector) in second.iter().enumerate() {
        if shared.iter().all(|pair| pair.1 != k) {
            left.push(*sector)?;
        }
    }
    Ok(left)
}

// The pairs of blocks that agree on the shared legs and give this tuple, looked for one by one.
fn scan(
    alloc: Global,
    firsts: &[Block],
    seconds: &[Block],
    shared: &[(usize, usize)],
    out: &[u32],
) -> Result<Vec<(usize, usize)>, AllocError> {
    let mut found = Vec::new(alloc);
    for (i, first) in firsts.iter().enumerate() {
        for (j, second) in seconds.iter().enumerate() {
            let (t, u) = (first.tuple(), second.tuple());
            if agree(shared, t, u) && joined(alloc, shared, t, u)?.as_slice() == out {
                found.push((i, j))?;
            }
        }
    }
    Ok(found)
}

// Each task has the pairs that a scan finds; the number of all pairs.
fn compare_with_scan(
    rt: &impl Abort,
    alloc: Global,
    a: &BlockTensor<1>,
    b: &BlockTensor<1>,
    shared: &[(usize, usize)],
    tasks: &[Task],
) -> Result<usize, AllocError> {
    let mut count = 0usize;
    for task in tasks {
        let out = task.out.as_slice();
        let wanted = scan(alloc, a.blocks(), b.blocks(), shared, out)?;
        assert!(rt; task.pairs.as_slice() == wanted.as_slice());
        count = count.wrapping_add(wanted.len());
    }
    Ok(count)
}

fn cost_of_pair(
    alloc: Global,
    a: &BlockTensor<1>,
    b: &BlockTensor<1>,
    shared: &[(usize, usize)],
) -> Result<u64, AllocError>
    requires { IsPair a.now b.now shared.now }
{
    a.known();
    b.known();
    let group = a.group();
    cost(alloc, group, a.legs(), a.flux(), b.legs(), b.flux(), shared)
}

fn expect_case(rt: &impl Abort, alloc: Global, case: Case) -> Result<(), Fail> {
    let flux = case.flux.wrapping_neg();
    let a = tensor(alloc, BOSON, case.legs.0, case.flux, case.blocks.0)?;
    let b = tensor(alloc, BOSON, case.legs.1, flux, case.blocks.1)?;
    expect_pair(rt, alloc, &a, &b, case.shared)?;
    assert_eq!(rt; cost_of_pair(alloc, &a, &b, case.shared)?, case.cost);
    let tasks = pairs(alloc, &a, &b, case.shared)?;
    let count = compare_with_scan(rt, alloc, &a, &b, case.shared, &tasks)?;
    assert_eq!(rt; count, case.pairs);
    Ok(())
}

#[test]
fn index_and_scan(rt: HostRuntime) -> Result<(), Fail> {
    for case in CASES {
        expect_case(&rt, rt.alloc(), *case)?;
    }
    Ok(())
}

// Equal arrows, a leg twice, and no such leg.
#[test]
fn tensors_that_cannot_be_contracted(rt: HostRuntime) -> Result<(), Fail> {
    let t = tensor(rt.alloc(), BOSON, MATRIX, 0, &[])?;
    let rows: [&[(usize, usize)]; 3] = [&[(1, 1)], &[(1, 0), (1, 0)], &[(1, 2)]];
    for shared in rows {
        assert!(rt; !is_pair(rt.alloc(), &t, &t, shared)?);
    }
    Ok(())
}

// 2^16 tuples on each side, over eight shared legs: 2^32 pairs of tuples, of which 2^16 agree.
#[test]
fn the_cost_of_wide_shapes(rt: HostRuntime) -> Result<(), Fail> {
    let alloc = rt.alloc();
    let sectors: Sectors = &[(0, 1), (0, 1), (0, 1), (0, 1)];
    let a = tensor(alloc, BOSON, &[(Dir::Out, sectors); 8], 0, &[])?;
    let b = tensor(alloc, BOSON, &[(Dir::In, sectors); 8], 0, &[])?;
    let shared = &[
        (0, 7),
        (1, 6),
        (2, 5),
        (3, 4),
        (4, 3),
        (5, 2),
        (6, 1),
        (7, 0),
    ];
    expect_pair(&rt, alloc, &a, &b, shared)?;
    assert_eq!(rt; cost_of_pair(alloc, &a, &b, shared)?, 65536);
    Ok(())
}

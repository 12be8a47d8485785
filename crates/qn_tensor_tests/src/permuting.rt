//! Tensors with their legs in another order.

ghost use Rattle.std.specs.Prelude.{◌≡◌, ◌==◌, ◌<◌, All, IsTrue};
ghost use Rattle.qn_sign.specs.Sign.{IsDistinct, is_in};
ghost use Rattle.qn_sign.specs.Positions.{IsOrder};

use crate::rows::tensor;
use qn_charge::Factor;
use qn_index::Dir;
use qn_permute::permute;
use qn_samples::{BOSON, BlockRow, FERMION, LegRow, PARITY, Sectors, are_blocks};
use std::alloc::Global;
use std::process::Abort;
use std::test::Fail;
use std::thread::Threads;

fn stands_in(k: usize, list: &[usize]) -> bool
    ensures { result ≡ is_in ◌==◌ k list.now }
{
    match list {
        [] => false,
        [first, rest @ ..] => k == *first || stands_in(k, rest),
    }
}

fn is_distinct(list: &[usize]) -> bool
    ensures { IsTrue result → IsDistinct ◌==◌ list.now }
{
    match list {
        [] => true,
        [first, rest @ ..] => !stands_in(*first, rest) && is_distinct(rest),
    }
}

fn are_below(list: &[usize], n: usize) -> bool
    ensures { IsTrue result → All (λ k. k < n) list.now }
{
    list.iter().all(|k| *k < n)
}

// The order is what `permute` asks for.
fn expect_order(rt: &impl Abort, order: &[usize], n: usize)
    ensures { IsOrder n order.now }
{
    assert_eq!(rt; order.len(), n);
    assert!(rt; are_below(order, n));
    assert!(rt; is_distinct(order));
}

// A tensor, the order of its legs, and its blocks afterwards.
#[derive(Clone, Copy)]
struct Case<'a> {
    factor: Factor,
    legs: &'a [LegRow<'a>],
    flux: i64,
    blocks: &'a [BlockRow<'a>],
    order: &'a [usize],
    moved: &'a [BlockRow<'a>],
}

const SITE: LegRow<'static> = (Dir::Out, &[(0, 1), (1, 1)]);

const WIDE: LegRow<'static> = (Dir::Out, &[(0, 1), (1, 2)]);

const CASES: &[Case<'static>] = &[
    // Blocks of both parities: two odd legs are exchanged.
    Case {
        factor: PARITY,
        legs: &[SITE, SITE],
        flux: 0,
        blocks: &[(&[0, 0], &[7]), (&[1, 1], &[5])],
        order: &[1, 0],
        moved: &[(&[0, 0], &[7]), (&[1, 1], &[-5])],
    },
    // Entries of one block move, and have one sign.
    Case {
        factor: FERMION,
        legs: &[WIDE, WIDE],
        flux: 2,
        blocks: &[(&[1, 1], &[1, 2, 3, 4])],
        order: &[1, 0],
        moved: &[(&[1, 1], &[-1, -3, -2, -4])],
    },
    // Three legs of dimensions 2, 1, 3.
    Case {
        factor: BOSON,
        legs: &[
            (Dir::Out, &[(0, 2)]),
            (Dir::In, &[(0, 1)]),
            (Dir::Out, &[(0, 3)]),
        ],
        flux: 0,
        blocks: &[(&[0, 0, 0], &[1, 2, 3, 4, 5, 6])],
        order: &[1, 2, 0],
        moved: &[(&[0, 0, 0], &[1, 4, 2, 5, 3, 6])],
    },
    // Blocks come in the order of their new tuples, each with the sign of its own odd sectors.
    Case {
        factor: FERMION,
        legs: &[SITE, SITE, SITE],
        flux: 2,
        blocks: &[(&[0, 1, 1], &[2]), (&[1, 0, 1], &[3]), (&[1, 1, 0], &[5])],
        order: &[2, 0, 1],
        moved: &[(&[0, 1, 1], &[5]), (&[1, 0, 1], &[-2]), (&[1, 1, 0], &[-3])],
    },
];

fn expect_moved<R: Abort + Threads + Sync>(rt: &R, alloc: Global, case: Case) -> Result<(), Fail> {
    let t = tensor(alloc, case.factor, case.legs, case.flux, case.blocks)?;
    expect_order(rt, case.order, t.legs().len());
    let result = permute(rt, alloc, &t, case.order)?;
    assert!(rt; are_blocks(result.blocks(), case.moved));
    Ok(())
}

#[test]
fn legs_in_another_order(rt: HostRuntime) -> Result<(), Fail> {
    for case in CASES {
        expect_moved(&rt, rt.alloc(), *case)?;
    }
    Ok(())
}

//! The automata of worked sums on fermion sites, and sums that pass the limit.

ghost use Rattle.std.specs.Prelude.{◌≡◌, ◌<◌};

use qn_block::{Block, BlockTensor};
use qn_gauss::Steps;
use qn_mpo::{BuildFault, build, operator_rules, skeleton};
use qn_mps::Chain;
use qn_opsum::OpSum;
use qn_sumdoc::{AnySum, read_sum};
use std::alloc::{AllocError, Global};
use std::marker::Brand;
use std::process::Abort;
use std::sync::ledger::{Blank, Ledger};
use std::test::Fail;

// A block: its tuple, and the real parts of its entries.
type BlockRow<'a> = (&'a [u32], &'a [i128]);

// A tensor: the number of its legs, and its blocks.
type TensorRow<'a> = (usize, &'a [BlockRow<'a>]);

// The sites, the terms, and the tensors; where there are none the build passes at the first site.
type Case<'a> = (&'a str, &'a str, &'a [TensorRow<'a>]);

const ONE: &str = "{\"kind\":\"fermion\"}";

const TWO: &str = "{\"kind\":\"fermion\"},{\"kind\":\"fermion\"}";

const THREE: &str = "{\"kind\":\"fermion\"},{\"kind\":\"fermion\"},{\"kind\":\"fermion\"}";

const CASES: &[Case<'static>] = &[
    // hopping, and its exchanged form
    (
        TWO,
        "{\"coef\":1,\"ops\":[[1,\"Cdag\"],[2,\"C\"]]}",
        &[(3, &[(&[1, 0, 0], &[1])]), (3, &[(&[0, 0, 1], &[1])])],
    ),
    (
        TWO,
        "{\"coef\":1,\"ops\":[[2,\"C\"],[1,\"Cdag\"]]}",
        &[(3, &[(&[1, 0, 0], &[-1])]), (3, &[(&[0, 0, 1], &[1])])],
    ),
    // over a site between
    (
        THREE,
        "{\"coef\":1,\"ops\":[[1,\"Cdag\"],[3,\"C\"]]}",
        &[
            (3, &[(&[1, 0, 0], &[1])]),
            (4, &[(&[0, 0, 0, 0], &[1]), (&[0, 1, 1, 0], &[1])]),
            (3, &[(&[0, 0, 1], &[1])]),
        ],
    ),
    // without operators, and two operators on one site from left to right
    (
        ONE,
        "{\"coef\":5,\"ops\":[]}",
        &[(2, &[(&[0, 0], &[5]), (&[1, 1], &[5])])],
    ),
    (
        ONE,
        "{\"coef\":2,\"ops\":[[1,\"Cdag\"],[1,\"C\"]]}",
        &[(2, &[(&[1, 1], &[2])])],
    ),
    // not begun, two lists of one charge, done: one state for two equal lists
    (
        TWO,
        "{\"coef\":2,\"ops\":[[1,\"I\"],[2,\"N\"]]},{\"coef\":3,\"ops\":[[1,\"N\"]]},{\"coef\":3,\"ops\":[[2,\"N\"],[1,\"I\"]]},{\"coef\":7,\"ops\":[[2,\"N\"]]}",
        &[
            (3, &[(&[0, 0, 0], &[1, 5, 0]), (&[1, 1, 0], &[1, 5, 3])]),
            (3, &[(&[0, 0, 0], &[0, 0, 1]), (&[0, 1, 1], &[7, 1, 1])]),
        ],
    ),
    // twice 2^126, and 2^126 less itself
    (
        TWO,
        "{\"coef\":\"85070591730234615865843651857942052864\",\"ops\":[[1,\"Cdag\"],[2,\"C\"]]},{\"coef\":\"85070591730234615865843651857942052864\",\"ops\":[[1,\"Cdag\"],[2,\"C\"]]}",
        &[],
    ),
    (
        TWO,
        "{\"coef\":\"85070591730234615865843651857942052864\",\"ops\":[[1,\"Cdag\"],[2,\"C\"]]},{\"coef\":\"-85070591730234615865843651857942052864\",\"ops\":[[1,\"Cdag\"],[2,\"C\"]]}",
        &[],
    ),
];

fn expect_block(rt: &impl Abort, block: &Block, row: &BlockRow) {
    assert_eq!(rt; block.tuple(), row.0);
    assert_eq!(rt; block.entries().len(), row.1.len());
    for (entry, re) in block.entries().iter().zip(row.1.iter()) {
        assert!(rt; (entry.re(), entry.im()) == (*re, 0));
    }
}

fn expect_tensor(rt: &impl Abort, tensor: &BlockTensor<1>, row: &TensorRow) {
    assert_eq!(rt; tensor.legs().len(), row.0);
    assert_eq!(rt; tensor.blocks().len(), row.1.len());
    for (block, row) in tensor.blocks().iter().zip(row.1.iter()) {
        expect_block(rt, block, row);
    }
}

fn expect_tensors(rt: &impl Abort, chain: &Chain<1>, rows: &[TensorRow]) {
    assert_eq!(rt; chain.tensors().len(), rows.len());
    for (tensor, row) in chain.tensors().iter().zip(rows.iter()) {
        expect_tensor(rt, tensor, row);
    }
}

// The skeleton has as many legs at each site, and no blocks.
fn expect_skeleton(rt: &impl Abort, chain: &Chain<1>, rows: &[TensorRow]) {
    for (tensor, row) in chain.tensors().iter().zip(rows.iter()) {
        assert_eq!(rt; tensor.legs().len(), row.0);
        assert_eq!(rt; tensor.blocks().len(), 0);
    }
}

// The automaton, with its operators' own rules.
fn chain_of<L: Ledger>(
    alloc: Global,
    sum: &OpSum<1>,
    steps: &mut Steps<L>,
) -> Result<Chain<1>, BuildFault> {
    let rules = operator_rules(alloc, sum)?;
    build(alloc, sum, &rules, steps)
}

fn expect_chain<L: Ledger>(
    rt: &impl Abort,
    alloc: Global,
    sum: &OpSum<1>,
    rows: &[TensorRow],
    steps: &mut Steps<L>,
) {
    match chain_of(alloc, sum, steps) {
        Ok(chain) => expect_tensors(rt, &chain, rows),
        Err(fault) => {
            assert!(rt; rows.is_empty());
            assert_eq!(rt; fault, BuildFault::Passed { site: 1 });
        }
    }
    match skeleton(alloc, sum) {
        Ok(chain) => expect_skeleton(rt, &chain, rows),
        Err(fault) => panic!(rt; "{fault:?}"),
    }
}

fn expect_case<L: Ledger>(
    rt: &impl Abort,
    alloc: Global,
    case: &Case,
    steps: &mut Steps<L>,
) -> Result<(), AllocError> {
    let (sites, terms, rows) = case;
    let text = format!(in alloc;
        "{{\"group\":[{{\"fermion\":true,\"kind\":\"u1\"}}],\"sites\":[{sites}],\"terms\":[{terms}]}}"
    )?;
    match read_sum(alloc, text.as_bytes()) {
        Ok(AnySum::N1(sum)) => expect_chain(rt, alloc, &sum, rows, steps),
        _ => panic!(rt; "{text}"),
    }
    Ok(())
}

fn expect_cases<L: Ledger>(blank: Blank, rt: &impl Abort, alloc: Global) -> Result<(), AllocError>
    requires name { blank.name ≡ L.name }
    requires parts { blank.parts ≡ L.parts }
    requires some { 0 < L.parts }
{
    let mut steps = Steps::<L>::new(blank);
    for case in CASES {
        expect_case(rt, alloc, case, &mut steps)?;
    }
    Ok(())
}

#[test]
fn automata(rt: HostRuntime) -> Result<(), Fail> {
    expect_cases::<Brand>(Blank::new(1), &rt, rt.alloc())?;
    Ok(())
}

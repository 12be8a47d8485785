//! Coefficients and entries of generated workloads.

use qn_block::{Block, BlockTensor};
use qn_gauss::Gauss;
use qn_gen::generate;
use qn_opsum::OpSum;
use std::alloc::{AllocError, Global};
use std::process::Abort;
use std::test::Fail;

// A seed, and the coefficients of the terms of one operator, one for each site.
const COEFFICIENTS: &[(u32, &[i128])] = &[
    (0, &[-2, 1, 1, 0, 1, 0, -2, -1]),
    (7, &[2, -1, 1, 2, -1, -2, 2, -2, -2, 1, 1, 1, -2, 2, 2]),
    (
        4_294_967_295,
        &[
            2, 2, 0, 1, 1, -1, -2, 1, 0, 2, 1, 2, -2, -1, 2, 1, 2, 0, 0, 0, -2, 2, 2, 0, 1, -2, 0,
            0,
        ],
    ),
];

// The entries of the first tensors of the bra of seed 24, whose links have sectors of dimension 1, and of seed 7.
const ENTRIES: &[(u32, &[i128])] = &[
    (24, &[-2, 2, -2, -1, 1, -1]),
    (7, &[0, -2, 2, -2, -2, 0, 0, 2]),
];

// The coefficients of the terms of one operator.
fn expect_coefficients(rt: &impl Abort, sum: &OpSum<1>, wanted: &[i128]) {
    assert_eq!(rt; sum.sites().len(), wanted.len());
    let mut rest = wanted.iter();
    for term in sum.terms() {
        if term.factors().len() == 1 {
            match rest.next() {
                Some(re) => assert_eq!(rt; Some(term.coef), Gauss::new(*re, 0)),
                None => panic!(rt; "more terms than sites"),
            }
        }
    }
    assert!(rt; rest.next().is_none());
}

// Adds the entries of the blocks.
fn add_entries(entries: &mut Vec<Gauss>, blocks: &[Block]) -> Result<(), AllocError> {
    for block in blocks {
        for entry in block.entries() {
            entries.push(*entry)?;
        }
    }
    Ok(())
}

// The entries of the tensors begin with these.
fn expect_entries(
    rt: &impl Abort,
    alloc: Global,
    tensors: &[BlockTensor<1>],
    wanted: &[i128],
) -> Result<(), AllocError> {
    let mut entries = Vec::new(alloc);
    for tensor in tensors {
        add_entries(&mut entries, tensor.blocks())?;
    }
    assert!(rt; wanted.len() <= entries.len());
    for (entry, re) in entries.iter().zip(wanted.iter()) {
        assert_eq!(rt; Some(*entry), Gauss::new(*re, 0));
    }
    Ok(())
}

#[test]
fn workloads(rt: HostRuntime) -> Result<(), Fail> {
    let alloc = rt.alloc();
    for (seed, wanted) in COEFFICIENTS {
        expect_coefficients(&rt, &generate(alloc, *seed)?.sum, wanted);
    }
    for (seed, wanted) in ENTRIES {
        expect_entries(&rt, alloc, generate(alloc, *seed)?.bra.tensors(), wanted)?;
    }
    Ok(())
}

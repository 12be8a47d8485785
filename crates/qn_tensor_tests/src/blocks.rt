//! Blocks and shapes at fault, and entries of tensors.

use crate::rows::tensor;
use qn_block::{BlockFault, BlockTensor};
use qn_charge::Group;
use qn_gauss::Gauss;
use qn_index::Dir;
use qn_samples::{
    BlockRow, FERMION, LegRow, SampleFault, Sectors, TensorRow, flux_of, legs_of, tensor_of,
};
use std::alloc::Global;
use std::process::Abort;
use std::test::Fail;

const SITE: Sectors<'static> = &[(0, 1), (1, 1)];

const WIDE: Sectors<'static> = &[(0, 2), (1, 3)];

// The fault of a tensor of these legs, flux and blocks, and its text.
fn fault_of(
    alloc: Global,
    legs: &[LegRow],
    flux: i64,
    blocks: &[BlockRow],
) -> Result<Option<(BlockFault, String)>, Fail> {
    let group = Group::<1>::new(&[FERMION])?;
    let row = TensorRow { legs, flux, blocks };
    match tensor_of(alloc, &group, row) {
        Err(SampleFault::Block(fault)) => Ok(Some((fault, fault.to_string(alloc)?))),
        _ => Ok(None),
    }
}

fn expect_fault(
    rt: &impl Abort,
    found: Option<(BlockFault, String)>,
    fault: BlockFault,
    text: &str,
) {
    assert!(rt; found.is_some_and(|pair| pair.0 == fault && pair.1.as_str() == text));
}

// One row for each fault, with a later fault beside it where one may stand.
#[test]
fn blocks_at_fault(rt: HostRuntime) -> Result<(), Fail> {
    let pair: &[LegRow] = &[(Dir::Out, SITE), (Dir::Out, SITE)];
    let rows: [(i64, &[BlockRow], BlockFault, &str); 5] = [
        (
            2,
            &[(&[1, 0], &[1]), (&[1], &[1])],
            BlockFault::Arity { block: 1 },
            "block 1 has not one number for each leg",
        ),
        (
            2,
            &[(&[1, 0], &[1]), (&[1, 2], &[1])],
            BlockFault::BlockRange { block: 1, leg: 1 },
            "block 1 names no sector of leg 1",
        ),
        (
            1,
            &[(&[1, 0], &[1]), (&[0, 1], &[1]), (&[0, 0], &[1])],
            BlockFault::OffFlux { block: 2 },
            "block 2 is off the flux",
        ),
        (
            1,
            &[(&[0, 1], &[]), (&[0, 1], &[1])],
            BlockFault::NotAscending { block: 1 },
            "block 1 is not above the one before it",
        ),
        (
            1,
            &[(&[0, 1], &[1]), (&[1, 0], &[])],
            BlockFault::DataLen { block: 1 },
            "block 1 has a wrong number of entries",
        ),
    ];
    for (flux, blocks, fault, text) in rows {
        expect_fault(&rt, fault_of(rt.alloc(), pair, flux, blocks)?, fault, text);
    }
    Ok(())
}

// A block that is wrong in itself comes after the shape.
#[test]
fn shapes_at_fault(rt: HostRuntime) -> Result<(), Fail> {
    let long = vec![in rt.alloc(); (Dir::In, SITE); 65]?;
    let wide = vec![in rt.alloc(); (Dir::In, SITE); 21]?;
    let large: &[LegRow] = &[(Dir::Out, &[(0, 4096)]), (Dir::Out, &[(0, 1025)])];
    let rows: [(&[LegRow], BlockFault, &str); 3] = [
        (&long, BlockFault::TooManyLegs, "more than 64 legs"),
        (
            &wide,
            BlockFault::TooManyTuples,
            "more than 2^20 tuples of sectors",
        ),
        (
            large,
            BlockFault::TooManyEntries,
            "more than 2^22 admissible entries",
        ),
    ];
    for (legs, fault, text) in rows {
        let found = fault_of(rt.alloc(), legs, 0, &[(&[9], &[])])?;
        expect_fault(&rt, found, fault, text);
    }
    Ok(())
}

// The values as the digits of a number.
fn digits(values: &[u32]) -> Gauss {
    let mut sum = 0u32;
    for v in values {
        sum = sum.wrapping_mul(10).wrapping_add(*v);
    }
    match Gauss::new(i128::from(sum), 1) {
        Some(number) => number,
        None => Gauss::ZERO,
    }
}

// The tensor whose entries are the digits of their values.
fn filled(alloc: Global, legs: &[LegRow], flux: i64) -> Result<BlockTensor<1>, Fail> {
    let group = Group::<1>::new(&[FERMION])?;
    let legs = legs_of(alloc, &group, legs)?;
    let flux = flux_of(&group, flux)?;
    Ok(BlockTensor::from_fn(alloc, group, legs, flux, &|values| digits(values))?)
}

// The parts of the entry at these values.
fn entry(tensor: &BlockTensor<1>, values: &[u32]) -> Option<(i128, i128)> {
    if tensor.is_in_range(values) {
        let entry = tensor.entry(values);
        Some((entry.re(), entry.im()))
    } else {
        None
    }
}

// Entries stand where the parity of the first leg's value, less the second's, plus the third's, is the flux 1.
#[test]
fn entries_of_a_function(rt: HostRuntime) -> Result<(), Fail> {
    let legs: &[LegRow] = &[
        (Dir::Out, WIDE),
        (Dir::In, &[(1, 1), (0, 2), (0, 1)]),
        (Dir::Out, WIDE),
    ];
    let tensor = filled(rt.alloc(), legs, 1)?;
    let copy = tensor.copy()?;
    let rows: [(&[u32], Option<(i128, i128)>); 6] = [
        (&[4, 0, 2], Some((402, 1))),
        (&[1, 3, 2], Some((132, 1))),
        (&[2, 1, 0], Some((210, 1))),
        (&[1, 0, 2], Some((0, 0))),
        (&[0, 4, 0], None),
        (&[0, 0], None),
    ];
    for (values, want) in rows {
        assert!(rt; entry(&tensor, values) == want && entry(&copy, values) == want);
    }
    Ok(())
}

#[test]
fn conjugates(rt: HostRuntime) -> Result<(), Fail> {
    let tensor = filled(rt.alloc(), &[(Dir::Out, WIDE), (Dir::In, SITE)], -1)?;
    let dag = tensor.dag()?;
    assert!(rt; entry(&tensor, &[1, 1]) == Some((11, 1)));
    assert!(rt; entry(&dag, &[1, 1]) == Some((11, -1)));
    assert!(rt; entry(&dag, &[1, 0]) == Some((1, -1)));
    assert!(rt; entry(&dag, &[0, 1]) == Some((0, 0)));
    for (leg, want) in dag.legs().iter().zip([(2, Dir::Out), (5, Dir::In)]) {
        assert!(rt; leg.dim() == want.0 && leg.dir() == want.1);
    }
    Ok(())
}

#[test]
fn blocks_of_zeros(rt: HostRuntime) -> Result<(), Fail> {
    let matrix: &[LegRow] = &[(Dir::Out, SITE), (Dir::In, SITE)];
    for (first, second, count) in [(1, 0, 1), (0, 3, 1), (2, 5, 2), (0, 0, 0)] {
        let blocks: &[BlockRow] = &[(&[0, 0], &[first]), (&[1, 1], &[second])];
        let made = tensor(rt.alloc(), FERMION, matrix, 0, blocks)?.canonical();
        assert!(rt; made.blocks().len() == count);
        assert!(rt; entry(&made, &[0, 0]) == Some((first, 0)));
        assert!(rt; entry(&made, &[1, 1]) == Some((second, 0)));
    }
    Ok(())
}

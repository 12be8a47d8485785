//! Fused legs, their limits, values that match, and tables of combiners.

use qn_block::{BlockTensor, Combiner, FuseFault};
use qn_charge::{Charge, Group};
use qn_index::{Dir, Leg};
use qn_samples::{FERMION, LegRow, SampleFault, Sectors, combiner_of};
use std::alloc::Global;
use std::test::Fail;

const SITE: Sectors<'static> = &[(0, 1), (1, 1)];

// The combiner of these legs.
fn combiner(alloc: Global, rows: &[LegRow], dir: Dir) -> Result<Combiner<1>, Fail> {
    let group = Group::<1>::new(&[FERMION])?;
    Ok(combiner_of(alloc, &group, rows, dir)?)
}

// Whether a leg has these sectors.
fn has_sectors(leg: &Leg<1>, rows: Sectors) -> bool {
    let sectors = leg.sectors();
    if sectors.len() != rows.len() {
        return false;
    }
    for (sector, row) in sectors.iter().zip(rows.iter()) {
        if sector.charge != Charge::new(&[row.0]) || sector.dim != row.1 {
            return false;
        }
    }
    true
}

// The legs are fused in both directions.
#[test]
fn fused_legs(rt: HostRuntime) -> Result<(), Fail> {
    let mixed: &[LegRow] = &[(Dir::Out, SITE), (Dir::In, &[(1, 2), (0, 3), (1, 1)])];
    let rows: [(&[LegRow], Dir, Sectors); 3] = [
        (&[(Dir::In, &[(1, 1)])], Dir::Out, &[(-1, 1)]),
        (mixed, Dir::Out, &[(-1, 3), (0, 6), (1, 3)]),
        (
            &[(Dir::Out, SITE), (Dir::Out, SITE)],
            Dir::In,
            &[(-2, 1), (-1, 2), (0, 1)],
        ),
    ];
    for (legs, dir, sectors) in rows {
        let made = combiner(rt.alloc(), legs, dir)?;
        assert!(rt; has_sectors(made.fused(), sectors) && made.dir() == dir);
    }
    Ok(())
}

// The fault of the combiner of these legs, and its text.
fn fault_of(alloc: Global, legs: &[LegRow]) -> Result<Option<(FuseFault, String)>, Fail> {
    let group = Group::<1>::new(&[FERMION])?;
    match combiner_of(alloc, &group, legs, Dir::In) {
        Err(SampleFault::Fuse(fault)) => Ok(Some((fault, fault.to_string(alloc)?))),
        _ => Ok(None),
    }
}

#[test]
fn legs_at_fault(rt: HostRuntime) -> Result<(), Fail> {
    let rows: [(&[LegRow], FuseFault, &str); 3] = [
        (&[], FuseFault::Empty, "no legs"),
        (
            &[(Dir::Out, &[(1_000_000_000, 1)]), (Dir::Out, &[(1, 1)])],
            FuseFault::FusedRange,
            "the fused leg is out of range",
        ),
        (
            &[(Dir::Out, &[(0, 256)]), (Dir::Out, &[(0, 257)])],
            FuseFault::FusedRange,
            "the fused leg is out of range",
        ),
    ];
    for (legs, fault, text) in rows {
        let found = fault_of(rt.alloc(), legs)?;
        assert!(rt; found.is_some_and(|pair| pair.0 == fault && pair.1.as_str() == text));
    }
    Ok(())
}

// Whether a value of the fused leg and values of two legs match, by both calls.
fn do_match(combiner: &Combiner<1>, value: u32, values: &[u32]) -> bool {
    if value >= combiner.fused().dim() || !combiner.is_in_range(values) {
        return false;
    }
    let all = combiner.values_of(value);
    combiner.value_of(values) == value && all.get(..2) == Some(values)
}

// By the tuple of sectors, and then the last leg fastest.
#[test]
fn values_that_match(rt: HostRuntime) -> Result<(), Fail> {
    let legs: &[LegRow] = &[(Dir::Out, &[(0, 2), (1, 1)]), (Dir::Out, SITE)];
    let made = combiner(rt.alloc(), legs, Dir::In)?;
    let rows: [&[u32]; 6] = [&[2, 1], &[0, 1], &[1, 1], &[2, 0], &[0, 0], &[1, 0]];
    let mut value = 0u32;
    for values in rows {
        assert!(rt; do_match(&made, value, values));
        value = value.wrapping_add(1);
    }
    Ok(())
}

// The fuse table and the split table, which may not be too wide.
fn tables(combiner: &Combiner<1>) -> Result<(BlockTensor<1>, BlockTensor<1>), SampleFault> {
    match combiner.check_fuse_table() {
        Ok(()) => {}
        Err(fault) => return Err(SampleFault::Block(fault)),
    }
    match combiner.check_split_table() {
        Ok(()) => {}
        Err(fault) => return Err(SampleFault::Block(fault)),
    }
    Ok((combiner.fuse_table()?, combiner.split_table()?))
}

// The real part of the entry at these values.
fn entry(tensor: &BlockTensor<1>, values: &[u32]) -> Option<i128> {
    if tensor.is_in_range(values) {
        Some(tensor.entry(values).re())
    } else {
        None
    }
}

// An Out leg before an In leg, which is odd at the values 0 and 2 of the fused leg.
#[test]
fn tables_of_combiners(rt: HostRuntime) -> Result<(), Fail> {
    let legs: &[LegRow] = &[(Dir::Out, SITE), (Dir::In, SITE)];
    let (fuse, split) = tables(&combiner(rt.alloc(), legs, Dir::Out)?)?;
    for (values, want) in [
        ([0, 1, 0], -1),
        ([1, 0, 0], 1),
        ([2, 1, 1], -1),
        ([3, 0, 1], 1),
        ([2, 0, 0], 0),
    ] {
        assert!(rt; entry(&fuse, &values) == Some(want));
    }
    for (values, want) in [
        ([0, 1, 0], 1),
        ([0, 0, 1], 1),
        ([1, 1, 2], 1),
        ([1, 0, 3], 1),
        ([1, 0, 0], 0),
    ] {
        assert!(rt; entry(&split, &values) == Some(want));
    }
    Ok(())
}

//! Admissible tuples, shapes with their limits, and offsets in a block.

ghost use Rattle.std.specs.Prelude.{◌≤◌, ◌^◌};
ghost use Rattle.qn_index.specs.Tuples.{IsTuple};
ghost use Rattle.qn_index.specs.Places.{block_size};

use qn_charge::{Factor, Group};
use qn_index::laws::known_block;
use qn_index::{
    Dir, Extent, Leg, MAX_ENTRIES, MAX_TUPLES, Tuple, admissible, block_len, inner_of,
    is_admissible, offset_of, width,
};
use qn_samples::{FERMION, LegRow, Sectors, flux_of, legs_of};
use std::alloc::{AllocError, Global};
use std::process::Abort;
use std::test::Fail;

// The extent of a shape, and its admissible tuples where they are not too many.
fn shape_of(
    alloc: Global,
    factor: Factor,
    rows: &[LegRow],
    part: i64,
) -> Result<(Extent, Vec<Tuple>), Fail> {
    let group = Group::<1>::new(&[factor])?;
    let legs = legs_of(alloc, &group, rows)?;
    let flux = flux_of(&group, part)?;
    if legs.len() > 64 {
        return Err(Fail::new("too many legs"));
    }
    let extent = width(alloc, &group, &legs, &flux)?;
    if extent.tuples > MAX_TUPLES {
        return Ok((extent, Vec::new(alloc)));
    }
    Ok((extent, admissible(alloc, &group, &legs, &flux)?))
}

const SITE: Sectors<'static> = &[(0, 1), (1, 1)];

const THIRDS: Sectors<'static> = &[(0, 1), (1, 1), (2, 1)];

const THREE: Factor = Factor::Zn {
    n: 3,
    fermion: false,
};

#[test]
fn shapes(rt: HostRuntime) -> Result<(), Fail> {
    let rows: [(Factor, &[LegRow], i64, u64, u64, &[&[u32]]); 3] = [
        (FERMION, &[], 0, 1, 1, &[&[]]),
        // Two sectors of one charge.
        (
            FERMION,
            &[(Dir::Out, &[(0, 1), (0, 2), (1, 1)]), (Dir::In, &[(0, 3)])],
            0,
            3,
            9,
            &[&[0, 0], &[1, 0]],
        ),
        (
            THREE,
            &[(Dir::Out, SITE), (Dir::In, THIRDS), (Dir::Out, SITE)],
            2,
            12,
            4,
            &[&[0, 1, 0], &[0, 2, 1], &[1, 0, 1], &[1, 2, 0]],
        ),
    ];
    for (factor, legs, part, tuples, entries, list) in rows {
        let (extent, found) = shape_of(rt.alloc(), factor, legs, part)?;
        assert_eq!(rt; extent, Extent { tuples, entries });
        assert_eq!(rt; found.len(), list.len());
        for (t, want) in found.iter().zip(list) {
            assert_eq!(rt; t.as_slice(), *want);
        }
    }
    Ok(())
}

#[test]
fn limits_of_shapes(rt: HostRuntime) -> Result<(), Fail> {
    let pairs = vec![in rt.alloc(); (Dir::In, SITE); 20]?;
    let more = vec![in rt.alloc(); (Dir::In, SITE); 21]?;
    let rows: [(&[LegRow], i64, u64, u64, usize); 4] = [
        (&pairs, -1, 1 << 20, 20, 20),
        (&more, -1, (1 << 20) + 1, 0, 0),
        (
            &[(Dir::Out, &[(0, 2048)]), (Dir::In, &[(0, 2048)])],
            0,
            1,
            1 << 22,
            1,
        ),
        (
            &[(Dir::Out, &[(0, 2048)]), (Dir::In, &[(0, 2049)])],
            0,
            1,
            (1 << 22) + 1,
            1,
        ),
    ];
    for (legs, part, tuples, entries, count) in rows {
        let (extent, found) = shape_of(rt.alloc(), FERMION, legs, part)?;
        assert_eq!(rt; extent, Extent { tuples, entries });
        assert_eq!(rt; found.len(), count);
    }
    Ok(())
}

// All offsets of the tuple's block, taken apart and put together.
fn check_offsets(
    rt: &impl Abort,
    alloc: Global,
    legs: &[Leg<1>],
    tuple: &[u32],
    places: &[[u32; 2]],
) -> Result<(), AllocError>
    requires tuple { IsTuple legs.now tuple.now }
    requires small { block_size legs.now tuple.now ≤ 2 ^ 22 }
{
    let len = block_len(legs, tuple);
    assert_eq!(rt; len, places.len() as u64);
    for offset in 0..len {
        let inner = inner_of(alloc, legs, tuple, offset)?;
        let place = places.get(offset as usize);
        assert!(rt; place.is_some_and(|pair| inner.as_slice() == pair.as_slice()));
        assert_eq!(rt; offset_of(legs, tuple, inner.as_slice()), offset);
    }
    Ok(())
}

#[test]
fn offsets_in_a_block(rt: HostRuntime) -> Result<(), Fail> {
    let group = Group::<1>::new(&[FERMION])?;
    let legs = legs_of(
        rt.alloc(),
        &group,
        &[(Dir::Out, &[(0, 2)]), (Dir::Out, &[(1, 3)])],
    )?;
    let places = [[0, 0], [0, 1], [0, 2], [1, 0], [1, 1], [1, 2]];
    let flux = flux_of(&group, 1)?;
    assert!(rt; legs.len() <= 64);
    assert!(rt; is_admissible(&group, &legs, &flux, &[0, 0]));
    let extent = width(rt.alloc(), &group, &legs, &flux)?;
    assert!(rt; extent.tuples <= MAX_TUPLES);
    assert!(rt; extent.entries <= MAX_ENTRIES);
    known_block(&group, &legs, &flux, &[0, 0]);
    check_offsets(&rt, rt.alloc(), &legs, &[0, 0], &places)?;
    Ok(())
}

//! Legs parted and fused again.

ghost use Rattle.std.specs.Prelude.{◌≡◌, IfOk};
ghost use Rattle.qn_fuse.specs.Fused.{HasFusedAt};

use qn_block::{BlockTensor, Combiner};
use qn_charge::Group;
use qn_fuse::{SplitFault, fuse, split};
use qn_index::Dir;
use qn_samples::{
    BlockRow, FERMION, LegRow, SampleFault, are_blocks, blocks_of, combiner_of, flux_of, legs_of,
};
use std::alloc::Global;
use std::process::Abort;
use std::test::Fail;

// The tensor of the fused leg of a combiner and legs behind it.
fn narrow_tensor(
    alloc: Global,
    group: &Group<1>,
    c: &Combiner<1>,
    behind: &[LegRow],
    flux: i64,
    blocks: &[BlockRow],
) -> Result<BlockTensor<1>, SampleFault>
    requires { c.now.group ≡ group.now }
    ensures group { IfOk result (λ t. t.group ≡ c.now.group) }
    ensures leg { IfOk result (λ t. HasFusedAt c.now 0 t.legs) }
{
    c.known();
    let mut legs = legs_of(alloc, group, behind)?;
    legs.insert(0, c.fused().copy()?)?;
    let flux = flux_of(group, flux)?;
    let blocks = blocks_of(alloc, blocks)?;
    match BlockTensor::new(alloc, *group, legs, flux, blocks) {
        Ok(tensor) => Ok(tensor),
        Err(fault) => Err(SampleFault::Block(fault)),
    }
}

// The legs of a combiner, the legs behind its fused leg, and the blocks before and after it is split.
#[derive(Clone, Copy)]
struct Case<'a> {
    parts: &'a [LegRow<'a>],
    dir: Dir,
    behind: &'a [LegRow<'a>],
    flux: i64,
    narrow: &'a [BlockRow<'a>],
    wide: &'a [BlockRow<'a>],
}

const SITE: LegRow<'static> = (Dir::Out, &[(0, 1), (1, 1)]);

const CASES: &[Case<'static>] = &[
    // An inward leg of odd values, which is fused alone.
    Case {
        parts: &[(Dir::In, &[(1, 1)])],
        dir: Dir::Out,
        behind: &[],
        flux: -1,
        narrow: &[(&[0], &[3])],
        wide: &[(&[0], &[3])],
    },
    // A fused sector of two tuples, one of them with two values, before another leg.
    Case {
        parts: &[SITE, (Dir::Out, &[(0, 1), (1, 2)])],
        dir: Dir::Out,
        behind: &[SITE],
        flux: 2,
        narrow: &[(&[1, 1], &[1, 2, 3]), (&[2, 0], &[4, 5])],
        wide: &[
            (&[0, 1, 1], &[1, 2]),
            (&[1, 0, 1], &[3]),
            (&[1, 1, 0], &[4, 5]),
        ],
    },
    // A fused sector of three tuples, of which one has no block; the fused leg is inward.
    Case {
        parts: &[SITE, SITE, SITE],
        dir: Dir::In,
        behind: &[],
        flux: 1,
        narrow: &[(&[2], &[1, 0, 2])],
        wide: &[(&[0, 0, 1], &[1]), (&[1, 0, 0], &[2])],
    },
];

// A tensor is split and fused again.
fn expect_split(rt: &impl Abort, alloc: Global, case: Case) -> Result<(), Fail> {
    let group = Group::<1>::new(&[FERMION])?;
    let c = combiner_of(alloc, &group, case.parts, case.dir)?;
    let tensor = narrow_tensor(alloc, &group, &c, case.behind, case.flux, case.narrow)?;
    let parted = split(alloc, &tensor, 0, &c)?;
    assert!(rt; are_blocks(parted.blocks(), case.wide));
    let back = fuse(alloc, &parted, 0, &c)?;
    assert!(rt; are_blocks(back.blocks(), case.narrow));
    Ok(())
}

#[test]
fn legs_parted_and_made_into_one(rt: HostRuntime) -> Result<(), Fail> {
    for case in CASES {
        expect_split(&rt, rt.alloc(), *case)?;
    }
    Ok(())
}

// Split, the tensor would have 2^21 tuples of sectors.
#[test]
fn too_wide_to_split(rt: HostRuntime) -> Result<(), Fail> {
    let alloc = rt.alloc();
    let group = Group::<1>::new(&[FERMION])?;
    let c = combiner_of(alloc, &group, &[SITE; 9], Dir::Out)?;
    let tensor = narrow_tensor(alloc, &group, &c, &[SITE; 12], 0, &[])?;
    match split(alloc, &tensor, 0, &c) {
        Ok(_) => panic!(rt; "it was split"),
        Err(fault) => {
            assert_eq!(rt; fault, SplitFault::TooWide);
            let text = fault.to_string(alloc)?;
            assert!(rt; text.as_str() == "the split tensor is too wide");
        }
    }
    Ok(())
}

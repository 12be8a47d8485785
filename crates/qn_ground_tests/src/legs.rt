//! Values and sectors of legs, legs at fault, and legs that do not meet.

use qn_charge::Group;
use qn_index::{Clash, Dir, Leg, LegFault};
use qn_samples::{FERMION, LegRow, SampleFault, Sectors, leg_of};
use std::alloc::Global;
use std::test::Fail;

// The leg of a row.
fn leg(alloc: Global, row: LegRow) -> Result<Leg<1>, Fail> {
    let group = Group::<1>::new(&[FERMION])?;
    Ok(leg_of(alloc, &group, row)?)
}

#[test]
fn values_of_a_leg(rt: HostRuntime) -> Result<(), Fail> {
    let leg = leg(rt.alloc(), (Dir::Out, &[(0, 2), (1, 3)]))?;
    let places = [(0, 0), (0, 1), (1, 0), (1, 1), (1, 2)];
    assert_eq!(rt; leg.dim(), 5);
    for v in 0..leg.dim() {
        let (sector, offset) = leg.at(v);
        assert_eq!(rt; places.get(v as usize).copied(), Some((sector, offset)));
        assert_eq!(rt; leg.place_of(sector, offset), v);
    }
    let copy = leg.copy()?;
    assert_eq!(rt; copy.dir(), Dir::Out);
    assert_eq!(rt; copy.flip().meets(&leg), None);
    Ok(())
}

#[test]
fn sectors_at_fault(rt: HostRuntime) -> Result<(), Fail> {
    let group = Group::<1>::new(&[FERMION])?;
    let many = vec![in rt.alloc(); (0, 1); 65]?;
    let rows: [(Sectors, LegFault); 4] = [
        (&[], LegFault::NoSector),
        (&many, LegFault::TooManySectors),
        (&[(0, 1), (0, 65_537)], LegFault::DimRange { sector: 1 }),
        (
            &[(0, 0), (1_000_000_001, 1)],
            LegFault::ChargeRange { sector: 1 },
        ),
    ];
    for (sectors, fault) in rows {
        let made = leg_of(rt.alloc(), &group, (Dir::In, sectors));
        assert_eq!(rt; made.err(), Some(SampleFault::Leg(fault)));
    }
    Ok(())
}

#[test]
fn meetings(rt: HostRuntime) -> Result<(), Fail> {
    let two = leg(rt.alloc(), (Dir::Out, &[(0, 1), (1, 1)]))?;
    let rows: [(LegRow, Option<Clash>); 3] = [
        ((Dir::Out, &[(0, 1), (1, 1)]), Some(Clash::Arrow)),
        ((Dir::In, &[(0, 1), (1, 2)]), Some(Clash::Sectors)),
        ((Dir::In, &[(0, 1), (1, 1)]), None),
    ];
    for (row, clash) in rows {
        assert_eq!(rt; two.meets(&leg(rt.alloc(), row)?), clash);
    }
    Ok(())
}

//! Factors at fault, and sums, negatives, parities and order of small charges.

ghost use Rattle.std.specs.Prelude.{◌≡◌, ◌≤◌, ◌^◌, length};
ghost use Rattle.qn_charge.specs.Charges.{IsCanonical, IsWithin, xor};

use qn_charge::{Abelian, Charge, Factor, Group, GroupFault};
use std::cmp::Ordering;
use std::process::Abort;
use std::test::Fail;

const BOSON: Factor = Factor::U1 { fermion: false };

const fn cyclic(n: u32, fermion: bool) -> Factor {
    Factor::Zn { n, fermion }
}

#[test]
fn factors_at_fault(rt: HostRuntime) {
    for (factors, fault) in [
        ([BOSON, cyclic(1000, true)], None),
        (
            [cyclic(3, true), cyclic(1, false)],
            Some(GroupFault::Modulus { factor: 1 }),
        ),
        (
            [BOSON, cyclic(3, true)],
            Some(GroupFault::OddFermion { factor: 1 }),
        ),
    ] {
        assert_eq!(rt; Group::<2>::new(&factors).err(), fault);
    }
}

#[test]
fn canonical_forms_ranges_and_order(rt: HostRuntime) -> Result<(), Fail> {
    let group = Group::<2>::new(&[BOSON, cyclic(4, true)])?;
    let first = Charge::new(&[-7, -1]);
    let canonical = group.canon(&first);
    assert_eq!(rt; canonical, Charge::new(&[-7, 3]));
    assert_eq!(rt; group.out_of(&first, 7), Some(1));
    assert_eq!(rt; group.out_of(&canonical, 7), None);
    assert_eq!(rt; group.out_of(&canonical, 6), Some(0));
    assert_eq!(rt; first.compare(&canonical), Ordering::Less);
    assert!(rt; first.same(&first) && !first.same(&canonical) && first < canonical);
    assert!(rt; canonical.part(1) == 3 && group.factor(1).is_fermion());
    assert_eq!(rt; group.zero(), Charge::new(&[0, 0]));
    Ok(())
}

// A charge of these parts, whose U(1) parts are from -2^60 to 2^60.
fn charge_of<const K: usize>(rt: &impl Abort, group: &Group<K>, parts: &[i64]) -> Charge<K>
    requires few { K ≤ 4 }
    requires count { length parts.now ≡ K }
    ensures canonical { IsCanonical group.now result }
    ensures within { IsWithin (2 ^ 60) group.now result }
{
    group.known();
    let charge = Charge::new(parts);
    match group.out_of(&charge, 1152921504606846976) {
        None => charge,
        Some(i) => panic!(rt; "part {i} is out of range"),
    }
}

// The calls through their bound.
fn sum_of<A: Abelian>(group: &A, a: &A::Charge, b: &A::Charge) -> A::Charge
where
    requires first { A.is_canonical group.now a.now }
    requires second { A.is_canonical group.now b.now }
    requires within { A.is_within group.now (A.sum group.now a.now b.now) }
    requires group { A.is_group group.now }
    ensures value { result ≡ A.sum group.now b.now a.now }
    ensures parity { A.odd group.now result ≡ xor (A.odd group.now a.now) (A.odd group.now b.now) }
{
    group.add(a, b)
}

fn negative_of<A: Abelian>(group: &A, a: &A::Charge) -> A::Charge
where
    requires canonical { A.is_canonical group.now a.now }
    requires within { A.is_within group.now (A.opposite group.now a.now) }
    ensures { result ≡ A.opposite group.now a.now }
{
    group.neg(a)
}

fn parity_of<A: Abelian>(group: &A, a: &A::Charge) -> bool
where
    ensures { result ≡ A.odd group.now a.now }
{
    group.parity(a)
}

// Two charges have this sum and these parities, and the first has this negative.
fn check<const K: usize>(
    rt: &impl Abort,
    group: &Group<K>,
    a: (&[i64], bool),
    b: (&[i64], bool),
    sum: &[i64],
    negative: &[i64],
)
    requires few { K ≤ 4 }
    requires first { length a.0.now ≡ K }
    requires second { length b.0.now ≡ K }
    requires third { length sum.now ≡ K }
    requires fourth { length negative.now ≡ K }
{
    group.known();
    let first = charge_of(rt, group, a.0);
    let second = charge_of(rt, group, b.0);
    assert_eq!(rt; sum_of(group, &first, &second), Charge::new(sum));
    assert_eq!(rt; negative_of(group, &first), Charge::new(negative));
    assert_eq!(rt; parity_of(group, &first), a.1);
    assert_eq!(rt; parity_of(group, &second), b.1);
}

#[test]
fn sums_negatives_and_parities(rt: HostRuntime) -> Result<(), Fail> {
    let none = Group::<0>::new(&[])?;
    check(&rt, &none, (&[], false), (&[], false), &[], &[]);
    let four = Group::<4>::new(&[
        Factor::U1 { fermion: true },
        BOSON,
        cyclic(2, true),
        cyclic(1000, false),
    ])?;
    check(
        &rt,
        &four,
        (&[1, 1, 0, 999], true),
        (&[1, 0, 1, 2], false),
        &[2, 1, 1, 1],
        &[-1, -1, 0, 1],
    );
    Ok(())
}

//! The charges that the tuples of some legs have together.
ghost use Rattle.std.specs.Prelude.{◌≡◌, ◌<◌, ◌≤◌, ◌^◌, ◌+◌, ◌*◌, length, MatchOption, IfOk, IfErr, OnOk, insert};
ghost use Rattle.std.specs.List.{All};
ghost use Rattle.qn_charge.specs.Charges.{IsCanonical, IsWithin};
ghost use Rattle.qn_index.specs.Legs.{IsLegOf};
ghost use Rattle.qn_index.specs.Tuples.{IsTuple, IsFlux, count, turned};
ghost use Rattle.qn_index.specs.Extents.{capped};
ghost use Rattle.qn_index.proofs.Shapes.{nth_tuple, rank};
ghost use Rattle.qn_block.specs.Combiners.{fused_charge, fused_charges, number_of_values, put};
ghost use Rattle.qn_block.specs.FuseFaults.{IsRangeFault};

use crate::fault::FuseFault;
use qn_charge::{Abelian, Charge, Group};
use qn_index::{Dir, Leg, MAX_SECTORS, known_all, net_charge};
use std::alloc::{AllocError, Global};
use std::cmp::Ordering;

/// The most values that a leg may have.
pub(crate) const MAX_VALUES: u64 = 1 << 20;

/// The product of a number and a factor, or 2^20 + 1 where it is above 2^20.
fn times(size: u64, factor: u64) -> u64
    requires size { size ≤ 2 ^ 20 + 1 }
    requires factor { factor ≤ 2 ^ 20 }
    ensures { result ≡ capped (2 ^ 20) (size * factor) }
{
    (size * factor).min(MAX_VALUES + 1)
}

/// The number of values of all legs together, or 2^20 + 1.
pub(crate) fn count_values<const K: usize>(legs: &[Leg<K>]) -> u64
    ensures { result ≡ capped (2 ^ 20) (number_of_values legs.now) }
{
    known_all(legs);
    let mut size = 1u64;
    for i in (0..legs.len()).rev() {
        size = times(size, u64::from(legs[i].dim()));
    }
    size
}

/// The number of tuples, or 2^20 + 1.
pub(crate) fn count_tuples<const K: usize>(legs: &[Leg<K>]) -> u64
    ensures { result ≡ capped (2 ^ 20) (count legs.now) }
{
    known_all(legs);
    let mut size = 1u64;
    for i in (0..legs.len()).rev() {
        size = times(size, legs[i].sectors().len() as u64);
    }
    size
}

/// Writes the n-th of `total` tuples.
fn write_tuple<const K: usize>(legs: &[Leg<K>], total: u64, n: u64, tuple: &mut [u32])
    requires total { total ≡ count legs.now }
    requires below { n < total }
    requires long { length tuple.old ≡ length legs.now }
    ensures { tuple.new ≡ nth_tuple legs.now n }
{
    let mut size = total;
    let mut rest = n;
    for i in 0..legs.len() {
        let leg = &legs[i];
        leg.known();
        size /= leg.sectors().len() as u64;
        tuple[i] = (rest / size) as u32;
        rest %= size;
    }
}

/// The number of a tuple among all tuples, ascending.
pub(crate) fn tuple_number<const K: usize>(legs: &[Leg<K>], tuple: &[u32]) -> u64
    requires tuple { IsTuple legs.now tuple.now }
    requires count { count legs.now ≤ 2 ^ 20 }
    ensures number { result ≡ rank legs.now tuple.now }
    ensures below { result < count legs.now }
{
    known_all(legs);
    let mut number = 0u64;
    for i in 0..legs.len() {
        number = number * legs[i].sectors().len() as u64 + u64::from(tuple[i]);
    }
    number
}

/// A net charge as a leg with this arrow counts it.
pub(crate) fn turned_charge<const K: usize>(
    group: &Group<K>,
    dir: Dir,
    charge: &Charge<K>,
) -> Charge<K>
    requires { IsFlux group.now charge.now }
    ensures value { result ≡ turned group.now dir charge.now }
    ensures flux { IsFlux group.now result }
{
    match dir {
        Dir::Out => *charge,
        Dir::In => group.neg(charge),
    }
}

/// The charge of the n-th of `total` tuples as the fused leg counts it. Writes the tuple.
fn charge_of<const K: usize>(
    group: &Group<K>,
    legs: &[Leg<K>],
    dir: Dir,
    total: u64,
    n: u64,
    tuple: &mut [u32],
) -> Charge<K>
    requires few { length legs.now ≤ 63 }
    requires group { All (IsLegOf group.now) legs.now }
    requires total { total ≡ count legs.now }
    requires below { n < total }
    requires long { length tuple.old ≡ length legs.now }
    ensures charge { result ≡ fused_charge group.now legs.now dir (nth_tuple legs.now n) }
    ensures flux { IsFlux group.now result }
    ensures long { length tuple.new ≡ length tuple.old }
{
    write_tuple(legs, total, n, tuple);
    let net = net_charge(group, legs, tuple);
    turned_charge(group, dir, &net)
}

/// Where a charge belongs among ascending charges, and None where it is there.
fn place_of<const K: usize>(charges: &[Charge<K>], charge: &Charge<K>) -> Option<usize>
    ensures { MatchOption result (put charge.now charges.now ≡ charges.now) (λ i.
        (i ≤ length charges.now) × (put charge.now charges.now ≡ insert charges.now i charge.now)) }
{
    for i in 0..charges.len() {
        match charge.compare(&charges[i]) {
            Ordering::Less => return Some(i),
            Ordering::Equal => return None,
            Ordering::Greater => {}
        }
    }
    Some(charges.len())
}

/// Puts a charge in its place among ascending charges, unless it is there.
fn put_charge<const K: usize>(
    charges: &mut Vec<Charge<K>>,
    charge: &Charge<K>,
) -> Result<(), AllocError>
    ensures { OnOk result (charges.new.items ≡ put charge.now charges.old.items) }
{
    match place_of(charges, charge) {
        Some(i) => Ok(charges.insert(i, *charge)?),
        None => Ok(()),
    }
}

/// The charges of all tuples as the fused leg counts them, ascending. There may be at most 64.
pub(crate) fn fused_charges<const K: usize>(
    alloc: Global,
    group: &Group<K>,
    legs: &[Leg<K>],
    dir: Dir,
) -> Result<Vec<Charge<K>>, FuseFault>
    requires few { length legs.now ≤ 63 }
    requires group { All (IsLegOf group.now) legs.now }
    requires count { count legs.now ≤ 2 ^ 20 }
    ensures charges { IfOk result (λ v. v.items ≡ fused_charges group.now legs.now dir) }
    ensures fluxes { IfOk result (λ v. All (IsFlux group.now) v.items) }
    ensures err { IfErr result (IsRangeFault (64 < length (fused_charges group.now legs.now dir))) }
{
    let total = count_tuples(legs);
    let mut charges = Vec::new(alloc);
    let mut tuple = vec![in alloc; 0u32; legs.len()]?;
    for n in (0..total).rev() {
        let charge = charge_of(group, legs, dir, total, n, &mut tuple);
        put_charge(&mut charges, &charge)?;
        if charges.len() > MAX_SECTORS {
            return Err(FuseFault::FusedRange);
        }
    }
    Ok(charges)
}

//! Whether two tensors can be contracted.
ghost use Rattle.std.specs.Prelude.{◌≡◌, ◌==◌, ◌<◌, ◌↔◌, All, IfOk, IsTrue};
ghost use Rattle.qn_sign.specs.Sign.{is_in, IsDistinct};
ghost use Rattle.qn_charge.specs.Charges.{IsCanonical};
ghost use Rattle.qn_index.specs.Legs.{IsLegOf};
ghost use Rattle.qn_index.specs.Tuples.{IsFlux};
ghost use Rattle.qn_index.specs.Extents.{IsWithinLimits};
ghost use Rattle.qn_match.specs.Pairs.{MeetAt, IsShared, ArePaired, IsPair};

use crate::keys::{first_places, second_places};
use crate::task::result_legs;
use qn_block::BlockTensor;
use qn_charge::{Abelian, Charge, Factor, Group};
use qn_index::{Leg, MAX_ENTRIES, MAX_TUPLES, width};
use std::alloc::{AllocError, Global};

/// The size that a U(1) part of a flux may have.
const MAX_FLUX: i64 = 1 << 50;

fn stands_in(k: usize, list: &[usize]) -> bool
    ensures { result ≡ is_in ◌==◌ k list.now }
{
    match list {
        [] => false,
        [first, rest @ ..] => k == *first || stands_in(k, rest),
    }
}

fn is_distinct(list: &[usize]) -> bool
    ensures { IsTrue result ↔ IsDistinct ◌==◌ list.now }
{
    match list {
        [] => true,
        [first, rest @ ..] => !stands_in(*first, rest) && is_distinct(rest),
    }
}

fn is_same_factor(factor: Factor, other: Factor) -> bool
    ensures { IsTrue result ↔ (factor ≡ other) }
{
    match factor {
        Factor::U1 { fermion } => match other {
            Factor::U1 { fermion: second } => fermion == second,
            Factor::Zn { .. } => false,
        },
        Factor::Zn { n, fermion } => match other {
            Factor::U1 { .. } => false,
            Factor::Zn {
                n: modulus,
                fermion: second,
            } => n == modulus && fermion == second,
        },
    }
}

fn is_same_group<const K: usize>(group: &Group<K>, other: &Group<K>) -> bool
    ensures { IsTrue result ↔ (group.now ≡ other.now) }
{
    group.known();
    other.known();
    for i in 0..K {
        if !is_same_factor(group.factor(i), other.factor(i)) {
            return false;
        }
    }
    true
}

/// Whether there are legs at these two places, and they meet.
fn meet_at<const K: usize>(
    firsts: &[Leg<K>],
    seconds: &[Leg<K>],
    first: usize,
    second: usize,
) -> bool
    ensures { IsTrue result ↔ MeetAt firsts.now seconds.now (first, second) }
{
    if first >= firsts.len() {
        return false;
    }
    if second >= seconds.len() {
        return false;
    }
    firsts[first].meets(&seconds[second]).is_none()
}

fn all_meet<const K: usize>(
    firsts: &[Leg<K>],
    seconds: &[Leg<K>],
    shared: &[(usize, usize)],
) -> bool
    ensures { IsTrue result ↔ All (MeetAt firsts.now seconds.now) shared.now }
{
    for pair in shared {
        if !meet_at(firsts, seconds, pair.0, pair.1) {
            return false;
        }
    }
    true
}

/// Whether legs can be contracted over these pairs.
fn is_shared<const K: usize>(
    alloc: Global,
    firsts: &[Leg<K>],
    seconds: &[Leg<K>],
    shared: &[(usize, usize)],
) -> Result<bool, AllocError>
    ensures { IfOk result (λ b. IsTrue b ↔ IsShared firsts.now seconds.now shared.now) }
{
    if !all_meet(firsts, seconds, shared) {
        return Ok(false);
    }
    let first_places = first_places(alloc, shared)?;
    if !is_distinct(&first_places) {
        return Ok(false);
    }
    let second_places = second_places(alloc, shared)?;
    Ok(is_distinct(&second_places))
}

fn is_flux<const K: usize>(group: &Group<K>, charge: &Charge<K>) -> bool
    requires { IsCanonical group.now charge.now }
    ensures { IsTrue result ↔ IsFlux group.now charge.now }
{
    match group.out_of(charge, MAX_FLUX) {
        None => true,
        Some(_) => false,
    }
}

fn is_within_limits<const K: usize>(
    alloc: Global,
    group: &Group<K>,
    legs: &[Leg<K>],
    flux: &Charge<K>,
) -> Result<bool, AllocError>
    requires group { All (IsLegOf group.now) legs.now }
    requires flux { IsFlux group.now flux.now }
    ensures { IfOk result (λ b. IsTrue b ↔ IsWithinLimits group.now legs.now flux.now) }
{
    if legs.len() > 64 {
        return Ok(false);
    }
    let extent = width(alloc, group, legs, flux)?;
    if extent.tuples > MAX_TUPLES {
        return Ok(false);
    }
    Ok(extent.entries <= MAX_ENTRIES)
}

/// Whether tensors of two shapes can be contracted over these pairs of legs.
pub fn are_paired<const K: usize>(
    alloc: Global,
    group: &Group<K>,
    a_legs: &[Leg<K>],
    a_flux: &Charge<K>,
    b_legs: &[Leg<K>],
    b_flux: &Charge<K>,
    shared: &[(usize, usize)],
) -> Result<bool, AllocError>
    requires a_legs { All (IsLegOf group.now) a_legs.now }
    requires a_flux { IsFlux group.now a_flux.now }
    requires b_legs { All (IsLegOf group.now) b_legs.now }
    requires b_flux { IsFlux group.now b_flux.now }
    ensures { IfOk result (λ b. IsTrue b ↔ ArePaired group.now a_legs.now a_flux.now b_legs.now b_flux.now shared.now) }
{
    if !is_shared(alloc, a_legs, b_legs, shared)? {
        return Ok(false);
    }
    let flux = group.add(a_flux, b_flux);
    if !is_flux(group, &flux) {
        return Ok(false);
    }
    let legs = result_legs(alloc, a_legs, b_legs, shared)?;
    is_within_limits(alloc, group, &legs, &flux)
}

/// Whether two tensors can be contracted over these pairs of legs: their groups are equal, each pair of legs
/// meets, no leg stands twice, and the result has a flux in range and is not too wide.
pub fn is_pair<const K: usize>(
    alloc: Global,
    a: &BlockTensor<K>,
    b: &BlockTensor<K>,
    shared: &[(usize, usize)],
) -> Result<bool, AllocError>
    ensures { IfOk result (λ r. IsTrue r ↔ IsPair a.now b.now shared.now) }
{
    a.known();
    b.known();
    if !is_same_group(a.group(), b.group()) {
        return Ok(false);
    }
    are_paired(
        alloc,
        a.group(),
        a.legs(),
        a.flux(),
        b.legs(),
        b.flux(),
        shared,
    )
}

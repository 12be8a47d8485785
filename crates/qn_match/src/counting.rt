//! The cost of a contraction, counted by the sectors of the shared legs.
ghost use Rattle.std.specs.Prelude.{ℕ, List, ◌≡◌, ◌<◌, ◌≤◌, ◌^◌, ◌*◌, length, map, cond, slice_index_or, All, IfOk};
ghost use Rattle.std.specs.List.{sum_by};
ghost use Rattle.qn_index.specs.Legs.{sector_at};
ghost use Rattle.qn_index.specs.Tuples.{IsTuple, admitted};
ghost use Rattle.qn_index.specs.Places.{block_size};
ghost use Rattle.qn_match.specs.Pairs.{unmarked, second_left, ArePaired};
ghost use Rattle.qn_match.specs.Keys.{bases_of, digits_of, numbers, number, AreDigits, AreSums};
ghost use Rattle.qn_match.specs.Cost.{cost_of, IsShape};

use crate::keys::{bases_of, first_places, key, numbers, second_places};
use crate::marks::second_marks;
use qn_charge::{Charge, Group};
use qn_index::{Leg, Tuple, admissible, block_len, known_all};
use std::alloc::{AllocError, Global};

/// The dimension of a sector, or 1 where its leg has a mark.
fn dim_left<const K: usize>(leg: &Leg<K>, mark: bool, sector: u32) -> u64
    requires { sector < length leg.now.sectors }
    ensures { result ≡ cond mark 1 (sector_at leg.now.sectors sector).dim }
{
    if mark {
        1
    } else {
        u64::from(leg.dim_at(sector))
    }
}

/// The product of the dimensions of a tuple's sectors at the legs without a mark.
fn left_size<const K: usize>(legs: &[Leg<K>], marks: &[bool], tuple: &[u32]) -> u64
    requires count { length marks.now ≡ length legs.now }
    requires tuple { IsTuple legs.now tuple.now }
    requires small { block_size legs.now tuple.now ≤ 2 ^ 22 }
    ensures value { result ≡ block_size (unmarked marks.now legs.now) (unmarked marks.now tuple.now) }
    ensures small { result ≤ block_size legs.now tuple.now }
{
    known_all(legs);
    let mut size = 1u64;
    for i in (0..legs.len()).rev() {
        size *= dim_left(&legs[i], marks[i], tuple[i]);
    }
    size
}

/// For each key, the sum over tuples with this key of the sizes that are left.
fn sums_by_key<const K: usize>(
    alloc: Global,
    legs: &[Leg<K>],
    marks: &[bool],
    places: &[usize],
    bases: &[usize],
    tuples: &[Tuple],
) -> Result<Vec<u64>, AllocError>
    requires count { length marks.now ≡ length legs.now }
    requires places { All (λ k. k < length legs.now) places.now }
    requires some { All (λ n. 0 < n) bases.now }
    requires few { numbers bases.now ≤ 2 ^ 20 }
    requires tuples { All (IsTuple legs.now) tuples.now }
    requires digits { All (λ u. AreDigits bases.now (digits_of places.now u)) tuples.now }
    requires small { sum_by (block_size legs.now) tuples.now ≤ 2 ^ 22 }
    ensures { IfOk result (λ v. AreSums (λ u. number bases.now (digits_of places.now u)) (λ u. block_size (unmarked marks.now legs.now) (unmarked marks.now u)) (numbers bases.now) tuples.now v.items) }
{
    known_all(legs);
    let mut sums = vec![in alloc; 0; numbers(bases)]?;
    for tuple in tuples {
        let size = left_size(legs, marks, tuple.as_slice());
        let key = key(places, bases, tuple.as_slice());
        sums[key] += size;
    }
    Ok(sums)
}

/// The sum over tuples of their size times the sum at their key.
fn total<const K: usize>(
    legs: &[Leg<K>],
    places: &[usize],
    bases: &[usize],
    tuples: &[Tuple],
    sums: &[u64],
) -> u64
    requires places { All (λ k. k < length legs.now) places.now }
    requires few { numbers bases.now ≤ 2 ^ 20 }
    requires tuples { All (IsTuple legs.now) tuples.now }
    requires digits { All (λ u. AreDigits bases.now (digits_of places.now u)) tuples.now }
    requires small { sum_by (block_size legs.now) tuples.now ≤ 2 ^ 22 }
    requires count { length sums.now ≡ numbers bases.now }
    requires sums { All (λ n. n ≤ 2 ^ 22) sums.now }
    ensures { result ≡ sum_by (λ t. block_size legs.now t * slice_index_or sums.now (number bases.now (digits_of places.now t)) 0) tuples.now }
{
    let mut total = 0;
    for tuple in tuples {
        let key = key(places, bases, tuple.as_slice());
        total += block_len(legs, tuple.as_slice()) * sums[key];
    }
    total
}
/// For each key of the sectors of the shared legs, the sum over the second shape's tuples of the sizes that are left.
fn second_sums<const K: usize>(
    alloc: Global,
    group: &Group<K>,
    legs: &[Leg<K>],
    flux: &Charge<K>,
    shared: &[(usize, usize)],
    bases: &[usize],
) -> Result<Vec<u64>, AllocError>
    requires shape { IsShape group.now legs.now flux.now }
    requires places { All (λ p. p.1 < length legs.now) shared.now }
    requires some { All (λ n. 0 < n) bases.now }
    requires few { numbers bases.now ≤ 2 ^ 20 }
    requires digits { (u : List ℕ) → IsTuple legs.now u → AreDigits bases.now (digits_of (map (λ p. p.1) shared.now) u) }
    ensures value { IfOk result (λ v. AreSums (λ u. number bases.now (digits_of (map (λ p. p.1) shared.now) u)) (λ u. block_size (second_left shared.now legs.now) (second_left shared.now u)) (numbers bases.now) (admitted group.now legs.now flux.now) v.items) }
    ensures small { IfOk result (λ v. All (λ n. n ≤ 2 ^ 22) v.items) }
{
    known_all(legs);
    let tuples = admissible(alloc, group, legs, flux)?;
    let marks = second_marks(alloc, shared, legs.len())?;
    let places = second_places(alloc, shared)?;
    sums_by_key(alloc, legs, &marks, &places, bases, &tuples)
}

/// The cost of a contraction of tensors of two shapes over pairs of legs: the sum, over pairs of admissible
/// tuples of sectors that agree on the shared legs, of the product of the dimensions of all their legs, shared
/// ones once. It is the number of products of single entries, where all blocks are stored.
pub fn cost<const K: usize>(
    alloc: Global,
    group: &Group<K>,
    a_legs: &[Leg<K>],
    a_flux: &Charge<K>,
    b_legs: &[Leg<K>],
    b_flux: &Charge<K>,
    shared: &[(usize, usize)],
) -> Result<u64, AllocError>
    requires first { IsShape group.now a_legs.now a_flux.now }
    requires second { IsShape group.now b_legs.now b_flux.now }
    requires pair { ArePaired group.now a_legs.now a_flux.now b_legs.now b_flux.now shared.now }
    ensures { IfOk result (λ n. n ≡ cost_of group.now a_legs.now a_flux.now b_legs.now b_flux.now shared.now) }
{
    known_all(a_legs);
    let bases = bases_of(alloc, shared, a_legs)?;
    let sums = second_sums(alloc, group, b_legs, b_flux, shared, &bases)?;
    let tuples = admissible(alloc, group, a_legs, a_flux)?;
    let places = first_places(alloc, shared)?;
    Ok(total(a_legs, &places, &bases, &tuples, &sums))
}

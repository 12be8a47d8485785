//! The sectors of the shared legs as one number.
ghost use Rattle.std.specs.Prelude.{◌≡◌, ◌<◌, ◌≤◌, ◌^◌, length, map, All, IfOk};
ghost use Rattle.qn_match.specs.Keys.{bases_of, digits_of, numbers, number, AreDigits};

use qn_index::Leg;
use std::alloc::{AllocError, Global};

/// The places of the shared legs in the first tensor.
pub fn first_places(alloc: Global, shared: &[(usize, usize)]) -> Result<Vec<usize>, AllocError>
    ensures { IfOk result (λ v. v.items ≡ map (λ p. p.0) shared.now) }
{
    let mut places = Vec::with_capacity(alloc, shared.len())?;
    for pair in shared {
        places.push(pair.0)?;
    }
    Ok(places)
}

/// The places of the shared legs in the second tensor.
pub fn second_places(alloc: Global, shared: &[(usize, usize)]) -> Result<Vec<usize>, AllocError>
    ensures { IfOk result (λ v. v.items ≡ map (λ p. p.1) shared.now) }
{
    let mut places = Vec::with_capacity(alloc, shared.len())?;
    for pair in shared {
        places.push(pair.1)?;
    }
    Ok(places)
}

/// The number of sectors of each shared leg.
pub fn bases_of<const K: usize>(
    alloc: Global,
    shared: &[(usize, usize)],
    legs: &[Leg<K>],
) -> Result<Vec<usize>, AllocError>
    requires { All (λ p. p.0 < length legs.now) shared.now }
    ensures { IfOk result (λ v. v.items ≡ bases_of shared.now legs.now) }
{
    let mut bases = Vec::with_capacity(alloc, shared.len())?;
    for pair in shared {
        bases.push(legs[pair.0].sectors().len())?;
    }
    Ok(bases)
}

/// How many keys there are.
pub fn numbers(bases: &[usize]) -> usize
    requires some { All (λ n. 0 < n) bases.now }
    requires few { numbers bases.now ≤ 2 ^ 20 }
    ensures { result ≡ numbers bases.now }
{
    match bases {
        [] => 1,
        [base, later @ ..] => *base * numbers(later),
    }
}

/// The key of a tuple: the number whose digits are its sectors at these places.
pub fn key(places: &[usize], bases: &[usize], tuple: &[u32]) -> usize
    requires places { All (λ k. k < length tuple.now) places.now }
    requires digits { AreDigits bases.now (digits_of places.now tuple.now) }
    requires few { numbers bases.now ≤ 2 ^ 20 }
    ensures value { result ≡ number bases.now (digits_of places.now tuple.now) }
    ensures in_range { result < numbers bases.now }
{
    match bases {
        [] => 0,
        [base, later @ ..] => match places {
            [] => 0,
            [place, rest @ ..] => tuple[*place] as usize + *base * key(rest, later, tuple),
        },
    }
}

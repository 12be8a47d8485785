//! Which block of the result a block counts for.

ghost use Rattle.std.specs.Prelude.{◌≡◌, ◌≢◌, ◌<◌, ℕ, [], length, slice_index_or, IfOk, MatchOption};
ghost use Rattle.std.specs.Cmp.Lexicographic.{slice_cmp};
ghost use Rattle.std.specs.List.{All, AllPairs};
ghost use Rattle.std.specs.Ordering.{nat_cmp};
ghost use Rattle.qn_value.specs.Local.{picked};
ghost use Rattle.qn_trace.specs.Sources.{IsBelow, IsNumberOf};

use qn_block::Block;
use qn_index::Tuple;
use qn_strides::couples_meet;
use std::alloc::{AllocError, Global};
use std::cmp::Ordering;

/// How a tuple stands to sectors, compared leg by leg from the first.
fn compare(tuple: &Tuple, sectors: &[u32]) -> Ordering
    ensures { result ≡ slice_cmp nat_cmp tuple.now sectors.now }
{
    tuple.as_slice().cmp(sectors)
}

/// Where the tuple of these sectors stands.
fn find(tuples: &[Tuple], sectors: &[u32]) -> Option<usize>
    requires { AllPairs IsBelow tuples.now }
    ensures { MatchOption result ((k : ℕ) → k < length tuples.now → slice_index_or tuples.now k [] ≢ sectors.now) (λ k.
        (k < length tuples.now) × (slice_index_or tuples.now k [] ≡ sectors.now)) }
{
    match tuples.binary_search_by(|tuple| compare(tuple, sectors)) {
        Ok(number) => Some(number),
        Err(_) => None,
    }
}

/// The sectors of the legs at these places.
fn sectors_of(alloc: Global, tuple: &[u32], places: &[usize]) -> Result<Vec<u32>, AllocError>
    requires { All (λ p. p < length tuple.now) places.now }
    ensures { IfOk result (λ v. v.items ≡ picked 0 tuple.now places.now) }
{
    let mut sectors = Vec::with_capacity(alloc, places.len())?;
    for place in places {
        sectors.push(tuple[*place])?;
    }
    Ok(sectors)
}

/// The number of the tuple that the block's open legs have, where its couples meet.
pub(crate) fn number_of(
    alloc: Global,
    couples: &[(usize, usize)],
    places: &[usize],
    tuples: &[Tuple],
    block: &Block,
) -> Result<Option<usize>, AllocError>
    requires within { All (λ p. p < length block.now.tuple) places.now }
    requires ascending { AllPairs IsBelow tuples.now }
    ensures { IfOk result (IsNumberOf couples.now places.now tuples.now block.now) }
{
    let tuple = block.tuple();
    if !couples_meet(couples, tuple) {
        return Ok(None);
    }
    let sectors = sectors_of(alloc, tuple, places)?;
    Ok(find(tuples, &sectors))
}

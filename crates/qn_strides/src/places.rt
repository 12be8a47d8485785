//! The places of coupled legs and of open ones.

ghost use Rattle.std.specs.Prelude.{◌≡◌, ◌<◌, length, slice_index_or, IfOk};
ghost use Rattle.std.specs.List.{All};
ghost use Rattle.qn_index.specs.Legs.{IsLegOf};
ghost use Rattle.qn_index.specs.Tuples.{IsTuple};
ghost use Rattle.qn_value.specs.Tensors.{same_values};
ghost use Rattle.qn_value.specs.Local.{no_leg, is_coupled, picked, IsCouple};
ghost use Rattle.qn_strides.specs.Strides.{in_place, out_place, open_places, goal_places, couples_meet, sector_parities};

use qn_charge::{Abelian, Group};
use qn_index::{Dir, Leg};
use std::alloc::{AllocError, Global};

/// The place of the couple's In leg.
pub fn in_place<const K: usize>(legs: &[Leg<K>], couple: (usize, usize)) -> usize
    requires couple { IsCouple legs.now couple }
    ensures value { result ≡ in_place legs.now couple }
    ensures within { result < length legs.now }
{
    match legs[couple.0].dir() {
        Dir::In => couple.0,
        Dir::Out => couple.1,
    }
}

/// The place of the couple's Out leg.
fn out_place<const K: usize>(legs: &[Leg<K>], couple: (usize, usize)) -> usize
    requires couple { IsCouple legs.now couple }
    ensures value { result ≡ out_place legs.now couple }
{
    match legs[couple.0].dir() {
        Dir::In => couple.1,
        Dir::Out => couple.0,
    }
}

/// Whether the leg at a place stands in a couple.
pub fn is_coupled(couples: &[(usize, usize)], place: usize) -> bool
    ensures { result ≡ is_coupled couples.now place }
{
    match couples.split_first() {
        None => false,
        Some((couple, rest)) => {
            place == couple.0 || (place == couple.1 || is_coupled(rest, place))
        }
    }
}

/// The places of the legs that stand in no couple.
pub fn open_places(
    alloc: Global,
    couples: &[(usize, usize)],
    count: usize,
) -> Result<Vec<usize>, AllocError>
    ensures { IfOk result (λ v. v.items ≡ open_places couples.now count) }
{
    let mut places = Vec::new(alloc);
    for place in 0..count {
        if !is_coupled(couples, place) {
            places.push(place)?;
        }
    }
    Ok(places)
}

/// The places of all legs in the order of the goal: for each couple its In leg and its Out leg, and after them the open
/// legs.
pub fn goal_places<const K: usize>(
    alloc: Global,
    legs: &[Leg<K>],
    couples: &[(usize, usize)],
    left: &[usize],
) -> Result<Vec<usize>, AllocError>
    requires couples { All (IsCouple legs.now) couples.now }
    requires left { left.now ≡ open_places couples.now (length legs.now) }
    ensures { IfOk result (λ v. v.items ≡ goal_places legs.now couples.now) }
{
    let mut goal = Vec::new(alloc);
    let mut rest = couples;
    while let [couple, later @ ..] = rest {
        goal.push(in_place(legs, *couple))?;
        goal.push(out_place(legs, *couple))?;
        rest = later;
    }
    goal.extend_from_slice(left)?;
    Ok(goal)
}

/// The legs at these places.
pub fn legs_at<const K: usize>(
    alloc: Global,
    legs: &[Leg<K>],
    places: &[usize],
) -> Result<Vec<Leg<K>>, AllocError>
    requires { All (λ k. k < length legs.now) places.now }
    ensures { IfOk result (λ v. v.items ≡ picked no_leg legs.now places.now) }
{
    let mut left = Vec::with_capacity(alloc, places.len())?;
    for k in places {
        left.push(legs[*k].copy()?)?;
    }
    Ok(left)
}

/// Whether the two legs of each couple have one sector.
pub fn couples_meet(couples: &[(usize, usize)], tuple: &[u32]) -> bool
    ensures { result ≡ couples_meet couples.now tuple.now }
{
    match couples.split_first() {
        None => true,
        Some((couple, rest)) => {
            sector_at(tuple, couple.0) == sector_at(tuple, couple.1) && couples_meet(rest, tuple)
        }
    }
}

/// The sector of a leg, and 0 past the end.
pub fn sector_at(tuple: &[u32], place: usize) -> u32
    ensures { result ≡ slice_index_or tuple.now place 0 }
{
    match tuple.get(place) {
        Some(sector) => *sector,
        None => 0,
    }
}

/// Whether the legs at these places have these sectors.
pub fn has_sectors(sectors: &[u32], tuple: &[u32], places: &[usize]) -> bool
    ensures { result ≡ same_values sectors.now (picked 0 tuple.now places.now) }
{
    match sectors.split_first() {
        None => places.is_empty(),
        Some((sector, other_sectors)) => match places.split_first() {
            None => false,
            Some((place, other_places)) => {
                *sector == sector_at(tuple, *place)
                    && has_sectors(other_sectors, tuple, other_places)
            }
        },
    }
}

/// The parities of the sectors of a tuple.
pub fn sector_parities<const K: usize>(
    alloc: Global,
    group: &Group<K>,
    legs: &[Leg<K>],
    tuple: &[u32],
) -> Result<Vec<bool>, AllocError>
    requires tuple { IsTuple legs.now tuple.now }
    ensures { IfOk result (λ v. v.items ≡ sector_parities group.now legs.now tuple.now) }
{
    let mut parities = Vec::new(alloc);
    for i in 0..legs.len() {
        let charge = legs[i].charge(tuple[i]);
        parities.push(group.parity(charge))?;
    }
    Ok(parities)
}

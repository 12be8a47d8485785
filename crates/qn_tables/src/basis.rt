//! The states of a basis of sites, one value for each site.

use crate::number::Number;
use qn_block::BlockTensor;
use qn_charge::{Charge, Group};
use qn_index::Leg;
use qn_sites::SiteTable;
use std::alloc::{AllocError, Global};
use std::process::Abort;

// Whether the fermionic parts of a charge add up to an odd number.
pub(crate) fn is_odd_charge<const K: usize>(group: &Group<K>, charge: &Charge<K>) -> bool {
    let mut odd = false;
    for i in 0..K {
        if group.factor(i).is_fermion() && charge.part(i) % 2 != 0 {
            odd = !odd;
        }
    }
    odd
}

// Whether a value of a leg is odd.
pub(crate) fn is_odd<const K: usize>(group: &Group<K>, leg: &Leg<K>, value: u32) -> bool {
    let mut rest = value;
    for sector in leg.sectors() {
        if rest < sector.dim {
            return is_odd_charge(group, &sector.charge);
        }
        rest -= sector.dim;
    }
    false
}

// Each of the states with each value of one more site.
fn longer(alloc: Global, states: &[Vec<u32>], dim: u32) -> Result<Vec<Vec<u32>>, AllocError> {
    let mut all = Vec::new(alloc);
    for state in states {
        for value in 0..dim {
            let mut next = state.clone()?;
            next.push(value)?;
            all.push(next)?;
        }
    }
    Ok(all)
}

// All basis states: one value for each site.
pub(crate) fn basis<const K: usize>(
    alloc: Global,
    sites: &[SiteTable<K>],
) -> Result<Vec<Vec<u32>>, AllocError> {
    let mut states = Vec::new(alloc);
    states.push(Vec::new(alloc))?;
    for site in sites {
        states = longer(alloc, &states, site.leg().dim())?;
    }
    Ok(states)
}

// A list with another value at one place.
pub(crate) fn replaced(
    alloc: Global,
    list: &[u32],
    place: usize,
    value: u32,
) -> Result<Vec<u32>, AllocError> {
    let mut all = Vec::new(alloc);
    for (i, x) in list.iter().enumerate() {
        all.push(if i == place { value } else { *x })?;
    }
    Ok(all)
}

// The entry at these values, which have to be in range.
pub(crate) fn entry_at<const K: usize>(
    rt: &impl Abort,
    tensor: &BlockTensor<K>,
    values: &[u32],
) -> Number {
    if tensor.is_in_range(values) {
        Number::of(tensor.entry(values))
    } else {
        panic!(rt; "the values {values:?} are out of range")
    }
}

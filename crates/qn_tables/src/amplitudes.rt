//! Amplitudes of chains, and sums over all basis states by them.
use crate::basis::{basis, entry_at, is_odd};
use crate::number::{Number, ONE, ZERO};
use crate::strings::image;
use qn_block::BlockTensor;
use qn_index::Dir;
use qn_mps::Chain;
use qn_opsum::OpSum;
use qn_sites::SiteTable;
use std::alloc::{AllocError, Global};
use std::process::Abort;

// The value of the link left of a site, where there is one, then the value of the site, then that of the link right of
// it.
fn values_of(
    alloc: Global,
    is_first: bool,
    left: u32,
    value: u32,
    right: Option<u32>,
) -> Result<Vec<u32>, AllocError> {
    let mut values = Vec::new(alloc);
    if !is_first {
        values.push(left)?;
    }
    values.push(value)?;
    if let Some(right) = right {
        values.push(right)?;
    }
    Ok(values)
}

// The sum over the values of the link left of a site, at one value of the link right of it. Each value left has the sum
// over the sites before as its product.
fn summed<const K: usize>(
    rt: &impl Abort,
    alloc: Global,
    tensor: &BlockTensor<K>,
    is_first: bool,
    products: &[Number],
    value: u32,
    right: Option<u32>,
) -> Result<Number, AllocError> {
    let mut total = ZERO;
    let mut left = 0u32;
    for product in products {
        let values = values_of(alloc, is_first, left, value, right)?;
        total = total.plus(product.times(entry_at(rt, tensor, &values)));
        left = left.wrapping_add(1);
    }
    Ok(total)
}

// The products with one more site, which is not the last. A line whose Out end comes first counts its odd values by -1.
fn with_site<const K: usize>(
    rt: &impl Abort,
    alloc: Global,
    tensor: &BlockTensor<K>,
    is_first: bool,
    products: &[Number],
    value: u32,
) -> Result<Vec<Number>, AllocError> {
    let mut totals = Vec::new(alloc);
    let Some(leg) = tensor.legs().last() else {
        panic!(rt; "a tensor has no legs")
    };
    for right in 0..leg.dim() {
        let minus = leg.dir() == Dir::Out && is_odd(tensor.group(), leg, right);
        let total = summed(rt, alloc, tensor, is_first, products, value, Some(right))?;
        totals.push(total.signed(minus))?;
    }
    Ok(totals)
}

// The amplitude of a state at a basis state.
fn amplitude<const K: usize>(
    rt: &impl Abort,
    alloc: Global,
    chain: &Chain<K>,
    state: &[u32],
) -> Result<Number, AllocError> {
    let mut products = Vec::new(alloc);
    products.push(ONE)?;
    let count = chain.tensors().len();
    for (j, (tensor, value)) in chain.tensors().iter().zip(state.iter()).enumerate() {
        if j.wrapping_add(1) == count {
            return summed(rt, alloc, tensor, j == 0, &products, *value, None);
        }
        products = with_site(rt, alloc, tensor, j == 0, &products, *value)?;
    }
    Ok(ZERO)
}

// The sum over s of the conjugate of the bra's amplitude at s times the ket's.
pub(crate) fn overlap<const K: usize>(
    rt: &impl Abort,
    alloc: Global,
    sites: &[SiteTable<K>],
    bra: &Chain<K>,
    ket: &Chain<K>,
) -> Result<Number, AllocError> {
    let mut total = ZERO;
    for state in &basis(alloc, sites)? {
        let left = amplitude(rt, alloc, bra, state)?.conj();
        total = total.plus(left.times(amplitude(rt, alloc, ket, state)?));
    }
    Ok(total)
}

// The conjugate of the bra's amplitudes times what the sum makes of a basis state.
fn column<const K: usize>(
    rt: &impl Abort,
    alloc: Global,
    sum: &OpSum<K>,
    bra: &Chain<K>,
    state: &Vec<u32>,
) -> Result<Number, AllocError> {
    let mut total = ZERO;
    for component in &image(rt, alloc, sum, state)? {
        let left = amplitude(rt, alloc, bra, &component.state)?.conj();
        total = total.plus(left.times(component.amplitude));
    }
    Ok(total)
}

// The sum over t and s of the conjugate of the bra's amplitude at t, the operator sum between t and s, and the ket's
// amplitude at s.
pub(crate) fn expectation<const K: usize>(
    rt: &impl Abort,
    alloc: Global,
    sum: &OpSum<K>,
    bra: &Chain<K>,
    ket: &Chain<K>,
) -> Result<Number, AllocError> {
    let mut total = ZERO;
    for state in &basis(alloc, sum.sites())? {
        let left = column(rt, alloc, sum, bra, state)?;
        total = total.plus(left.times(amplitude(rt, alloc, ket, state)?));
    }
    Ok(total)
}

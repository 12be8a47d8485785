//! What an operator sum makes of a basis state, after the rule of Jordan and Wigner.
use crate::basis::{is_odd, is_odd_charge, replaced};
use crate::number::{Number, ZERO};
use qn_opsum::{OpSum, Term};
use qn_sites::{Name, OpTable};
use std::alloc::{AllocError, Global};
use std::process::Abort;

// A basis state with its amplitude.
#[derive(Drop)]
pub(crate) struct Component {
    pub(crate) state: Vec<u32>,
    pub(crate) amplitude: Number,
}

// Whether the values on the sites before this one, from 0, add up to an odd charge.
fn odd_before<const K: usize>(sum: &OpSum<K>, state: &[u32], site: usize) -> bool {
    let mut odd = false;
    for (i, (table, value)) in sum.sites().iter().zip(state.iter()).enumerate() {
        if i < site && is_odd(sum.group(), table.leg(), *value) {
            odd = !odd;
        }
    }
    odd
}

// The entry of an operator at a row and a column.
fn cell<const K: usize>(op: &OpTable<K>, row: u32, column: u32) -> Number {
    let start = (row as usize).wrapping_mul(op.leg().dim() as usize);
    match op.entries().get(start.wrapping_add(column as usize)) {
        Some(entry) => Number::of(*entry),
        None => ZERO,
    }
}

// Adds what an operator on a site, from 0, makes of a component.
fn act<const K: usize>(
    alloc: Global,
    sum: &OpSum<K>,
    site: usize,
    op: &OpTable<K>,
    component: &Component,
    out: &mut Vec<Component>,
) -> Result<(), AllocError> {
    let state = component.state.as_slice();
    let minus = is_odd_charge(sum.group(), op.charge()) && odd_before(sum, state, site);
    let Some(column) = state.get(site) else {
        return Ok(());
    };
    for row in 0..op.leg().dim() {
        let entry = cell(op, row, *column);
        if !entry.is_zero() {
            out.push(Component {
                state: replaced(alloc, state, site, row)?,
                amplitude: component.amplitude.times(entry).signed(minus),
            })?;
        }
    }
    Ok(())
}

// What the operator of this name on a site, from 1, makes of a sum of components.
fn applied<const K: usize>(
    rt: &impl Abort,
    alloc: Global,
    sum: &OpSum<K>,
    site: u32,
    name: &Name,
    components: &[Component],
) -> Result<Vec<Component>, AllocError> {
    let place = (site as usize).wrapping_sub(1);
    let Some(table) = sum.sites().get(place) else {
        panic!(rt; "there is no site {site}")
    };
    let Some(number) = table.place_of(name) else {
        panic!(rt; "site {site} has no such operator")
    };
    let Some(op) = table.ops().get(number) else {
        panic!(rt; "site {site} has no operator {number}")
    };
    let mut all = Vec::new(alloc);
    for component in components {
        act(alloc, sum, place, op, component, &mut all)?;
    }
    Ok(all)
}

// What a term makes of a basis state: its operators act from the right to the left.
fn term_image<const K: usize>(
    rt: &impl Abort,
    alloc: Global,
    sum: &OpSum<K>,
    term: &Term,
    state: &Vec<u32>,
) -> Result<Vec<Component>, AllocError> {
    let mut components = Vec::new(alloc);
    components.push(Component {
        state: state.clone()?,
        amplitude: Number::of(term.coef),
    })?;
    for (site, name) in term.factors().iter().rev() {
        components = applied(rt, alloc, sum, *site, name, &components)?;
    }
    Ok(components)
}

// What the operator sum makes of a basis state.
pub(crate) fn image<const K: usize>(
    rt: &impl Abort,
    alloc: Global,
    sum: &OpSum<K>,
    state: &Vec<u32>,
) -> Result<Vec<Component>, AllocError> {
    let mut all = Vec::new(alloc);
    for term in sum.terms() {
        for component in term_image(rt, alloc, sum, term, state)? {
            all.push(component)?;
        }
    }
    Ok(all)
}

// The amplitude at a basis state.
pub(crate) fn amplitude_at(components: &[Component], state: &[u32]) -> Number {
    let mut total = ZERO;
    for component in components {
        if component.state.as_slice() == state {
            total = total.plus(component.amplitude);
        }
    }
    total
}

//! The states at a link, and its leg.
ghost use Rattle.std.specs.Prelude.{◌≡◌, ◌<◌, ◌≤◌, length, map, reverse, [], IfOk, OnOk, IfErr};
ghost use Rattle.std.specs.List.{All};
ghost use Rattle.std.specs.List.Sorted.{IsPermutation, IsSortedBy};
ghost use Rattle.std.specs.Ordering.{is_lt};
ghost use Rattle.qn_index.specs.Legs.{IsLegOf, SectorValue};
ghost use Rattle.qn_auto.specs.Automaton.{stage};
ghost use Rattle.qn_auto.specs.LinkOrder.{add_value, is_next, pushed, sectors_of, squeeze};
ghost use Rattle.qn_auto.specs.SumAutomaton.{charge_lower, states, terms_in};
ghost use Rattle.qn_auto.specs.Terms.{IsTermOf};
ghost use Rattle.qn_mpo.specs.States.{charges, value_lower, with_charge};
ghost use Rattle.qn_mpo.specs.Links.{IsLinkFault, link_value};

use crate::fault::BuildFault;
use crate::stage::Stage;
use crate::state::{State, charged};
use crate::term::Ordered;
use qn_charge::Charge;
use qn_index::{Dir, Leg, Sector};
use qn_opsum::OpSum;
use std::alloc::{AllocError, Global};
use std::cmp::Ordering;
use std::marker::Model;

/// The link right of a site: its states, ascending, and its leg, which has a value for each.
#[derive(Debug, Drop)]
pub(crate) struct Link<const K: usize> {
    states: Vec<State<K>>,
    leg: Leg<K>,
}

impl<const K: usize> Model for Link<K> {
    ghost use Rattle.qn_mpo.specs.Links.{LinkValue};

    ghost Value = { LinkValue };

    ghost view = { λ l. record { states = l.states.items; leg = l.leg } };
}

impl<const K: usize> Link<K> {
    /// The states.
    pub(crate) fn states(&self) -> &[State<K>]
        ensures { result.now ≡ self.now.states }
    {
        &self.states
    }

    /// The leg, which is In.
    pub(crate) fn leg(&self) -> &Leg<K>
        ensures { result.now ≡ self.now.leg }
    {
        &self.leg
    }
}

/// The states of all terms at the link right of site `j`, term by term.
fn term_states<const K: usize>(
    alloc: Global,
    sum: &OpSum<K>,
    terms: &[Ordered],
    j: u32,
) -> Result<Vec<State<K>>, AllocError>
    requires { All (IsTermOf sum.now) terms.now }
    ensures { IfOk result (λ v. v.items ≡ map (λ w. with_charge sum.now (stage j w.factors)) terms.now) }
{
    let mut out = Vec::with_capacity(alloc, terms.len())?;
    for term in terms {
        let stage = Stage::of_term(alloc, j, term.factors())?;
        out.push(charged(sum, stage))?;
    }
    Ok(out)
}

/// Puts states in order.
fn sort_states<const K: usize>(states: &mut Vec<State<K>>)
    ensures permutation { IsPermutation states.old.items states.new.items }
    ensures sorted { IsSortedBy value_lower states.new.items }
{
    states.sort_unstable_by(
        |a: &State<K>, b: &State<K>| -> Ordering
            ensures { is_lt result ≡ value_lower a.now b.now }
        { a.compare(b) },
    );
}

/// Whether a state may stand after those of a list in order: it comes after the last one.
fn is_next<const K: usize>(out: &[State<K>], state: &State<K>) -> bool
    ensures { result ≡ is_next value_lower out.now state.now }
{
    let count = out.len();
    if count == 0 {
        return true;
    }
    out[count - 1].is_before(state)
}

/// Adds a state to a list in order unless it is the last one.
fn add_new<const K: usize>(state: State<K>, out: &mut Vec<State<K>>) -> Result<(), AllocError>
    ensures { OnOk result (out.new.items ≡ pushed value_lower out.old.items state.entry) }
{
    if is_next(out, &state) {
        out.push(state)?;
    }
    Ok(())
}

/// States in order, equal ones once.
fn distinct<const K: usize>(
    alloc: Global,
    states: Vec<State<K>>,
) -> Result<Vec<State<K>>, AllocError>
    ensures { IfOk result (λ v. v.items ≡ squeeze value_lower [] states.entry.items) }
{
    let mut rest = states;
    rest.reverse();
    let mut out = Vec::new(alloc);
    while let Some(state) = rest.pop() {
        add_new(state, &mut out)?;
    }
    Ok(out)
}

/// The states at the link right of site `j`.
fn link_states<const K: usize>(
    alloc: Global,
    sum: &OpSum<K>,
    terms: &[Ordered],
    j: u32,
) -> Result<Vec<State<K>>, AllocError>
    requires { terms.now ≡ terms_in sum.now }
    ensures { IfOk result (λ v. v.items ≡ map (with_charge sum.now) (states sum.now j)) }
{
    sum.known();
    let mut states = term_states(alloc, sum, terms, j)?;
    sort_states(&mut states);
    let made = distinct(alloc, states)?;
    Ok(made)
}

/// Adds a value of a charge before those of sectors that stand in reversed order.
fn add_value<const K: usize>(
    charge: &Charge<K>,
    sectors: &mut Vec<Sector<K>>,
) -> Result<(), AllocError>
    requires { All (λ (s : SectorValue). s.dim ≤ 4000000) sectors.old.items }
    ensures { OnOk result (reverse sectors.new.items ≡ add_value charge_lower charge.now (reverse sectors.old.items)) }
{
    let Some(last) = sectors.pop() else {
        sectors.push(Sector {
            charge: *charge,
            dim: 1,
        })?;
        return Ok(());
    };
    if charge.compare(&last.charge).is_lt() {
        sectors.push(last)?;
        sectors.push(Sector {
            charge: *charge,
            dim: 1,
        })?;
        return Ok(());
    }
    sectors.push(Sector {
        charge: last.charge,
        dim: last.dim + 1,
    })?;
    Ok(())
}

/// The sectors of a link: one for each charge.
fn sectors_of<const K: usize>(
    alloc: Global,
    states: &[State<K>],
) -> Result<Vec<Sector<K>>, AllocError>
    requires { length states.now ≤ 2000 }
    ensures { IfOk result (λ v. v.items ≡ sectors_of charge_lower (charges states.now)) }
{
    let mut sectors = Vec::new(alloc);
    for i in (0..states.len()).rev() {
        add_value(states[i].charge(), &mut sectors)?;
    }
    sectors.reverse();
    Ok(sectors)
}

/// The link right of site `j`, or Wide where it has more than 64 charges.
pub(crate) fn link_of<const K: usize>(
    alloc: Global,
    sum: &OpSum<K>,
    terms: &[Ordered],
    j: u32,
) -> Result<Link<K>, BuildFault>
    requires terms { terms.now ≡ terms_in sum.now }
    requires within { j < length sum.now.sites }
    ensures ok { IfOk result (λ l. l ≡ link_value sum.now j) }
    ensures group { IfOk result (λ l. IsLegOf sum.now.group l.leg) }
    ensures err { IfErr result (IsLinkFault sum.now j) }
{
    sum.known();
    let states = link_states(alloc, sum, terms, j)?;
    let sectors = sectors_of(alloc, &states)?;
    match Leg::new(sum.group(), Dir::In, sectors) {
        Ok(leg) => Ok(Link { states, leg }),
        Err(_) => Err(BuildFault::Wide { site: j + 1 }),
    }
}

//! The terms of an operator sum in site order, with numbers for their operators.
ghost use Rattle.std.specs.Prelude.{◌≡◌, ◌<◌, ◌≤◌, length, map, IfOk};
ghost use Rattle.std.specs.List.{All};
ghost use Rattle.qn_gauss.specs.Gaussian.{signed};
ghost use Rattle.qn_opsum.specs.Sums.{factor_of, place_of, term_at};
ghost use Rattle.qn_auto.specs.Automaton.{normal};
ghost use Rattle.qn_auto.specs.SumAutomaton.{sites_in, term_in, terms_in};

use crate::factor::Factor;
use qn_gauss::Gauss;
use qn_opsum::{Normal, OpSum, Term};
use qn_sites::{Name, SiteTable};
use std::alloc::{AllocError, Global};
use std::marker::Model;

/// A term in site order: its coefficient, with the sign of bringing the operators there, and the operators.
#[derive(Debug, Drop)]
pub(crate) struct Ordered {
    pub(crate) amount: Gauss,
    factors: Vec<Factor>,
}

impl Model for Ordered {
    ghost use Rattle.qn_auto.specs.Automaton.{Term};

    ghost Value = { Term };

    ghost view = { λ t. record { amount = t.amount; factors = t.factors.items } };
}

impl Ordered {
    /// The operators.
    pub(crate) fn factors(&self) -> &[Factor]
        ensures { result.now ≡ self.now.factors }
    {
        &self.factors
    }
}

/// The operators in site order.
fn factors_of(normal: &Normal) -> &[(u32, Name)]
    ensures { result.now ≡ normal.now.factors }
{
    &normal.factors
}

/// Whether the sign of bringing the operators into site order is minus.
fn is_negative(normal: &Normal) -> bool
    ensures { result ≡ normal.now.negative }
{
    normal.negative
}

/// The coefficient of a term.
fn coef_of(term: &Term) -> Gauss
    ensures { result ≡ term.now.coef }
{
    term.coef
}

/// A number, or its negative.
fn with_sign(negative: bool, number: Gauss) -> Gauss
    ensures { result ≡ signed negative number }
{
    if negative { number.neg() } else { number }
}

/// The place of an operator on a site.
fn place_on<const K: usize>(site: &SiteTable<K>, name: &Name) -> u32
    ensures { result ≡ place_of site.now.ops name.now }
{
    site.known();
    match site.place_of(name) {
        Some(place) => place as u32,
        None => site.ops().len() as u32,
    }
}

/// An operator by its site and its place there.
fn numbered<const K: usize>(sites: &[SiteTable<K>], factor: &(u32, Name)) -> Factor
    requires some { 0 < factor.now.0 }
    requires within { factor.now.0 ≤ length sites.now }
    ensures { result ≡ factor_of sites.now factor.now }
{
    let (site, name) = factor;
    Factor {
        site: *site - 1,
        op: place_on(&sites[*site as usize - 1], name),
    }
}

/// Operators by their sites and their places there.
fn numbered_all<const K: usize>(
    alloc: Global,
    sites: &[SiteTable<K>],
    factors: &[(u32, Name)],
) -> Result<Vec<Factor>, AllocError>
    requires some { All (λ f. 0 < f.0) factors.now }
    requires within { All (λ f. f.0 ≤ length sites.now) factors.now }
    ensures { IfOk result (λ v. v.items ≡ map (factor_of sites.now) factors.now) }
{
    let mut out = Vec::with_capacity(alloc, factors.len())?;
    for factor in factors {
        out.push(numbered(sites, factor))?;
    }
    Ok(out)
}

/// A term in site order.
fn ordered_term<const K: usize>(
    alloc: Global,
    sum: &OpSum<K>,
    term: usize,
) -> Result<Ordered, AllocError>
    requires { term < length sum.now.terms }
    ensures { IfOk result (λ w. w ≡ normal (sites_in sum.now) (term_in sum.now.sites (term_at sum.now.terms term))) }
{
    sum.known();
    let normal = sum.normal(term)?;
    let coef = coef_of(&sum.terms()[term]);
    let amount = with_sign(is_negative(&normal), coef);
    let factors = numbered_all(alloc, sum.sites(), factors_of(&normal))?;
    Ok(Ordered { amount, factors })
}

/// All terms, each in site order.
pub(crate) fn ordered_terms<const K: usize>(
    alloc: Global,
    sum: &OpSum<K>,
) -> Result<Vec<Ordered>, AllocError>
    ensures { IfOk result (λ v. v.items ≡ terms_in sum.now) }
{
    let count = sum.terms().len();
    let mut out = Vec::with_capacity(alloc, count)?;
    for term in 0..count {
        out.push(ordered_term(alloc, sum, term)?)?;
    }
    Ok(out)
}

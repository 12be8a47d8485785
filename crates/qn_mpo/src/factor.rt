//! The operators of a term by numbers, and those that are on a site or after it.
ghost use Rattle.std.specs.Prelude.{◌≡◌, ◌==◌, ◌++◌, nat_lt, [], ◌∷◌, OnOk, IfOk};
ghost use Rattle.qn_auto.specs.Automaton.{after, begin};
ghost use Rattle.qn_auto.specs.Flux.{ops_at};
ghost use Rattle.qn_auto.specs.LinkOrder.{factor_lower, list_lower};

use std::alloc::{AllocError, Global};
use std::marker::Model;

/// An operator of a term: its site, from 0, and its place among the operators there.
#[derive(Clone, Copy, Debug, PartialEq, Eq)]
pub(crate) struct Factor {
    pub(crate) site: u32,
    pub(crate) op: u32,
}

impl Model for Factor {
    ghost use Rattle.qn_opsum.specs.Strings.{Factor};

    ghost Value = { Factor };

    ghost view = { λ f. record { site = f.site; op = f.op } };

    ghost inverse = { λ f. record { site = f.site; op = f.op } };
}

impl Factor {
    /// Whether the operator comes before another: by site, then by its place there.
    fn is_before(&self, other: &Factor) -> bool
        ensures { result ≡ factor_lower self.now other.now }
    {
        if self.site < other.site {
            return true;
        }
        if other.site < self.site {
            return false;
        }
        self.op < other.op
    }

    /// Whether the operator is after site `j`.
    fn is_after(&self, j: u32) -> bool
        ensures { result ≡ nat_lt j self.now.site }
    {
        j < self.site
    }

    /// Whether the operator is on site `j`.
    fn is_on(&self, j: u32) -> bool
        ensures { result ≡ (self.now.site == j) }
    {
        self.site == j
    }
}

/// Whether some operators come before others, one by one; a list that is a prefix of another comes first.
pub(crate) fn is_list_before(a: &[Factor], b: &[Factor]) -> bool
    ensures { result ≡ list_lower a.now b.now }
{
    let Some((first, later)) = a.split_first() else {
        return !b.is_empty();
    };
    let Some((other, others)) = b.split_first() else {
        return false;
    };
    if first.is_before(other) {
        return true;
    }
    if other.is_before(first) {
        return false;
    }
    is_list_before(later, others)
}

/// The site where a term begins; one without operators begins at the first site.
pub(crate) fn begin(factors: &[Factor]) -> u32
    ensures { result ≡ begin factors.now }
{
    match factors.first() {
        Some(factor) => factor.site,
        None => 0,
    }
}

/// Adds an operator where it is after site `j`.
fn keep_after(j: u32, factor: &Factor, out: &mut Vec<Factor>) -> Result<(), AllocError>
    ensures { OnOk result (out.new.items ≡ out.old.items ++ after j (factor.now ∷ [])) }
{
    if factor.is_after(j) {
        out.push(*factor)?;
    }
    Ok(())
}

/// The operators after site `j`.
pub(crate) fn after(alloc: Global, j: u32, factors: &[Factor]) -> Result<Vec<Factor>, AllocError>
    ensures { IfOk result (λ v. v.items ≡ after j factors.now) }
{
    let mut out = Vec::new(alloc);
    for factor in factors {
        keep_after(j, factor, &mut out)?;
    }
    Ok(out)
}

/// Adds the place of an operator where it is on site `j`.
fn keep_on(j: u32, factor: &Factor, out: &mut Vec<u32>) -> Result<(), AllocError>
    ensures { OnOk result (out.new.items ≡ out.old.items ++ ops_at j (factor.now ∷ [])) }
{
    if factor.is_on(j) {
        out.push(factor.op)?;
    }
    Ok(())
}

/// The places of the operators on site `j`, in the order of the term.
pub(crate) fn ops_at(alloc: Global, j: u32, factors: &[Factor]) -> Result<Vec<u32>, AllocError>
    ensures { IfOk result (λ v. v.items ≡ ops_at j factors.now) }
{
    let mut out = Vec::new(alloc);
    for factor in factors {
        keep_on(j, factor, &mut out)?;
    }
    Ok(out)
}

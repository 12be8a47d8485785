//! Terms in site order, with the sign that sorting gives.

ghost use Rattle.std.specs.Prelude.{◌≡◌, ◌<◌, ◌&&◌, length, map, IfOk, OnOk, nat_lt};
ghost use Rattle.qn_sign.specs.Sign.{is_odd, xor};
ghost use Rattle.qn_gauss.specs.Gaussian.{signed};
ghost use Rattle.qn_charge.specs.Charges.{parity};
ghost use Rattle.qn_opsum.specs.Strings.{State, inversions};
ghost use Rattle.qn_opsum.specs.Sums.{IsSiteOrder, factor_of, op_for, passes, sites_of, string_of, term_at, turns};
ghost use Rattle.qn_opsum.specs.Refusals.{AreSites, IsGood};

use crate::checks::operator;
use crate::sum::OpSum;
use crate::term::Normal;
use qn_charge::{Abelian, Group};
use qn_sites::{Name, SiteTable};
use std::alloc::{AllocError, Global};

/// The product of two signs, true for minus.
fn product(a: bool, b: bool) -> bool
    ensures { result ≡ xor a b }
{
    if a { !b } else { b }
}

/// Whether an operator is odd and on a site before `site`.
fn is_passed(mark: &(u32, bool), site: u32) -> bool
    ensures { result ≡ (mark.now.1 && nat_lt mark.now.0 site) }
{
    mark.1 && mark.0 < site
}

/// Whether an odd number of odd operators are on sites before `site`.
fn passes(site: u32, marks: &[(u32, bool)]) -> bool
    ensures { result ≡ passes site marks.now }
{
    match marks.split_first() {
        Some((mark, later)) => product(is_passed(mark, site), passes(site, later)),
        None => false,
    }
}

/// Whether an operator is odd and passes an odd number of odd operators.
fn is_turned(mark: &(u32, bool), later: &[(u32, bool)]) -> bool
    ensures { result ≡ (mark.now.1 && passes mark.now.0 later.now) }
{
    mark.1 && passes(mark.0, later)
}

/// Whether the sign of bringing the odd operators into site order is minus.
fn turns(marks: &[(u32, bool)]) -> bool
    ensures { result ≡ turns marks.now }
{
    match marks.split_first() {
        Some((mark, later)) => product(is_turned(mark, later), turns(later)),
        None => false,
    }
}

/// The site and the parity of each operator.
fn marks_of<const K: usize>(
    alloc: Global,
    group: &Group<K>,
    sites: &[SiteTable<K>],
    factors: &[(u32, Name)],
) -> Result<Vec<(u32, bool)>, AllocError>
    requires sites { AreSites group.now sites.now }
    requires good { IsGood sites.now factors.now }
    ensures { IfOk result (λ v. v.items ≡ map (λ f. (f.0, parity group.now (op_for sites.now f).charge)) factors.now) }
{
    let mut marks = Vec::with_capacity(alloc, factors.len())?;
    for i in 0..factors.len() {
        let factor = &factors[i];
        let odd = group.parity(operator(sites, factor).charge());
        marks.push((factor.0, odd))?;
    }
    Ok(marks)
}

/// Equal operators.
fn copy_factors(alloc: Global, factors: &[(u32, Name)]) -> Result<Vec<(u32, Name)>, AllocError>
    ensures { IfOk result (λ v. v.items ≡ factors.now) }
{
    let mut copies = Vec::with_capacity(alloc, factors.len())?;
    for factor in factors {
        copies.push((factor.0, factor.1.copy()?))?;
    }
    Ok(copies)
}

/// Brings operators into the stable order by site.
fn sort_by_site(factors: &mut Vec<(u32, Name)>) -> Result<(), AllocError>
    ensures { OnOk result (IsSiteOrder factors.old.items factors.new.items) }
{
    factors.sort_by_key(|factor| factor.0)
}

impl<const K: usize> OpSum<K> {
    /// A term's operators in site order, which is the stable sort of them by site, with the sign of the
    /// permutation of the odd ones. It has the same operator string.
    pub fn normal(&self, term: usize) -> Result<Normal, AllocError>
        requires { term < length self.now.terms }
        ensures order { IfOk result (λ n. IsSiteOrder (term_at self.now.terms term).factors n.factors) }
        ensures sign { IfOk result (λ n.
            n.negative ≡
            is_odd (
            inversions (sites_of self.now.group self.now.sites) (
            map (factor_of self.now.sites) (term_at self.now.terms term).factors))) }
        ensures string { IfOk result (λ n.
            (t s : State) →
            string_of self.now.group self.now.sites (term_at self.now.terms term).factors t s ≡
            signed n.negative (string_of self.now.group self.now.sites n.factors t s)) }
    {
        self.known();
        normal_of(
            self.allocator(),
            self.group(),
            self.sites(),
            self.terms()[term].factors(),
        )
    }
}

/// A term in site order.
fn normal_of<const K: usize>(
    alloc: Global,
    group: &Group<K>,
    sites: &[SiteTable<K>],
    factors: &[(u32, Name)],
) -> Result<Normal, AllocError>
    requires sites { AreSites group.now sites.now }
    requires good { IsGood sites.now factors.now }
    ensures order { IfOk result (λ n. IsSiteOrder factors.now n.factors) }
    ensures sign { IfOk result (λ n.
        n.negative ≡ is_odd (inversions (sites_of group.now sites.now) (map (factor_of sites.now) factors.now))) }
    ensures string { IfOk result (λ n.
        (t s : State) →
        string_of group.now sites.now factors.now t s ≡
        signed n.negative (string_of group.now sites.now n.factors t s)) }
{
    let marks = marks_of(alloc, group, sites, factors)?;
    let negative = turns(&marks);
    let mut sorted = copy_factors(alloc, factors)?;
    sort_by_site(&mut sorted)?;
    Ok(Normal {
        negative,
        factors: sorted,
    })
}

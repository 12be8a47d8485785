//! What is wrong with the terms of a sum, first in order.

ghost use Rattle.std.specs.Prelude.{◌≡◌, ◌<◌, ◌≤◌, ◌⊎◌, ◌↔◌, ℕ, length, IfErr, IfOk, IsTrue, MatchOption};
ghost use Rattle.std.specs.List.{All};
ghost use Rattle.qn_charge.specs.Charges.{IsCanonical, IsWithin};
ghost use Rattle.qn_charge.specs.Firsts.{HasNone, IsFirst};
ghost use Rattle.qn_sites.specs.Sites.{IsSite, SiteValue};
ghost use Rattle.qn_index.specs.Tuples.{IsFlux};
ghost use Rattle.qn_opsum.specs.Sums.{charge_of, op_for, ops_for, place_of, term_at};
ghost use Rattle.qn_opsum.specs.Refusals.{AllGood, AreSites, BadCount, BadName, BadSite, IsFirstTermFault, IsGood, IsSum, IsSumFault, IsTermFault, IsUnknown, OtherCharge};

use crate::fault::SumFault;
use crate::term::Term;
use qn_charge::{Abelian, Charge, Group};
use qn_sites::{Name, OpTable, SiteTable};

/// Whether a site's number is outside 1 to `count`.
fn is_bad_site(count: usize, site: u32) -> bool
    ensures { IsTrue result ↔ ((site ≡ 0) ⊎ (count < site)) }
{
    site == 0 || site as usize > count
}

/// The first operator whose site is not there.
fn first_bad_site(count: usize, factors: &[(u32, Name)]) -> Option<usize>
    ensures { MatchOption result (HasNone (BadSite count factors.now)) (IsFirst (BadSite count factors.now)) }
{
    for i in 0..factors.len() {
        let (site, _) = &factors[i];
        if is_bad_site(count, *site) {
            return Some(i);
        }
    }
    None
}

/// Whether the site of an operator has none of its name.
fn is_unknown<const K: usize>(sites: &[SiteTable<K>], factor: &(u32, Name)) -> bool
    requires some { 0 < factor.now.0 }
    requires within { factor.now.0 ≤ length sites.now }
    ensures { IsTrue result ↔ IsUnknown sites.now factor.now }
{
    let (site, name) = factor;
    match sites[*site as usize - 1].place_of(name) {
        Some(_) => false,
        None => true,
    }
}

/// The first operator that its site has not.
fn first_unknown<const K: usize>(sites: &[SiteTable<K>], factors: &[(u32, Name)]) -> Option<usize>
    requires { HasNone (BadSite (length sites.now) factors.now) }
    ensures { MatchOption result (HasNone (BadName sites.now factors.now)) (IsFirst (BadName sites.now factors.now)) }
{
    for i in 0..factors.len() {
        if is_unknown(sites, &factors[i]) {
            return Some(i);
        }
    }
    None
}

/// What is at fault in a term.
fn term_fault<const K: usize>(
    sites: &[SiteTable<K>],
    term: usize,
    factors: &[(u32, Name)],
) -> Option<SumFault>
    ensures { MatchOption result (IsGood sites.now factors.now) (IsTermFault sites.now factors.now term) }
{
    if factors.len() > 32 {
        return Some(SumFault::SiteRange { term, item: 0 });
    }
    match first_bad_site(sites.len(), factors) {
        Some(i) => return Some(SumFault::SiteRange { term, item: i + 1 }),
        None => {}
    }
    match first_unknown(sites, factors) {
        Some(i) => Some(SumFault::UnknownOp { term, item: i + 1 }),
        None => None,
    }
}

/// The first term at fault.
fn first_fault<const K: usize>(sites: &[SiteTable<K>], terms: &[Term]) -> Option<SumFault>
    ensures { MatchOption result (AllGood sites.now terms.now) (IsFirstTermFault sites.now terms.now) }
{
    for term in 0..terms.len() {
        let found = term_fault(sites, term, terms[term].factors());
        match found {
            Some(_) => return found,
            None => {}
        }
    }
    None
}

/// Whether a number of terms is 0 or above 2,000.
fn is_bad_count(count: usize) -> bool
    ensures { IsTrue result ↔ ((count ≡ 0) ⊎ (2000 < count)) }
{
    count == 0 || count > 2000
}

/// The operator that a term names.
pub(crate) fn operator<'a, const K: usize>(
    sites: &'a [SiteTable<K>],
    factor: &(u32, Name),
) -> &'a OpTable<K>
    requires sites { All IsSite sites.now }
    requires some { 0 < factor.now.0 }
    requires within { factor.now.0 ≤ length sites.now }
    requires known { IsUnknown sites.now factor.now → ⊥ }
    ensures value { result.now ≡ op_for sites.now factor.now }
    ensures place { place_of (ops_for sites.now factor.now) factor.now.1 < length (ops_for sites.now factor.now) }
{
    let (site, name) = factor;
    let table = &sites[*site as usize - 1];
    match table.place_of(name) {
        Some(i) => &table.ops()[i],
        None => unreachable!(),
    }
}

/// The total charge of a term's operators.
fn term_charge<const K: usize>(
    group: &Group<K>,
    sites: &[SiteTable<K>],
    factors: &[(u32, Name)],
) -> Charge<K>
    requires sites { AreSites group.now sites.now }
    requires good { IsGood sites.now factors.now }
    ensures value { result ≡ charge_of group.now sites.now factors.now }
    ensures flux { IsFlux group.now result }
{
    group.known();
    let mut sum = group.zero();
    for i in 0..factors.len() {
        let op = operator(sites, &factors[i]);
        sum = group.add(&sum, op.charge());
    }
    sum
}

/// The first term that has another charge.
fn first_other<const K: usize>(
    group: &Group<K>,
    sites: &[SiteTable<K>],
    terms: &[Term],
    charge: &Charge<K>,
) -> Option<usize>
    requires sites { AreSites group.now sites.now }
    requires good { AllGood sites.now terms.now }
    requires charge { charge.now ≡ charge_of group.now sites.now (term_at terms.now 0).factors }
    ensures { MatchOption result (HasNone (OtherCharge group.now sites.now terms.now)) (
        IsFirst (OtherCharge group.now sites.now terms.now)) }
{
    for i in 0..terms.len() {
        if !term_charge(group, sites, terms[i].factors()).same(charge) {
            return Some(i);
        }
    }
    None
}

/// What holds of sites of one group. Nothing is computed.
pub(crate) fn known_sites<const K: usize>(group: &Group<K>, sites: &[SiteTable<K>])
    requires some { 0 < length sites.now }
    requires few { length sites.now ≤ 64 }
    requires groups { All (λ (s : SiteValue). s.group ≡ group.now) sites.now }
    ensures { AreSites group.now sites.now }
{
    group.known();
    for site in sites {
        site.known();
    }
}

/// The charge of all terms, or the first fault.
pub(crate) fn checked<const K: usize>(
    group: &Group<K>,
    sites: &[SiteTable<K>],
    terms: &[Term],
) -> Result<Charge<K>, SumFault>
    requires { AreSites group.now sites.now }
    ensures charge { IfOk result (λ q. q ≡ charge_of group.now sites.now (term_at terms.now 0).factors) }
    ensures ok { IfOk result (λ q. IsSum (record { group = group.now; sites = sites.now; terms = terms.now; flux = q })) }
    ensures err { IfErr result (IsSumFault group.now sites.now terms.now) }
{
    if is_bad_count(terms.len()) {
        return Err(SumFault::TermCount);
    }
    match first_fault(sites, terms) {
        Some(fault) => return Err(fault),
        None => {}
    }
    let first = &terms[0];
    let charge = term_charge(group, sites, first.factors());
    match first_other(group, sites, terms, &charge) {
        Some(term) => return Err(SumFault::MixedFlux { term }),
        None => {}
    }
    Ok(charge)
}

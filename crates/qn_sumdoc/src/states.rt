//! Documents of two states on the same sites, with or without an operator sum.

ghost use Rattle.std.specs.Prelude.{◌≡◌, ◌≤◌, ◌<◌, ◌^◌, IfOk, length, None, if◌then◌else◌, ⊤};
ghost use Rattle.serde_json.specs.View.{view};
ghost use Rattle.qn_charge.specs.Charges.{IsGroup};
ghost use Rattle.qn_parts.specs.Faults.{Reads};
ghost use Rattle.qn_parts.specs.Documents.{factors_of};
ghost use Rattle.qn_doc.specs.Networks.{ReadsBy};
ghost use Rattle.qn_sumdoc.specs.Sites.{AreSitesOf};
ghost use Rattle.qn_sumdoc.specs.Terms.{coefs_fault};
ghost use Rattle.qn_sumdoc.specs.States.{AreChainsOf, AreStatesIn, AreStatesOf, IsFaultOfChains, IsLaterFault, IsLaterFaultIn, IsOptionalSum, IsSumFault, any_states, body_fault, bytes_fault, has_sum_form, head_fault, is_states_document, parts_fault};

use crate::chains::{chain, has_tensors, legs};
use crate::sites::{has_sites, sites};
use crate::sums::joined;
use crate::terms::{check_coefs, has_terms};
use qn_charge::{Factor, Group};
use qn_mps::Chain;
use qn_opsum::OpSum;
use qn_parts::parts::{MAX_LEN, factor_count, factors_of, group, has_group, has_version};
use qn_parts::{DocFault, Fault, items_at, read_tree};
use qn_sites::SiteTable;
use serde_json::Value;
use std::alloc::{AllocError, Global};
use std::marker::Model;

/// Two states on the same sites, where wanted with an operator sum on them.
#[derive(Debug, Drop)]
pub struct States<const K: usize> {
    pub sites: Vec<SiteTable<K>>,
    pub sum: Option<OpSum<K>>,
    pub bra: Chain<K>,
    pub ket: Chain<K>,
}

impl<const K: usize> Model for States<K> {
    ghost use Rattle.qn_sumdoc.specs.StatesValues.{StatesValue};

    ghost Value = { StatesValue };

    ghost view = { λ s. record { sites = s.sites.items; sum = s.sum; bra = s.bra; ket = s.ket } };
}

/// States over a group of 0 to 4 factors.
#[derive(Debug, Drop)]
pub enum AnyStates {
    N0(States<0>),
    N1(States<1>),
    N2(States<2>),
    N3(States<3>),
    N4(States<4>),
}

#[tactic(auto, unfolding(crate::specs::States::has_sum_form))]
fn has_sum_form(v: &Value, with_sum: bool, factors: usize) -> bool
    ensures { result ≡ has_sum_form with_sum factors (view v.now) }
{
    has_sites(v, factors) && (!with_sum || has_terms(v))
}

#[tactic(auto, unfolding(crate::specs::States::is_states_document))]
fn is_states_document(v: &Value, with_sum: bool) -> bool
    ensures { result ≡ is_states_document with_sum (view v.now) }
{
    has_version(v)
        && has_group(v)
        && has_sum_form(v, with_sum, factor_count(v))
        && has_tensors(v, "bra", factor_count(v))
        && has_tensors(v, "ket", factor_count(v))
}

// The factors of the group, or the first of F3 to F6.
fn head(alloc: Global, v: &Value, with_sum: bool) -> Result<Vec<Factor>, DocFault>
    ensures { Reads result (head_fault with_sum (view v.now))
        (λ made. (made.items ≡ factors_of (view v.now)) × (length made.items ≤ 4) × IsGroup made.items) }
{
    if !is_states_document(v, with_sum) {
        return Err(DocFault::Bad(Fault::of_code(3)));
    }
    factors_of(alloc, items_at(v, "group"))
}

// Where a sum is wanted, F29 and F19 of all coefficients.
fn check_sum(v: &Value, with_sum: bool) -> Result<(), DocFault>
    ensures { Reads result (if with_sum then coefs_fault (view v.now) else None) (λ _. ⊤) }
{
    if with_sum { check_coefs(v) } else { Ok(()) }
}

fn copy_sites<const K: usize>(
    alloc: Global,
    sites: &[SiteTable<K>],
) -> Result<Vec<SiteTable<K>>, AllocError>
    ensures { IfOk result (λ v. v.items ≡ sites.now) }
{
    let mut copies = Vec::with_capacity(alloc, sites.len())?;
    for site in sites {
        copies.push(site.copy()?)?;
    }
    Ok(copies)
}

// The operator sum, where one is wanted, or the first of F30, F31 and F33.
fn sum<const K: usize>(
    alloc: Global,
    v: &Value,
    group: &Group<K>,
    sites: &[SiteTable<K>],
    with_sum: bool,
) -> Result<Option<OpSum<K>>, DocFault>
    requires factors { group.now ≡ factors_of (view v.now) }
    requires sites { AreSitesOf (view v.now) sites.now }
    ensures { ReadsBy None (IsSumFault with_sum (view v.now)) (IsOptionalSum with_sum (view v.now)) result }
{
    if !with_sum {
        return Ok(None);
    }
    let copies = copy_sites(alloc, sites)?;
    let sum = joined(alloc, v, group, copies)?;
    Ok(Some(sum))
}

// The bra and the ket, or the first of their faults.
#[tactic(auto, using(crate::proofs::StateChains::legs_right, crate::proofs::StateChains::bra_fails, crate::proofs::StateChains::ket_fails, crate::proofs::StateChains::chains_right))]
fn chains<const K: usize>(
    alloc: Global,
    v: &Value,
    group: &Group<K>,
    sites: &[SiteTable<K>],
) -> Result<(Chain<K>, Chain<K>), DocFault>
    requires factors { group.now ≡ factors_of (view v.now) }
    requires sites { AreSitesOf (view v.now) sites.now }
    ensures { ReadsBy None (IsFaultOfChains (view v.now)) (λ c. AreChainsOf (view v.now) c.0 c.1) result }
{
    let legs = legs(alloc, sites)?;
    let bra = chain(alloc, v, "bra", group, &legs, 100)?;
    let ket = chain(alloc, v, "ket", group, &legs, 200)?;
    Ok((bra, ket))
}

// The states on these sites, or the first fault of the terms and of the chains.
#[tactic(auto, using(crate::proofs::StateChains::sum_fails, crate::proofs::StateChains::chains_fail, crate::proofs::StateChains::states_right))]
fn states_on<const K: usize>(
    alloc: Global,
    v: &Value,
    group: &Group<K>,
    sites: Vec<SiteTable<K>>,
    with_sum: bool,
) -> Result<States<K>, DocFault>
    requires factors { group.now ≡ factors_of (view v.now) }
    requires sites { AreSitesOf (view v.now) sites.items }
    ensures { ReadsBy None (IsLaterFault with_sum (view v.now)) (AreStatesOf with_sum (view v.now)) result }
{
    let sum = sum(alloc, v, group, &sites, with_sum)?;
    let (bra, ket) = chains(alloc, v, group, &sites)?;
    Ok(States {
        sites,
        sum,
        bra,
        ket,
    })
}

// The states over the group of these factors, or the first fault of the sites and what comes after.
#[tactic(auto, using(qn_doc::proofs::Reading::fails_early))]
fn states_over<const K: usize>(
    alloc: Global,
    v: &Value,
    factors: &[Factor],
    with_sum: bool,
) -> Result<States<K>, DocFault>
    requires few { K ≤ 4 }
    requires count { length factors.now ≡ K }
    requires group { IsGroup factors.now }
    requires factors { factors.now ≡ factors_of (view v.now) }
    ensures { ReadsBy (body_fault with_sum (view v.now)) (IsLaterFault with_sum (view v.now)) (AreStatesOf with_sum (view v.now)) result }
{
    let group = group(factors);
    let sites = checked_sites(alloc, v, &group, with_sum)?;
    states_on(alloc, v, &group, sites, with_sum)
}

// The sites, or the first of their faults and of F29 and F19 of the coefficients.
fn checked_sites<const K: usize>(
    alloc: Global,
    v: &Value,
    group: &Group<K>,
    with_sum: bool,
) -> Result<Vec<SiteTable<K>>, DocFault>
    requires { group.now ≡ factors_of (view v.now) }
    ensures { Reads result (body_fault with_sum (view v.now)) (λ made. AreSitesOf (view v.now) made.items) }
{
    let sites = sites(alloc, v, group)?;
    check_sum(v, with_sum)?;
    Ok(sites)
}

// The states over the group of these factors.
fn any_states(
    alloc: Global,
    v: &Value,
    factors: &[Factor],
    with_sum: bool,
) -> Result<AnyStates, DocFault>
    requires few { length factors.now ≤ 4 }
    requires group { IsGroup factors.now }
    requires factors { factors.now ≡ factors_of (view v.now) }
    ensures { ReadsBy (body_fault with_sum (view v.now)) (IsLaterFault with_sum (view v.now)) (λ any. AreStatesOf with_sum (view v.now) (any_states any)) result }
{
    match factors.len() {
        0 => Ok(AnyStates::N0(states_over(alloc, v, factors, with_sum)?)),
        1 => Ok(AnyStates::N1(states_over(alloc, v, factors, with_sum)?)),
        2 => Ok(AnyStates::N2(states_over(alloc, v, factors, with_sum)?)),
        3 => Ok(AnyStates::N3(states_over(alloc, v, factors, with_sum)?)),
        _ => Ok(AnyStates::N4(states_over(alloc, v, factors, with_sum)?)),
    }
}

#[tactic(auto, using(qn_doc::proofs::Reading::fails_first, qn_doc::proofs::Reading::fails_then))]
fn states_of_tree(alloc: Global, v: &Value, with_sum: bool) -> Result<AnyStates, DocFault>
    ensures { ReadsBy (parts_fault with_sum (view v.now)) (IsLaterFault with_sum (view v.now)) (λ any. AreStatesOf with_sum (view v.now) (any_states any)) result }
{
    let factors = head(alloc, v, with_sum)?;
    any_states(alloc, v, factors.as_slice(), with_sum)
}

/// The states of a document and where wanted the operator sum, or the document's first fault, or want
/// of memory.
#[tactic(auto, using(qn_doc::proofs::Reading::fails_early))]
pub fn read_states(alloc: Global, bytes: &[u8], with_sum: bool) -> Result<AnyStates, DocFault>
    ensures { ReadsBy (bytes_fault with_sum bytes.now) (IsLaterFaultIn with_sum bytes.now) (AreStatesIn with_sum bytes.now) result }
{
    if MAX_LEN < bytes.len() {
        return Err(DocFault::Bad(Fault::of_code(1)));
    }
    let tree = read_tree(alloc, bytes)?;
    states_of_tree(alloc, &tree, with_sum)
}

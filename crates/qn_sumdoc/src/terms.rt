//! The terms of an operator sum in a document: coefficients, and operators on sites.

ghost use Rattle.std.specs.Prelude.{◌≡◌, ◌+◌, ◌<◌, ◌≤◌, ◌^◌, IfOk, IfSome, map, length, codes, ⊤, Some, None};
ghost use Rattle.std.specs.List.{list_all, position_from};
ghost use Rattle.serde_json.specs.Find.{get};
ghost use Rattle.serde_json.specs.View.{view};
ghost use Rattle.qn_parts.specs.Faults.{Fails, Reads, fault};
ghost use Rattle.qn_json.specs.Forms.{has, is_list};
ghost use Rattle.qn_json.specs.Entries.{is_entry};
ghost use Rattle.qn_parts.specs.Sectors.{number_of, first_of_pair, second_of_pair};
ghost use Rattle.qn_parts.specs.Tensors.{entry_or_zero};
ghost use Rattle.qn_json.specs.Tree.{items};
ghost use Rattle.qn_sumdoc.specs.Objects.{text_of};
ghost use Rattle.qn_sumdoc.specs.Terms.{coef_data, coefs_fault, factor_of, has_bad_coef, is_factor, is_term, placed, site_number, term_of, terms_data};

use crate::objects::text;
use qn_gauss::Gauss;
use qn_opsum::{SumFault, Term};
use qn_parts::forms::is_whole;
use qn_parts::parts::{entry, is_entry, number};
use qn_parts::{DocFault, Fault, items, items_at, list};
use qn_sites::Name;
use serde_json::Value;
use std::alloc::{AllocError, Global};

fn is_factor(v: &Value) -> bool
    ensures { result ≡ is_factor (view v.now) }
{
    match list(v) {
        Some([site, name]) => is_whole(site) && name.is_string(),
        _ => false,
    }
}

fn all_factors(list: &[Value]) -> bool
    ensures { result ≡ list_all (λ v. is_factor (view v)) list.now }
{
    list.iter().all(|v| is_factor(v))
}

#[tactic(auto, using(qn_json::proofs::Lists::views))]
fn are_factors(v: &Value) -> bool
    ensures { result ≡ is_list is_factor (view v.now) }
{
    match list(v) {
        Some(list) => all_factors(list),
        None => false,
    }
}

fn has_factors(v: &Value) -> bool
    ensures { result ≡ has (is_list is_factor) (get (codes "ops") (view v.now)) }
{
    match v.get("ops") {
        Some(found) => are_factors(found),
        None => false,
    }
}

fn has_coef(v: &Value) -> bool
    ensures { result ≡ has is_entry (get (codes "coef") (view v.now)) }
{
    match v.get("coef") {
        Some(found) => is_entry(found),
        None => false,
    }
}

#[tactic(auto, unfolding(crate::specs::Terms::is_term))]
fn is_term(v: &Value) -> bool
    ensures { result ≡ is_term (view v.now) }
{
    has_coef(v) && has_factors(v)
}

fn all_terms(list: &[Value]) -> bool
    ensures { result ≡ list_all (λ v. is_term (view v)) list.now }
{
    list.iter().all(|v| is_term(v))
}

#[tactic(auto, using(qn_json::proofs::Lists::views))]
fn are_terms(v: &Value) -> bool
    ensures { result ≡ is_list is_term (view v.now) }
{
    match list(v) {
        Some(list) => all_terms(list),
        None => false,
    }
}

/// Whether `terms` is a list of terms.
pub(crate) fn has_terms(v: &Value) -> bool
    ensures { result ≡ has (is_list is_term) (get (codes "terms") (view v.now)) }
{
    match v.get("terms") {
        Some(found) => are_terms(found),
        None => false,
    }
}

fn site_number(v: &Value) -> u32
    ensures { result ≡ site_number (number_of (view v.now)) }
{
    let n = number(v);
    if n < 0 || 4_294_967_295 < n {
        0
    } else {
        n as u32
    }
}

// The number of the site in an operator of a term.
fn site_of(v: &Value) -> u32
    ensures { result ≡ site_number (number_of (first_of_pair (items (view v.now)))) }
{
    match items(v) {
        [site, ..] => site_number(site),
        [] => 0,
    }
}

// The name in an operator of a term.
fn name_of(v: &Value) -> &str
    ensures { result.now ≡ text_of (second_of_pair (items (view v.now))) }
{
    match items(v) {
        [_, name, ..] => text(name),
        _ => "",
    }
}

fn factor(alloc: Global, v: &Value) -> Result<(u32, Name), AllocError>
    ensures { IfOk result (λ f. f ≡ factor_of (view v.now)) }
{
    Ok((site_of(v), Name::new(String::from_str(alloc, name_of(v))?)))
}

fn factors(alloc: Global, list: &[Value]) -> Result<Vec<(u32, Name)>, AllocError>
    ensures { IfOk result (λ made. made.items ≡ map factor_of (map view list.now)) }
{
    let mut made = Vec::new(alloc);
    let mut rest = list;
    while let [v, tail @ ..] = rest {
        made.push(factor(alloc, v)?)?;
        rest = tail;
    }
    Ok(made)
}

// The coefficient, and 0 where F19 holds of it.
#[tactic(auto, unfolding(qn_gauss::specs::Gaussian::zero_g, qn_json::specs::Entries::entry_of))]
fn coef(v: &Value) -> Gauss
    ensures { result ≡ entry_or_zero (coef_data (view v.now)) }
{
    match v.get("coef") {
        Some(found) => match entry(found) {
            Some(entry) => entry,
            None => Gauss::ZERO,
        },
        None => Gauss::ZERO,
    }
}

#[tactic(auto, unfolding(crate::specs::Terms::term_of))]
fn term(alloc: Global, v: &Value) -> Result<Term, AllocError>
    ensures { IfOk result (λ t. t ≡ term_of (view v.now)) }
{
    let factors = factors(alloc, items_at(v, "ops"))?;
    Ok(Term {
        coef: coef(v),
        factors,
    })
}

/// The terms of a list.
pub(crate) fn terms(alloc: Global, list: &[Value]) -> Result<Vec<Term>, AllocError>
    ensures { IfOk result (λ made. made.items ≡ map term_of (map view list.now)) }
{
    let mut made = Vec::new(alloc);
    let mut rest = list;
    while let [v, tail @ ..] = rest {
        made.push(term(alloc, v)?)?;
        rest = tail;
    }
    Ok(made)
}

#[tactic(auto, unfolding(qn_json::specs::Entries::entry_of))]
fn has_bad_coef(v: &Value) -> bool
    ensures { result ≡ has_bad_coef (view v.now) }
{
    match v.get("coef") {
        Some(found) => entry(found).is_none(),
        None => true,
    }
}

fn first_bad_coef(list: &[Value]) -> Option<usize>
    ensures found { result ≡ position_from (λ v. has_bad_coef (view v)) 0 list.now }
    ensures within { IfSome result (λ i. i < length list.now) }
{
    list.iter().position(|v| has_bad_coef(v))
}

/// F29, then F19 of all coefficients.
#[tactic(auto, using(qn_json::proofs::Lists::views))]
pub(crate) fn check_coefs(v: &Value) -> Result<(), DocFault>
    ensures { Reads result (coefs_fault (view v.now)) (λ _. ⊤) }
{
    let list = items_at(v, "terms");
    if list.is_empty() || 2000 < list.len() {
        return Err(DocFault::Bad(Fault::of_code(29)));
    }
    match first_bad_coef(list) {
        Some(i) => Err(DocFault::Bad(Fault::at(19, 0, i as u32 + 1, 0))),
        None => Ok(()),
    }
}

// The fault of this code at an operator of a term. No document has as many as 2^32 terms.
fn at_factor(code: u32, term: usize, item: usize) -> DocFault
    ensures { Fails result (Some (fault code 0 (term + 1) item)) }
{
    let Some(place) = term.checked_add(1) else {
        return DocFault::Memory;
    };
    match u32::try_from(place) {
        Ok(part) => match u32::try_from(item) {
            Ok(item) => DocFault::Bad(Fault::at(code, 0, part, item)),
            Err(_) => DocFault::Memory,
        },
        Err(_) => DocFault::Memory,
    }
}

/// The place in the document of what keeps terms from being an operator sum.
pub(crate) fn placed(fault: SumFault) -> DocFault
    ensures { Fails result (placed fault) }
{
    match fault {
        SumFault::TermCount => DocFault::Bad(Fault::of_code(29)),
        SumFault::SiteRange { term, item } => at_factor(30, term, item),
        SumFault::UnknownOp { term, item } => at_factor(31, term, item),
        SumFault::MixedFlux { term } => at_factor(33, term, 0),
        SumFault::Memory => DocFault::Memory,
    }
}

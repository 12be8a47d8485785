//! The group of a document: its form, and its first fault.

ghost use Rattle.std.specs.Prelude.{◌≡◌, ◌+◌, ◌<◌, ◌≤◌, ◌^◌, IfOk, IfSome, map, length, false, None, ⊤};
ghost use Rattle.std.specs.List.{list_all, position_from};
ghost use Rattle.qn_charge.specs.Charges.{IsGroup};
ghost use Rattle.serde_json.specs.View.{view};
ghost use Rattle.qn_parts.specs.Faults.{Reads, fault, first_of, first_bad};
ghost use Rattle.qn_parts.specs.Groups.{is_factor, is_group, has_bad_modulus, is_odd_fermion, modulus_fault, group_fault, factor_of};
ghost use Rattle.qn_json.specs.Tree.{items};

use crate::{DocFault, Fault};
use qn_charge::{Factor, Group};
use qn_json::forms::{is_flag_at, is_whole_at, is_word_at};
use qn_json::{flag_at, items, list, whole_at};
use serde_json::Value;
use std::alloc::{AllocError, Global};

fn is_factor(v: &Value) -> bool
    ensures { result ≡ is_factor (view v.now) }
{
    is_flag_at(v, "fermion")
        && (is_word_at(v, "kind", "u1") || is_word_at(v, "kind", "zn") && is_whole_at(v, "n"))
}

fn are_factors(list: &[Value]) -> bool
    ensures { result ≡ list_all (λ v. is_factor (view v)) list.now }
{
    list.iter().all(|v| is_factor(v))
}

/// Whether the value has the form of a group: a list of factors. Takes no memory.
#[tactic(auto, using(qn_json::proofs::Lists::tests_of_views))]
pub fn is_group(v: &Value) -> bool
    ensures { result ≡ is_group (view v.now) }
{
    match list(v) {
        Some(factors) => are_factors(factors),
        None => false,
    }
}

fn has_bad_modulus(v: &Value) -> bool
    ensures { result ≡ has_bad_modulus (view v.now) }
{
    if !is_word_at(v, "kind", "zn") {
        return false;
    }
    let n = whole_at(v, "n");
    n < 2 || 1000 < n
}

fn is_odd_fermion(v: &Value) -> bool
    ensures { result ≡ is_odd_fermion (view v.now) }
{
    is_word_at(v, "kind", "zn") && flag_at(v, "fermion") && whole_at(v, "n").unsigned_abs() % 2 == 1
}

fn modulus_fault(place: u32, v: &Value) -> Option<Fault>
    ensures { result ≡ modulus_fault place (view v.now) }
{
    if has_bad_modulus(v) {
        Some(Fault::at(5, 0, place, 0))
    } else {
        None
    }
}

// F5 over all factors.
fn check_moduli(list: &[Value]) -> Result<(), DocFault>
    requires { length list.now ≤ 4 }
    ensures { Reads result (first_of modulus_fault (map view list.now)) (λ _. ⊤) }
{
    let mut before: u32 = 0;
    let mut rest = list;
    while let [v, tail @ ..] = rest {
        before += 1;
        if let Some(fault) = modulus_fault(before, v) {
            return Err(DocFault::Bad(fault));
        }
        rest = tail;
    }
    Ok(())
}

fn first_odd(list: &[Value]) -> Option<usize>
    ensures found { result ≡ position_from (λ v. is_odd_fermion (view v)) 0 list.now }
    ensures within { IfSome result (λ i. i < length list.now) }
{
    list.iter().position(|v| is_odd_fermion(v))
}

// F6 over all factors.
#[tactic(auto, using(qn_json::proofs::Lists::position_of_views))]
fn check_odd(list: &[Value]) -> Result<(), DocFault>
    requires { length list.now ≤ 4 }
    ensures { Reads result (first_bad is_odd_fermion (λ k. fault 6 0 k 0) (map view list.now)) (λ _. ⊤) }
{
    match first_odd(list) {
        Some(i) => Err(DocFault::Bad(Fault::at(6, 0, i as u32 + 1, 0))),
        None => Ok(()),
    }
}

fn factor(v: &Value) -> Factor
    requires { has_bad_modulus (view v.now) ≡ false }
    ensures { result ≡ factor_of (view v.now) }
{
    let fermion = flag_at(v, "fermion");
    if is_word_at(v, "kind", "zn") {
        let n = whole_at(v, "n");
        Factor::Zn {
            n: n as u32,
            fermion,
        }
    } else {
        Factor::U1 { fermion }
    }
}

fn made_factors(alloc: Global, list: &[Value]) -> Result<Vec<Factor>, AllocError>
    requires { first_of modulus_fault (map view list.now) ≡ None }
    ensures { IfOk result (λ made. made.items ≡ map factor_of (map view list.now)) }
{
    let mut made = Vec::new(alloc);
    let mut rest = list;
    while let [v, tail @ ..] = rest {
        made.push(factor(v))?;
        rest = tail;
    }
    Ok(made)
}

/// The factors of a list, or the first of their faults.
pub fn factors_of(alloc: Global, list: &[Value]) -> Result<Vec<Factor>, DocFault>
    ensures { Reads result (group_fault (map view list.now))
        (λ made. (made.items ≡ map factor_of (map view list.now)) × (length made.items ≤ 4) × IsGroup made.items) }
{
    if list.len() > 4 {
        return Err(DocFault::Bad(Fault::of_code(4)));
    }
    check_moduli(list)?;
    check_odd(list)?;
    Ok(made_factors(alloc, list)?)
}

/// The factors of a group, or the first of its faults: F4, then F5 over all factors, then F6 over
/// all factors. The part of a fault is the factor, from 1.
pub fn factors(alloc: Global, v: &Value) -> Result<Vec<Factor>, DocFault>
    ensures { Reads result (group_fault (items (view v.now)))
        (λ made. (made.items ≡ map factor_of (items (view v.now))) × (length made.items ≤ 4) × IsGroup made.items) }
{
    factors_of(alloc, items(v))
}

/// The group of these factors.
pub fn group<const K: usize>(factors: &[Factor]) -> Group<K>
    requires few { K ≤ 4 }
    requires count { length factors.now ≡ K }
    requires group { IsGroup factors.now }
    ensures { result ≡ factors.now }
{
    match Group::new(factors) {
        Ok(group) => group,
        Err(_) => unreachable!(),
    }
}

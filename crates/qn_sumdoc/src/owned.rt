//! A site of one's own in a document: its sectors and its operators.

ghost use Rattle.std.specs.Prelude.{◌≡◌, ◌+◌, ◌<◌, ◌≤◌, ◌^◌, map, length, codes, option_map, unwrap_or, [], None};
ghost use Rattle.std.specs.List.{list_all};
ghost use Rattle.serde_json.specs.Find.{get};
ghost use Rattle.serde_json.specs.View.{view};
ghost use Rattle.qn_index.specs.declared.leg.Dir.TheVariants.{Out};
ghost use Rattle.qn_sites.specs.Operators.{IsSiteLeg};
ghost use Rattle.qn_parts.specs.Faults.{Reads, first_of};
ghost use Rattle.qn_json.specs.Forms.{has};
ghost use Rattle.qn_parts.specs.Sectors.{is_sectors, sector_of, sectors_fault};
ghost use Rattle.qn_parts.specs.Tensors.{sectors_data};
ghost use Rattle.qn_json.specs.Tree.{items};
ghost use Rattle.qn_sumdoc.specs.Objects.{named};
ghost use Rattle.qn_sumdoc.specs.Operators.{is_operator, operator_fault};
ghost use Rattle.qn_sumdoc.specs.Sites.{AreOperatorsOf, AreSiteOperators, are_operators, is_own_site, leg_of, ops_data, ops_fault, own_fault, own_site};

use crate::objects::members;
use crate::operators::{is_operator, operator};
use qn_charge::{Charge, Group};
use qn_gauss::Gauss;
use qn_index::{Dir, Leg};
use qn_parts::parts::{is_sectors, sectors};
use qn_parts::{DocFault, Fault};
use qn_sites::{Name, SiteFault, SiteTable, own};
use serde_json::{Map, Value};
use std::alloc::Global;

fn all_operators(members: &Map<String, Value>, factors: usize) -> bool
    ensures { result ≡ list_all (λ e. is_operator factors (named e).1) members.now.entries }
{
    members.iter().all(|(_, v)| is_operator(v, factors))
}

#[tactic(auto, using(crate::proofs::Entries::views))]
fn are_operators(v: &Value, factors: usize) -> bool
    ensures { result ≡ are_operators factors (view v.now) }
{
    match members(v) {
        Some(found) => all_operators(found, factors),
        None => false,
    }
}

fn has_operators(v: &Value, factors: usize) -> bool
    ensures { result ≡ has (are_operators factors) (get (codes "ops") (view v.now)) }
{
    match v.get("ops") {
        Some(found) => are_operators(found, factors),
        None => false,
    }
}

fn has_sectors(v: &Value, factors: usize) -> bool
    ensures { result ≡ has (is_sectors factors) (get (codes "sectors") (view v.now)) }
{
    match v.get("sectors") {
        Some(found) => is_sectors(found, factors),
        None => false,
    }
}

/// Whether the value has the sectors and the operators of a site of one's own.
#[tactic(auto, unfolding(crate::specs::Sites::is_own_site))]
pub(crate) fn is_own_site(v: &Value, factors: usize) -> bool
    ensures { result ≡ is_own_site factors (view v.now) }
{
    has_sectors(v, factors) && has_operators(v, factors)
}

// The leg of these sectors, whose dimensions add up to at most 64.
fn leg_of<const K: usize>(
    alloc: Global,
    v: &Value,
    group: &Group<K>,
    site: u32,
) -> Result<Leg<K>, DocFault>
    ensures { Reads result (sectors_fault group.now site 0 64 (items (view v.now)))
        (λ leg. (leg ≡ record { arrow = Out; sectors = map (sector_of group.now) (items (view v.now)) }) × IsSiteLeg group.now leg) }
{
    group.known();
    let sectors = sectors(alloc, v, group, site, 0, 64)?;
    match Leg::new(group, Dir::Out, sectors) {
        Ok(leg) => {
            leg.known();
            Ok(leg)
        }
        Err(_) => unreachable!(),
    }
}

// The leg of a site, or the first of F9, F10, F11.
fn leg<const K: usize>(
    alloc: Global,
    v: &Value,
    group: &Group<K>,
    site: u32,
) -> Result<Leg<K>, DocFault>
    ensures { Reads result (sectors_fault group.now site 0 64 (sectors_data (view v.now)))
        (λ leg. (leg ≡ leg_of group.now (view v.now)) × IsSiteLeg group.now leg) }
{
    match v.get("sectors") {
        Some(found) => leg_of(alloc, found, group, site),
        None => Err(DocFault::Bad(Fault::at(11, site, 0, 0))),
    }
}

// The operators under their names, or the first of their faults, ascending by name.
fn each_operator<const K: usize>(
    alloc: Global,
    members: &Map<String, Value>,
    group: &Group<K>,
    leg: &Leg<K>,
    site: u32,
) -> Result<Vec<(Name, Charge<K>, Vec<Gauss>)>, DocFault>
    requires leg { IsSiteLeg group.now leg.now }
    ensures { Reads result (first_of (operator_fault group.now leg.now site) (map named members.now.entries))
        (λ made. AreOperatorsOf group.now leg.now (map named members.now.entries) (map (λ o. record { name = o.0; charge = o.1; entries = o.2.items }) made.items)) }
{
    let mut made = Vec::new(alloc);
    let mut before: u32 = 0;
    for (name, v) in members {
        let Some(place) = before.checked_add(1) else {
            return Err(DocFault::Memory);
        };
        made.push(operator(alloc, name, v, group, leg, site, place)?)?;
        before = place;
    }
    Ok(made)
}

// The members under `ops`, where there is an object.
fn members_at(v: &Value) -> Option<&Map<String, Value>>
    ensures { unwrap_or (option_map (λ m. map named m.now.entries) result) [] ≡ ops_data (view v.now) }
{
    match v.get("ops") {
        Some(found) => members(found),
        None => None,
    }
}

// F32 for the count of operators, and then the operators.
fn counted<const K: usize>(
    alloc: Global,
    members: &Map<String, Value>,
    group: &Group<K>,
    leg: &Leg<K>,
    site: u32,
) -> Result<Vec<(Name, Charge<K>, Vec<Gauss>)>, DocFault>
    requires leg { IsSiteLeg group.now leg.now }
    ensures { Reads result (ops_fault group.now leg.now site (map named members.now.entries))
        (λ made. AreSiteOperators group.now leg.now (map named members.now.entries) (map (λ o. record { name = o.0; charge = o.1; entries = o.2.items }) made.items)) }
{
    if 64 < members.len() {
        return Err(DocFault::Bad(Fault::at(32, site, 0, 0)));
    }
    let made = each_operator(alloc, members, group, leg, site)?;
    Ok(made)
}

// The operators of a site, or the first of their faults.
fn operators<const K: usize>(
    alloc: Global,
    v: &Value,
    group: &Group<K>,
    leg: &Leg<K>,
    site: u32,
) -> Result<Vec<(Name, Charge<K>, Vec<Gauss>)>, DocFault>
    requires leg { IsSiteLeg group.now leg.now }
    ensures { Reads result (ops_fault group.now leg.now site (ops_data (view v.now)))
        (λ made. AreSiteOperators group.now leg.now (ops_data (view v.now)) (map (λ o. record { name = o.0; charge = o.1; entries = o.2.items }) made.items)) }
{
    match members_at(v) {
        Some(found) => counted(alloc, found, group, leg, site),
        None => Ok(Vec::new(alloc)),
    }
}

// The site of operators without a fault.
fn made_site<const K: usize>(
    alloc: Global,
    v: &Value,
    group: &Group<K>,
    leg: Leg<K>,
    ops: Vec<(Name, Charge<K>, Vec<Gauss>)>,
) -> Result<SiteTable<K>, DocFault>
    requires leg { leg ≡ leg_of group.now (view v.now) }
    requires is { IsSiteLeg group.now leg }
    requires ops { AreSiteOperators group.now leg (ops_data (view v.now)) (map (λ o. record { name = o.0; charge = o.1; entries = o.2.items }) ops.items) }
    ensures { Reads result None (λ s. (s ≡ own_site group.now (view v.now)) × (s.group ≡ group.now)) }
{
    match own(alloc, group, leg, ops) {
        Ok(site) => Ok(site),
        Err(SiteFault::Memory) => Err(DocFault::Memory),
        Err(_) => unreachable!(),
    }
}

/// The site of one's own, or the first of its faults.
#[tactic(auto, unfolding(crate::specs::Sites::own_fault))]
pub(crate) fn own_site<const K: usize>(
    alloc: Global,
    v: &Value,
    group: &Group<K>,
    site: u32,
) -> Result<SiteTable<K>, DocFault>
    ensures { Reads result (own_fault group.now site (view v.now))
        (λ s. (s ≡ own_site group.now (view v.now)) × (s.group ≡ group.now)) }
{
    let leg = leg(alloc, v, group, site)?;
    let ops = operators(alloc, v, group, &leg, site)?;
    made_site(alloc, v, group, leg, ops)
}

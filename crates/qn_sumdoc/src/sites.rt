//! The sites of a document: kinds by name, and sites of one's own.

ghost use Rattle.std.specs.Prelude.{◌≡◌, ◌+◌, ◌<◌, ◌≤◌, ◌^◌, map, length, codes};
ghost use Rattle.std.specs.List.{All, list_all};
ghost use Rattle.std.specs.Option.{option_map_or};
ghost use Rattle.serde_json.specs.Find.{get};
ghost use Rattle.serde_json.specs.View.{view};
ghost use Rattle.qn_sites.specs.Kinds.{kind_site};
ghost use Rattle.qn_sites.specs.Sites.{SiteValue};
ghost use Rattle.qn_opsum.specs.Sums.{no_site};
ghost use Rattle.qn_parts.specs.Faults.{Reads, first_of};
ghost use Rattle.qn_json.specs.Forms.{has, is_list};
ghost use Rattle.qn_parts.specs.Documents.{factors_of};
ghost use Rattle.qn_sumdoc.specs.Sites.{AreSitesOf, is_own, is_site, kind_fault, kind_of, site_fault, site_of, sites_data, sites_fault, sites_of};

use crate::objects::{is_text_at, text_at};
use crate::owned::{is_own_site, own_site};
use qn_charge::Group;
use qn_parts::forms::is_word_at;
use qn_parts::{DocFault, Fault, items_at, list};
use qn_sites::{SiteFault, SiteTable, builtin};
use serde_json::Value;
use std::alloc::Global;

fn is_own(v: &Value) -> bool
    ensures { result ≡ is_own (view v.now) }
{
    is_word_at(v, "kind", "own")
}

#[tactic(auto, unfolding(crate::specs::Sites::is_site))]
fn is_site(v: &Value, factors: usize) -> bool
    ensures { result ≡ is_site factors (view v.now) }
{
    is_text_at(v, "kind") && (!is_own(v) || is_own_site(v, factors))
}

fn all_sites(list: &[Value], factors: usize) -> bool
    ensures { result ≡ list_all (λ v. is_site factors (view v)) list.now }
{
    list.iter().all(|v| is_site(v, factors))
}

#[tactic(auto, using(qn_json::proofs::Lists::views))]
fn are_sites(v: &Value, factors: usize) -> bool
    ensures { result ≡ is_list (is_site factors) (view v.now) }
{
    match list(v) {
        Some(list) => all_sites(list, factors),
        None => false,
    }
}

/// Whether `sites` is a list of sites, with this many numbers in each charge.
pub(crate) fn has_sites(v: &Value, factors: usize) -> bool
    ensures { result ≡ has (is_list (is_site factors)) (get (codes "sites") (view v.now)) }
{
    match v.get("sites") {
        Some(found) => are_sites(found, factors),
        None => false,
    }
}

// The site of a kind that is built in, or F28.
fn kind_site<const K: usize>(
    alloc: Global,
    v: &Value,
    group: &Group<K>,
    site: u32,
) -> Result<SiteTable<K>, DocFault>
    ensures { Reads result (kind_fault group.now site (view v.now))
        (λ s. (s ≡ option_map_or kind_site (kind_of (view v.now)) no_site) × (s.group ≡ group.now)) }
{
    match builtin(alloc, text_at(v, "kind"), group) {
        Ok(table) => Ok(table),
        Err(SiteFault::SiteKind) => Err(DocFault::Bad(Fault::at(28, site, 0, 0))),
        Err(SiteFault::OpCharge { .. }) => unreachable!(),
        Err(SiteFault::Memory) => Err(DocFault::Memory),
    }
}

// The site, or the first of its faults.
#[tactic(auto, unfolding(crate::specs::Sites::site_fault, crate::specs::Sites::site_of))]
fn site<const K: usize>(
    alloc: Global,
    v: &Value,
    group: &Group<K>,
    place: u32,
) -> Result<SiteTable<K>, DocFault>
    ensures { Reads result (site_fault group.now place (view v.now))
        (λ s. (s ≡ site_of group.now (view v.now)) × (s.group ≡ group.now)) }
{
    if is_own(v) {
        own_site(alloc, v, group, place)
    } else {
        kind_site(alloc, v, group, place)
    }
}

// The sites of a list, or the first of their faults, site by site.
fn each_site<const K: usize>(
    alloc: Global,
    list: &[Value],
    group: &Group<K>,
) -> Result<Vec<SiteTable<K>>, DocFault>
    ensures { Reads result (first_of (site_fault group.now) (map view list.now))
        (λ made. (made.items ≡ map (site_of group.now) (map view list.now)) × All (λ (s : SiteValue). s.group ≡ group.now) made.items) }
{
    let mut made = Vec::new(alloc);
    let mut before: u32 = 0;
    let mut rest = list;
    while let [v, tail @ ..] = rest {
        let Some(place) = before.checked_add(1) else {
            return Err(DocFault::Memory);
        };
        made.push(site(alloc, v, group, place)?)?;
        before = place;
        rest = tail;
    }
    Ok(made)
}

/// The sites of a document, 1 to 64, or the first of their faults.
pub(crate) fn sites<const K: usize>(
    alloc: Global,
    v: &Value,
    group: &Group<K>,
) -> Result<Vec<SiteTable<K>>, DocFault>
    requires { group.now ≡ factors_of (view v.now) }
    ensures { Reads result (sites_fault (view v.now)) (λ made. AreSitesOf (view v.now) made.items) }
{
    let list = items_at(v, "sites");
    if list.is_empty() || 64 < list.len() {
        return Err(DocFault::Bad(Fault::at(28, 0, 0, 0)));
    }
    each_site(alloc, list, group)
}

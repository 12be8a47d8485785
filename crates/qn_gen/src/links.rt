//! The group, the links between sites, and the legs of the tensors.

ghost use Rattle.std.specs.Prelude.{◌≡◌, ◌<◌, ◌≤◌, ◌++◌, map, IfOk, OnOk};
ghost use Rattle.qn_sites.specs.Sites.{SiteValue};
ghost use Rattle.qn_gen.specs.Workload.{group as fermion_group, left_legs, legs_at as legs_on, link_sectors as sectors_on, right_legs, site_leg};

use crate::sizes::{greatest, least, link_dim};
use qn_charge::{Charge, Factor, Group};
use qn_index::{Dir, Leg, Sector};
use qn_sites::SiteTable;
use std::alloc::{AllocError, Global};

/// The group of the charges: the number of fermions.
pub(crate) fn fermions() -> Group<1>
    ensures { result ≡ fermion_group }
{
    match Group::new(&[Factor::U1 { fermion: true }]) {
        Ok(group) => group,
        Err(_) => unreachable!(),
    }
}

/// The sectors of the link right of a site.
fn link_sectors(alloc: Global, count: u32, site: u32) -> Result<Vec<Sector<1>>, AllocError>
    requires { site ≤ count }
    ensures { IfOk result (λ v. v.items ≡ sectors_on count site) }
{
    let dim = link_dim(count);
    let mut sectors = Vec::new(alloc);
    for charge in least(count, site)..greatest(count, site) + 1 {
        sectors.push(Sector {
            charge: Charge::new(&[i64::from(charge)]),
            dim,
        })?;
    }
    Ok(sectors)
}

/// The link right of a site, with this arrow.
fn link(
    alloc: Global,
    group: &Group<1>,
    dir: Dir,
    count: u32,
    site: u32,
) -> Result<Leg<1>, AllocError>
    requires group { group.now ≡ fermion_group }
    requires few { count ≤ 32 }
    requires some { 0 < site }
    requires within { site < count }
    ensures { IfOk result (λ l. l ≡ record { arrow = dir; sectors = sectors_on count site }) }
{
    match Leg::new(group, dir, link_sectors(alloc, count, site)?) {
        Ok(leg) => Ok(leg),
        Err(_) => unreachable!(),
    }
}

/// Adds the leg left of a site, where there is one.
fn push_left(
    alloc: Global,
    group: &Group<1>,
    count: u32,
    site: u32,
    legs: &mut Vec<Leg<1>>,
) -> Result<(), AllocError>
    requires group { group.now ≡ fermion_group }
    requires few { count ≤ 32 }
    requires some { 0 < site }
    requires within { site ≤ count }
    ensures { OnOk result (legs.new.items ≡ legs.old.items ++ left_legs count site) }
{
    if site == 1 {
        return Ok(());
    }
    Ok(legs.push(link(alloc, group, Dir::Out, count, site - 1)?)?)
}

/// Adds the leg right of a site, where there is one.
fn push_right(
    alloc: Global,
    group: &Group<1>,
    count: u32,
    site: u32,
    legs: &mut Vec<Leg<1>>,
) -> Result<(), AllocError>
    requires group { group.now ≡ fermion_group }
    requires few { count ≤ 32 }
    requires some { 0 < site }
    requires within { site ≤ count }
    ensures { OnOk result (legs.new.items ≡ legs.old.items ++ right_legs count site) }
{
    if site == count {
        return Ok(());
    }
    Ok(legs.push(link(alloc, group, Dir::In, count, site)?)?)
}

/// The legs of the tensor on a site, from 1: left, that of the site, right.
pub(crate) fn legs_at(
    alloc: Global,
    group: &Group<1>,
    own: &Leg<1>,
    count: u32,
    site: u32,
) -> Result<Vec<Leg<1>>, AllocError>
    requires group { group.now ≡ fermion_group }
    requires own { own.now ≡ site_leg }
    requires few { count ≤ 32 }
    requires some { 0 < site }
    requires within { site ≤ count }
    ensures { IfOk result (λ v. v.items ≡ legs_on count site) }
{
    let mut legs = Vec::with_capacity(alloc, 3)?;
    push_left(alloc, group, count, site, &mut legs)?;
    legs.push(own.copy()?)?;
    push_right(alloc, group, count, site, &mut legs)?;
    Ok(legs)
}

/// The legs of sites.
pub(crate) fn legs_of(alloc: Global, sites: &[SiteTable<1>]) -> Result<Vec<Leg<1>>, AllocError>
    ensures { IfOk result (λ v. v.items ≡ map (λ (s : SiteValue). s.leg) sites.now) }
{
    let mut legs = Vec::with_capacity(alloc, sites.len())?;
    for site in sites {
        legs.push(site.leg().copy()?)?;
    }
    Ok(legs)
}

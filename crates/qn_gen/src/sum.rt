//! The operator sum: hopping between neighbours, and a drawn potential.

ghost use Rattle.std.specs.Prelude.{◌≡◌, ◌<◌, ◌≤◌, ◌-◌, ◌^◌, ◌++◌, [], ◌∷◌, codes, flat_map, map, IfOk, OnOk};
ghost use Rattle.std.specs.List.{range_with_len};
ghost use Rattle.qn_sites.specs.Kinds.{fermion, kind_site};
ghost use Rattle.qn_gen.specs.Workload.{density as density_on, group as fermion_group, hop as hop_between, hops, sites as sites_of, sum_on, terms as terms_on, turned};

use crate::draw::Draws;
use qn_charge::Group;
use qn_gauss::Gauss;
use qn_opsum::{OpSum, Term};
use qn_sites::{Name, SiteFault, SiteTable, builtin};
use std::alloc::{AllocError, Global};

/// A site of one fermion.
fn fermion_site(alloc: Global, group: &Group<1>) -> Result<SiteTable<1>, AllocError>
    requires { group.now ≡ fermion_group }
    ensures { IfOk result (λ s. s ≡ kind_site fermion) }
{
    match builtin(alloc, "fermion", group) {
        Ok(site) => Ok(site),
        Err(SiteFault::Memory) => Err(AllocError),
        Err(SiteFault::SiteKind) => unreachable!(),
        Err(SiteFault::OpCharge { .. }) => unreachable!(),
    }
}

/// So many sites.
fn sites(alloc: Global, group: &Group<1>, count: u32) -> Result<Vec<SiteTable<1>>, AllocError>
    requires { group.now ≡ fermion_group }
    ensures { IfOk result (λ v. v.items ≡ sites_of count) }
{
    let mut sites = Vec::with_capacity(alloc, count as usize)?;
    for _ in 0..count {
        sites.push(fermion_site(alloc, group)?)?;
    }
    Ok(sites)
}

/// An operator of a term.
fn operator(alloc: Global, site: u32, name: &str) -> Result<(u32, Name), AllocError>
    ensures { IfOk result (λ f. f ≡ (site, name.now)) }
{
    Ok((site, Name::new(String::from_str(alloc, name)?)))
}

/// The term in which a fermion goes from one site to another.
#[tactic(auto, unfolding(qn_gauss::specs::Gaussian::one_g))]
fn hop(alloc: Global, to: u32, from: u32) -> Result<Term, AllocError>
    ensures { IfOk result (λ w. w ≡ hop_between to from) }
{
    let mut factors = Vec::with_capacity(alloc, 2)?;
    factors.push(operator(alloc, to, "Cdag")?)?;
    factors.push(operator(alloc, from, "C")?)?;
    Ok(Term {
        coef: Gauss::ONE,
        factors,
    })
}

/// The term that counts the fermions on a site, with this coefficient.
fn density(alloc: Global, coef: Gauss, site: u32) -> Result<Term, AllocError>
    ensures { IfOk result (λ w. w ≡ record { coef = coef; factors = (site, codes "N") ∷ [] }) }
{
    let mut factors = Vec::with_capacity(alloc, 1)?;
    factors.push(operator(alloc, site, "N")?)?;
    Ok(Term { coef, factors })
}

/// Adds the terms between neighbours, both ways.
fn push_hops(alloc: Global, count: u32, terms: &mut Vec<Term>) -> Result<(), AllocError>
    ensures { OnOk result (terms.new.items ≡ terms.old.items ++ flat_map hops (range_with_len 1 (count - 1))) }
{
    for site in 1..count {
        terms.push(hop(alloc, site, site + 1)?)?;
        terms.push(hop(alloc, site + 1, site)?)?;
    }
    Ok(())
}

/// Adds the potential, whose coefficients are drawn.
fn push_densities(
    alloc: Global,
    count: u32,
    draws: &mut Draws,
    terms: &mut Vec<Term>,
) -> Result<(), AllocError>
    ensures terms { OnOk result (terms.new.items ≡ terms.old.items ++ map (density_on draws.old.x) (range_with_len 1 count)) }
    ensures state { OnOk result (draws.new.x ≡ turned draws.old.x count) }
{
    for k in 0..count {
        terms.push(density(alloc, draws.next(), k + 1)?)?;
    }
    Ok(())
}

/// The terms.
fn terms(alloc: Global, count: u32, draws: &mut Draws) -> Result<Vec<Term>, AllocError>
    ensures terms { IfOk result (λ v. v.items ≡ terms_on draws.old.x count) }
    ensures state { OnOk result (draws.new.x ≡ turned draws.old.x count) }
{
    let mut terms = Vec::new(alloc);
    push_hops(alloc, count, &mut terms)?;
    push_densities(alloc, count, draws, &mut terms)?;
    Ok(terms)
}

/// The sum on so many sites.
pub(crate) fn operator_sum(
    alloc: Global,
    group: &Group<1>,
    count: u32,
    draws: &mut Draws,
) -> Result<OpSum<1>, AllocError>
    requires group { group.now ≡ fermion_group }
    requires some { 8 ≤ count }
    requires few { count ≤ 32 }
    ensures value { IfOk result (λ v. v ≡ sum_on draws.old.x count) }
    ensures state { OnOk result (draws.new.x ≡ turned draws.old.x count) }
{
    let sites = sites(alloc, group, count)?;
    let terms = terms(alloc, count, draws)?;
    match OpSum::new(*group, sites, terms) {
        Ok(sum) => Ok(sum),
        Err(_) => unreachable!(),
    }
}

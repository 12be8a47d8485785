//! Partial tuples: the first sectors of a tuple, and the flux that is left to the other legs.
ghost use Rattle.std.specs.Prelude.{◌≡◌, ◌<◌, ◌≤◌, ◌^◌, ◌++◌, [], ◌∷◌, length, IfOk, OnOk};
ghost use Rattle.std.specs.Cmp.Lexicographic.{pointwise};
ghost use Rattle.std.specs.Ordering.{int_eq};
ghost use Rattle.std.specs.List.{All, flat_map};
ghost use Rattle.qn_index.specs.Legs.{IsLegOf};
ghost use Rattle.qn_index.specs.Tuples.{signed, upward};
ghost use Rattle.qn_index.specs.Weights.{IsChargeWithin, PartialValue, remaining, extended, extensions, finished};

use crate::leg::Leg;
use crate::net::signed_charge;
use crate::table::Table;
use crate::tuple::Tuple;
use qn_charge::{Abelian, Charge, Group};
use std::alloc::{AllocError, Global};
use std::marker::Model;

/// The first sectors of a tuple, and the flux that is left to the other legs.
#[derive(Debug, Drop)]
pub(crate) struct Partial<const K: usize> {
    list: Vec<u32>,
    flux: Charge<K>,
}

impl<const K: usize> Model for Partial<K> {
    ghost use Rattle.qn_index.specs.Weights.{PartialValue};

    ghost Value = { PartialValue };

    ghost view = { λ p. record { list = p.list.items; flux = p.flux } };
}

impl<const K: usize> Partial<K> {
    /// No sector yet.
    pub(crate) fn start(alloc: Global, flux: &Charge<K>) -> Partial<K>
        ensures { result ≡ record { list = []; flux = flux.now } }
    {
        Partial {
            list: Vec::new(alloc),
            flux: *flux,
        }
    }

    /// The flux that is left after a sector of the next leg.
    fn flux_after(&self, group: &Group<K>, leg: &Leg<K>, sector: u32) -> Charge<K>
        requires group { IsLegOf group.now leg.now }
        requires sector { sector < length leg.now.sectors }
        requires flux { IsChargeWithin (2 ^ 51) group.now self.now.flux }
        ensures { result ≡ remaining group.now (signed group.now leg.now sector) self.now.flux }
    {
        let own = signed_charge(group, leg, sector);
        group.add(&group.neg(&own), &self.flux)
    }

    /// One sector more.
    fn with(&self, sector: u32, flux: &Charge<K>) -> Result<Partial<K>, AllocError>
        ensures { IfOk result (λ p. p ≡ record { list = self.now.list ++ sector ∷ []; flux = flux.now }) }
    {
        let mut list = self.list.clone()?;
        list.push(sector)?;
        Ok(Partial { list, flux: *flux })
    }

    /// The tuple, which has a sector for each leg.
    fn tuple(&self) -> Result<Tuple, AllocError>
        ensures { IfOk result (λ t. t ≡ self.now.list) }
    {
        Ok(Tuple::new(self.list.clone()?))
    }

    /// Whether this flux is left.
    fn leaves(&self, flux: &Charge<K>) -> bool
        ensures { result ≡ pointwise int_eq flux.now self.now.flux }
    {
        flux.same(&self.flux)
    }
}

/// Goes on by one sector, where the legs after it can meet what is left.
fn add_extension<const K: usize>(
    group: &Group<K>,
    leg: &Leg<K>,
    table: &Table<K>,
    partial: &Partial<K>,
    sector: u32,
    out: &mut Vec<Partial<K>>,
) -> Result<(), AllocError>
    requires group { IsLegOf group.now leg.now }
    requires sector { sector < length leg.now.sectors }
    requires flux { IsChargeWithin (2 ^ 51) group.now partial.now.flux }
    ensures { OnOk result (out.new.items ≡ out.old.items ++ extensions group.now leg.now table.now partial.now (sector ∷ [])) }
{
    let flux = partial.flux_after(group, leg, sector);
    if !table.has(&flux) {
        return Ok(());
    }
    out.push(partial.with(sector, &flux)?)?;
    Ok(())
}

/// Goes on by each sector of the leg.
fn add_extensions<const K: usize>(
    group: &Group<K>,
    leg: &Leg<K>,
    table: &Table<K>,
    partial: &Partial<K>,
    out: &mut Vec<Partial<K>>,
) -> Result<(), AllocError>
    requires group { IsLegOf group.now leg.now }
    requires flux { IsChargeWithin (2 ^ 51) group.now partial.now.flux }
    ensures { OnOk result (
        out.new.items ≡
        out.old.items ++ extensions group.now leg.now table.now partial.now (upward 0 (length leg.now.sectors))) }
{
    leg.known();
    let sectors = leg.sectors().len() as u32;
    for s in 0..sectors {
        add_extension(group, leg, table, partial, s, out)?;
    }
    Ok(())
}

/// Each partial tuple with one sector of the leg more, where the legs after it can meet what is left.
/// The table has the counts of the legs after it.
pub(crate) fn extend<const K: usize>(
    alloc: Global,
    group: &Group<K>,
    leg: &Leg<K>,
    table: &Table<K>,
    partials: &[Partial<K>],
) -> Result<Vec<Partial<K>>, AllocError>
    requires group { IsLegOf group.now leg.now }
    requires fluxes { All (λ p. IsChargeWithin (2 ^ 51) group.now p.flux) partials.now }
    ensures { IfOk result (λ v.
        v.items ≡
        flat_map (λ p. extensions group.now leg.now table.now p (upward 0 (length leg.now.sectors))) partials.now) }
{
    let mut out = Vec::new(alloc);
    for p in partials {
        add_extensions(group, leg, table, p, &mut out)?;
    }
    Ok(out)
}

/// Adds the tuple if no flux is left.
fn add_finished<const K: usize>(
    group: &Group<K>,
    partial: &Partial<K>,
    out: &mut Vec<Tuple>,
) -> Result<(), AllocError>
    ensures { OnOk result (out.new.items ≡ out.old.items ++ finished group.now partial.now) }
{
    if !partial.leaves(&group.zero()) {
        return Ok(());
    }
    out.push(partial.tuple()?)?;
    Ok(())
}

/// The tuples to which no flux is left.
pub(crate) fn finish<const K: usize>(
    alloc: Global,
    group: &Group<K>,
    partials: &[Partial<K>],
) -> Result<Vec<Tuple>, AllocError>
    ensures { IfOk result (λ v. v.items ≡ flat_map (finished group.now) partials.now) }
{
    let mut out = Vec::new(alloc);
    for p in partials {
        add_finished(group, p, &mut out)?;
    }
    Ok(out)
}

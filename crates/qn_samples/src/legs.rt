//! Charges, fluxes and legs.

ghost use Rattle.std.specs.Prelude.{◌≡◌, IfOk, IsTrue};
ghost use Rattle.std.specs.List.{All};
ghost use Rattle.qn_charge.specs.Charges.{IsCanonical};
ghost use Rattle.qn_index.specs.Legs.{IsLegOf};
ghost use Rattle.qn_index.specs.Tuples.{IsFlux};

use crate::fault::SampleFault;
use qn_charge::{Charge, Factor, Group};
use qn_index::{Dir, Leg, Sector};
use std::alloc::Global;

/// U(1) without signs.
pub const BOSON: Factor = Factor::U1 { fermion: false };

/// U(1) whose odd charges are fermions.
pub const FERMION: Factor = Factor::U1 { fermion: true };

/// The parity of a number of fermions.
pub const PARITY: Factor = Factor::Zn {
    n: 2,
    fermion: true,
};

/// Sectors: for each the number that stands for its charge, and its dimension.
pub type Sectors<'a> = &'a [(i64, u32)];

/// A leg: its arrow and its sectors.
pub type LegRow<'a> = (Dir, Sectors<'a>);

/// The charge that has this number as each of its parts, in its canonical form.
pub fn charge_of<const K: usize>(group: &Group<K>, part: i64) -> Charge<K>
    ensures { IsCanonical group.now result }
{
    group.known();
    group.canon(&Charge::new(&[part; 4][..K]))
}

fn is_flux<const K: usize>(group: &Group<K>, charge: &Charge<K>) -> bool
    requires { IsCanonical group.now charge.now }
    ensures { IsTrue result → IsFlux group.now charge.now }
{
    match group.out_of(charge, 1 << 50) {
        None => true,
        Some(_) => false,
    }
}

/// The flux that has this number as each of its parts.
pub fn flux_of<const K: usize>(group: &Group<K>, part: i64) -> Result<Charge<K>, SampleFault>
    ensures { IfOk result (IsFlux group.now) }
{
    let flux = charge_of(group, part);
    if is_flux(group, &flux) {
        Ok(flux)
    } else {
        Err(SampleFault::Flux)
    }
}

/// The leg of a row.
pub fn leg_of<const K: usize>(
    alloc: Global,
    group: &Group<K>,
    row: LegRow,
) -> Result<Leg<K>, SampleFault>
    ensures { IfOk result (IsLegOf group.now) }
{
    let (dir, rows) = row;
    let mut sectors = Vec::new(alloc);
    for (part, dim) in rows {
        sectors.push(Sector {
            charge: charge_of(group, *part),
            dim: *dim,
        })?;
    }
    match Leg::new(group, dir, sectors) {
        Ok(leg) => Ok(leg),
        Err(fault) => Err(SampleFault::Leg(fault)),
    }
}

/// The legs of rows.
pub fn legs_of<const K: usize>(
    alloc: Global,
    group: &Group<K>,
    rows: &[LegRow],
) -> Result<Vec<Leg<K>>, SampleFault>
    ensures { IfOk result (λ v. All (IsLegOf group.now) v.items) }
{
    let mut legs = Vec::new(alloc);
    for row in rows {
        legs.push(leg_of(alloc, group, *row)?)?;
    }
    Ok(legs)
}

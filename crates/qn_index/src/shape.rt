//! The tuples that a flux admits, how many there are, and how many entries their blocks have.

ghost use Rattle.std.specs.Prelude.{◌≡◌, ◌<◌, ◌≤◌, ◌^◌, ◌↔◌, ◌+◌, ◌*◌, length, IfOk, IsTrue};
ghost use Rattle.std.specs.List.{All};
ghost use Rattle.qn_index.specs.Legs.{IsLegOf};
ghost use Rattle.qn_index.specs.Tuples.{IsFlux, IsTuple, IsAdmissible, count, admitted};
ghost use Rattle.qn_index.specs.Extents.{capped, entries};

use crate::leg::{Leg, known_all};
use crate::net::net_charge;
use crate::partial::{Partial, extend, finish};
use crate::table::tables_of;
use crate::tuple::Tuple;
use qn_charge::{Charge, Group};
use std::alloc::{AllocError, Global};

/// The most legs that a tensor may have.
pub const MAX_LEGS: usize = 64;

/// The most tuples of sectors that a shape may have.
pub const MAX_TUPLES: u64 = 1 << 20;

/// The most admissible entries that a shape may have.
pub const MAX_ENTRIES: u64 = 1 << 22;

/// How wide a shape is. A number past its limit stands for all larger ones.
#[derive(Clone, Copy, Debug, PartialEq, Eq)]
pub struct Extent {
    /// The number of tuples of sectors, or 2^20 + 1.
    pub tuples: u64,
    /// The number of admissible entries, or 2^22 + 1; 0 where there are too many tuples.
    pub entries: u64,
}

/// The number of tuples, or 2^20 + 1.
fn count_of<const K: usize>(legs: &[Leg<K>]) -> u64
    ensures { result ≡ capped (2 ^ 20) (count legs.now) }
{
    known_all(legs);
    let mut size = 1u64;
    for i in (0..legs.len()).rev() {
        size = times(size, legs[i].sectors().len());
    }
    size
}

/// The product, or 2^20 + 1.
fn times(size: u64, sectors: usize) -> u64
    requires size { size ≤ 2 ^ 20 + 1 }
    requires few { sectors ≤ 64 }
    ensures { result ≡ capped (2 ^ 20) (size * sectors) }
{
    (size * sectors as u64).min(MAX_TUPLES + 1)
}

/// How wide the shape of these legs and this flux is, counted leg by leg and charge by charge;
/// no tuple is listed.
pub fn width<const K: usize>(
    alloc: Global,
    group: &Group<K>,
    legs: &[Leg<K>],
    flux: &Charge<K>,
) -> Result<Extent, AllocError>
    requires few { length legs.now ≤ 64 }
    requires group { All (IsLegOf group.now) legs.now }
    requires flux { IsFlux group.now flux.now }
    ensures tuples { IfOk result (λ e. e.tuples ≡ capped (2 ^ 20) (count legs.now)) }
    ensures entries { IfOk result (λ e. count legs.now ≤ 2 ^ 20 → e.entries ≡ capped (2 ^ 22) (entries group.now legs.now flux.now)) }
    ensures too_many { IfOk result (λ e. 2 ^ 20 < count legs.now → e.entries ≡ 0) }
{
    let tuples = count_of(legs);
    if tuples > MAX_TUPLES {
        return Ok(Extent { tuples, entries: 0 });
    }
    let tables = tables_of(alloc, group, legs)?;
    let made = tables.as_slice();
    let entries = made[legs.len()].count_at(flux);
    Ok(Extent { tuples, entries })
}

/// All tuples whose net charge is the flux, ascending, each once.
///
/// Goes leg by leg from the first, and leaves a partial tuple as soon as the legs after it have
/// no tuple that meets what is left of the flux.
pub fn admissible<const K: usize>(
    alloc: Global,
    group: &Group<K>,
    legs: &[Leg<K>],
    flux: &Charge<K>,
) -> Result<Vec<Tuple>, AllocError>
    requires few { length legs.now ≤ 64 }
    requires group { All (IsLegOf group.now) legs.now }
    requires flux { IsFlux group.now flux.now }
    requires width { count legs.now ≤ 2 ^ 20 }
    ensures { IfOk result (λ ts. ts.items ≡ admitted group.now legs.now flux.now) }
{
    group.known();
    known_all(legs);
    let later = &legs[legs.len().min(1)..];
    let tables = tables_of(alloc, group, later)?;
    let mut open = Vec::new(alloc);
    open.push(Partial::start(alloc, flux))?;
    for i in 0..legs.len() {
        let made = tables.as_slice();
        open = extend(alloc, group, &legs[i], &made[legs.len() - 1 - i], &open)?;
    }
    let tuples = finish(alloc, group, &open)?;
    Ok(tuples)
}

/// Whether there is one sector for each leg.
fn is_tuple<const K: usize>(legs: &[Leg<K>], tuple: &[u32]) -> bool
    ensures { IsTrue result ↔ IsTuple legs.now tuple.now }
{
    if tuple.len() != legs.len() {
        return false;
    }
    for i in 0..legs.len() {
        if tuple[i] as usize >= legs[i].sectors().len() {
            return false;
        }
    }
    true
}

/// Whether there is one sector for each leg, and their net charge is the flux. Takes no memory.
pub fn is_admissible<const K: usize>(
    group: &Group<K>,
    legs: &[Leg<K>],
    flux: &Charge<K>,
    tuple: &[u32],
) -> bool
    requires few { length legs.now ≤ 64 }
    requires group { All (IsLegOf group.now) legs.now }
    ensures { IsTrue result ↔ IsAdmissible group.now legs.now flux.now tuple.now }
{
    if !is_tuple(legs, tuple) {
        return false;
    }
    net_charge(group, legs, tuple).same(flux)
}

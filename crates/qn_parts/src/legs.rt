//! The legs and the flux of a tensor in a document.

ghost use Rattle.std.specs.Prelude.{◌≡◌, ◌+◌, map, pos};
ghost use Rattle.std.specs.List.{All};
ghost use Rattle.serde_json.specs.View.{view};
ghost use Rattle.qn_charge.specs.Charges.{IsWithin};
ghost use Rattle.qn_index.specs.Legs.{IsLegOf};
ghost use Rattle.qn_index.specs.Tuples.{IsFlux};
ghost use Rattle.qn_parts.specs.Faults.{Reads, first_of};
ghost use Rattle.qn_parts.specs.Tensors.{arrow_of, leg_of, flux_of, leg_fault, flux_fault};

use crate::sectors::{charge_in, sectors_of};
use crate::{DocFault, Fault};
use qn_charge::{Charge, Group};
use qn_index::{Dir, Leg};
use qn_json::forms::is_word_at;
use qn_json::items_at;
use serde_json::Value;
use std::alloc::Global;

/// The arrow under the key `dir`: In for `"in"`, else Out.
pub fn dir(v: &Value) -> Dir
    ensures { result ≡ arrow_of (view v.now) }
{
    if is_word_at(v, "dir", "in") {
        Dir::In
    } else {
        Dir::Out
    }
}

/// The leg, or the first of F9, F10, F11 with this tensor and part.
fn leg<const K: usize>(
    alloc: Global,
    v: &Value,
    group: &Group<K>,
    tensor: u32,
    part: u32,
) -> Result<Leg<K>, DocFault>
    ensures { Reads result (leg_fault group.now tensor part (view v.now))
        (λ leg. (leg ≡ leg_of group.now (view v.now)) × IsLegOf group.now leg) }
{
    group.known();
    let list = items_at(v, "sectors");
    let sectors = sectors_of(alloc, list, group, tensor, part, 1 << 20)?;
    match Leg::new(group, dir(v), sectors) {
        Ok(leg) => Ok(leg),
        Err(_) => unreachable!(),
    }
}

/// The legs of a list, or the first of their faults, leg by leg.
pub fn legs<const K: usize>(
    alloc: Global,
    list: &[Value],
    group: &Group<K>,
    tensor: u32,
) -> Result<Vec<Leg<K>>, DocFault>
    ensures { Reads result (first_of (leg_fault group.now tensor) (map view list.now))
        (λ made. (made.items ≡ map (leg_of group.now) (map view list.now)) × All (IsLegOf group.now) made.items) }
{
    let mut made = Vec::new(alloc);
    let mut before: u32 = 0;
    let mut rest = list;
    while let [v, tail @ ..] = rest {
        let Some(place) = before.checked_add(1) else {
            return Err(DocFault::Memory);
        };
        made.push(leg(alloc, v, group, tensor, place)?)?;
        before = place;
        rest = tail;
    }
    Ok(made)
}

// The flux, or F12 where a part is out of range.
fn flux_in_range<const K: usize>(
    flux: Charge<K>,
    group: &Group<K>,
    tensor: u32,
) -> Result<Charge<K>, DocFault>
    ensures { Reads result (flux_fault group.now tensor flux.entry)
        (λ q. (q ≡ flux.entry) × IsFlux group.now q × IsWithin 1000000000000 group.now q) }
{
    group.known();
    flux.known();
    match group.out_of(&flux, 1_000_000_000_000) {
        Some(i) => Err(DocFault::Bad(Fault::at(12, tensor, 0, i as u32 + 1))),
        None => Ok(flux),
    }
}

/// The flux, or F12.
pub(crate) fn flux<const K: usize>(
    v: &Value,
    group: &Group<K>,
    tensor: u32,
) -> Result<Charge<K>, DocFault>
    ensures { Reads result (flux_fault group.now tensor (flux_of group.now (view v.now)))
        (λ flux. (flux ≡ flux_of group.now (view v.now)) × IsFlux group.now flux × IsWithin 1000000000000 group.now flux) }
{
    let flux = charge_in(items_at(v, "flux"), group);
    flux_in_range(flux, group, tensor)
}

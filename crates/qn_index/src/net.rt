//! The net charge of a tuple of sectors.

ghost use Rattle.std.specs.Prelude.{◌≡◌, ◌<◌, ◌≤◌, ◌*◌, length};
ghost use Rattle.std.specs.List.{All};
ghost use Rattle.qn_charge.specs.Charges.{IsCanonical, IsWithin};
ghost use Rattle.qn_index.specs.Legs.{IsLegOf};
ghost use Rattle.qn_index.specs.Tuples.{signed, net, IsTuple};

use crate::leg::{Dir, Leg};
use qn_charge::{Abelian, Charge, Group};

/// The charge of a sector, as the arrow counts it.
pub fn signed_charge<const K: usize>(group: &Group<K>, leg: &Leg<K>, sector: u32) -> Charge<K>
    requires sector { sector < length leg.now.sectors }
    requires group { IsLegOf group.now leg.now }
    ensures value { result ≡ signed group.now leg.now sector }
    ensures canonical { IsCanonical group.now result }
    ensures within { IsWithin 1000000000 group.now result }
{
    let charge = leg.charge(sector);
    match leg.dir() {
        Dir::Out => *charge,
        Dir::In => group.neg(charge),
    }
}

/// The charges of the Out legs minus those of the In legs.
pub fn net_charge<const K: usize>(group: &Group<K>, legs: &[Leg<K>], tuple: &[u32]) -> Charge<K>
    requires few { length legs.now ≤ 64 }
    requires group { All (IsLegOf group.now) legs.now }
    requires tuple { IsTuple legs.now tuple.now }
    ensures value { result ≡ net group.now legs.now tuple.now }
    ensures canonical { IsCanonical group.now result }
    ensures within { IsWithin (1000000000 * length legs.now) group.now result }
{
    group.known();
    let mut sum = group.zero();
    for i in (0..legs.len()).rev() {
        let own = signed_charge(group, &legs[i], tuple[i]);
        sum = group.add(&own, &sum);
    }
    sum
}

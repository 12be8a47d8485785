//! One block, negated where an odd number of some of the legs have odd sectors.

ghost use Rattle.std.specs.Prelude.{◌≡◌, ◌<◌, length, map, slice_index_or};
ghost use Rattle.std.specs.List.{All};
ghost use Rattle.qn_gauss.specs.Gaussian.{neg_g};
ghost use Rattle.qn_charge.specs.Charges.{parity};
ghost use Rattle.qn_index.specs.Legs.{sector_at};
ghost use Rattle.qn_index.specs.Tuples.{IsTuple};
ghost use Rattle.qn_sign.specs.Sign.{xor};
ghost use Rattle.qn_twist.specs.Twisted.{leg_at, odd_sectors, twisted_block};

use qn_block::Block;
use qn_charge::{Abelian, Group};
use qn_gauss::Gauss;
use qn_index::Leg;

/// Whether one of two holds, and not the other.
fn differ(a: bool, b: bool) -> bool
    ensures { result ≡ xor a b }
{
    a != b
}

/// Whether the sector of the leg at a place is odd.
fn is_odd_at<const K: usize>(group: &Group<K>, legs: &[Leg<K>], tuple: &[u32], place: usize) -> bool
    requires tuple { IsTuple legs.now tuple.now }
    requires place { place < length legs.now }
    ensures { result ≡ parity group.now (sector_at (leg_at legs.now place).sectors (slice_index_or tuple.now place 0)).charge }
{
    let leg = &legs[place];
    group.parity(leg.charge(tuple[place]))
}

/// Whether an odd number of the legs at these places have odd sectors.
fn is_odd_number<const K: usize>(
    group: &Group<K>,
    legs: &[Leg<K>],
    places: &[usize],
    tuple: &[u32],
) -> bool
    requires tuple { IsTuple legs.now tuple.now }
    requires places { All (λ k. k < length legs.now) places.now }
    ensures { result ≡ odd_sectors group.now legs.now places.now tuple.now }
{
    let mut odd = false;
    for i in (0..places.len()).rev() {
        odd = differ(is_odd_at(group, legs, tuple, places[i]), odd);
    }
    odd
}

/// Negates all entries.
fn negate(entries: &mut Vec<Gauss>)
    ensures { entries.new.items ≡ map neg_g entries.old.items }
{
    for i in 0..entries.len() {
        entries[i] = entries[i].neg();
    }
}

/// Negates the block where an odd number of the legs at these places have odd sectors.
pub(crate) fn twist_block<const K: usize>(
    group: &Group<K>,
    legs: &[Leg<K>],
    places: &[usize],
    block: &mut Block,
)
    requires tuple { IsTuple legs.now block.old.tuple }
    requires places { All (λ k. k < length legs.now) places.now }
    ensures { block.new ≡ twisted_block group.now legs.now places.now block.old }
{
    if is_odd_number(group, legs, places, block.tuple()) {
        negate(&mut block.entries);
    }
}

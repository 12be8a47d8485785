//! How the entries of a block stand, and how they are gone through.

ghost use Rattle.std.specs.Prelude.{◌≡◌, ◌≤◌, ◌*◌, ◌/◌, ◌^◌, length};
ghost use Rattle.std.specs.List.{All};
ghost use Rattle.qn_strides.specs.Strides.{start_of, IsKept};

use std::marker::Model;

/// The two legs of a couple in a block: how many values they have together, and how far apart the entries of
/// neighbouring values stand.
#[derive(Clone, Copy, Debug, PartialEq, Eq)]
pub struct Summed {
    pub len: u64,
    pub stride: u64,
}

impl Model for Summed {
    ghost use Rattle.qn_strides.specs.Strides.{SummedValue};

    ghost Value = { SummedValue };

    ghost view = { λ x. record { len = x.len; stride = x.stride } };

    ghost inverse = { λ x. record { len = x.len; stride = x.stride } };
}

/// An open leg: how far apart the entries of neighbouring values stand in the result's block, and in the block that is
/// summed over.
#[derive(Clone, Copy, Debug, PartialEq, Eq)]
pub struct Kept {
    pub size: u64,
    pub stride: u64,
}

impl Model for Kept {
    ghost use Rattle.qn_strides.specs.Strides.{KeptValue};

    ghost Value = { KeptValue };

    ghost view = { λ x. record { size = x.size; stride = x.stride } };

    ghost inverse = { λ x. record { size = x.size; stride = x.stride } };
}

/// How far the entry at `place` of the result's block is from the first one, along one leg.
fn steps_along(axis: Kept, place: u64) -> u64
    requires axis { IsKept axis }
    requires small { place ≤ 2 ^ 22 }
    ensures value { result ≡ (place / axis.size) * axis.stride }
    ensures bound { result ≤ 2 ^ 44 }
{
    place / axis.size * axis.stride
}

/// The place in the block of the entry at `place` of the result's block, where the couples have their first values.
pub fn start_of(kept: &[Kept], place: u64) -> u64
    requires kept { All IsKept kept.now }
    requires few { length kept.now ≤ 64 }
    requires small { place ≤ 2 ^ 22 }
    ensures value { result ≡ start_of kept.now place }
    ensures bound { result ≤ length kept.now * 2 ^ 44 }
{
    match kept.split_first() {
        None => 0,
        Some((axis, rest)) => {
            let own = steps_along(*axis, place);
            own + start_of(rest, place % axis.size)
        }
    }
}

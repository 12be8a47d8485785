//! Which values of the fused leg and of the legs match.
ghost use Rattle.std.specs.Prelude.{◌≡◌, ◌<◌, ◌≤◌, ◌&&◌, ◌↔◌, List, ℕ, length, take, reverse, true, IsTrue};
ghost use Rattle.std.specs.List.{All};
ghost use Rattle.qn_charge.specs.Charges.{xor};
ghost use Rattle.qn_index.specs.Legs.{total, parity_at};
ghost use Rattle.qn_index.specs.Places.{IsValues};
ghost use Rattle.qn_value.specs.Tensors.{same_values};
ghost use Rattle.qn_block.specs.Combiners.{fused_sectors, fused_values, stands_at};
ghost use Rattle.qn_block.specs.Tables.{is_inward, odd_inward};

use crate::charges::tuple_number;
use crate::combiner::Combiner;
use crate::entry::{are_in_range, placed};
use crate::from_fn::write_values;
use crate::starts::last_start;
use qn_charge::{Abelian, Group};
use qn_index::{Dir, Leg, block_len, offset_of};

impl<const K: usize> Combiner<K> {
    /// The values of the legs that match a value of the fused leg. They stand in front, one for
    /// each leg. Takes no memory.
    pub fn values_of(&self, value: u32) -> [u32; 64]
        requires { value < total (fused_sectors self.now.group self.now.legs self.now.arrow) }
        ensures { stands_at (fused_values self.now.group self.now.legs self.now.arrow) value (
            take (length self.now.legs) result) ≡
            true }
    {
        self.known();
        let legs = self.legs();
        let starts = self.starts();
        let start = &starts[last_start(starts, value)];
        let tuple = start.tuple();
        let size = block_len(legs, tuple);
        let place = u64::from(value - start.start());
        let mut values = [0u32; 64];
        write_values(legs, tuple, size, place, &mut values[..legs.len()]);
        values
    }

    /// Whether there is one value for each of the legs, in its range. Takes no memory.
    pub fn is_in_range(&self, values: &[u32]) -> bool
        ensures { IsTrue result ↔ IsValues self.now.legs values.now }
    {
        are_in_range(self.legs(), values)
    }

    /// The value of the fused leg that matches values of the legs. Takes no memory.
    pub fn value_of(&self, values: &[u32]) -> u32
        requires { IsValues self.now.legs values.now }
        ensures { stands_at (fused_values self.now.group self.now.legs self.now.arrow) result values.now ≡ true }
    {
        self.known();
        let legs = self.legs();
        let n = legs.len();
        let (sectors, offsets) = placed(legs, values);
        let tuple = &sectors[..n];
        let index = self.index();
        let first = index[tuple_number(legs, tuple) as usize];
        first + offset_of(legs, tuple, &offsets[..n]) as u32
    }
}

/// Whether two lists of values are the same.
pub(crate) fn same_values(a: &[u32], b: &[u32]) -> bool
    ensures { result ≡ same_values a.now b.now }
{
    a == b
}

/// Whether one of two holds, and not the other.
fn differ(a: bool, b: bool) -> bool
    ensures { result ≡ xor a b }
{
    a != b
}

/// Whether a value is odd.
fn is_odd<const K: usize>(group: &Group<K>, leg: &Leg<K>, value: u32) -> bool
    requires { value < total leg.now.sectors }
    ensures { result ≡ parity_at group.now leg.now.sectors value }
{
    let (sector, _) = leg.at(value);
    group.parity(leg.charge(sector))
}

/// Whether the leg is In and its value is odd.
pub(crate) fn is_odd_inward<const K: usize>(group: &Group<K>, leg: &Leg<K>, value: u32) -> bool
    requires { value < total leg.now.sectors }
    ensures { result ≡ (is_inward leg.now.arrow && parity_at group.now leg.now.sectors value) }
{
    match leg.dir() {
        Dir::Out => false,
        Dir::In => is_odd(group, leg, value),
    }
}

/// Whether an odd number of the In legs have odd values.
pub(crate) fn odd_inward<const K: usize>(group: &Group<K>, legs: &[Leg<K>], values: &[u32]) -> bool
    requires { IsValues legs.now values.now }
    ensures { result ≡ odd_inward group.now legs.now values.now }
{
    let mut odd = false;
    for i in (0..legs.len()).rev() {
        odd = differ(is_odd_inward(group, &legs[i], values[i]), odd);
    }
    odd
}

/// The numbers in reversed order, in front.
pub(crate) fn backwards(values: &[u32]) -> [u32; 64]
    requires { length values.now ≤ 64 }
    ensures { take (length values.now) result ≡ reverse values.now }
{
    let mut turned = [0u32; 64];
    let n = values.len();
    for i in 0..n {
        turned[i] = values[n - 1 - i];
    }
    turned
}

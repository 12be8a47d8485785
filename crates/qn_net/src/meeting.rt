//! Whether the two legs of a line have the same sectors.

ghost use Rattle.std.specs.Prelude.{◌≡◌, ◌↔◌, ◌<◌, ◌≤◌, IsTrue, MatchOption, length};
ghost use Rattle.qn_charge.specs.Firsts.{HasNone, IsFirst};
ghost use Rattle.qn_net.specs.Members.{slots_of_members, ends_of_members};
ghost use Rattle.qn_net.specs.Refusals.{HasUnequalSectors, HaveLabels, AreOpposite, slot_at};

use crate::member::NetTensor;
use crate::table::LabelTable;
use qn_index::{Sector, same_sectors};

/// The sectors of the k-th of all legs.
fn sectors_of<const K: usize>(tensors: &[NetTensor<K>], k: usize) -> &[Sector<K>]
    requires labels { HaveLabels tensors.now }
    requires within { k < length (slots_of_members tensors.now) }
    ensures { result.now ≡ (slot_at (slots_of_members tensors.now) k).sectors }
{
    let mut rest = k;
    for t in tensors {
        let width = t.width();
        if rest < width {
            return t.sectors(rest);
        }
        rest -= width;
    }
    unreachable!()
}

/// Whether the two legs of a positive label have different sectors.
fn has_unequal_sectors<const K: usize>(tensors: &[NetTensor<K>], table: &LabelTable, n: u32) -> bool
    requires opposite { AreOpposite tensors.now }
    requires table { table.now ≡ ends_of_members tensors.now }
    requires some { 0 < n }
    requires range { n ≤ 1024 }
    ensures { IsTrue result ↔ HasUnequalSectors (slots_of_members tensors.now) n }
{
    if !table.has_positive(n) {
        return false;
    }
    let inner = sectors_of(tensors, table.positive_spot(n, true));
    let outer = sectors_of(tensors, table.positive_spot(n, false));
    !same_sectors(inner, outer)
}

/// The first positive label whose two legs have different sectors.
pub(crate) fn first_unequal_sectors<const K: usize>(
    tensors: &[NetTensor<K>],
    table: &LabelTable,
) -> Option<u32>
    requires opposite { AreOpposite tensors.now }
    requires table { table.now ≡ ends_of_members tensors.now }
    ensures { MatchOption result (HasNone (HasUnequalSectors (slots_of_members tensors.now))) (
        IsFirst (HasUnequalSectors (slots_of_members tensors.now))) }
{
    table.known();
    for n in 1..1025u32 {
        if has_unequal_sectors(tensors, table, n) {
            return Some(n);
        }
    }
    None
}

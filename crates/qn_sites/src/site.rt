//! A site: its group, its leg and its operators by name.

ghost use Rattle.std.specs.Prelude.{◌≡◌, ◌≢◌, ◌<◌, ℕ, length, slice_index_or, IfOk, MatchOption};
ghost use Rattle.std.specs.Cmp.Lexicographic.{slice_cmp};
ghost use Rattle.std.specs.Ordering.{nat_cmp};
ghost use Rattle.qn_sites.specs.Sites.{AreAscending, IsSite, name_at, names};

use crate::name::Name;
use crate::operator::OpTable;
use qn_charge::Group;
use qn_index::Leg;
use std::alloc::{AllocError, Global};
use std::cmp::Ordering;
use std::marker::Model;

/// A site: its leg, and the operators on it, ascending by name. The identity `I` is among them.
#[derive(Debug, Drop)]
pub struct SiteTable<const K: usize> {
    group: Group<K>,
    leg: Leg<K>,
    ops: Vec<OpTable<K>>,
}

impl<const K: usize> Model for SiteTable<K> {
    ghost use Rattle.qn_sites.specs.Sites.{SiteValue, IsSite};

    ghost Value = { SiteValue };

    ghost view = { λ s. record { group = s.group; leg = s.leg; ops = s.ops.items } };

    ghost invariant = { λ s. IsSite (record { group = s.group; leg = s.leg; ops = s.ops.items }) };
}

impl<const K: usize> SiteTable<K> {
    /// The site of parts that are known to be right.
    pub(crate) fn of_parts(group: Group<K>, leg: Leg<K>, ops: Vec<OpTable<K>>) -> SiteTable<K>
        requires { IsSite (record { group = group; leg = leg; ops = ops.items }) }
        ensures { result ≡ record { group = group.entry; leg = leg.entry; ops = ops.entry.items } }
    {
        SiteTable { group, leg, ops }
    }

    /// The allocator of the operators.
    fn allocator(&self) -> Global {
        *self.ops.allocator()
    }

    /// What holds of each site. Nothing is done.
    pub fn known(&self)
        ensures { IsSite self.now }
    {
        let _group = &self.group;
    }

    /// The group of the charges.
    pub fn group(&self) -> &Group<K>
        ensures { result.now ≡ self.now.group }
    {
        &self.group
    }

    /// The leg, which is Out and has at most 64 values.
    pub fn leg(&self) -> &Leg<K>
        ensures { result.now ≡ self.now.leg }
    {
        &self.leg
    }

    /// The operators, ascending by name.
    pub fn ops(&self) -> &[OpTable<K>]
        ensures { result.now ≡ self.now.ops }
    {
        &self.ops
    }

    /// Where the operator of this name stands. Takes no memory.
    pub fn place_of(&self, name: &Name) -> Option<usize>
        ensures { MatchOption result ((i : ℕ) → i < length self.now.ops → name_at self.now.ops i ≢ name.now) (λ i.
            (i < length self.now.ops) × (name_at self.now.ops i ≡ name.now)) }
    {
        self.known();
        find(self.ops(), name)
    }

    /// An equal site.
    pub fn copy(&self) -> Result<SiteTable<K>, AllocError>
        ensures { IfOk result (λ s. s ≡ self.now) }
    {
        self.known();
        let ops = copy_ops(self.allocator(), self.ops())?;
        Ok(SiteTable::of_parts(*self.group(), self.leg().copy()?, ops))
    }
}

/// Equal operators.
fn copy_ops<const K: usize>(
    alloc: Global,
    ops: &[OpTable<K>],
) -> Result<Vec<OpTable<K>>, AllocError>
    ensures { IfOk result (λ v. v.items ≡ ops.now) }
{
    let mut copies = Vec::with_capacity(alloc, ops.len())?;
    for op in ops {
        copies.push(op.copy()?)?;
    }
    Ok(copies)
}

/// Where the operator of this name stands.
fn find<const K: usize>(ops: &[OpTable<K>], name: &Name) -> Option<usize>
    requires { AreAscending (names ops.now) }
    ensures { MatchOption result ((i : ℕ) → i < length ops.now → name_at ops.now i ≢ name.now) (λ i.
        (i < length ops.now) × (name_at ops.now i ≡ name.now)) }
{
    let found = ops.binary_search_by(
        |op: &OpTable<K>| -> Ordering
            ensures { result ≡ slice_cmp nat_cmp op.now.name name.entry.now }
        { op.name().compare(name) },
    );
    match found {
        Ok(i) => Some(i),
        Err(_) => None,
    }
}

//! The table of one operator: its charge and its entries.

ghost use Rattle.std.specs.Prelude.{◌≡◌, ◌<◌, IfOk};
ghost use Rattle.qn_index.specs.Legs.{total};
ghost use Rattle.qn_sites.specs.Operators.{IsOperator, element};

use crate::name::Name;
use qn_charge::{Charge, Group};
use qn_gauss::Gauss;
use qn_index::Leg;
use std::alloc::AllocError;
use std::marker::Model;

/// An operator on a site: its charge, and a square table over the values of the site's leg. An entry
/// other than 0 stands only where the charge of the row's value minus that of the column's value is the
/// operator's charge.
#[derive(Debug, Drop)]
pub struct OpTable<const K: usize> {
    group: Group<K>,
    leg: Leg<K>,
    name: Name,
    charge: Charge<K>,
    entries: Vec<Gauss>,
}

impl<const K: usize> Model for OpTable<K> {
    ghost use Rattle.qn_sites.specs.Operators.{OpValue, IsOperator};

    ghost Value = { OpValue };

    ghost view = { λ o. record { group = o.group; leg = o.leg; name = o.name; charge = o.charge; entries = o.entries.items } };

    ghost invariant = { λ o. IsOperator (
        record { group = o.group; leg = o.leg; name = o.name; charge = o.charge; entries = o.entries.items }) };
}

impl<const K: usize> OpTable<K> {
    /// The operator of parts that are known to be right.
    pub(crate) fn of_parts(
        group: Group<K>,
        leg: Leg<K>,
        name: Name,
        charge: Charge<K>,
        entries: Vec<Gauss>,
    ) -> OpTable<K>
        requires { IsOperator (record { group = group; leg = leg; name = name; charge = charge; entries = entries.items }) }
        ensures { result ≡
            record { group = group.entry; leg = leg.entry; name = name; charge = charge.entry; entries = entries.items } }
    {
        OpTable {
            group,
            leg,
            name,
            charge,
            entries,
        }
    }

    /// What holds of each operator. Nothing is done.
    pub fn known(&self)
        ensures { IsOperator self.now }
    {
        let _group = &self.group;
    }

    /// The group of the charges.
    pub fn group(&self) -> &Group<K>
        ensures { result.now ≡ self.now.group }
    {
        &self.group
    }

    /// The leg of the site.
    pub fn leg(&self) -> &Leg<K>
        ensures { result.now ≡ self.now.leg }
    {
        &self.leg
    }

    /// The name.
    pub fn name(&self) -> &Name
        ensures { result.now ≡ self.now.name }
    {
        &self.name
    }

    /// The charge.
    pub fn charge(&self) -> &Charge<K>
        ensures { result.now ≡ self.now.charge }
    {
        &self.charge
    }

    /// The entries, row after row.
    pub fn entries(&self) -> &[Gauss]
        ensures { result.now ≡ self.now.entries }
    {
        &self.entries
    }

    /// The entry at a row and a column, values of the site's leg.
    pub fn entry(&self, row: u32, column: u32) -> Gauss
        requires row { row < total self.now.leg.sectors }
        requires column { column < total self.now.leg.sectors }
        ensures { result ≡ element self.now row column }
    {
        self.known();
        let dim = self.leg().dim() as usize;
        let entries = self.entries();
        entries[row as usize * dim + column as usize]
    }

    /// An equal operator.
    pub fn copy(&self) -> Result<OpTable<K>, AllocError>
        ensures { IfOk result (λ o. o ≡ self.now) }
    {
        Ok(OpTable {
            group: self.group,
            leg: self.leg.copy()?,
            name: self.name.copy()?,
            charge: self.charge,
            entries: self.entries.clone()?,
        })
    }
}

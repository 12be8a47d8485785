//! A sum of products of operators on sites.

ghost use Rattle.std.specs.Prelude.{◌≡◌, ◌<◌, ◌≤◌, length, IfOk, IfErr};
ghost use Rattle.std.specs.List.{All};
ghost use Rattle.qn_sites.specs.Sites.{SiteValue};
ghost use Rattle.qn_opsum.specs.Sums.{charge_of, term_at};
ghost use Rattle.qn_opsum.specs.Refusals.{IsSum, IsSumFault};

use crate::checks::{checked, known_sites};
use crate::fault::SumFault;
use crate::term::Term;
use qn_charge::{Charge, Group};
use qn_sites::SiteTable;
use std::alloc::Global;
use std::marker::Model;

/// A sum of products of operators on sites, in which all terms have one charge, the flux.
#[derive(Debug, Drop)]
pub struct OpSum<const K: usize> {
    group: Group<K>,
    sites: Vec<SiteTable<K>>,
    terms: Vec<Term>,
    flux: Charge<K>,
}

impl<const K: usize> Model for OpSum<K> {
    ghost use Rattle.qn_opsum.specs.Sums.{SumValue};
    ghost use Rattle.qn_opsum.specs.Refusals.{IsSum};

    ghost Value = { SumValue };

    ghost view = { λ s. record { group = s.group; sites = s.sites.items; terms = s.terms.items; flux = s.flux } };

    ghost invariant = { λ s. IsSum (record { group = s.group; sites = s.sites.items; terms = s.terms.items; flux = s.flux }) };
}

impl<const K: usize> OpSum<K> {
    /// The sum of these terms on these sites, or their first fault. Takes no memory.
    pub fn new(
        group: Group<K>,
        sites: Vec<SiteTable<K>>,
        terms: Vec<Term>,
    ) -> Result<OpSum<K>, SumFault>
        requires some { 0 < length sites.items }
        requires few { length sites.items ≤ 64 }
        requires groups { All (λ (s : SiteValue). s.group ≡ group) sites.items }
        ensures ok { IfOk result (λ v.
            v ≡
            record { group = group.entry; sites = sites.entry.items; terms = terms.items; flux = charge_of group.entry sites.entry.items (term_at terms.items 0).factors }) }
        ensures err { IfErr result (IsSumFault group.entry sites.entry.items terms.items) }
    {
        known_sites(&group, &sites);
        let flux = checked(&group, &sites, &terms)?;
        Ok(OpSum {
            group,
            sites,
            terms,
            flux,
        })
    }

    /// The allocator of the terms.
    pub(crate) fn allocator(&self) -> Global {
        *self.terms.allocator()
    }

    /// What holds of each operator sum. Nothing is done.
    pub fn known(&self)
        ensures { IsSum self.now }
    {
        let _group = &self.group;
    }

    /// The group of the charges.
    pub fn group(&self) -> &Group<K>
        ensures { result.now ≡ self.now.group }
    {
        &self.group
    }

    /// The sites, from 1 to 64.
    pub fn sites(&self) -> &[SiteTable<K>]
        ensures { result.now ≡ self.now.sites }
    {
        &self.sites
    }

    /// The terms, from 1 to 2,000.
    pub fn terms(&self) -> &[Term]
        ensures { result.now ≡ self.now.terms }
    {
        &self.terms
    }

    /// The charge of each term.
    pub fn flux(&self) -> &Charge<K>
        ensures { result.now ≡ self.now.flux }
    {
        &self.flux
    }
}

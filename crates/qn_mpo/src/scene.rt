//! What the transitions at a site are made of.
ghost use Rattle.std.specs.Prelude.{◌≡◌, ◌<◌, length, map};
ghost use Rattle.qn_opsum.specs.Sums.{site_at};
ghost use Rattle.qn_auto.specs.SumAutomaton.{states, terms_in};
ghost use Rattle.qn_mpo.specs.Rows.{IsScene};
ghost use Rattle.qn_mpo.specs.States.{with_charge};
ghost use Rattle.qn_mpo.specs.Tables.{AreTables};

use crate::state::State;
use crate::table::Table;
use crate::term::Ordered;
use qn_opsum::OpSum;
use std::marker::Model;

/// What a site's transitions are made of: the sum and its terms in site order, the site, from 0, the number
/// of its values, its operators' tables, and the states right of it.
#[derive(Drop)]
pub(crate) struct Scene<'a, const K: usize> {
    sum: &'a OpSum<K>,
    terms: &'a [Ordered],
    site: u32,
    dim: u32,
    tables: &'a [Table],
    rights: &'a [State<K>],
}

impl<'a, const K: usize> Model for Scene<'a, K> {
    ghost use Rattle.qn_mpo.specs.Rows.{SceneValue, IsScene};

    ghost Value = { SceneValue };

    ghost view = { λ s. record { sum = s.sum.now; terms = s.terms.now; site = s.site; dim = s.dim; tables = s.tables.now; rights = s.rights.now } };

    ghost invariant = { λ s. IsScene (
        record { sum = s.sum.now; terms = s.terms.now; site = s.site; dim = s.dim; tables = s.tables.now; rights = s.rights.now }) };
}

impl<'a, const K: usize> Scene<'a, K> {
    /// The scene of site `site`, from 0.
    pub(crate) fn new(
        sum: &'a OpSum<K>,
        terms: &'a [Ordered],
        site: u32,
        tables: &'a [Table],
        rights: &'a [State<K>],
    ) -> Scene<'a, K>
        requires within { site < length sum.now.sites }
        requires terms { terms.now ≡ terms_in sum.now }
        requires tables { AreTables (site_at sum.now.sites site) tables.now }
        requires rights { rights.now ≡ map (with_charge sum.now) (states sum.now site) }
        ensures sum { result.sum ≡ sum.now }
        ensures site { result.site ≡ site }
    {
        sum.known();
        Scene {
            sum,
            terms,
            site,
            dim: sum.sites()[site as usize].leg().dim(),
            tables,
            rights,
        }
    }

    /// What holds of each. Nothing is done.
    pub(crate) fn known(&self)
        ensures { IsScene self.now }
    {
        let _site = self.site;
    }

    /// The sum.
    pub(crate) fn sum(&self) -> &'a OpSum<K>
        ensures { result.now ≡ self.now.sum }
    {
        self.sum
    }

    /// The terms in site order.
    pub(crate) fn terms(&self) -> &'a [Ordered]
        ensures { result.now ≡ self.now.terms }
    {
        self.terms
    }

    /// The site, from 0.
    pub(crate) fn site(&self) -> u32
        ensures { result ≡ self.now.site }
    {
        self.site
    }

    /// The number of values of the site.
    pub(crate) fn dim(&self) -> usize
        ensures { result ≡ self.now.dim }
    {
        self.dim as usize
    }

    /// The tables of the site's operators.
    pub(crate) fn tables(&self) -> &'a [Table]
        ensures { result.now ≡ self.now.tables }
    {
        self.tables
    }

    /// The states right of the site.
    pub(crate) fn rights(&self) -> &'a [State<K>]
        ensures { result.now ≡ self.now.rights }
    {
        self.rights
    }
}

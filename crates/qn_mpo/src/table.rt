//! Tables of operators, row after row.
ghost use Rattle.std.specs.Prelude.{◌≡◌, ◌<◌, ◌≤◌, ◌/◌, ◌%◌, ℕ, [], ◌∷◌, IfOk};
ghost use Rattle.std.specs.List.{All};
ghost use Rattle.qn_gauss.specs.Gaussian.{Gaussian, limit, mag};
ghost use Rattle.qn_index.specs.Places.{IsValues};
ghost use Rattle.qn_sites.specs.Operators.{element};
ghost use Rattle.qn_opsum.specs.Strings.{identity};
ghost use Rattle.qn_mpo.specs.Builds.{AnswersSite};
ghost use Rattle.qn_mpo.specs.Tables.{AreTables, IsTableOf};

use qn_gauss::Gauss;
use qn_rule::{EntryFunction, Rule};
use qn_sites::{OpTable, SiteTable};
use std::alloc::{AllocError, Global};
use std::marker::Model;

/// A square table, row after row.
#[derive(Debug, Drop)]
pub(crate) struct Table {
    entries: Vec<Gauss>,
}

impl Model for Table {
    ghost use Rattle.std.specs.Prelude.{List};
    ghost use Rattle.qn_gauss.specs.Gaussian.{Gaussian};

    ghost Value = { List Gaussian };

    ghost view = { λ t. t.entries.items };
}

impl Table {
    /// The table with these entries.
    pub(crate) fn new(entries: Vec<Gauss>) -> Table
        ensures { result ≡ entries.items }
    {
        Table { entries }
    }

    /// The entries.
    pub(crate) fn entries(&self) -> &[Gauss]
        ensures { result.now ≡ self.now }
    {
        &self.entries
    }

    /// What holds of each entry: its magnitude is at most 2^127 - 1. Nothing is done.
    pub(crate) fn known(&self)
        ensures { All (λ z. mag z ≤ limit) self.now }
    {
        for i in 0..self.entries.len() {
            self.entries[i].known();
        }
    }

    /// The entries alone.
    pub(crate) fn into_entries(self) -> Vec<Gauss>
        ensures { result.items ≡ self }
    {
        self.entries
    }

    /// An equal table.
    pub(crate) fn copy(&self) -> Result<Table, AllocError>
        ensures { IfOk result (λ t. t ≡ self.now) }
    {
        Ok(Table {
            entries: self.entries.clone()?,
        })
    }

    /// The table of the identity.
    pub(crate) fn identity(alloc: Global, dim: usize) -> Result<Table, AllocError>
        requires { dim ≤ 64 }
        ensures { IfOk result (IsTableOf dim identity) }
    {
        let mut entries = Vec::with_capacity(alloc, dim * dim)?;
        for place in 0..dim * dim {
            entries.push(unit_entry(dim, place))?;
        }
        Ok(Table { entries })
    }
}

/// The entry of the identity at a place of its table.
fn unit_entry(dim: usize, place: usize) -> Gauss
    requires { 0 < dim }
    ensures { result ≡ identity (place / dim) (place % dim) }
{
    if place / dim == place % dim {
        Gauss::ONE
    } else {
        Gauss::ZERO
    }
}

/// The table of an operator, asked of its rule entry by entry.
fn asked<const K: usize, F: EntryFunction>(
    alloc: Global,
    dim: u32,
    rule: &Rule<K, F>,
    op: &OpTable<K>,
) -> Result<Table, AllocError>
    requires small { dim ≤ 64 }
    requires rows { (x y : ℕ) → x < dim → y < dim → IsValues rule.now.legs (x ∷ y ∷ []) }
    requires entries { (x y : ℕ) (z : Gaussian) → x < dim → y < dim → F.answers rule.now.function (x ∷ y ∷ []) z →
        z ≡ element op.now x y }
    ensures { IfOk result (IsTableOf dim (element op.now)) }
{
    let mut entries = Vec::with_capacity(alloc, dim as usize * dim as usize)?;
    for place in 0..dim * dim {
        entries.push(rule.ask(&[place / dim, place % dim]))?;
    }
    Ok(Table { entries })
}

/// The tables of all operators of a site, asked of their rules.
pub(crate) fn asked_all<const K: usize, F: EntryFunction>(
    alloc: Global,
    site: &SiteTable<K>,
    rules: &[Rule<K, F>],
) -> Result<Vec<Table>, AllocError>
    requires { AnswersSite F.answers site.now rules.now }
    ensures { IfOk result (λ ts. AreTables site.now ts.items) }
{
    site.known();
    let dim = site.leg().dim();
    let mut tables = Vec::with_capacity(alloc, rules.len())?;
    for i in 0..rules.len() {
        tables.push(asked(alloc, dim, &rules[i], &site.ops()[i])?)?;
    }
    Ok(tables)
}

//! Products of operators on one site, made from left to right.
ghost use Rattle.std.specs.Prelude.{◌≡◌, ◌≤◌, ◌<◌, ◌+◌, ◌*◌, ℕ, ◌∷◌, length, IfOk, IfErr, OnOk, MatchOption};
ghost use Rattle.std.specs.List.{All};
ghost use Rattle.qn_gauss.specs.Gaussian.{limit};
ghost use Rattle.qn_opsum.specs.Strings.{matrix};
ghost use Rattle.qn_auto.specs.Building.{IsLarge, ProductPasses};
ghost use Rattle.qn_auto.specs.Flux.{on_site};
ghost use Rattle.qn_auto.specs.SumAutomaton.{sites_in};
ghost use Rattle.qn_mpo.specs.Tables.{IsStop, IsTableOf, cell, entry_size, entry_sum};

use crate::fault::Stop;
use crate::scene::Scene;
use crate::sum::Sum;
use crate::table::Table;
use qn_gauss::{Gauss, Steps};
use qn_strides::entry_at;
use std::alloc::Global;
use std::sync::ledger::Ledger;

/// The entry of a table at a row and a column.
fn cell(dim: usize, table: &[Gauss], row: usize, column: usize) -> Gauss
    requires small { dim ≤ 64 }
    requires row { row < dim }
    requires column { column < dim }
    ensures { result ≡ cell dim table.now row column }
{
    entry_at(table, (row * dim + column) as u64)
}

/// An entry of the product of two tables, or `None` where its sum of magnitudes is above 2^127 - 1.
fn product_entry<L: Ledger>(
    dim: usize,
    left: &[Gauss],
    right: &[Gauss],
    row: usize,
    column: usize,
    steps: &mut Steps<L>,
) -> Option<Gauss>
    requires small { dim ≤ 64 }
    requires row { row < dim }
    requires column { column < dim }
    ensures value { MatchOption result (limit < entry_size dim left.now right.now row column) (λ z.
        (z ≡ entry_sum dim left.now right.now row column) × (entry_size dim left.now right.now row column ≤ limit)) }
    ensures ticks { steps.new ≤ steps.old + dim }
{
    let mut sum = Sum::ZERO;
    for v in 0..dim {
        let first = cell(dim, left, row, v);
        if first.is_zero() {
            continue;
        }
        let second = cell(dim, right, v, column);
        match sum.plus(first, second, steps) {
            Some(more) => sum = more,
            None => return None,
        }
    }
    Some(sum.value)
}

/// The product of two tables.
fn times<L: Ledger>(
    alloc: Global,
    dim: usize,
    left: &[Gauss],
    right: &[Gauss],
    steps: &mut Steps<L>,
) -> Result<Table, Stop>
    requires small { dim ≤ 64 }
    ensures ok { IfOk result (IsTableOf dim (entry_sum dim left.now right.now)) }
    ensures fits { OnOk result (IsLarge dim (entry_size dim left.now right.now) → ⊥) }
    ensures err { IfErr result (IsStop (IsLarge dim (entry_size dim left.now right.now))) }
    ensures ticks { steps.new ≤ steps.old + dim * dim * dim }
{
    let mut entries = Vec::with_capacity(alloc, dim * dim)?;
    for place in 0..dim * dim {
        match product_entry(dim, left, right, place / dim, place % dim, steps) {
            Some(entry) => entries.push(entry)?,
            None => return Err(Stop::Passes),
        }
    }
    Ok(Table::new(entries))
}

/// The product of a first operator on the site and later ones.
fn product_from<const K: usize, L: Ledger>(
    alloc: Global,
    scene: &Scene<'_, K>,
    first: u32,
    later: &[u32],
    steps: &mut Steps<L>,
) -> Result<Table, Stop>
    requires first { first < length scene.now.tables }
    requires later { All (λ o. o < length scene.now.tables) later.now }
    ensures ok { IfOk result (
        IsTableOf scene.now.dim (
        matrix (sites_in scene.now.sum) (on_site scene.now.site (first ∷ later.now)) scene.now.site)) }
    ensures none { OnOk result (ProductPasses (sites_in scene.now.sum) scene.now.site (first ∷ later.now) → ⊥) }
    ensures err { IfErr result (IsStop (ProductPasses (sites_in scene.now.sum) scene.now.site (first ∷ later.now))) }
    ensures ticks { steps.new ≤ steps.old + length later.now * (scene.now.dim * scene.now.dim * scene.now.dim) }
{
    scene.known();
    let dim = scene.dim();
    let tables = scene.tables();
    let mut made = tables[first as usize].copy()?;
    for i in 0..later.len() {
        let right = &tables[later[i] as usize];
        match times(alloc, dim, made.entries(), right.entries(), steps) {
            Ok(more) => made = more,
            Err(stop) => return Err(stop),
        }
    }
    Ok(made)
}

/// The product of operators on the site, and the identity where there is none.
pub(crate) fn product<const K: usize, L: Ledger>(
    alloc: Global,
    scene: &Scene<'_, K>,
    ops: &[u32],
    steps: &mut Steps<L>,
) -> Result<Table, Stop>
    requires { All (λ o. o < length scene.now.tables) ops.now }
    ensures ok { IfOk result (
        IsTableOf scene.now.dim (matrix (sites_in scene.now.sum) (on_site scene.now.site ops.now) scene.now.site)) }
    ensures none { OnOk result (ProductPasses (sites_in scene.now.sum) scene.now.site ops.now → ⊥) }
    ensures err { IfErr result (IsStop (ProductPasses (sites_in scene.now.sum) scene.now.site ops.now)) }
    ensures ticks { steps.new ≤ steps.old + length ops.now * (scene.now.dim * scene.now.dim * scene.now.dim) }
{
    scene.known();
    match ops.split_first() {
        Some((first, later)) => product_from(alloc, scene, *first, later, steps),
        None => Ok(Table::identity(alloc, scene.dim())?),
    }
}

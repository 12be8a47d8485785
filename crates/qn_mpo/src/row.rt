//! The transitions from one state at a site.
ghost use Rattle.std.specs.Prelude.{◌≡◌, ◌≢◌, ◌≤◌, ◌<◌, ◌+◌, ◌*◌, ◌==◌, ◌/◌, ◌%◌, ◌⊎◌, ℕ, false, length, map, slice_index_or, IfOk, IfErr, OnOk, MatchOption};
ghost use Rattle.std.specs.List.{All};
ghost use Rattle.qn_gauss.specs.Gaussian.{limit};
ghost use Rattle.qn_sign.specs.Sign.{is_in};
ghost use Rattle.qn_auto.specs.Automaton.{begin, same_stage, stage_at, to_come};
ghost use Rattle.qn_auto.specs.Automaton.Stage.{not_begun};
ghost use Rattle.qn_auto.specs.Building.{ProductPasses};
ghost use Rattle.qn_auto.specs.Flux.{ops_at};
ghost use Rattle.qn_auto.specs.LinkOrder.{IsAscending};
ghost use Rattle.qn_auto.specs.SumAutomaton.{sites_in, states, terms_in};
ghost use Rattle.qn_auto.specs.Terms.{AreTermOf, IsStageOf};
ghost use Rattle.qn_mpo.specs.Rows.{IsRowFrom, PassesFrom, begun_steps, dim_at, row_cell, steps_from};
ghost use Rattle.qn_mpo.specs.States.{order_by, value_lower};
ghost use Rattle.qn_mpo.specs.Sums.{AreFirst, HaveTable, HaveTerm, TablePasses, TermPasses, first_value};
ghost use Rattle.qn_mpo.specs.Tables.{IsStop};

use crate::factor::{Factor, begin, ops_at};
use crate::fault::Stop;
use crate::product::product;
use crate::scene::Scene;
use crate::stage::Stage;
use crate::state::{State, charged};
use crate::sum::Sum;
use crate::term::Ordered;
use qn_gauss::{Gauss, Steps};
use qn_strides::entry_at;
use std::alloc::{AllocError, Global};
use std::cmp::Ordering;
use std::marker::Model;
use std::sync::ledger::Ledger;

/// The transitions from one state: a table for each state right of the site, from the first one that is
/// reached on. After the last table all is 0.
#[derive(Debug, Drop)]
pub(crate) struct Row {
    first: usize,
    entries: Vec<Gauss>,
}

impl Model for Row {
    ghost use Rattle.qn_mpo.specs.Rows.{RowValue};

    ghost Value = { RowValue };

    ghost view = { λ r. record { first = r.first; entries = r.entries.items } };
}

impl Row {
    /// The entry of the transitions to the state with this number, at a place of its table of `size` entries.
    pub(crate) fn entry(&self, size: usize, right: usize, place: usize) -> Gauss
        requires size { size ≤ 4096 }
        requires right { right ≤ 2000 }
        requires place { place ≤ 4096 }
        ensures { result ≡ row_cell size self.now right place }
    {
        if right < self.first {
            return Gauss::ZERO;
        }
        entry_at(&self.entries, ((right - self.first) * size + place) as u64)
    }
}

/// Where a state stands in a list in order.
fn place_of<const K: usize>(states: &[State<K>], state: &State<K>) -> Option<usize>
    requires { IsAscending value_lower states.now }
    ensures { MatchOption result ((i : ℕ) → i < length states.now → slice_index_or states.now i state.now ≢ state.now) (λ i.
        (i < length states.now) × (slice_index_or states.now i state.now ≡ state.now)) }
{
    let found = states.binary_search_by(
        |other: &State<K>| -> Ordering
            ensures { result ≡ order_by value_lower other.now state.entry.now }
        { other.compare(state) },
    );
    match found {
        Ok(number) => Some(number),
        Err(_) => None,
    }
}

/// The number of a state right of the site.
fn number_of<const K: usize>(scene: &Scene<'_, K>, stage: Stage) -> Option<usize>
    requires { IsStageOf scene.now.sum stage }
    ensures { MatchOption result (is_in same_stage stage (states scene.now.sum scene.now.site) ≡ false) (λ n.
        (n < length (states scene.now.sum scene.now.site)) ×
        (stage_at (states scene.now.sum scene.now.site) n ≡ stage)) }
{
    scene.known();
    let state = charged(scene.sum(), stage);
    place_of(scene.rights(), &state)
}

/// The transition from a state within a term or after it, which has these operators to come.
fn later_row<const K: usize, L: Ledger>(
    alloc: Global,
    scene: &Scene<'_, K>,
    rest: &[Factor],
    steps: &mut Steps<L>,
) -> Result<Row, Stop>
    requires { AreTermOf scene.now.sum rest.now }
    ensures ok { IfOk result (IsRowFrom scene.now.sum scene.now.site (to_come rest.now)) }
    ensures none { OnOk result (PassesFrom scene.now.sum scene.now.site (to_come rest.now) → ⊥) }
    ensures err { IfErr result (IsStop (PassesFrom scene.now.sum scene.now.site (to_come rest.now))) }
    ensures ticks { steps.new ≤ steps.old + length (ops_at scene.now.site rest.now) * (
        scene.now.dim * scene.now.dim * scene.now.dim) }
{
    scene.known();
    let ops = ops_at(alloc, scene.site(), rest)?;
    let made = match product(alloc, scene, &ops, steps) {
        Ok(table) => table,
        Err(stop) => return Err(stop),
    };
    made.known();
    let target = Stage::next(alloc, scene.site(), rest)?;
    match number_of(scene, target) {
        Some(first) => Ok(Row {
            first,
            entries: made.into_entries(),
        }),
        None => Ok(Row {
            first: 0,
            entries: Vec::new(alloc),
        }),
    }
}

/// Adds a number times a table to the sums from a place on.
fn add_table<L: Ledger>(
    amount: Gauss,
    table: &[Gauss],
    start: usize,
    sums: &mut [Sum],
    steps: &mut Steps<L>,
) -> Result<(), Stop>
    requires { start + length table.now ≤ length sums.old }
    ensures ok { OnOk result (HaveTable amount table.now start sums.old sums.new) }
    ensures length { length sums.new ≡ length sums.old }
    ensures err { IfErr result (IsStop (TablePasses amount table.now start sums.old)) }
    ensures ticks { steps.new ≤ steps.old + length table.now }
{
    for place in 0..table.len() {
        match sums[start + place].plus(amount, table[place], steps) {
            Some(more) => sums[start + place] = more,
            None => return Err(Stop::Passes),
        }
    }
    Ok(())
}

/// Adds a term that begins at the site to the sums of the transitions from not begun.
fn add_begun<const K: usize, L: Ledger>(
    alloc: Global,
    scene: &Scene<'_, K>,
    term: &Ordered,
    sums: &mut [Sum],
    steps: &mut Steps<L>,
) -> Result<(), Stop>
    requires known { AreTermOf scene.now.sum term.now.factors }
    requires begins { begin term.now.factors ≡ scene.now.site }
    requires count { length sums.old ≡
        length (states scene.now.sum scene.now.site) * (
        dim_at scene.now.sum scene.now.site * dim_at scene.now.sum scene.now.site) }
    ensures ok { OnOk result (
        HaveTerm (sites_in scene.now.sum) scene.now.site (states scene.now.sum scene.now.site) term.now sums.old sums.new) }
    ensures length { length sums.new ≡ length sums.old }
    ensures none { OnOk result (ProductPasses (sites_in scene.now.sum) scene.now.site (ops_at scene.now.site term.now.factors) → ⊥) }
    ensures err { IfErr result (
        IsStop (
        ProductPasses (sites_in scene.now.sum) scene.now.site (ops_at scene.now.site term.now.factors) ⊎
        TermPasses (sites_in scene.now.sum) scene.now.site (states scene.now.sum scene.now.site) term.now sums.old)) }
    ensures ticks { steps.new ≤ steps.old + begun_steps (sites_in scene.now.sum) scene.now.site term.now }
{
    scene.known();
    let dim = scene.dim();
    let ops = ops_at(alloc, scene.site(), term.factors())?;
    let made = match product(alloc, scene, &ops, steps) {
        Ok(table) => table,
        Err(stop) => return Err(stop),
    };
    let target = Stage::next(alloc, scene.site(), term.factors())?;
    match number_of(scene, target) {
        Some(number) => add_table(
            term.amount,
            made.entries(),
            number * (dim * dim),
            sums,
            steps,
        ),
        None => Ok(()),
    }
}

/// Adds a term to the sums of the transitions from not begun where it begins at the site.
fn add_term<const K: usize, L: Ledger>(
    alloc: Global,
    scene: &Scene<'_, K>,
    term: &Ordered,
    sums: &mut [Sum],
    steps: &mut Steps<L>,
) -> Result<(), Stop>
    requires known { AreTermOf scene.now.sum term.now.factors }
    requires count { length sums.old ≡
        length (states scene.now.sum scene.now.site) * (
        dim_at scene.now.sum scene.now.site * dim_at scene.now.sum scene.now.site) }
    ensures ok { OnOk result (
        HaveTerm (sites_in scene.now.sum) scene.now.site (states scene.now.sum scene.now.site) term.now sums.old sums.new) }
    ensures length { length sums.new ≡ length sums.old }
    ensures none { OnOk result (
        (begin term.now.factors ≡ scene.now.site) ×
        ProductPasses (sites_in scene.now.sum) scene.now.site (ops_at scene.now.site term.now.factors) →
        ⊥) }
    ensures err { IfErr result (
        IsStop (
        (
        (begin term.now.factors ≡ scene.now.site) ×
        ProductPasses (sites_in scene.now.sum) scene.now.site (ops_at scene.now.site term.now.factors)) ⊎
        TermPasses (sites_in scene.now.sum) scene.now.site (states scene.now.sum scene.now.site) term.now sums.old)) }
    ensures ticks { steps.new ≤ steps.old + begun_steps (sites_in scene.now.sum) scene.now.site term.now }
{
    if begin(term.factors()) != scene.site() {
        return Ok(());
    }
    add_begun(alloc, scene, term, sums, steps)
}

/// The number of the state not begun, or the number of all states where it is none of them.
fn waiting_of<const K: usize>(alloc: Global, scene: &Scene<'_, K>) -> usize
    ensures { (n : ℕ) → n < length (states scene.now.sum scene.now.site) →
        same_stage not_begun (stage_at (states scene.now.sum scene.now.site) n) ≡ (n == result) }
{
    scene.known();
    match number_of(scene, Stage::not_begun(alloc)) {
        Some(number) => number,
        None => scene.rights().len(),
    }
}

/// The sum of the identity at a place of its table, or of nothing.
fn first_sum(dim: usize, waits: bool, place: usize) -> Sum
    requires { 0 < dim }
    ensures { result ≡ first_value waits (place / dim) (place % dim) }
{
    if !waits {
        return Sum::ZERO;
    }
    if place / dim == place % dim {
        return Sum::ONE;
    }
    Sum::ZERO
}

/// The sums of the transitions from not begun before any term is added.
fn first_sums<const K: usize>(alloc: Global, scene: &Scene<'_, K>) -> Result<Vec<Sum>, AllocError>
    ensures { IfOk result (λ ss.
        AreFirst (dim_at scene.now.sum scene.now.site) (states scene.now.sum scene.now.site) ss.items) }
{
    scene.known();
    let dim = scene.dim();
    let size = dim * dim;
    let count = scene.rights().len();
    let waiting = waiting_of(alloc, scene);
    let mut sums = Vec::with_capacity(alloc, count * size)?;
    for place in 0..count * size {
        sums.push(first_sum(dim, place / size == waiting, place % size))?;
    }
    Ok(sums)
}

/// The values of sums.
fn values_of(alloc: Global, sums: &[Sum]) -> Result<Vec<Gauss>, AllocError>
    ensures values { IfOk result (λ vs. vs.items ≡ map (λ s. s.value) sums.now) }
    ensures fit { OnOk result (All (λ s. s.size ≤ limit) sums.now) }
{
    let mut values = Vec::with_capacity(alloc, sums.len())?;
    for sum in sums {
        values.push(sum.number())?;
    }
    Ok(values)
}

/// The transitions from not begun.
fn first_row<const K: usize, L: Ledger>(
    alloc: Global,
    scene: &Scene<'_, K>,
    steps: &mut Steps<L>,
) -> Result<Row, Stop>
    ensures ok { IfOk result (IsRowFrom scene.now.sum scene.now.site not_begun) }
    ensures none { OnOk result (PassesFrom scene.now.sum scene.now.site not_begun → ⊥) }
    ensures err { IfErr result (IsStop (PassesFrom scene.now.sum scene.now.site not_begun)) }
    ensures ticks { steps.new ≤ steps.old + steps_from (sites_in scene.now.sum) (terms_in scene.now.sum) scene.now.site not_begun }
{
    scene.known();
    let mut sums = first_sums(alloc, scene)?;
    for term in scene.terms() {
        match add_term(alloc, scene, term, &mut sums, steps) {
            Ok(()) => {}
            Err(stop) => return Err(stop),
        }
    }
    Ok(Row {
        first: 0,
        entries: values_of(alloc, &sums)?,
    })
}

/// The transitions from a state.
pub(crate) fn row_from<const K: usize, L: Ledger>(
    alloc: Global,
    scene: &Scene<'_, K>,
    left: &State<K>,
    steps: &mut Steps<L>,
) -> Result<Row, Stop>
    requires { IsStageOf scene.now.sum left.now.stage }
    ensures ok { IfOk result (IsRowFrom scene.now.sum scene.now.site left.now.stage) }
    ensures none { OnOk result (PassesFrom scene.now.sum scene.now.site left.now.stage → ⊥) }
    ensures err { IfErr result (IsStop (PassesFrom scene.now.sum scene.now.site left.now.stage)) }
    ensures ticks { steps.new ≤ steps.old + steps_from (sites_in scene.now.sum) (terms_in scene.now.sum) scene.now.site left.now.stage }
{
    scene.known();
    match left.stage().begun() {
        Some(rest) => later_row(alloc, scene, rest, steps),
        None => first_row(alloc, scene, steps),
    }
}

//! The tensor of one site.
ghost use Rattle.std.specs.Prelude.{◌≡◌, ◌≤◌, ◌+◌, ℤ, List, map, IfOk, IfErr, OnOk};
ghost use Rattle.qn_index.specs.Places.{IsValues};
ghost use Rattle.qn_charge.specs.declared.factor.Factor.{Factor};
ghost use Rattle.qn_index.specs.Extents.{IsWithinLimits};
ghost use Rattle.qn_index.specs.Legs.{LegValue};
ghost use Rattle.qn_block.specs.Refusals.{IsShapeFault};
ghost use Rattle.qn_auto.specs.Automaton.{Stage, entry_from};
ghost use Rattle.qn_auto.specs.SumAutomaton.{HasShapeAt, IsTensorAt, entry_at_site, legs_at, sites_in, state_lower, terms_in};
ghost use Rattle.qn_mpo.specs.Rows.{AreRows, IsRowFrom, PassesHere, left_stages, own_legs, right_value, steps_at};
ghost use Rattle.qn_mpo.specs.States.{with_charge};
ghost use Rattle.qn_mpo.specs.Tables.{IsStop};

use crate::fault::Stop;
use crate::row::{Row, row_from};
use crate::scene::Scene;
use crate::state::State;
use qn_block::{BlockFault, BlockTensor};
use qn_gauss::{Gauss, Steps};
use std::alloc::{AllocError, Global};
use std::sync::ledger::Ledger;

/// The transitions at a site from the states left of it.
pub(crate) fn rows_from<const K: usize, L: Ledger>(
    alloc: Global,
    scene: &Scene<'_, K>,
    lefts: &[State<K>],
    steps: &mut Steps<L>,
) -> Result<Vec<Row>, Stop>
    requires lefts { lefts.now ≡ map (with_charge scene.now.sum) (left_stages scene.now.sum scene.now.site) }
    ensures ok { IfOk result (λ rs. AreRows scene.now.sum scene.now.site rs.items) }
    ensures none { OnOk result (PassesHere scene.now.sum scene.now.site → ⊥) }
    ensures err { IfErr result (IsStop (PassesHere scene.now.sum scene.now.site)) }
    ensures ticks { steps.new ≤ steps.old + steps_at scene.now.sum scene.now.site }
{
    scene.known();
    let mut rows = Vec::with_capacity(alloc, lefts.len())?;
    for left in lefts {
        match row_from(alloc, scene, left, steps) {
            Ok(row) => rows.push(row)?,
            Err(stop) => return Err(stop),
        }
    }
    Ok(rows)
}

/// The value of the right leg, the third, and 0 where there is none.
fn right_of(values: &[u32]) -> usize
    ensures { result ≡ right_value values.now }
{
    if values.len() > 2 {
        values[2] as usize
    } else {
        0
    }
}

/// The entry at the values of the legs s', s, right, from one state.
fn entry_from<const K: usize>(scene: &Scene<'_, K>, row: &Row, values: &[u32]) -> Gauss
    requires values { IsValues (own_legs scene.now.sum scene.now.site) values.now }
    ensures { (l : Stage) → IsRowFrom scene.now.sum scene.now.site l row.now →
        result ≡
        entry_from (state_lower scene.now.sum) (sites_in scene.now.sum) (terms_in scene.now.sum) scene.now.site l values.now }
{
    scene.known();
    let dim = scene.dim();
    let place = values[0] as usize * dim + values[1] as usize;
    row.entry(dim * dim, right_of(values), place)
}

/// The entry at the values of the legs left, s', s, right; the first site has no left leg.
fn entry_at<const K: usize>(scene: &Scene<'_, K>, rows: &[Row], values: &[u32]) -> Gauss
    requires rows { AreRows scene.now.sum scene.now.site rows.now }
    requires values { IsValues (legs_at scene.now.sum scene.now.site) values.now }
    ensures { result ≡ entry_at_site scene.now.sum scene.now.site values.now }
{
    if scene.site() == 0 {
        return entry_from(scene, &rows[0], values);
    }
    let Some((left, own)) = values.split_first() else {
        return Gauss::ZERO;
    };
    entry_from(scene, &rows[*left as usize], own)
}

/// Of a shape within the limits the only fault is want of memory.
fn memory_of(fault: BlockFault) -> AllocError
    requires { (fs : List Factor) × (ls : List LegValue) × (q : List ℤ) × IsWithinLimits fs ls q × IsShapeFault fs ls q fault }
{
    match fault {
        BlockFault::Memory => AllocError,
        _ => unreachable!(),
    }
}

/// A tensor without blocks filled with the transitions at its site; blocks of zeros are left out.
pub(crate) fn filled<const K: usize>(
    alloc: Global,
    scene: &Scene<'_, K>,
    empty: BlockTensor<K>,
    rows: &[Row],
) -> Result<BlockTensor<K>, AllocError>
    requires shape { HasShapeAt scene.now.sum scene.now.site empty }
    requires rows { AreRows scene.now.sum scene.now.site rows.now }
    ensures { IfOk result (IsTensorAt scene.now.sum scene.now.site) }
{
    scene.known();
    let (group, legs, flux, _) = empty.into_parts();
    let entry = |values: &[u32]| -> Gauss
        requires rows { AreRows scene.now.sum scene.now.site rows.now }
        requires values { IsValues (legs_at scene.now.sum scene.now.site) values.now }
        ensures { result ≡ entry_at_site scene.entry.now.sum scene.entry.now.site values.now }
    { entry_at(scene, rows, values) };
    match BlockTensor::from_fn(alloc, group, legs, flux, &entry) {
        Ok(tensor) => {
            tensor.known();
            Ok(tensor.canonical())
        }
        Err(fault) => Err(memory_of(fault)),
    }
}

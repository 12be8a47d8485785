//! The tensors of the sites, one after the other.
ghost use Rattle.std.specs.Prelude.{◌≡◌, ◌<◌, ◌≤◌, ◌+◌, ℕ, [], ◌∷◌, length, map, slice_index_or, IfOk, IfErr, OnOk};
ghost use Rattle.qn_charge.specs.Firsts.{HasNone};
ghost use Rattle.qn_opsum.specs.Sums.{SumValue, site_at};
ghost use Rattle.qn_auto.specs.Automaton.Stage.{not_begun};
ghost use Rattle.qn_auto.specs.SumAutomaton.{HasShapeAt, IsAutomatonOf, IsTensorAt, PassesAt, made_of, states, terms_in};
ghost use Rattle.qn_mpo.specs.Builds.{AnswersSite, IsPassing, IsSiteStop};
ghost use Rattle.qn_mpo.specs.Links.{AreEmpty, AreLinks};
ghost use Rattle.qn_mpo.specs.Rows.{left_stages, steps_at};
ghost use Rattle.qn_mpo.specs.States.{with_charge};

use crate::fault::{BuildFault, Stop};
use crate::frame::Frame;
use crate::link::Link;
use crate::scene::Scene;
use crate::stage::Stage;
use crate::state::{State, charged};
use crate::table::asked_all;
use crate::tensor::{filled, rows_from};
use crate::term::Ordered;
use qn_block::BlockTensor;
use qn_gauss::Steps;
use qn_opsum::OpSum;
use qn_rule::{EntryFunction, Rule};
use std::alloc::{AllocError, Global};
use std::sync::ledger::Ledger;

/// The state left of the first site: no term has begun.
fn before_all<const K: usize>(alloc: Global, sum: &OpSum<K>) -> Result<Vec<State<K>>, AllocError>
    ensures { IfOk result (λ v. v.items ≡ map (with_charge sum.now) (not_begun ∷ [])) }
{
    let mut states = Vec::with_capacity(alloc, 1)?;
    states.push(charged(sum, Stage::not_begun(alloc)))?;
    Ok(states)
}

/// The states left of a site: those of the link there, and of the first site what is before all.
fn lefts_of<'a, const K: usize>(
    start: &'a [State<K>],
    links: &'a [Link<K>],
    site: u32,
) -> &'a [State<K>]
    requires { site ≤ length links.now }
    ensures { (v : SumValue) → AreLinks v (length links.now) links.now → start.now ≡ map (with_charge v) (not_begun ∷ []) →
        result.now ≡ map (with_charge v) (left_stages v site) }
{
    if site == 0 {
        return start;
    }
    links[site as usize - 1].states()
}

/// The tensor of a site, between the states left and right of it.
fn tensor_between<const K: usize, F: EntryFunction, L: Ledger>(
    alloc: Global,
    sum: &OpSum<K>,
    terms: &[Ordered],
    rules: &[Rule<K, F>],
    site: u32,
    lefts: &[State<K>],
    rights: &[State<K>],
    empty: BlockTensor<K>,
    steps: &mut Steps<L>,
) -> Result<BlockTensor<K>, BuildFault>
    requires within { site < length sum.now.sites }
    requires terms { terms.now ≡ terms_in sum.now }
    requires rules { AnswersSite F.answers (site_at sum.now.sites site) rules.now }
    requires lefts { lefts.now ≡ map (with_charge sum.now) (left_stages sum.now site) }
    requires rights { rights.now ≡ map (with_charge sum.now) (states sum.now site) }
    requires empty { HasShapeAt sum.now site empty }
    ensures ok { IfOk result (IsTensorAt sum.now site) }
    ensures clear { OnOk result (PassesAt sum.now site → ⊥) }
    ensures err { IfErr result (IsSiteStop sum.now site) }
    ensures ticks { steps.new ≤ steps.old + steps_at sum.now site }
{
    let tables = asked_all(alloc, &sum.sites()[site as usize], rules)?;
    let scene = Scene::new(sum, terms, site, &tables, rights);
    match rows_from(alloc, &scene, lefts, steps) {
        Ok(rows) => Ok(filled(alloc, &scene, empty, &rows)?),
        Err(Stop::Passes) => Err(BuildFault::Passed { site: site + 1 }),
        Err(Stop::Memory) => Err(BuildFault::Memory),
    }
}

/// The tensor of a site of a frame.
fn site_tensor<const K: usize, F: EntryFunction, L: Ledger>(
    alloc: Global,
    sum: &OpSum<K>,
    terms: &[Ordered],
    rules: &[Rule<K, F>],
    site: u32,
    start: &[State<K>],
    frame: &Frame<K>,
    steps: &mut Steps<L>,
) -> Result<BlockTensor<K>, BuildFault>
    requires within { site < length sum.now.sites }
    requires terms { terms.now ≡ terms_in sum.now }
    requires rules { AnswersSite F.answers (site_at sum.now.sites site) rules.now }
    requires start { start.now ≡ map (with_charge sum.now) (not_begun ∷ []) }
    requires links { AreLinks sum.now (length sum.now.sites) frame.now.links.items }
    requires tensors { AreEmpty sum.now (length sum.now.sites) frame.now.tensors.items }
    ensures ok { IfOk result (IsTensorAt sum.now site) }
    ensures clear { OnOk result (PassesAt sum.now site → ⊥) }
    ensures err { IfErr result (IsSiteStop sum.now site) }
    ensures ticks { steps.new ≤ steps.old + steps_at sum.now site }
{
    let lefts = lefts_of(start, &frame.links, site);
    let rights = frame.links[site as usize].states();
    let empty = frame.tensors[site as usize].copy()?;
    tensor_between(alloc, sum, terms, rules, site, lefts, rights, empty, steps)
}

/// The tensors of all sites, or the first site at which the build passes.
pub(crate) fn tensors_of<const K: usize, F: EntryFunction, L: Ledger>(
    alloc: Global,
    sum: &OpSum<K>,
    terms: &[Ordered],
    rules: &[Vec<Rule<K, F>>],
    frame: &Frame<K>,
    steps: &mut Steps<L>,
) -> Result<Vec<BlockTensor<K>>, BuildFault>
    requires terms { terms.now ≡ terms_in sum.now }
    requires count { length rules.now ≡ length sum.now.sites }
    requires rules { (j : ℕ) (d : _) → j < length rules.now →
        AnswersSite F.answers (site_at sum.now.sites j) (slice_index_or rules.now j d).items }
    requires links { AreLinks sum.now (length sum.now.sites) frame.now.links.items }
    requires tensors { AreEmpty sum.now (length sum.now.sites) frame.now.tensors.items }
    ensures ok { IfOk result (λ v. IsAutomatonOf sum.now v.items) }
    ensures clear { OnOk result (HasNone (PassesAt sum.now)) }
    ensures err { IfErr result (IsPassing sum.now) }
    ensures ticks { steps.new ≤ steps.old + made_of sum.now }
{
    sum.known();
    let start = before_all(alloc, sum)?;
    let count = sum.sites().len();
    let mut tensors = Vec::with_capacity(alloc, count)?;
    for site in 0..count as u32 {
        let own = &rules[site as usize];
        let tensor = site_tensor(alloc, sum, terms, own, site, &start, frame, steps)?;
        tensors.push(tensor)?;
    }
    Ok(tensors)
}

//! The chain of the automaton of a sum: built with its entries, or its shape alone.

ghost use Rattle.std.specs.Prelude.{◌≡◌, ◌<◌, ◌≤◌, ◌+◌, ◌⊎◌, ℕ, List, length, slice_index_or, IfOk, IfErr, OnOk};
ghost use Rattle.qn_charge.specs.Firsts.{HasNone};
ghost use Rattle.qn_index.specs.Places.{IsValues};
ghost use Rattle.qn_opsum.specs.Sums.{site_at};
ghost use Rattle.qn_auto.specs.SumAutomaton.{HasShapeAt, IsWideAt, PassesAt, made_of, tensor_at};
ghost use Rattle.qn_braket.specs.Chains.{IsOperatorChain, element};
ghost use Rattle.qn_paths.specs.Sums.{site_legs, sum_element};
ghost use Rattle.qn_mpo.specs.declared.fault.BuildFault.TheVariants.{Memory};
ghost use Rattle.qn_mpo.specs.Builds.{AnswersSite, IsBuilt, IsBuildFault, IsFrame, IsOnSites, IsSkeletonFault};

use crate::fault::BuildFault;
use crate::frame::frame_of;
use crate::site::tensors_of;
use crate::term::ordered_terms;
use qn_block::BlockTensor;
use qn_gauss::Steps;
use qn_index::Leg;
use qn_mps::{Chain, ChainFault};
use qn_opsum::OpSum;
use qn_rule::{EntryFunction, Rule};
use std::alloc::{AllocError, Global};
use std::sync::ledger::Ledger;

/// The legs of the sites.
fn legs_of<const K: usize>(alloc: Global, sum: &OpSum<K>) -> Result<Vec<Leg<K>>, AllocError>
    ensures { IfOk result (λ v. v.items ≡ site_legs sum.now) }
{
    let sites = sum.sites();
    let mut legs = Vec::with_capacity(alloc, sites.len())?;
    for site in sites {
        legs.push(site.leg().copy()?)?;
    }
    Ok(legs)
}

/// The chain of tensors that have the shapes of an automaton.
fn chain_of<const K: usize>(
    alloc: Global,
    sum: &OpSum<K>,
    tensors: Vec<BlockTensor<K>>,
) -> Result<Chain<K>, BuildFault>
    requires count { length tensors.items ≡ length sum.now.sites }
    requires shapes { (j : ℕ) → j < length sum.now.sites → HasShapeAt sum.now j (tensor_at tensors.items j) }
    ensures on { IfOk result (IsOnSites sum.now) }
    ensures tensors { IfOk result (λ c. c.tensors ≡ tensors.entry.items) }
    ensures chain { IfOk result (λ c. IsOperatorChain (site_legs sum.now) c.tensors) }
    ensures err { IfErr result (λ e. e ≡ Memory) }
{
    sum.known();
    let legs = legs_of(alloc, sum)?;
    match Chain::operator(alloc, *sum.group(), &legs, tensors) {
        Ok(chain) => {
            chain.known();
            Ok(chain)
        }
        Err(ChainFault::Memory) => Err(BuildFault::Memory),
        Err(_) => unreachable!(),
    }
}

/// The automaton's tensors with their legs and fluxes, and without blocks.
pub fn skeleton<const K: usize>(alloc: Global, sum: &OpSum<K>) -> Result<Chain<K>, BuildFault>
    ensures ok { IfOk result (IsFrame sum.now) }
    ensures narrow { OnOk result (HasNone (IsWideAt sum.now)) }
    ensures err { IfErr result (IsSkeletonFault sum.now) }
{
    let terms = ordered_terms(alloc, sum)?;
    let frame = frame_of(alloc, sum, &terms)?;
    let chain = chain_of(alloc, sum, frame.tensors)?;
    Ok(chain)
}

/// The automaton of an operator sum as a chain of tensors, whose entries come from one rule for each operator. Its
/// matrix elements are those of the sum.
pub fn build<const K: usize, F: EntryFunction, L: Ledger>(
    alloc: Global,
    sum: &OpSum<K>,
    rules: &[Vec<Rule<K, F>>],
    steps: &mut Steps<L>,
) -> Result<Chain<K>, BuildFault>
    requires count { length rules.now ≡ length sum.now.sites }
    requires rules { (j : ℕ) (d : _) → j < length rules.now →
        AnswersSite F.answers (site_at sum.now.sites j) (slice_index_or rules.now j d).items }
    ensures ok { IfOk result (IsBuilt sum.now) }
    ensures elements { IfOk result (λ c.
        (u s : List ℕ) → IsValues (site_legs sum.now) u → IsValues (site_legs sum.now) s →
        element c.group c.tensors u s ≡ sum_element sum.now u s) }
    ensures clear { OnOk result (HasNone (IsWideAt sum.now) × HasNone (PassesAt sum.now)) }
    ensures err { IfErr result (IsBuildFault sum.now) }
    ensures ticks { (steps.new ≡ steps.old) ⊎ (HasNone (IsWideAt sum.now) × (steps.new ≤ steps.old + made_of sum.now)) }
{
    sum.known();
    let terms = ordered_terms(alloc, sum)?;
    let frame = frame_of(alloc, sum, &terms)?;
    let tensors = tensors_of(alloc, sum, &terms, rules, &frame, steps)?;
    let chain = chain_of(alloc, sum, tensors)?;
    Ok(chain)
}

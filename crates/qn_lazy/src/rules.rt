//! Rules carried out one after another.
ghost use Rattle.std.specs.Prelude.{◌≡◌, ◌≤◌, ◌<◌, ◌+◌, ◌^◌, ℕ, List, None, length, filter, IfOk, IfErr, OnOk};
ghost use Rattle.std.specs.List.{All};
ghost use Rattle.qn_gauss.specs.Gaussian.{Gaussian};
ghost use Rattle.qn_index.specs.Tuples.{admitted};
ghost use Rattle.qn_index.specs.Places.{IsValues};
ghost use Rattle.qn_value.specs.Tensors.{entry_of};
ghost use Rattle.qn_value.specs.Magnitudes.{all_blocks};
ghost use Rattle.qn_block.specs.Blocked.{is_filled, tensor_of};
ghost use Rattle.qn_block.specs.Steps.{IsStepFault};
ghost use Rattle.qn_lazy.specs.Rules.{IsRuleOn, IsRuleFault, all_applied, applied, asked_of_rule, asked_of_rules, cost_of_rule, cost_of_rules, first_passing_rule, passing_of};

use crate::applying::apply_rule;
use crate::lazy_rule::LazyRule;
use crate::leg_rule::LegRule;
use qn_block::laws::blocks_of_entries;
use qn_block::{BlockTensor, StepFault};
use qn_gauss::Steps;
use qn_index::Tuple;
use std::alloc::Global;
use std::sync::ledger::Ledger;
use std::thread::Threads;
use thiserror::Error;

/// Why rules have no result.
#[derive(Debug, Drop, Error)]
pub enum RuleFault {
    /// The first rule, by its number, of which a product of magnitudes is above 2^127 - 1, at the first such place: by the
    /// tuple of sectors of the rule's leg and then the other legs, and in its block by the offset.
    #[error("rule {rule}: a product of magnitudes is above 2^127 - 1 at offset {offset} of a block")]
    Passed { rule: u32, at: Tuple, offset: u64 },
    /// Memory was wanting.
    #[error("out of memory")]
    Memory,
}

/// The tensor without its blocks of zeros, which is told by its entries.
#[tactic(auto, using(crate::proofs::Weighing::filled_blocks))]
fn filled<const K: usize>(t: BlockTensor<K>) -> BlockTensor<K>
    ensures { (entry : List ℕ → Gaussian) → ((xs : List ℕ) → IsValues t.entry.legs xs → entry_of (tensor_of t.entry) xs ≡ entry xs)
        → result ≡ record {
          group = t.entry.group;
          legs = t.entry.legs;
          flux = t.entry.flux;
          blocks = filter is_filled (all_blocks entry t.entry.legs (admitted t.entry.group t.entry.legs t.entry.flux));
        } }
{
    blocks_of_entries();
    let made = t.canonical();
    made.known();
    made
}

/// The tensor with each entry multiplied by the rule's weight of its value at the rule's leg, without blocks of zeros.
fn applied<const K: usize, R: Threads + Sync, L: Ledger, M: Ledger>(
    rt: &R,
    alloc: Global,
    t: &BlockTensor<K>,
    rule: LazyRule,
    steps: &mut Steps<L>,
    asks: &mut Steps<M>,
) -> Result<BlockTensor<K>, StepFault>
    requires { IsRuleOn t.now.group t.now.legs rule }
    ensures value { IfOk result (λ q. q ≡ applied t.now rule) }
    ensures clear { OnOk result (passing_of t.now rule ≡ None) }
    ensures err { IfErr result (IsStepFault (passing_of t.now rule)) }
    ensures steps { steps.new ≤ steps.old + cost_of_rule t.now rule }
    ensures asks { asks.new ≤ asks.old + asked_of_rule t.now rule }
{
    t.known();
    t.group().known();
    let place = rule.place();
    let leg = t.legs()[place].copy()?;
    let rule = LegRule::new(*t.group(), leg, rule.part());
    match apply_rule(rt, alloc, rule, t, place, steps, asks) {
        Ok(weighed) => Ok(filled(weighed)),
        Err(fault) => Err(fault),
    }
}

/// The tensor after all rules, one after another: each multiplies each entry by its weight of the value at its leg.
///
/// Passed where a product of magnitudes is above 2^127 - 1, at the first such rule, these being numbered from `first`, and
/// its first such place. Each multiplication is one of `steps`, each entry that a rule is asked for one of `asks`.
pub fn apply_rules<const K: usize, R: Threads + Sync, L: Ledger, M: Ledger>(
    rt: &R,
    alloc: Global,
    t: BlockTensor<K>,
    rules: &[LazyRule],
    first: u32,
    steps: &mut Steps<L>,
    asks: &mut Steps<M>,
) -> Result<BlockTensor<K>, RuleFault>
    requires rules { All (IsRuleOn t.group t.legs) rules.now }
    requires room { first + length rules.now < 2 ^ 32 }
    ensures value { IfOk result (λ q. q ≡ all_applied t.entry rules.now) }
    ensures clear { OnOk result (first_passing_rule first t.entry rules.now ≡ None) }
    ensures err { IfErr result (IsRuleFault (first_passing_rule first t.entry rules.now)) }
    ensures steps { steps.new ≤ steps.old + cost_of_rules t.entry rules.now }
    ensures asks { asks.new ≤ asks.old + asked_of_rules t.entry rules.now }
{
    let mut t = t;
    for i in 0..rules.len() {
        let rule = &rules[i];
        t = match applied(rt, alloc, &t, *rule, steps, asks) {
            Ok(next) => next,
            Err(StepFault::Passed { at, offset }) => {
                return Err(RuleFault::Passed {
                    rule: first + i as u32,
                    at,
                    offset,
                });
            }
            Err(StepFault::Memory) => return Err(RuleFault::Memory),
        };
    }
    Ok(t)
}

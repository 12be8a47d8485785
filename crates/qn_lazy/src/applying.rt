//! A rule of a leg carried out on a tensor.
ghost use Rattle.std.specs.Prelude.{◌≡◌, ◌≤◌, ◌<◌, ◌+◌, ◌++◌, ◌∷◌, [], None, false, length, slice_index_or, IfOk, IfErr, OnOk};
ghost use Rattle.std.specs.List.{range_with_len};
ghost use Rattle.qn_charge.specs.Charges.{zero_charge};
ghost use Rattle.qn_index.specs.Extents.{IsWithinLimits};
ghost use Rattle.qn_value.specs.Local.{no_leg, Moved};
ghost use Rattle.qn_block.specs.Blocked.{tensor_of};
ghost use Rattle.qn_block.specs.Steps.{IsStepFault};
ghost use Rattle.qn_match.specs.Cost.{cost_of};
ghost use Rattle.qn_unmet.specs.Unmet.{passing_place};
ghost use Rattle.qn_diagonal.specs.Diagonal.{put_back, Weighed};
ghost use Rattle.qn_lazy.specs.Asked.{asked_of};
ghost use Rattle.qn_lazy.specs.LegRules.{legs_of, weight_of, rule_table};

use crate::contraction::contract_lazy;
use crate::laws::one_answer_law;
use crate::leg_rule::LegRule;
use qn_block::{BlockTensor, StepFault};
use qn_gauss::Steps;
use qn_permute::permute;
use std::alloc::{AllocError, Global};
use std::sync::ledger::Ledger;
use std::thread::Threads;

/// Appends as many numbers from `first` on.
#[tactic(auto, using(crate::proofs::Applied::range_more))]
fn append_range(first: usize, count: usize, out: &mut Vec<usize>) -> Result<(), AllocError>
    requires { first + count ≤ 64 }
    ensures { OnOk result (out.new.items ≡ out.old.items ++ range_with_len first count) }
{
    for i in 0..count {
        out.push(first + i)?;
    }
    Ok(())
}

/// The order that brings the first of `n` legs behind the next `m` ones.
fn put_back(alloc: Global, m: usize, n: usize) -> Result<Vec<usize>, AllocError>
    requires place { m < n }
    requires few { n ≤ 64 }
    ensures { IfOk result (λ v. v.items ≡ put_back m n) }
{
    let mut order = Vec::with_capacity(alloc, n)?;
    append_range(1, m, &mut order)?;
    order.push(0)?;
    append_range(m + 1, n - m - 1, &mut order)?;
    Ok(order)
}

/// The tensor with its first leg put behind the next `m` ones.
fn first_put_back<const K: usize, R: Threads + Sync>(
    rt: &R,
    alloc: Global,
    t: &BlockTensor<K>,
    m: usize,
) -> Result<BlockTensor<K>, AllocError>
    requires { m < length t.now.legs }
    ensures { IfOk result (λ r. Moved (tensor_of t.now) (put_back m (length t.now.legs)) (tensor_of r)) }
{
    t.known();
    let order = put_back(alloc, m, t.legs().len())?;
    permute(rt, alloc, t, &order)
}

/// The tensor with each entry multiplied by the weight that the rule gives to its value at leg `m`. The rule is contracted
/// by its second leg with leg `m`, and its first leg is put in that leg's place.
///
/// Passed where a product of magnitudes is above 2^127 - 1, at the first such place, by the legs before they are put back:
/// leg `m` and then the others. Each multiplication is one of `steps`, and each entry that the rule is asked for one of `asks`.
pub fn apply_rule<const K: usize, R: Threads + Sync, L: Ledger, M: Ledger>(
    rt: &R,
    alloc: Global,
    rule: LegRule<K>,
    t: &BlockTensor<K>,
    m: usize,
    steps: &mut Steps<L>,
    asks: &mut Steps<M>,
) -> Result<BlockTensor<K>, StepFault>
    requires place { m < length t.now.legs }
    requires group { rule.group ≡ t.now.group }
    requires leg { rule.leg ≡ slice_index_or t.now.legs m no_leg }
    requires shape { IsWithinLimits rule.group (legs_of rule.leg) (zero_charge rule.group) }
    ensures value { IfOk result (λ q. Weighed (tensor_of t.now) m (weight_of rule.entry.leg rule.entry.part) (tensor_of q)) }
    ensures clear { OnOk result (passing_place (rule_table rule.entry) (tensor_of t.now) ((1, m) ∷ []) ≡ None) }
    ensures err { IfErr result (IsStepFault (passing_place (rule_table rule.entry) (tensor_of t.now) ((1, m) ∷ []))) }
    ensures steps { steps.new ≤ steps.old + cost_of t.now.group (legs_of rule.entry.leg) (zero_charge t.now.group) t.now.legs t.now.flux ((1, m) ∷ []) }
    ensures asks { asks.new ≤ asks.old + asked_of t.now.group (legs_of rule.entry.leg) (zero_charge t.now.group) ((1, m) ∷ []) t.now.blocks }
{
    t.known();
    one_answer_law();
    let counted = rule.rule(alloc)?;
    match contract_lazy(rt, alloc, &counted, t, &[(1, m)], false, steps, asks) {
        Ok(moved) => match first_put_back(rt, alloc, &moved, m) {
            Ok(weighed) => Ok(weighed),
            Err(_) => Err(StepFault::Memory),
        },
        Err(fault) => Err(fault),
    }
}

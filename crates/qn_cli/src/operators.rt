//! The command on documents of operator sums: `mpo`.
ghost use Rattle.std.specs.Prelude.{◌≡◌, IfOk, IfErr, OnOk};
ghost use Rattle.qn_mpo.specs.Builds.{IsBuilt};
ghost use Rattle.qn_mps.specs.Chains.{IsHeld};
ghost use Rattle.qn_mps.specs.Networks.{chain_network};
ghost use Rattle.qn_doc.specs.NetworkTexts.{IsTextOf};
ghost use Rattle.qn_sumdoc.specs.Sums.{any_sum};
ghost use Rattle.qn_parts.specs.Faults.{fault};
ghost use Rattle.qn_words.specs.declared.words.Job.TheVariants.{Mpo};
ghost use Rattle.qn_cli.specs.Outcomes.{answered};
ghost use Rattle.qn_cli.specs.Operators.{IsSumIn, IsBuildable, HasElements, HasElementsIn, operator_text, Writes};
ghost use Rattle.qn_cli.specs.Jobs.{Multiplies};
ghost use Rattle.qn_cli.specs.Answers.{IsSumRefusal, IsBuildRefusal, IsPassedAt, IsWithinBuild, Refuses};

use crate::status::Status;
use qn_doc::write_network;
use qn_gauss::Steps;
use qn_index::Tuple;
use qn_mpo::{BuildFault, build, operator_rules};
use qn_mps::Chain;
use qn_opsum::OpSum;
use qn_parts::{DocFault, Fault};
use qn_paths::laws::sum_law;
use qn_sumdoc::{AnySum, read_sum};
use std::alloc::{AllocError, Global};
use std::sync::ledger::Ledger;

/// The operator sum that the bytes say, or the status in its place.
fn sum(alloc: Global, bytes: &[u8]) -> Result<AnySum, Status>
    ensures ok { IfOk result (λ any. IsSumIn bytes.now (any_sum any)) }
    ensures err { IfErr result (IsSumRefusal bytes.now) }
{
    match read_sum(alloc, bytes) {
        Ok(any) => Ok(any),
        Err(DocFault::Bad(fault)) => Err(Status::Malformed { fault }),
        Err(DocFault::Memory) => Err(Status::Memory),
    }
}

/// The first site at which the automaton is too wide.
pub(crate) fn wide_site(site: u32) -> Status
    ensures { result ≡ Status.Malformed (fault 27 0 0 site) }
{
    Status::Malformed {
        fault: Fault::at(27, 0, 0, site),
    }
}

/// The first site at which the build passes, which is step 0.
fn passed_site(alloc: Global, site: u32) -> Status
    ensures { IsPassedAt site result }
{
    match vec![in alloc; site] {
        Ok(list) => Status::Passed {
            step: 0,
            at: Tuple::new(list),
            offset: 0,
        },
        Err(_) => Status::Memory,
    }
}

/// The automaton of an operator sum as a chain, or the status in its place.
#[tactic(auto, using(crate::proofs::Builds::wide_refusal, crate::proofs::Builds::passed_refusal, crate::proofs::Costs::within_build, crate::proofs::Costs::not_built))]
pub(crate) fn automaton<const K: usize, L: Ledger>(
    alloc: Global,
    sum: &OpSum<K>,
    steps: &mut Steps<L>,
) -> Result<Chain<K>, Status>
    ensures built { IfOk result (IsBuilt sum.now) }
    ensures buildable { OnOk result (IsBuildable sum.now) }
    ensures status { IfErr result (IsBuildRefusal sum.now) }
    ensures cost { IsWithinBuild sum.now steps.old steps.new }
{
    let rules = match operator_rules(alloc, sum) {
        Ok(rules) => rules,
        Err(_) => return Err(Status::Memory),
    };
    match build(alloc, sum, rules.as_slice(), steps) {
        Ok(chain) => Ok(chain),
        Err(BuildFault::Wide { site }) => Err(wide_site(site)),
        Err(BuildFault::Passed { site }) => Err(passed_site(alloc, site)),
        Err(BuildFault::Memory) => Err(Status::Memory),
    }
}

/// The text of a chain's network.
fn chain_text<const K: usize>(alloc: Global, chain: &Chain<K>) -> Result<Vec<u8>, AllocError>
    ensures held { IsHeld chain.now }
    ensures text { IfOk result (λ text. IsTextOf (chain_network chain.now) text.items) }
{
    chain.known();
    let net = chain.network()?;
    write_network(alloc, &net)
}

/// The text of the automaton of an operator sum, or the status in its place.
#[tactic(auto, using(crate::proofs::OperatorTexts::built_text, crate::proofs::WrittenValues::elements_told))]
fn sum_text<const K: usize, L: Ledger>(
    alloc: Global,
    sum: &OpSum<K>,
    steps: &mut Steps<L>,
) -> Result<Vec<u8>, Status>
    ensures text { IfOk result (λ text. IsBuildable sum.now × (text.items ≡ operator_text sum.now)) }
    ensures elements { OnOk result (HasElements sum.now) }
    ensures status { IfErr result (IsBuildRefusal sum.now) }
    ensures cost { IsWithinBuild sum.now steps.old steps.new }
{
    let chain = automaton(alloc, sum, steps)?;
    sum_law();
    sum.known();
    match chain_text(alloc, &chain) {
        Ok(text) => Ok(text),
        Err(_) => Err(Status::Memory),
    }
}

fn any_sum_text<L: Ledger>(
    alloc: Global,
    any: &AnySum,
    steps: &mut Steps<L>,
) -> Result<Vec<u8>, Status>
    ensures text { IfOk result (λ text. IsBuildable (any_sum any.now) × (text.items ≡ operator_text (any_sum any.now))) }
    ensures elements { OnOk result (HasElements (any_sum any.now)) }
    ensures status { IfErr result (IsBuildRefusal (any_sum any.now)) }
    ensures cost { IsWithinBuild (any_sum any.now) steps.old steps.new }
{
    match any {
        AnySum::N0(sum) => sum_text(alloc, sum, steps),
        AnySum::N1(sum) => sum_text(alloc, sum, steps),
        AnySum::N2(sum) => sum_text(alloc, sum, steps),
        AnySum::N3(sum) => sum_text(alloc, sum, steps),
        AnySum::N4(sum) => sum_text(alloc, sum, steps),
    }
}

/// The text of the automaton of the operator sum that the bytes say, or the status in its place.
#[tactic(auto, using(crate::proofs::Costs::multiplied_in_build, crate::proofs::Costs::nothing, crate::proofs::WrittenValues::elements_of_bytes))]
pub(crate) fn mpo<L: Ledger>(
    alloc: Global,
    bytes: &[u8],
    steps: &mut Steps<L>,
) -> Result<Vec<u8>, Status>
    ensures text { IfOk result (λ text. Writes bytes.now (answered text.items)) }
    ensures elements { OnOk result (HasElementsIn bytes.now) }
    ensures status { IfErr result (Refuses Mpo bytes.now) }
    ensures cost { Multiplies Mpo bytes.now steps.old steps.new }
{
    let any = sum(alloc, bytes)?;
    any_sum_text(alloc, &any, steps)
}

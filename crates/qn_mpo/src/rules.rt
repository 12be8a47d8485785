//! Rules for the operators of a sum.
ghost use Rattle.std.specs.Prelude.{◌≡◌, ◌<◌, ℕ, length, map, slice_index_or, IfOk};
ghost use Rattle.qn_opsum.specs.Sums.{site_at};
ghost use Rattle.qn_mpo.specs.Builds.{AnswersSite};
ghost use Rattle.qn_mpo.specs.OperatorRules.{operator_answers, rule_of, rules_in};

use qn_opsum::OpSum;
use qn_rule::Rule;
use qn_sites::{OpTable, SiteTable};
use std::alloc::{AllocError, Global};

/// One rule for each operator of a site.
fn rules_of<const K: usize>(
    alloc: Global,
    site: &SiteTable<K>,
) -> Result<Vec<Rule<K, OpTable<K>>>, AllocError>
    ensures { IfOk result (λ rules. rules.items ≡ map rule_of site.now.ops) }
{
    let ops = site.ops();
    let mut rules = Vec::with_capacity(alloc, ops.len())?;
    for op in ops {
        let op = op.copy()?;
        rules.push(op.rule(alloc)?)?;
    }
    Ok(rules)
}

/// The rules of the operators of all sites.
fn all_rules<const K: usize>(
    alloc: Global,
    sites: &[SiteTable<K>],
) -> Result<Vec<Vec<Rule<K, OpTable<K>>>>, AllocError>
    ensures { IfOk result (λ all. map (λ rules. rules.items) all.items ≡ map rules_in sites.now) }
{
    let mut all = Vec::with_capacity(alloc, sites.len())?;
    for site in sites {
        all.push(rules_of(alloc, site)?)?;
    }
    Ok(all)
}

/// One rule for each operator of each site, from the operators' own tables.
pub fn operator_rules<const K: usize>(
    alloc: Global,
    sum: &OpSum<K>,
) -> Result<Vec<Vec<Rule<K, OpTable<K>>>>, AllocError>
    ensures count { IfOk result (λ all. length all.items ≡ length sum.now.sites) }
    ensures rules { IfOk result (λ all.
        (j : ℕ) (d : _) → j < length all.items →
        AnswersSite operator_answers (site_at sum.now.sites j) (slice_index_or all.items j d).items) }
{
    sum.known();
    let all = all_rules(alloc, sum.sites())?;
    Ok(all)
}

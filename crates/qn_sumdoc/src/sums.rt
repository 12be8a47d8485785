//! Documents of an operator sum.

ghost use Rattle.std.specs.Prelude.{◌≡◌, ◌≤◌, ◌<◌, ◌^◌, length, None};
ghost use Rattle.serde_json.specs.View.{view};
ghost use Rattle.qn_charge.specs.Charges.{IsGroup};
ghost use Rattle.qn_parts.specs.Faults.{Fails, Reads};
ghost use Rattle.qn_parts.specs.Documents.{factors_of};
ghost use Rattle.qn_doc.specs.Networks.{ReadsBy};
ghost use Rattle.qn_sumdoc.specs.Sites.{AreSitesOf};
ghost use Rattle.qn_sumdoc.specs.Terms.{IsTermsFault, coefs_fault};
ghost use Rattle.qn_sumdoc.specs.Sums.{IsSumIn, IsSumOf, IsTermsFaultIn, any_sum, body_fault, bytes_fault, head_fault, is_sum_document, parts_fault};

use crate::sites::{has_sites, sites};
use crate::terms::{check_coefs, has_terms, placed, terms};
use qn_charge::{Factor, Group};
use qn_opsum::OpSum;
use qn_parts::parts::{MAX_LEN, factor_count, factors_of, group, has_group, has_version};
use qn_parts::{DocFault, Fault, items_at, read_tree};
use qn_sites::SiteTable;
use serde_json::Value;
use std::alloc::Global;

/// An operator sum over a group of 0 to 4 factors.
#[derive(Debug, Drop)]
pub enum AnySum {
    N0(OpSum<0>),
    N1(OpSum<1>),
    N2(OpSum<2>),
    N3(OpSum<3>),
    N4(OpSum<4>),
}

#[tactic(auto, unfolding(crate::specs::Sums::is_sum_document))]
fn is_sum_document(v: &Value) -> bool
    ensures { result ≡ is_sum_document (view v.now) }
{
    has_version(v) && has_group(v) && has_sites(v, factor_count(v)) && has_terms(v)
}

// The factors of the group, or the first of F3 to F6.
fn head(alloc: Global, v: &Value) -> Result<Vec<Factor>, DocFault>
    ensures { Reads result (head_fault (view v.now))
        (λ made. (made.items ≡ factors_of (view v.now)) × (length made.items ≤ 4) × IsGroup made.items) }
{
    if !is_sum_document(v) {
        return Err(DocFault::Bad(Fault::of_code(3)));
    }
    factors_of(alloc, items_at(v, "group"))
}

/// The sum of the terms on these sites, or the first of F30, F31 and F33.
pub(crate) fn joined<const K: usize>(
    alloc: Global,
    v: &Value,
    group: &Group<K>,
    sites: Vec<SiteTable<K>>,
) -> Result<OpSum<K>, DocFault>
    requires factors { group.now ≡ factors_of (view v.now) }
    requires sites { AreSitesOf (view v.now) sites.items }
    ensures { ReadsBy None (IsTermsFault (view v.now)) (IsSumOf (view v.now)) result }
{
    let terms = terms(alloc, items_at(v, "terms"))?;
    match OpSum::new(*group, sites, terms) {
        Ok(sum) => {
            sum.known();
            Ok(sum)
        }
        Err(fault) => Err(placed(fault)),
    }
}

// The sum on these sites, or the first of F29, F19 of all coefficients, F30, F31 and F33.
#[tactic(auto, using(qn_doc::proofs::Reading::fails_early))]
fn summed<const K: usize>(
    alloc: Global,
    v: &Value,
    group: &Group<K>,
    sites: Vec<SiteTable<K>>,
) -> Result<OpSum<K>, DocFault>
    requires factors { group.now ≡ factors_of (view v.now) }
    requires sites { AreSitesOf (view v.now) sites.items }
    ensures { ReadsBy (coefs_fault (view v.now)) (IsTermsFault (view v.now)) (IsSumOf (view v.now)) result }
{
    check_coefs(v)?;
    joined(alloc, v, group, sites)
}

// The sum over the group of these factors, or the first of F28 to F33.
#[tactic(auto, using(qn_doc::proofs::Reading::fails_first, qn_doc::proofs::Reading::fails_then))]
fn sum_over<const K: usize>(
    alloc: Global,
    v: &Value,
    factors: &[Factor],
) -> Result<OpSum<K>, DocFault>
    requires few { K ≤ 4 }
    requires count { length factors.now ≡ K }
    requires group { IsGroup factors.now }
    requires factors { factors.now ≡ factors_of (view v.now) }
    ensures { ReadsBy (body_fault (view v.now)) (IsTermsFault (view v.now)) (IsSumOf (view v.now)) result }
{
    let group = group(factors);
    let sites = sites(alloc, v, &group)?;
    summed(alloc, v, &group, sites)
}

// The sum over the group of these factors.
fn any_sum(alloc: Global, v: &Value, factors: &[Factor]) -> Result<AnySum, DocFault>
    requires few { length factors.now ≤ 4 }
    requires group { IsGroup factors.now }
    requires factors { factors.now ≡ factors_of (view v.now) }
    ensures { ReadsBy (body_fault (view v.now)) (IsTermsFault (view v.now)) (λ any. IsSumOf (view v.now) (any_sum any)) result }
{
    match factors.len() {
        0 => Ok(AnySum::N0(sum_over(alloc, v, factors)?)),
        1 => Ok(AnySum::N1(sum_over(alloc, v, factors)?)),
        2 => Ok(AnySum::N2(sum_over(alloc, v, factors)?)),
        3 => Ok(AnySum::N3(sum_over(alloc, v, factors)?)),
        _ => Ok(AnySum::N4(sum_over(alloc, v, factors)?)),
    }
}

#[tactic(auto, using(qn_doc::proofs::Reading::fails_first, qn_doc::proofs::Reading::fails_then))]
fn sum_of_tree(alloc: Global, v: &Value) -> Result<AnySum, DocFault>
    ensures { ReadsBy (parts_fault (view v.now)) (IsTermsFault (view v.now)) (λ any. IsSumOf (view v.now) (any_sum any)) result }
{
    let factors = head(alloc, v)?;
    any_sum(alloc, v, factors.as_slice())
}

/// The operator sum of a document, or the document's first fault, or want of memory.
#[tactic(auto, using(qn_doc::proofs::Reading::fails_early))]
pub fn read_sum(alloc: Global, bytes: &[u8]) -> Result<AnySum, DocFault>
    ensures { ReadsBy (bytes_fault bytes.now) (IsTermsFaultIn bytes.now) (IsSumIn bytes.now) result }
{
    if MAX_LEN < bytes.len() {
        return Err(DocFault::Bad(Fault::of_code(1)));
    }
    let tree = read_tree(alloc, bytes)?;
    sum_of_tree(alloc, &tree)
}

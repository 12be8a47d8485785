//! The site of a kind that is built in.

ghost use Rattle.std.specs.Prelude.{◌≡◌, ◌==◌, ◌&&◌, ◌↔◌, ◌≤◌, ◌<◌, ◌*◌, ◌%◌, ◌/◌, ℕ, Contains, IfErr, IfOk, IsTrue, length, map, pos, unsigned_abs};
ghost use Rattle.std.specs.List.{All};
ghost use Rattle.qn_sites.specs.Kinds.{IsKind, KindRow, entry_of, filled, kind_leg, kind_op, kind_site, kinds, value_at};
ghost use Rattle.qn_sites.specs.KindRows.{kind_row, op_row};
ghost use Rattle.qn_sites.specs.declared.fault.SiteFault.TheVariants.{Memory};
ghost use Rattle.qn_sites.specs.Refusals.{IsBuiltinFault, IsKindOf};

use crate::fault::SiteFault;
use crate::given::own;
use crate::kinds::{KindData, OpData, find};
use crate::name::Name;
use crate::site::SiteTable;
use qn_charge::{Charge, Factor, Group};
use qn_gauss::Gauss;
use qn_index::{Dir, Leg, Sector};
use std::alloc::{AllocError, Global};

/// The group is the product of these factors.
fn has_factors<const K: usize>(group: &Group<K>, factors: &[Factor]) -> bool
    ensures { IsTrue result ↔ (group.now ≡ factors.now) }
{
    group.known();
    if factors.len() != K {
        return false;
    }
    for i in 0..K {
        if group.factor(i) != factors[i] {
            return false;
        }
    }
    true
}

/// The entry of a table at a row and a column.
#[tactic(auto, unfolding(qn_gauss::specs::Gaussian::zero_g))]
fn entry_at(entries: &[(u32, u32, i64)], row: usize, column: usize) -> Gauss
    ensures { result ≡ value_at (map entry_of entries.now) row column }
{
    match entries.split_first() {
        Some(((r, c, value), later)) => {
            if is_at(*r, *c, row, column) {
                whole(*value)
            } else {
                entry_at(later, row, column)
            }
        }
        None => Gauss::ZERO,
    }
}

/// Whether a row and a column are these two.
fn is_at(r: u32, c: u32, row: usize, column: usize) -> bool
    ensures { result ≡ (r == row && c == column) }
{
    r as usize == row && c as usize == column
}

/// A whole number.
fn whole(value: i64) -> Gauss
    ensures { result ≡ record { re = value; im = pos 0 } }
{
    match Gauss::new(i128::from(value), 0) {
        Some(number) => number,
        None => unreachable!(),
    }
}

/// All entries of a table with `dim` rows, row after row.
fn fill(alloc: Global, dim: usize, entries: &[(u32, u32, i64)]) -> Result<Vec<Gauss>, AllocError>
    requires some { 0 < dim }
    requires small { dim ≤ 64 }
    ensures { IfOk result (λ v. v.items ≡ filled dim (map entry_of entries.now)) }
{
    let mut all = Vec::with_capacity(alloc, dim * dim)?;
    for place in 0..dim * dim {
        all.push(entry_at(entries, place / dim, place % dim))?;
    }
    Ok(all)
}

/// The sectors of a kind's leg, one of dimension 1 for each value.
fn sectors<const K: usize>(alloc: Global, kind: &KindData) -> Result<Vec<Sector<K>>, AllocError>
    requires few { K ≤ 4 }
    requires arity { All (λ c. length c.now ≡ K) kind.now.charges.now }
    ensures { IfOk result (λ v. v.items ≡ map (λ c. record { charge = c.now; dim = 1 }) kind.now.charges.now) }
{
    let charges = kind.charges;
    let mut list = Vec::with_capacity(alloc, charges.len())?;
    for charge in charges {
        list.push(Sector {
            charge: Charge::new(charge),
            dim: 1,
        })?;
    }
    Ok(list)
}

/// An operator of a kind with all its entries.
fn operator<const K: usize>(
    alloc: Global,
    op: &OpData,
    dim: usize,
) -> Result<(Name, Charge<K>, Vec<Gauss>), AllocError>
    requires few { K ≤ 4 }
    requires arity { length op.now.charge.now ≡ K }
    requires some { 0 < dim }
    requires small { dim ≤ 64 }
    ensures { IfOk result (λ o. record { name = o.0; charge = o.1; entries = o.2.items } ≡ kind_op dim (op_row op.now)) }
{
    let name = Name::new(String::from_str(alloc, op.name)?);
    let entries = fill(alloc, dim, op.entries)?;
    Ok((name, Charge::new(op.charge), entries))
}

/// The operators of a kind, each with all its entries.
fn operators<const K: usize>(
    alloc: Global,
    kind: &KindData,
    dim: usize,
) -> Result<Vec<(Name, Charge<K>, Vec<Gauss>)>, AllocError>
    requires few { K ≤ 4 }
    requires arity { All (λ o. length o.charge.now ≡ K) kind.now.ops.now }
    requires some { 0 < dim }
    requires small { dim ≤ 64 }
    ensures { IfOk result (λ v.
        map (λ o. record { name = o.0; charge = o.1; entries = o.2.items }) v.items ≡
        map (λ o. kind_op dim (op_row o)) kind.now.ops.now) }
{
    let ops = kind.ops;
    let mut list = Vec::with_capacity(alloc, ops.len())?;
    for op in ops {
        list.push(operator(alloc, op, dim)?)?;
    }
    Ok(list)
}

/// The site of a kind.
fn site_of<const K: usize>(
    alloc: Global,
    group: &Group<K>,
    kind: &KindData,
) -> Result<SiteTable<K>, SiteFault>
    requires listed { Contains kinds (kind_row kind.now) }
    requires group { group.now ≡ (kind_row kind.now).factors }
    ensures ok { IfOk result (λ t. t ≡ kind_site (kind_row kind.now)) }
    ensures err { IfErr result (λ e. e ≡ Memory) }
{
    group.known();
    known_kind(kind);
    let leg = match Leg::new(group, Dir::Out, sectors(alloc, kind)?) {
        Ok(leg) => leg,
        Err(_) => unreachable!(),
    };
    leg.known();
    let ops = operators(alloc, kind, kind.charges.len())?;
    own(alloc, group, leg, ops)
}

/// What holds of each kind. Nothing is done.
fn known_kind(kind: &KindData)
    requires { Contains kinds (kind_row kind.now) }
    ensures kind { IsKind (kind_row kind.now) }
    ensures charges { All (λ c. length c.now ≡ length kind.now.factors.now) kind.now.charges.now }
    ensures charges_of_ops { All (λ o. length o.charge.now ≡ length kind.now.factors.now) kind.now.ops.now }
    ensures sectors { map (λ c. record { charge = c.now; dim = 1 }) kind.now.charges.now ≡ (kind_leg (kind_row kind.now)).sectors }
    ensures ops { map (λ o. kind_op (length kind.now.charges.now) (op_row o)) kind.now.ops.now ≡
        map (kind_op (length (kind_row kind.now).charges)) (kind_row kind.now).ops }
{}

/// The site of a kind that is built in: `spin_half`, `fermion` or `electron`, each for its own group.
pub fn builtin<const K: usize>(
    alloc: Global,
    kind: &str,
    group: &Group<K>,
) -> Result<SiteTable<K>, SiteFault>
    ensures ok { IfOk result (λ t. (k : KindRow) × IsKindOf kind.now group.now k × (t ≡ kind_site k)) }
    ensures group { IfOk result (λ t. t.group ≡ group.now) }
    ensures err { IfErr result (IsBuiltinFault kind.now group.now) }
{
    match find(kind) {
        Some(k) => {
            if has_factors(group, k.factors) {
                site_of(alloc, group, k)
            } else {
                Err(SiteFault::SiteKind)
            }
        }
        None => Err(SiteFault::SiteKind),
    }
}

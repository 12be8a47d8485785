//! Blocks as sums of products of matrices.

ghost use Rattle.std.specs.Prelude.{◌≡◌, ◌≤◌, ◌<◌, ◌+◌, ◌*◌, ◌^◌, ◌-◌, ℕ, [], ◌↔◌, length, map, IsTrue, IsNone, IfSome, IfOk, IfErr, OnOk};
ghost use Rattle.std.specs.List.{All};
ghost use Rattle.qn_sign.specs.Positions.{positions};
ghost use Rattle.qn_gauss.specs.Gaussian.{limit};
ghost use Rattle.qn_kernel.specs.Matrices.{place_sum, place_amounts, steps_for, amounts_at, AreProducts, AreAtMost, IsProduct, IsNarrow, IsFirstPlace, IsFirstPassing, sum_at};

use crate::bound::{first_above, most_of};
use crate::matrix::Matrix;
use crate::number::{Big, Small, Total};
use crate::row::{Adding, append_sums, sum_up};
use qn_block::StepFault;
use qn_gauss::{Gauss, LIMIT, Steps};
use qn_index::Tuple;
use std::alloc::{AllocError, Global};
use std::marker::Model;
use std::sync::ledger::Ledger;

/// Two matrices that are multiplied for a block of the result, and the sign of their product.
#[derive(Drop)]
pub(crate) struct Product {
    pub first: Matrix,
    pub second: Matrix,
    pub minus: bool,
}

impl Model for Product {
    ghost use Rattle.qn_kernel.specs.Matrices.{ProductValue};

    ghost Value = { ProductValue };

    ghost view = { λ s. record { first = s.first; second = s.second; minus = s.minus } };
}

impl Product {
    /// The first matrix.
    pub(crate) fn first(&self) -> &Matrix
        ensures { result.now ≡ self.now.first }
    {
        &self.first
    }

    /// The second one.
    pub(crate) fn second(&self) -> &Matrix
        ensures { result.now ≡ self.now.second }
    {
        &self.second
    }

    /// Whether the product is negated.
    pub(crate) fn is_minus(&self) -> bool
        ensures { result ≡ self.now.minus }
    {
        self.minus
    }

    /// Whether all parts have at most 63 bits.
    fn is_narrow(&self) -> bool
        ensures { IsTrue result ↔ IsNarrow self.now }
    {
        self.first().is_narrow() && self.second().is_narrow()
    }
}

/// Whether all parts have at most 63 bits.
fn are_narrow(products: &[Product]) -> bool
    ensures { IsTrue result → All IsNarrow products.now }
{
    for product in products {
        if !product.is_narrow() {
            return false;
        }
    }
    true
}

/// The entries of a sum of products, or its first one whose sum of magnitudes is above 2^127 - 1; where `safe` holds there
/// is none.
fn entries_of<S: Adding, L: Ledger>(
    alloc: Global,
    products: &[Product],
    rows: usize,
    cols: usize,
    tuple: &Tuple,
    safe: bool,
    steps: &mut Steps<L>,
) -> Result<Vec<Gauss>, StepFault>
    requires takes { All S.takes products.now }
    requires shape { All (IsProduct rows cols) products.now }
    requires few { rows * cols ≤ 2 ^ 22 }
    requires safe { IsTrue safe → (x : ℕ) → x < rows → AreAtMost products.now cols x limit }
    requires room { (x : ℕ) → AreAtMost products.now cols x limit → AreAtMost products.now cols x S.most }
    ensures entries { IfOk result (λ v. v.items ≡ map (place_sum products.now) (positions (rows * cols))) }
    ensures clear { OnOk result ((o : ℕ) → o < rows * cols → place_amounts products.now o ≤ limit) }
    ensures err { IfErr result (IsFirstPassing products.now tuple.now (rows * cols)) }
    ensures steps { steps.new ≤ steps.old + rows * cols * steps_for products.now }
{
    let mut entries = Vec::with_capacity(alloc, rows * cols)?;
    let mut sums = vec![in alloc; S::zero(); cols]?;
    let row = sums.as_mut_slice();
    for x in 0..rows {
        match first_above(products, x, rows, cols, safe) {
            Some(y) => {
                return Err(StepFault::Passed {
                    at: tuple.copy()?,
                    offset: (x * cols + y) as u64,
                });
            }
            None => {}
        }
        sum_up(row, x, rows, products, steps);
        append_sums(row, &mut entries)?;
    }
    Ok(entries)
}

/// The greatest number of 63 bits.
const SMALL: u128 = 9223372036854775807;

/// Whether all parts have at most 63 bits, and so has a bound.
fn is_small(products: &[Product], most: u128) -> bool
    ensures { IsTrue result → (most ≤ 2 ^ 63 - 1) × All IsNarrow products.now }
{
    most <= SMALL && are_narrow(products)
}

/// The entries of a sum of products of one shape, in the narrowest numbers that hold them, or its first one whose sum of
/// magnitudes is above 2^127 - 1.
fn sums_of<L: Ledger>(
    alloc: Global,
    products: &[Product],
    rows: usize,
    cols: usize,
    tuple: &Tuple,
    steps: &mut Steps<L>,
) -> Result<Vec<Gauss>, StepFault>
    requires shape { All (IsProduct rows cols) products.now }
    requires few { rows * cols ≤ 2 ^ 22 }
    ensures entries { IfOk result (λ v. v.items ≡ map (place_sum products.now) (positions (rows * cols))) }
    ensures clear { OnOk result ((o : ℕ) → o < rows * cols → place_amounts products.now o ≤ limit) }
    ensures err { IfErr result (IsFirstPassing products.now tuple.now (rows * cols)) }
    ensures steps { steps.new ≤ steps.old + rows * cols * steps_for products.now }
{
    let most = most_of(products);
    if is_small(products, most) {
        return entries_of::<Small, L>(alloc, products, rows, cols, tuple, true, steps);
    }
    entries_of::<Big, L>(alloc, products, rows, cols, tuple, most <= LIMIT, steps)
}

/// The entries of a sum of no products.
fn zeros(alloc: Global, len: u64) -> Result<Vec<Gauss>, StepFault>
    requires { len ≤ 2 ^ 22 }
    ensures entries { IfOk result (λ v. v.items ≡ map (place_sum []) (positions len)) }
    ensures err { IfErr result (IsFirstPassing [] [] len) }
{
    Ok(vec![in alloc; Gauss::ZERO; len as usize]?)
}

/// The entries of a sum of products, or its first one whose sum of magnitudes is above 2^127 - 1.
pub(crate) fn entries_from<L: Ledger>(
    alloc: Global,
    products: &[Product],
    tuple: &Tuple,
    len: u64,
    steps: &mut Steps<L>,
) -> Result<Vec<Gauss>, StepFault>
    requires products { AreProducts products.now len }
    requires len { len ≤ 2 ^ 22 }
    ensures entries { IfOk result (λ v. v.items ≡ map (place_sum products.now) (positions len)) }
    ensures clear { OnOk result ((o : ℕ) → o < len → place_amounts products.now o ≤ limit) }
    ensures err { IfErr result (IsFirstPassing products.now tuple.now len) }
    ensures steps { steps.new ≤ steps.old + len * steps_for products.now }
{
    match products.split_first() {
        None => zeros(alloc, len),
        Some((product, _)) => {
            let rows = product.first().rows();
            let cols = product.second().cols();
            sums_of(alloc, products, rows, cols, tuple, steps)
        }
    }
}

/// The first entry of a sum of products of one shape whose sum of magnitudes is above 2^127 - 1.
fn first_of(products: &[Product], rows: usize, cols: usize) -> Option<u64>
    requires shape { All (IsProduct rows cols) products.now }
    requires few { rows * cols ≤ 2 ^ 22 }
    ensures none { IsNone result → (o : ℕ) → o < rows * cols → place_amounts products.now o ≤ limit }
    ensures some { IfSome result (IsFirstPlace products.now (rows * cols)) }
{
    let safe = most_of(products) <= LIMIT;
    for x in 0..rows {
        match first_above(products, x, rows, cols, safe) {
            Some(y) => return Some((x * cols + y) as u64),
            None => {}
        }
    }
    None
}

/// The first entry of a sum of products whose sum of magnitudes is above 2^127 - 1.
pub(crate) fn first_passing(products: &[Product], len: u64) -> Option<u64>
    requires products { AreProducts products.now len }
    requires len { len ≤ 2 ^ 22 }
    ensures none { IsNone result → (o : ℕ) → o < len → place_amounts products.now o ≤ limit }
    ensures some { IfSome result (IsFirstPlace products.now len) }
{
    match products.split_first() {
        None => None,
        Some((product, _)) => first_of(products, product.first().rows(), product.second().cols()),
    }
}

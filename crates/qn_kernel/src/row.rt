//! Rows of sums of products.

ghost use Rattle.std.specs.Prelude.{◌≡◌, ◌≤◌, ◌<◌, ◌+◌, ◌*◌, ◌^◌, ◌++◌, ℕ, length, map, OnOk};
ghost use Rattle.std.specs.List.{All};
ghost use Rattle.qn_gauss.specs.Gaussian.{zero_g, mag, limit};
ghost use Rattle.qn_kernel.specs.Matrices.{number_at, ProductValue, AddsMultiple, AddsProducts, HasRoom, AddsTerms, FitsIn, AreSums, AreAtMost, IsProduct, IsNarrow, steps_for};
ghost use Rattle.qn_kernel.specs.Cells.{cells_of};
ghost use Rattle.qn_kernel.specs.Numbers.{big_value};

use crate::matrix::Cells;
use crate::number::{Big, Number, Small, Sum, Total};
use crate::product::Product;
use qn_gauss::{Gauss, Steps};
use std::alloc::AllocError;
use std::sync::ledger::Ledger;

/// Adds a multiple of a line to a row of sums.
fn add_multiple<A: Number, B: Number, S: Sum<A, B>, L: Ledger>(
    row: &mut [S],
    factor: A,
    line: &[B],
    steps: &mut Steps<L>,
)
    requires same { length line.now ≡ length row.old }
    requires room { (y : ℕ) → y < length row.old → mag (number_at (map S.total row.old) y) + mag (A.value factor) * mag (number_at (map B.value line.now) y) ≤ S.most }
    ensures sums { AddsMultiple (length row.old) (A.value factor) (map B.value line.now) (map S.total row.old) (map S.total row.new) }
    ensures steps { steps.new ≤ steps.old + length row.old }
{
    if factor.is_zero() {
        return;
    }
    for y in 0..row.len() {
        row[y] = row[y].add_product(factor, line[y], steps);
    }
}

/// Adds the products of one row of a matrix with the columns of another one, whose rows are as long as the row of sums.
/// Both are held row by row.
fn add_products<A: Number, B: Number, S: Sum<A, B>, L: Ledger>(
    row: &mut [S],
    x: usize,
    inner: usize,
    firsts: &[A],
    seconds: &[B],
    minus: bool,
    steps: &mut Steps<L>,
)
    requires first { x * inner + inner ≤ length firsts.now }
    requires second { inner * length row.old ≡ length seconds.now }
    requires few { length firsts.now < 2 ^ 64 }
    requires few_second { length seconds.now < 2 ^ 64 }
    requires room { HasRoom (map A.value firsts.now) (map B.value seconds.now) inner (length row.old) x (map S.total row.old) S.most }
    ensures sums { AddsProducts (map A.value firsts.now) (map B.value seconds.now) inner (length row.old) minus x inner (map S.total row.old) (map S.total row.new) }
    ensures steps { steps.new ≤ steps.old + inner * length row.old }
{
    let cols = row.len();
    for z in 0..inner {
        let factor = firsts[x * inner + z];
        let line = &seconds[z * cols..z * cols + cols];
        add_multiple(row, factor.signed(minus), line, steps);
    }
}

/// Adds the products of a row of the first matrix, which holds these numbers, with the columns of the second one.
fn add_any<A: Number, L: Ledger>(
    row: &mut [Big],
    x: usize,
    firsts: &[A],
    product: &Product,
    steps: &mut Steps<L>,
)
    requires first { map A.value firsts.now ≡ product.now.first.cells }
    requires shape { IsProduct product.now.first.rows (length row.old) product.now }
    requires within { x < product.now.first.rows }
    requires room { FitsIn x product.now (map big_value row.old) limit }
    ensures sums { AddsTerms x product.now (map big_value row.old) (map big_value row.new) }
    ensures steps { steps.new ≤ steps.old + product.now.first.cols * length row.old }
{
    let inner = product.first().cols();
    let minus = product.is_minus();
    match product.second().cells() {
        Cells::Wide(seconds) => add_products(row, x, inner, firsts, seconds, minus, steps),
        Cells::Narrow(seconds) => add_products(row, x, inner, firsts, seconds, minus, steps),
    }
}

/// Sums to which the products of two matrices can be added, row by row.
pub(crate) trait Adding: Total {
    ghost takes: { ProductValue → Type 0 };

    /// Adds the products of a row of the first matrix with the columns of the second one.
    fn add_matrices<L: Ledger>(row: &mut [Self], x: usize, product: &Product, steps: &mut Steps<L>)
        requires takes { takes product.now }
        requires shape { IsProduct product.now.first.rows (length row.old) product.now }
        requires within { x < product.now.first.rows }
        requires room { FitsIn x product.now (map Self.total row.old) Self.most }
        ensures sums { AddsTerms x product.now (map Self.total row.old) (map Self.total row.new) }
        ensures steps { steps.new ≤ steps.old + product.now.first.cols * length row.old };
}

impl Adding for Big {
    ghost takes = { λ s. Unit {0} };

    fn add_matrices<L: Ledger>(row: &mut [Big], x: usize, product: &Product, steps: &mut Steps<L>) {
        match product.first().cells() {
            Cells::Wide(firsts) => add_any(row, x, firsts, product, steps),
            Cells::Narrow(firsts) => add_any(row, x, firsts, product, steps),
        }
    }
}

impl Adding for Small {
    ghost takes = { IsNarrow };

    fn add_matrices<L: Ledger>(
        row: &mut [Small],
        x: usize,
        product: &Product,
        steps: &mut Steps<L>,
    ) {
        let inner = product.first().cols();
        let firsts = product.first().narrow();
        let seconds = product.second().narrow();
        add_products(row, x, inner, firsts, seconds, product.is_minus(), steps);
    }
}

/// Sets all sums of a row to 0.
fn clear<S: Total>(row: &mut [S])
    ensures { (y : ℕ) → y < length row.old → number_at (map S.total row.new) y ≡ zero_g }
{
    for y in 0..row.len() {
        row[y] = S::zero();
    }
}

/// Makes the sums of products of a row.
pub(crate) fn sum_up<S: Adding, L: Ledger>(
    row: &mut [S],
    x: usize,
    rows: usize,
    products: &[Product],
    steps: &mut Steps<L>,
)
    requires takes { All S.takes products.now }
    requires shape { All (IsProduct rows (length row.old)) products.now }
    requires within { x < rows }
    requires room { AreAtMost products.now (length row.old) x S.most }
    ensures sums { AreSums products.now (length row.old) x (map S.total row.new) }
    ensures steps { steps.new ≤ steps.old + steps_for products.now * length row.old }
{
    clear(row);
    for product in products {
        S::add_matrices(row, x, product, steps);
    }
}

/// Appends the sums of a row.
pub(crate) fn append_sums<S: Total>(row: &[S], entries: &mut Vec<Gauss>) -> Result<(), AllocError>
    ensures { OnOk result (entries.new.items ≡ entries.old.items ++ map S.total row.now) }
{
    for sum in row {
        entries.push(sum.gauss())?;
    }
    Ok(())
}

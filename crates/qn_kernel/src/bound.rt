//! What sums of magnitudes are at most.

ghost use Rattle.std.specs.Prelude.{◌≡◌, ◌≤◌, ◌<◌, ◌+◌, ◌*◌, ◌^◌, ◌-◌, ℕ, min, length, IsTrue, IsNone, IfSome};
ghost use Rattle.std.specs.List.{All};
ghost use Rattle.qn_gauss.specs.Gaussian.{mag, limit};
ghost use Rattle.qn_value.specs.Magnitudes.{total_below};
ghost use Rattle.qn_kernel.specs.Matrices.{number_at, amount_at, amounts_at, AreAtMost, IsFirstInRow, IsMatrix, IsProduct};

use crate::matrix::Matrix;
use crate::product::Product;
use qn_gauss::LIMIT;

/// At most this are the sums of magnitudes that two matrices add, where it is in range.
fn most_of_one(product: &Product) -> u128
    ensures { result ≤ limit → (x y : ℕ) → amount_at x y product.now ≤ result }
{
    let first = product.first().greatest();
    let second = product.second().greatest();
    let inner = product.first().cols() as u128;
    first.saturating_mul(second).saturating_mul(inner)
}

/// At most this are the sums of magnitudes of a sum of products, where it is in range.
pub(crate) fn most_of(products: &[Product]) -> u128
    ensures { result ≤ limit → (x y : ℕ) → amounts_at products.now x y ≤ result }
{
    let mut most: u128 = 0;
    for product in products {
        most = most.saturating_add(most_of_one(product));
    }
    most
}

/// The sum of the magnitudes of a row, where it is in range.
fn row_sum(matrix: &Matrix, x: usize) -> u128
    requires matrix { IsMatrix matrix.now }
    requires within { x < matrix.now.rows }
    ensures { result ≤ limit → total_below matrix.now.cols (λ z. mag (number_at matrix.now.cells (x * matrix.now.cols + z))) ≤ result }
{
    let cols = matrix.cols();
    let mut sum: u128 = 0;
    for z in 0..cols {
        sum = sum.saturating_add(matrix.mag_at(x * cols + z));
    }
    sum
}

/// At most this are the sums of magnitudes that two matrices add in a row, where it is in range.
fn row_most_of_one(product: &Product, x: usize) -> u128
    requires matrix { IsMatrix product.now.first }
    requires within { x < product.now.first.rows }
    ensures { result ≤ limit → (y : ℕ) → amount_at x y product.now ≤ result }
{
    row_sum(product.first(), x).saturating_mul(product.second().greatest())
}

/// At most this are the sums of magnitudes of a row of a sum of products, where it is in range.
fn row_most(products: &[Product], x: usize, rows: usize, cols: usize) -> u128
    requires shape { All (IsProduct rows cols) products.now }
    requires within { x < rows }
    ensures { result ≤ limit → (y : ℕ) → amounts_at products.now x y ≤ result }
{
    let mut most: u128 = 0;
    for product in products {
        most = most.saturating_add(row_most_of_one(product, x));
    }
    most
}

/// The sum of magnitudes that two matrices add in a row and a column, and 2^128 - 1 where it is above that.
fn amount_of(product: &Product, x: usize, y: usize, rows: usize, cols: usize) -> u128
    requires shape { IsProduct rows cols product.now }
    requires row { x < rows }
    requires col { y < cols }
    ensures { result ≡ min (amount_at x y product.now) (2 ^ 128 - 1) }
{
    let inner = product.first().cols();
    let mut amount: u128 = 0;
    for z in 0..inner {
        let first = product.first().mag_at(x * inner + z);
        let second = product.second().mag_at(z * cols + y);
        amount = amount.saturating_add(first.saturating_mul(second));
    }
    amount
}

/// The sum of magnitudes in a row and a column, and 2^128 - 1 where it is above that.
fn amounts_of(products: &[Product], x: usize, y: usize, rows: usize, cols: usize) -> u128
    requires shape { All (IsProduct rows cols) products.now }
    requires row { x < rows }
    requires col { y < cols }
    ensures { result ≡ min (amounts_at products.now x y) (2 ^ 128 - 1) }
{
    let mut amount: u128 = 0;
    for product in products {
        amount = amount.saturating_add(amount_of(product, x, y, rows, cols));
    }
    amount
}

/// The first column of a row in which the sum of magnitudes is above 2^127 - 1. Where `safe` holds there is none.
pub(crate) fn first_above(
    products: &[Product],
    x: usize,
    rows: usize,
    cols: usize,
    safe: bool,
) -> Option<usize>
    requires shape { All (IsProduct rows cols) products.now }
    requires within { x < rows }
    requires safe { IsTrue safe → AreAtMost products.now cols x limit }
    ensures none { IsNone result → AreAtMost products.now cols x limit }
    ensures some { IfSome result (IsFirstInRow products.now cols x) }
{
    if safe {
        return None;
    }
    if row_most(products, x, rows, cols) <= LIMIT {
        return None;
    }
    for y in 0..cols {
        if amounts_of(products, x, y, rows, cols) > LIMIT {
            return Some(y);
        }
    }
    None
}

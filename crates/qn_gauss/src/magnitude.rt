//! Sums and products of magnitudes, refused where they pass the limit.

ghost use Rattle.std.specs.Prelude.{◌≡◌, ◌+◌, ◌*◌, ◌≤◌, ◌<◌, ◌↔◌, IsNone, IfSome};
ghost use Rattle.qn_gauss.specs.Gaussian.{limit};

use crate::gauss::LIMIT;

/// The sum of two magnitudes, or `None` exactly where it is above `LIMIT`.
pub fn mag_add(a: u128, b: u128) -> Option<u128>
    requires first { a ≤ limit }
    requires second { b ≤ limit }
    ensures none { IsNone result ↔ (limit < a + b) }
    ensures value { IfSome result (λ n. n ≡ a + b) }
{
    let sum = a + b;
    if sum > LIMIT { None } else { Some(sum) }
}

/// The product of two magnitudes, or `None` exactly where it is above `LIMIT`.
pub fn mag_mul(a: u128, b: u128) -> Option<u128>
    requires first { a ≤ limit }
    requires second { b ≤ limit }
    ensures none { IsNone result ↔ (limit < a * b) }
    ensures value { IfSome result (λ n. n ≡ a * b) }
{
    match a.checked_mul(b) {
        Some(product) if product <= LIMIT => Some(product),
        _ => None,
    }
}

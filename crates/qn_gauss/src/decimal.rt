//! The decimal of a 128-bit number, written and read back.

ghost use Rattle.std.specs.Prelude.{◌≡◌, ◌≤◌, ◌<◌, ◌+◌, ◌-◌, ◌*◌, ℕ, ℤ, length, take, unsigned_abs, IfOk, IfSome, IsNone, IsTrue, ◌↔◌, slice_index, string_bytes};
ghost use Rattle.std.specs.Fmt.{decimal, signed_decimal};
ghost use Rattle.qn_gauss.specs.Gaussian.{limit};

use crate::gauss::LIMIT;
use itoa::Buffer;
use std::alloc::{AllocError, Global};

/// Writes the decimal of `x` to the front of the buffer and answers its length, 40 at most. It takes
/// no memory.
pub fn write_decimal(x: i128, buf: &mut [u8; 40]) -> usize
    requires { unsigned_abs x ≤ limit }
    ensures room { result ≤ 40 }
    ensures count { result ≡ length (signed_decimal x) }
    ensures text { take result buf.new ≡ signed_decimal x }
{
    let mut digits = Buffer::new();
    let text = digits.format(x).as_bytes();
    buf[..text.len()].copy_from_slice(text);
    text.len()
}

/// The decimal of `x`: digits without a leading zero, behind a `-` where `x` is negative.
///
/// The only error is want of memory.
pub fn text(alloc: Global, x: i128) -> Result<String, AllocError>
    requires { unsigned_abs x ≤ limit }
    ensures { IfOk result (λ s. string_bytes s ≡ signed_decimal x) }
{
    x.to_string(alloc)
}

/// The number whose decimal these bytes are: an optional `-`, then `0` alone or digits without a
/// leading zero. `-0` and a `+` are no decimals.
///
/// `None` exactly where the bytes are the decimal of no number whose size is at most `LIMIT`, so it
/// answers `Some(x)` on the bytes of `text(x)` and on no others.
pub fn parse_decimal(bytes: &[u8]) -> Option<i128>
    ensures size { IfSome result (λ x. unsigned_abs x ≤ limit) }
    ensures value { IfSome result (λ x. bytes.now ≡ signed_decimal x) }
    ensures complete { (x : ℤ) → unsigned_abs x ≤ limit → bytes.now ≡ signed_decimal x → result ≡ Some x }
{
    match bytes.split_first() {
        Some((b'-', digits)) => match parse_digits(digits) {
            Some(n) if n > 0 => Some(-(n as i128)),
            _ => None,
        },
        _ => match parse_digits(bytes) {
            Some(n) => Some(n as i128),
            None => None,
        },
    }
}

// The number whose decimal, without a sign, these bytes are.
fn parse_digits(bytes: &[u8]) -> Option<u128>
    ensures value { IfSome result (λ n. (n ≤ limit) × (bytes.now ≡ decimal n)) }
    ensures complete { (n : ℕ) → n ≤ limit → bytes.now ≡ decimal n → result ≡ Some n }
{
    if bytes.is_empty() {
        return None;
    }
    if has_leading_zero(bytes) {
        return None;
    }
    let mut n = 0u128;
    for b in bytes {
        n = match next(n, *b) {
            Some(more) => more,
            None => return None,
        };
    }
    Some(n)
}

// Whether digits stand behind a zero.
fn has_leading_zero(bytes: &[u8]) -> bool
    requires { 0 < length bytes.now }
    ensures { IsTrue result ↔ (slice_index bytes.now 0 ≡ 48) × (1 < length bytes.now) }
{
    bytes[0] == b'0' && bytes.len() > 1
}

// The number with one digit more, where the byte is a digit and the number stays within the limit.
fn next(n: u128, b: u8) -> Option<u128>
    requires { n ≤ limit }
    ensures value { IfSome result (λ m. (m ≤ limit) × (48 ≤ b) × (b ≤ 57) × (m ≡ n * 10 + (b - 48))) }
    ensures none { IsNone result → 48 ≤ b → b ≤ 57 → limit < n * 10 + (b - 48) }
{
    if !b.is_ascii_digit() {
        return None;
    }
    let digit = u128::from(b - b'0');
    if n > (LIMIT - digit) / 10 {
        return None;
    }
    Some(n * 10 + digit)
}

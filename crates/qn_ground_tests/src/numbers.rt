//! Numbers at the limit and past it, sums and products, and decimals both ways.

ghost use Rattle.std.specs.Prelude.{◌≡◌, ◌<◌};

use qn_gauss::{Gauss, LIMIT, Steps, mag_add, mag_mul, parse_decimal, text, write_decimal};
use std::alloc::{AllocError, Global};
use std::marker::Brand;
use std::sync::ledger::{Blank, Ledger};
use std::test::Fail;

// The greatest part of a number, and 2^63.
const MOST: i128 = 170141183460469231731687303715884105727;

const WORD: i128 = 9223372036854775808;

// The parts of a number.
type Parts = (i128, i128);

fn parts(z: Gauss) -> Parts {
    (z.re(), z.im())
}

// A number's negative, its conjugate, its magnitude and whether it is 0.
fn turned(re: i128, im: i128) -> Option<(Parts, Parts, u128, bool)> {
    let z = Gauss::new(re, im)?;
    Some((parts(z.neg()), parts(z.conj()), z.mag(), z.is_zero()))
}

#[test]
fn numbers_up_to_the_limit(rt: HostRuntime) {
    let rows = [
        (0, 0, Some(((0, 0), (0, 0), 0, true))),
        (3, -4, Some(((-3, 4), (3, 4), 7, false))),
        (
            -1,
            MOST - 1,
            Some(((1, 1 - MOST), (-1, 1 - MOST), LIMIT, false)),
        ),
        (MOST, 1, None),
        (-MOST - 1, 0, None),
    ];
    for (re, im, want) in rows {
        assert!(rt; turned(re, im) == want);
    }
    assert!(rt; parts(Gauss::ZERO) == (0, 0) && parts(Gauss::ONE) == (1, 0));
}

// The sum, where the magnitudes add up to at most the limit.
fn sum(a: Parts, b: Parts) -> Option<Parts> {
    let (a, b) = (Gauss::new(a.0, a.1)?, Gauss::new(b.0, b.1)?);
    mag_add(a.mag(), b.mag())?;
    Some(parts(a.add(b)))
}

// The product, where that of the magnitudes is at most the limit.
fn product<L: Ledger>(a: Parts, b: Parts, blank: Blank) -> Option<Parts>
    requires name { blank.name ≡ L.name }
    requires parts { blank.parts ≡ L.parts }
    requires some { 0 < L.parts }
{
    let mut steps = Steps::<L>::new(blank);
    let (a, b) = (Gauss::new(a.0, a.1)?, Gauss::new(b.0, b.1)?);
    mag_mul(a.mag(), b.mag())?;
    Some(parts(a.mul(b, &mut steps)))
}

#[test]
fn sums_and_products(rt: HostRuntime) {
    let rows = [
        ((1, 2), (3, -4), Some((4, -2)), Some((11, 2))),
        ((MOST, 0), (0, 1), None, Some((0, MOST))),
        (
            (MOST - 1, 0),
            (0, -1),
            Some((MOST - 1, -1)),
            Some((0, 1 - MOST)),
        ),
        (
            (WORD, WORD - 1),
            (0, -WORD),
            Some((WORD, -1)),
            Some((
                85070591730234615856620279821087277056,
                -85070591730234615865843651857942052864,
            )),
        ),
        ((MOST, 0), (0, MOST), None, None),
    ];
    for (a, b, added, multiplied) in rows {
        assert!(rt; sum(a, b) == added);
        assert!(rt; product::<Brand>(a, b, Blank::new(1)) == multiplied);
    }
}

// Whether a number's decimal is this one, and the number is read back.
fn is_decimal(alloc: Global, x: i128, want: &str) -> Result<bool, AllocError> {
    if x.unsigned_abs() > LIMIT {
        return Ok(false);
    }
    let made = text(alloc, x)?;
    let mut buf = [0u8; 40];
    let len = write_decimal(x, &mut buf);
    let is_written = buf.get(..len) == Some(want.as_bytes());
    Ok(is_written && made.as_str() == want && parse_decimal(want.as_bytes()) == Some(x))
}

#[test]
fn decimals_both_ways(rt: HostRuntime) -> Result<(), Fail> {
    for (x, want) in [
        (0, "0"),
        (-10, "-10"),
        (18446744073709551616, "18446744073709551616"),
        (-MOST, "-170141183460469231731687303715884105727"),
    ] {
        assert!(rt; is_decimal(rt.alloc(), x, want)?);
    }
    for other in [
        "",
        "-0",
        "007",
        "1.0",
        "170141183460469231731687303715884105728",
    ] {
        assert!(rt; parse_decimal(other.as_bytes()).is_none());
    }
    Ok(())
}

//! A Gaussian integer whose two magnitudes add up to at most 2^127 - 1, and its exact arithmetic.

ghost use Rattle.std.specs.Prelude.{◌≡◌, ℕ, ◌+◌, ◌*◌, ◌≤◌, ◌<◌, ◌-◌, ◌^◌, ◌↔◌, ℤ, pos, ◌+ℤ◌, ◌-ℤ◌, ◌*ℤ◌, IsTrue, IsNone, IfSome, unsigned_abs};
ghost use Rattle.qn_gauss.specs.Gaussian.{Gaussian, mag, limit, zero_g, add_g, mul_g, neg_g, conj_g};

use crate::steps::Steps;
use std::marker::Model;
use std::sync::ledger::Ledger;

/// The greatest magnitude of an entry: 2^127 - 1.
pub const LIMIT: u128 = 170141183460469231731687303715884105727;

/// An exact Gaussian integer `re + im i` whose magnitude `|re| + |im|` is at most `LIMIT`.
///
/// Contracts see it as a pair of whole numbers of any size. A call either gives the exact result or
/// asks that it be within `LIMIT`; none rounds or wraps.
#[derive(Clone, Copy, Debug, PartialEq, Eq)]
pub struct Gauss {
    re: i128,
    im: i128,
}

impl Model for Gauss {
    ghost use Rattle.std.specs.Prelude.{◌≤◌, ◌+◌, unsigned_abs};
    ghost use Rattle.qn_gauss.specs.Gaussian.{Gaussian, limit};

    ghost Value = { Gaussian };

    ghost view = { λ g. record { re = g.re; im = g.im } };

    ghost invariant = { λ g. unsigned_abs g.re + unsigned_abs g.im ≤ limit };

    ghost inverse = { λ z. record { re = z.re; im = z.im } };
}

impl Gauss {
    /// The number 0.
    pub const ZERO: Gauss = Gauss { re: 0, im: 0 };

    /// The number 1.
    pub const ONE: Gauss = Gauss { re: 1, im: 0 };

    /// The number `re + im i`, or `None` exactly where its magnitude is above `LIMIT`.
    pub fn new(re: i128, im: i128) -> Option<Gauss>
        ensures valid { IsNone result ↔ (limit < unsigned_abs re + unsigned_abs im) }
        ensures value { IfSome result (λ z. z ≡ record { re = re; im = im }) }
    {
        let a = re.unsigned_abs();
        let b = im.unsigned_abs();
        if a > LIMIT || b > LIMIT - a {
            None
        } else {
            Some(Gauss { re, im })
        }
    }

    /// The real part.
    #[inline]
    pub fn re(self) -> i128
        ensures { result ≡ self.re }
    {
        self.re
    }

    /// The imaginary part.
    #[inline]
    pub fn im(self) -> i128
        ensures { result ≡ self.im }
    {
        self.im
    }

    /// The magnitude `|re| + |im|`, which is at most `LIMIT`.
    #[inline]
    pub fn mag(self) -> u128
        ensures value { result ≡ mag self }
        ensures bound { mag self ≤ limit }
    {
        self.re.unsigned_abs() + self.im.unsigned_abs()
    }

    /// Holds that the magnitude is at most `LIMIT`; it has no work to do.
    #[inline]
    pub fn known(&self)
        ensures { mag self.now ≤ limit }
    {
        let _re = self.re;
    }

    /// Whether the number is 0.
    #[inline]
    #[tactic(auto, unfolding(crate::specs::Gaussian::zero_g))]
    pub fn is_zero(self) -> bool
        ensures { IsTrue result ↔ (self ≡ zero_g) }
    {
        self.re == 0 && self.im == 0
    }

    /// The negative. It has the same magnitude, so it always fits.
    #[inline]
    #[tactic(auto, unfolding(crate::specs::Gaussian::neg_g))]
    pub fn neg(self) -> Gauss
        ensures value { result ≡ neg_g self }
        ensures size { mag result ≡ mag self }
    {
        Gauss {
            re: -self.re,
            im: -self.im,
        }
    }

    /// The complex conjugate `re - im i`. It has the same magnitude, so it always fits.
    #[inline]
    #[tactic(auto, unfolding(crate::specs::Gaussian::conj_g))]
    pub fn conj(self) -> Gauss
        ensures value { result ≡ conj_g self }
        ensures size { mag result ≡ mag self }
    {
        Gauss {
            re: self.re,
            im: -self.im,
        }
    }

    /// The exact sum, where the magnitudes add up to at most `LIMIT`.
    #[inline]
    #[tactic(auto, unfolding(crate::specs::Gaussian::add_g))]
    pub fn add(self, other: Gauss) -> Gauss
        requires { mag self + mag other ≤ limit }
        ensures value { result ≡ add_g self other }
        ensures size { mag result ≤ mag self + mag other }
    {
        Gauss {
            re: sum(self.re, other.re),
            im: sum(self.im, other.im),
        }
    }

    /// The exact product, where the product of the magnitudes is at most `LIMIT`. Each call is one
    /// step of the counter: the steps of a computation are its Gaussian multiplications.
    #[inline]
    #[tactic(auto, unfolding(crate::specs::Gaussian::mul_g))]
    pub fn mul<L: Ledger>(self, other: Gauss, steps: &mut Steps<L>) -> Gauss
        requires { mag self * mag other ≤ limit }
        ensures value { result ≡ mul_g self other }
        ensures size { mag result ≤ mag self * mag other }
        ensures tick { steps.new ≡ steps.old + 1 }
    {
        steps.tick();
        let Gauss { re: a, im: b } = self;
        let Gauss { re: c, im: d } = other;
        let re = difference(product(a, c), product(b, d));
        let im = sum(product(a, d), product(b, c));
        Gauss { re, im }
    }
}

// The product of two whole numbers, where it is within the limit.
fn product(a: i128, b: i128) -> i128
    requires { unsigned_abs a * unsigned_abs b ≤ limit }
    ensures { result ≡ a *ℤ b }
{
    a * b
}

// Their sum, where the sizes add up to at most the limit.
fn sum(a: i128, b: i128) -> i128
    requires { unsigned_abs a + unsigned_abs b ≤ limit }
    ensures { result ≡ a +ℤ b }
{
    a + b
}

// Their difference, where the sizes add up to at most the limit.
fn difference(a: i128, b: i128) -> i128
    requires { unsigned_abs a + unsigned_abs b ≤ limit }
    ensures { result ≡ a -ℤ b }
{
    a - b
}

//! Numbers that are multiplied, and sums of their products.

ghost use Rattle.std.specs.Prelude.{◌≡◌, ◌≤◌, ◌<◌, ◌+◌, ◌*◌, ◌^◌, ◌-◌, ◌↔◌, ◌+ℤ◌, ◌-ℤ◌, ◌*ℤ◌, ℕ, IsTrue, unsigned_abs};
ghost use Rattle.qn_gauss.specs.Gaussian.{Gaussian, zero_g, add_g, mul_g, mag, limit, signed};

use qn_gauss::{Gauss, Steps};
use std::sync::ledger::Ledger;

/// A number that is multiplied.
pub(crate) trait Number: Copy {
    ghost value: { Self → Gaussian };

    /// The real part.
    fn re(self) -> i128
        ensures { result ≡ (value self).re };

    /// The imaginary part.
    fn im(self) -> i128
        ensures { result ≡ (value self).im };

    /// The number with the sign -1 where `minus` holds.
    fn signed(self, minus: bool) -> Self
        ensures { value result ≡ signed minus (value self) };

    /// Whether it is 0.
    fn is_zero(self) -> bool
        ensures { IsTrue result ↔ (value self ≡ zero_g) };
}

/// A sum of products that is in range.
pub(crate) trait Total: Copy {
    ghost total: { Self → Gaussian };

    ghost most: { ℕ };

    /// The empty sum.
    fn zero() -> Self
        ensures { total result ≡ zero_g };

    /// The sum itself.
    fn gauss(self) -> Gauss
        ensures { result ≡ total self };
}

/// A sum of products of two kinds of numbers.
pub(crate) trait Sum<A: Number, B: Number>: Total {
    /// The sum with one product more, which is a step.
    fn add_product<L: Ledger>(self, first: A, second: B, steps: &mut Steps<L>) -> Self
        requires { mag (Self.total self) + mag (A.value first) * mag (B.value second) ≤ Self.most }
        ensures value { Self.total result ≡ add_g (Self.total self) (mul_g (A.value first) (B.value second)) }
        ensures steps { steps.new ≤ steps.old + 1 };
}

impl Number for Gauss {
    ghost value = { λ x. x };

    fn re(self) -> i128 {
        Gauss::re(self)
    }

    fn im(self) -> i128 {
        Gauss::im(self)
    }

    fn signed(self, minus: bool) -> Gauss {
        if minus { self.neg() } else { self }
    }

    fn is_zero(self) -> bool {
        Gauss::is_zero(self)
    }
}

/// A number whose parts have at most 63 bits.
#[derive(Clone, Copy, Debug)]
pub(crate) struct Small {
    pub re: i64,
    pub im: i64,
    ghost re_fits: { unsigned_abs re < 2 ^ 63 },
    ghost im_fits: { unsigned_abs im < 2 ^ 63 },
}

impl Small {
    /// The magnitude.
    pub(crate) fn mag(self) -> u128
        ensures { result ≡ unsigned_abs self.re + unsigned_abs self.im }
    {
        u128::from(self.re.unsigned_abs()) + u128::from(self.im.unsigned_abs())
    }
}

impl Number for Small {
    ghost value = { λ s. record { re = s.re; im = s.im } };

    fn re(self) -> i128 {
        i128::from(self.re)
    }

    fn im(self) -> i128 {
        i128::from(self.im)
    }

    #[tactic(auto, unfolding(qn_gauss::specs::Gaussian::neg_g))]
    fn signed(self, minus: bool) -> Small {
        if minus {
            Small {
                re: -self.re,
                im: -self.im,
            }
        } else {
            self
        }
    }

    #[tactic(auto, unfolding(qn_gauss::specs::Gaussian::zero_g))]
    fn is_zero(self) -> bool {
        self.re == 0 && self.im == 0
    }
}

impl Total for Small {
    ghost total = { λ s. record { re = s.re; im = s.im } };

    ghost most = { 2 ^ 63 - 1 };

    #[tactic(auto, unfolding(qn_gauss::specs::Gaussian::zero_g))]
    fn zero() -> Small {
        Small { re: 0, im: 0 }
    }

    fn gauss(self) -> Gauss {
        match Gauss::new(i128::from(self.re), i128::from(self.im)) {
            Some(z) => z,
            None => unreachable!(),
        }
    }
}

impl Sum<Small, Small> for Small {
    #[tactic(auto, unfolding(qn_gauss::specs::Gaussian::add_g, qn_gauss::specs::Gaussian::mul_g))]
    fn add_product<L: Ledger>(self, first: Small, second: Small, steps: &mut Steps<L>) -> Small {
        steps.tick();
        let re = small_difference(
            small_product(first.re, second.re),
            small_product(first.im, second.im),
        );
        let im = small_sum(
            small_product(first.re, second.im),
            small_product(first.im, second.re),
        );
        Small {
            re: small_sum(self.re, re),
            im: small_sum(self.im, im),
        }
    }
}

/// A sum whose parts have at most 127 bits together.
#[derive(Clone, Copy, Debug)]
pub(crate) struct Big {
    re: i128,
    im: i128,
    ghost fits: { unsigned_abs re + unsigned_abs im ≤ limit },
}

impl Total for Big {
    ghost total = { λ s. record { re = s.re; im = s.im } };

    ghost most = { limit };

    #[tactic(auto, unfolding(qn_gauss::specs::Gaussian::zero_g))]
    fn zero() -> Big {
        Big { re: 0, im: 0 }
    }

    fn gauss(self) -> Gauss {
        match Gauss::new(self.re, self.im) {
            Some(z) => z,
            None => unreachable!(),
        }
    }
}

impl<A: Number, B: Number> Sum<A, B> for Big {
    #[tactic(auto, unfolding(qn_gauss::specs::Gaussian::add_g, qn_gauss::specs::Gaussian::mul_g))]
    fn add_product<L: Ledger>(self, first: A, second: B, steps: &mut Steps<L>) -> Big {
        steps.tick();
        let re = big_difference(
            big_product(first.re(), second.re()),
            big_product(first.im(), second.im()),
        );
        let im = big_sum(
            big_product(first.re(), second.im()),
            big_product(first.im(), second.re()),
        );
        Big {
            re: big_sum(self.re, re),
            im: big_sum(self.im, im),
        }
    }
}

// The product of two whole numbers, where it has at most 63 bits.
fn small_product(a: i64, b: i64) -> i64
    requires { unsigned_abs a * unsigned_abs b < 2 ^ 63 }
    ensures { result ≡ a *ℤ b }
{
    a * b
}

// Their sum, where the sizes add up to at most 63 bits.
fn small_sum(a: i64, b: i64) -> i64
    requires { unsigned_abs a + unsigned_abs b < 2 ^ 63 }
    ensures { result ≡ a +ℤ b }
{
    a + b
}

// Their difference, where the sizes add up to at most 63 bits.
fn small_difference(a: i64, b: i64) -> i64
    requires { unsigned_abs a + unsigned_abs b < 2 ^ 63 }
    ensures { result ≡ a -ℤ b }
{
    a - b
}

// The product of two whole numbers, where it is within the limit.
fn big_product(a: i128, b: i128) -> i128
    requires { unsigned_abs a * unsigned_abs b ≤ limit }
    ensures { result ≡ a *ℤ b }
{
    a * b
}

// Their sum, where the sizes add up to at most the limit.
fn big_sum(a: i128, b: i128) -> i128
    requires { unsigned_abs a + unsigned_abs b ≤ limit }
    ensures { result ≡ a +ℤ b }
{
    a + b
}

// Their difference, where the sizes add up to at most the limit.
fn big_difference(a: i128, b: i128) -> i128
    requires { unsigned_abs a + unsigned_abs b ≤ limit }
    ensures { result ≡ a -ℤ b }
{
    a - b
}

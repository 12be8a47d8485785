//! A small Gaussian integer in plain arithmetic, which the engine's numbers have no part in.

use qn_gauss::Gauss;

#[derive(Clone, Copy, Debug, PartialEq)]
pub(crate) struct Number {
    pub(crate) re: i64,
    pub(crate) im: i64,
}

pub(crate) const ZERO: Number = Number { re: 0, im: 0 };

pub(crate) const ONE: Number = Number { re: 1, im: 0 };

impl Number {
    pub(crate) fn of(z: Gauss) -> Number {
        Number {
            re: i64::try_from(z.re()).unwrap_or(0),
            im: i64::try_from(z.im()).unwrap_or(0),
        }
    }

    pub(crate) fn plus(self, other: Number) -> Number {
        Number {
            re: self.re.wrapping_add(other.re),
            im: self.im.wrapping_add(other.im),
        }
    }

    pub(crate) fn times(self, other: Number) -> Number {
        let re = self.re.wrapping_mul(other.re);
        let im = self.re.wrapping_mul(other.im);
        Number {
            re: re.wrapping_sub(self.im.wrapping_mul(other.im)),
            im: im.wrapping_add(self.im.wrapping_mul(other.re)),
        }
    }

    pub(crate) fn conj(self) -> Number {
        Number {
            re: self.re,
            im: self.im.wrapping_neg(),
        }
    }

    // The number, negated where the sign is minus.
    pub(crate) fn signed(self, minus: bool) -> Number {
        if minus { ZERO.minus(self) } else { self }
    }

    fn minus(self, other: Number) -> Number {
        Number {
            re: self.re.wrapping_sub(other.re),
            im: self.im.wrapping_sub(other.im),
        }
    }

    pub(crate) fn is_zero(self) -> bool {
        self.re == 0 && self.im == 0
    }
}

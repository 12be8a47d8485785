//! One factor of a group, U(1) or Z_n, bosonic or fermionic.

ghost use Rattle.std.specs.Prelude.{◌≡◌, ◌↔◌, ℤ, ◌^◌, ◌+ℤ◌, neg_ℤ, IsTrue};
ghost use Rattle.qn_charge.specs.Charges.{is_fermion, is_odd, fermion_part, reduced, IsFactor, IsCanonicalPart, IsPartWithin};
ghost use Rattle.qn_charge.specs.Ranges.{IsOutOfBound};
ghost use Rattle.qn_charge.specs.Faults.{IsBadModulus, IsOddFermion};

/// A factor of a group: U(1), whose parts are whole numbers, or Z_n, whose parts are the numbers from 0 to n - 1.
/// The parity of a charge counts the parts of the fermionic factors alone.
#[derive(Clone, Copy, Debug, PartialEq, Eq)]
pub enum Factor {
    U1 { fermion: bool },
    Zn { n: u32, fermion: bool },
}

impl Factor {
    /// Whether the factor is fermionic.
    pub fn is_fermion(self) -> bool
        ensures { result ≡ is_fermion self }
    {
        match self {
            Factor::U1 { fermion } | Factor::Zn { fermion, .. } => fermion,
        }
    }

    // Whether n is outside 2 to 1,000.
    pub(crate) fn has_bad_modulus(self) -> bool
        ensures { IsTrue result ↔ IsBadModulus self }
    {
        match self {
            Factor::U1 { .. } => false,
            Factor::Zn { n, .. } => n < 2 || n > 1000,
        }
    }

    // Whether the factor is fermionic and n is odd.
    pub(crate) fn is_odd_fermion(self) -> bool
        ensures { IsTrue result ↔ IsOddFermion self }
    {
        match self {
            Factor::U1 { .. } => false,
            Factor::Zn { n, fermion } => fermion && n % 2 == 1,
        }
    }

    // The canonical form of a part.
    pub(crate) fn part_canon(self, x: i64) -> i64
        requires { IsFactor self }
        ensures { result ≡ reduced self x }
    {
        match self {
            Factor::U1 { .. } => x,
            Factor::Zn { n, .. } => x.rem_euclid(n as i64),
        }
    }

    // The sum of two parts.
    pub(crate) fn part_sum(self, a: i64, b: i64) -> i64
        requires factor { IsFactor self }
        requires first { IsCanonicalPart self a }
        requires second { IsCanonicalPart self b }
        requires within { IsPartWithin (2 ^ 62) self (a +ℤ b) }
        ensures { result ≡ reduced self (a +ℤ b) }
    {
        match self {
            Factor::U1 { .. } => a + b,
            Factor::Zn { n, .. } => (a + b).rem_euclid(n as i64),
        }
    }

    // The negative of a part.
    pub(crate) fn part_neg(self, a: i64) -> i64
        requires factor { IsFactor self }
        requires canonical { IsCanonicalPart self a }
        requires within { IsPartWithin (2 ^ 62) self (neg_ℤ a) }
        ensures { result ≡ reduced self (neg_ℤ a) }
    {
        match self {
            Factor::U1 { .. } => -a,
            Factor::Zn { n, .. } => (-a).rem_euclid(n as i64),
        }
    }

    // Whether a part adds an odd number to the sum of the fermionic parts.
    pub(crate) fn is_part_odd(self, a: i64) -> bool
        ensures { result ≡ is_odd (fermion_part self a) }
    {
        self.is_fermion() && a.unsigned_abs() % 2 == 1
    }

    // Whether a part is out of range.
    pub(crate) fn is_part_out(self, x: i64, bound: i64) -> bool
        ensures { IsTrue result ↔ IsOutOfBound bound self x }
    {
        match self {
            Factor::U1 { .. } => x > bound || bound == i64::MIN || x < -bound,
            Factor::Zn { n, .. } => x < 0 || x >= n as i64,
        }
    }
}

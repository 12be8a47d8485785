//! Why factors are no group.

/// Why factors are no group. `factor` is the number of the first factor at fault, counted from 0.
#[derive(Clone, Copy, Debug, PartialEq, Eq)]
pub enum GroupFault {
    /// The n of a Z_n factor is outside 2 to 1,000.
    Modulus { factor: usize },
    /// A Z_n factor is fermionic and n is odd, so that its parts have no parity.
    OddFermion { factor: usize },
}

//! A charge: K whole numbers, one for each factor of a group.

ghost use Rattle.std.specs.Prelude.{◌≡◌, ℕ, ◌≤◌, ◌<◌, List, length, slice_index_or, ℤ, pos, IsTrue, ◌↔◌};
ghost use Rattle.std.specs.Cmp.Lexicographic.{slice_cmp};
ghost use Rattle.std.specs.Ordering.{int_cmp};

use std::cmp::Ordering;
use std::marker::Model;

/// A charge: a list of K parts, one whole number for each factor of a group. K is from 0 to 4.
/// Charges are ordered part by part.
#[derive(Clone, Copy, Debug, PartialEq, Eq, PartialOrd, Ord)]
pub struct Charge<const K: usize> {
    // the parts from K on are 0
    parts: [i64; 4],
}

impl<const K: usize> Model for Charge<K> {
    ghost use Rattle.std.specs.Prelude.{ℤ, pos, List, take};
    ghost use Rattle.std.proofs.Common.{ap};
    ghost use Rattle.qn_charge.specs.Padded.{IsPadded, padded, padded-take};

    ghost Value = { List ℤ };

    ghost view = { λ c. take K c.parts };

    ghost invariant = { λ c. IsPadded (pos 0) K c.parts };

    ghost inverse = { λ xs. record { parts = padded (pos 0) K xs } };

    ghost inverse_ok = { λ c h. ap (λ xs. record { parts = xs }) (padded-take (pos 0) K c.parts h) };
}

impl<const K: usize> Charge<K> {
    /// The charge of these parts.
    pub fn new(parts: &[i64]) -> Charge<K>
        requires few { K ≤ 4 }
        requires count { length parts.now ≡ K }
        ensures { result ≡ parts.now }
    {
        let mut all = [0i64; 4];
        all[..parts.len()].copy_from_slice(parts);
        Charge { parts: all }
    }

    /// The part at factor i.
    pub fn part(&self, i: usize) -> i64
        requires { i < K }
        ensures { result ≡ slice_index_or self.now i (pos 0) }
    {
        let parts = &self.parts;
        parts[i]
    }

    /// Whether two charges are the same.
    pub fn same(&self, other: &Charge<K>) -> bool
        ensures { IsTrue result ↔ (self.now ≡ other.now) }
    {
        let a = &self.parts;
        let b = &other.parts;
        a == b
    }

    /// How two charges stand in order, compared part by part.
    pub fn compare(&self, other: &Charge<K>) -> Ordering
        ensures { result ≡ slice_cmp int_cmp self.now other.now }
    {
        let a = &self.parts;
        let b = &other.parts;
        a.cmp(b)
    }

    /// What holds of every charge. Nothing is done.
    pub fn known(&self)
        ensures few { K ≤ 4 }
        ensures count { length self.now ≡ K }
    {
        let _parts = &self.parts;
    }
}

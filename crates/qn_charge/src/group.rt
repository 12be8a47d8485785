//! A group of up to four factors: sums, negatives, canonical forms, order and parity of its charges.

ghost use Rattle.std.specs.Prelude.{◌≡◌, ℕ, ◌≤◌, ◌<◌, List, length, slice_index_or, ℤ, IfOk, IfErr, MatchOption, IsTrue, ◌↔◌, false};
ghost use Rattle.qn_charge.specs.declared.factor.Factor.TheVariants.{U1};
ghost use Rattle.qn_charge.specs.Charges.{IsGroup, IsCanonical, canon_charge};
ghost use Rattle.qn_charge.specs.Firsts.{IsFirst, HasNone};
ghost use Rattle.qn_charge.specs.Faults.{IsFirstFault};
ghost use Rattle.qn_charge.specs.Ranges.{OutOfBound};

use crate::abelian::Abelian;
use crate::charge::Charge;
use crate::factor::Factor;
use crate::fault::GroupFault;
use std::marker::Model;

/// A group: a product of K factors. K is from 0 to 4.
#[derive(Clone, Copy, Debug, PartialEq, Eq)]
pub struct Group<const K: usize> {
    // the factors from K on are bosonic U(1)
    factors: [Factor; 4],
}

impl<const K: usize> Model for Group<K> {
    ghost use Rattle.std.specs.Prelude.{List, take};
    ghost use Rattle.std.proofs.Common.{ap};
    ghost use Rattle.qn_charge.specs.declared.factor.Factor.{Factor};
    ghost use Rattle.qn_charge.specs.Padded.{IsGroupPadded, group_padded, group_padded-take};

    ghost Value = { List Factor };

    ghost view = { λ g. take K g.factors };

    ghost invariant = { λ g. IsGroupPadded K g.factors };

    ghost inverse = { λ fs. record { factors = group_padded K fs } };

    ghost inverse_ok = { λ g h. ap (λ fs. record { factors = fs }) (group_padded-take K g.factors h) };
}

impl<const K: usize> Group<K> {
    /// The product of these factors.
    pub fn new(factors: &[Factor]) -> Result<Group<K>, GroupFault>
        requires few { K ≤ 4 }
        requires count { length factors.now ≡ K }
        ensures ok { IfOk result (λ g. (g ≡ factors.now) × IsGroup factors.now) }
        ensures err { IfErr result (IsFirstFault factors.now) }
    {
        for (i, f) in factors.iter().enumerate() {
            if f.has_bad_modulus() {
                return Err(GroupFault::Modulus { factor: i });
            }
        }
        for (i, f) in factors.iter().enumerate() {
            if f.is_odd_fermion() {
                return Err(GroupFault::OddFermion { factor: i });
            }
        }
        let mut all = [Factor::U1 { fermion: false }; 4];
        all[..factors.len()].copy_from_slice(factors);
        Ok(Group { factors: all })
    }

    /// The i-th factor of those given to `new`.
    pub fn factor(&self, i: usize) -> Factor
        requires { i < K }
        ensures { result ≡ slice_index_or self.now i (U1 false) }
    {
        let factors = &self.factors;
        factors[i]
    }

    /// The canonical form of a charge: its Z_n parts are reduced to 0 to n - 1.
    pub fn canon(&self, c: &Charge<K>) -> Charge<K>
        ensures value { result ≡ canon_charge self.now c.now }
        ensures canonical { IsCanonical self.now result }
    {
        self.known();
        let mut parts = [0i64; 4];
        for i in 0..K {
            parts[i] = self.factor(i).part_canon(c.part(i));
        }
        Charge::new(&parts[..K])
    }

    /// The first part that is out of range: outside -bound to bound for U(1), outside 0 to n - 1 for Z_n.
    pub fn out_of(&self, c: &Charge<K>, bound: i64) -> Option<usize>
        ensures { MatchOption result (HasNone (OutOfBound bound self.now c.now)) (IsFirst (OutOfBound bound self.now c.now)) }
    {
        self.known();
        for i in 0..K {
            if self.factor(i).is_part_out(c.part(i), bound) {
                return Some(i);
            }
        }
        None
    }

    /// What holds of every group. Nothing is done.
    pub fn known(&self)
        ensures group { IsGroup self.now }
        ensures few { K ≤ 4 }
        ensures count { length self.now ≡ K }
    {
        let _factors = &self.factors;
    }
}

/// `add` and `neg` ask that each U(1) part of their result is from -2^62 to 2^62. No call takes memory.
impl<const K: usize> Abelian for Group<K> {
    ghost use Rattle.std.specs.Prelude.{◌^◌};
    ghost use Rattle.qn_charge.specs.Charges.{IsGroup, IsCanonical, IsWithin, zero_charge, sum_charge, neg_charge, parity};
    ghost use Rattle.qn_charge.specs.Laws.{associative_charge, commutative_charge, zero_is_neutral, neg_is_inverse, parity_adds};

    type Charge = Charge<K>;

    ghost is_group = { IsGroup };

    ghost is_canonical = { IsCanonical };

    ghost is_within = { IsWithin (2 ^ 62) };

    ghost none = { zero_charge };

    ghost sum = { sum_charge };

    ghost opposite = { neg_charge };

    ghost odd = { parity };

    ghost associative = { associative_charge };

    ghost commutative = { commutative_charge };

    ghost neutral = { zero_is_neutral };

    ghost inverse = { neg_is_inverse };

    ghost parity_adds = { parity_adds };

    fn zero(&self) -> Charge<K> {
        self.known();
        Charge::new(&[0i64; 4][..K])
    }

    fn add(&self, a: &Charge<K>, b: &Charge<K>) -> Charge<K> {
        self.known();
        let mut parts = [0i64; 4];
        for i in 0..K {
            parts[i] = self.factor(i).part_sum(a.part(i), b.part(i));
        }
        Charge::new(&parts[..K])
    }

    fn neg(&self, a: &Charge<K>) -> Charge<K> {
        self.known();
        let mut parts = [0i64; 4];
        for i in 0..K {
            parts[i] = self.factor(i).part_neg(a.part(i));
        }
        Charge::new(&parts[..K])
    }

    fn parity(&self, a: &Charge<K>) -> bool {
        self.known();
        let mut odd = false;
        for i in 0..K {
            odd ^= self.factor(i).is_part_odd(a.part(i));
        }
        odd
    }
}

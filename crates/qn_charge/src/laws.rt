//! The laws of charges: a commutative group, whose parity is a homomorphism.

ghost use Rattle.std.specs.Prelude.{◌≡◌, ℕ, ℤ, List, length};
ghost use Rattle.qn_charge.specs.declared.factor.Factor.{Factor};
ghost use Rattle.qn_charge.specs.Charges.{IsGroup, IsCanonical, IsWithin, zero_charge, sum_charge, neg_charge, canon_charge, parity};
ghost use Rattle.qn_charge.specs.Firsts.{HasNone, OutOfRange};

/// Laws of charges beside those of `Abelian`. Nothing is done.
pub fn charge_laws()
    ensures sum_is_canonical { (fs : List Factor) (a b : List ℤ) → IsGroup fs → IsCanonical fs (sum_charge fs a b) }
    ensures neg_is_canonical { (fs : List Factor) (a : List ℤ) → IsGroup fs → IsCanonical fs (neg_charge fs a) }
    ensures canonical_count { (fs : List Factor) (a : List ℤ) → IsCanonical fs a → length a ≡ length fs }
    ensures canon_keeps_canonical { (fs : List Factor) (a : List ℤ) → IsCanonical fs a → canon_charge fs a ≡ a }
    ensures canon_before_sum { (fs : List Factor) (a b : List ℤ) → IsGroup fs →
        sum_charge fs (canon_charge fs a) b ≡ sum_charge fs a b }
    ensures sum_cancels { (fs : List Factor) (c a b : List ℤ) → IsGroup fs → IsCanonical fs a → IsCanonical fs b →
        sum_charge fs c a ≡ sum_charge fs c b → a ≡ b }
    ensures neg_of_neg { (fs : List Factor) (a : List ℤ) → IsGroup fs → IsCanonical fs a →
        neg_charge fs (neg_charge fs a) ≡ a }
    ensures neg_of_zero { (fs : List Factor) → IsGroup fs → neg_charge fs (zero_charge fs) ≡ zero_charge fs }
    ensures neg_of_sum { (fs : List Factor) (a b : List ℤ) → IsGroup fs →
        neg_charge fs (sum_charge fs a b) ≡ sum_charge fs (neg_charge fs a) (neg_charge fs b) }
    ensures parity_of_neg { (fs : List Factor) (a : List ℤ) → IsGroup fs → parity fs (neg_charge fs a) ≡ parity fs a }
    ensures in_range { (bound : ℕ) (fs : List Factor) (a : List ℤ) → length a ≡ length fs →
        HasNone (OutOfRange bound fs a) → IsCanonical fs a × IsWithin bound fs a }
    ensures none_out_of_range { (bound : ℕ) (fs : List Factor) (a : List ℤ) → IsCanonical fs a → IsWithin bound fs a →
        HasNone (OutOfRange bound fs a) }
{}

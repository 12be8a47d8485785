//! What holds of the tuples and the places of any legs.
ghost use Rattle.std.specs.Prelude.{◌≡◌, ◌<◌, ◌≤◌, ◌↔◌, ℕ, ℤ, List, [], length, Contains, slice_index_or};
ghost use Rattle.std.specs.Cmp.Lexicographic.{slice_cmp};
ghost use Rattle.std.specs.Ordering.{nat_cmp};
ghost use Rattle.std.specs.declared.cmp.Ordering.TheVariants.{Less};
ghost use Rattle.qn_charge.specs.declared.factor.Factor.{Factor};
ghost use Rattle.qn_index.specs.Legs.{LegValue};
ghost use Rattle.qn_index.specs.Tuples.{IsTuple, IsAdmissible, tuples, admitted};
ghost use Rattle.qn_index.specs.Places.{block_size, IsInner, offset_of, inner_of, IsValues, sectors_at, offset_at, values_at};
ghost use Rattle.qn_index.specs.Extents.{entries};

use crate::leg::Leg;
use qn_charge::{Charge, Group};

/// Exactly the tuples of sectors are listed, ascending and so each once.
pub fn tuples_are_listed()
    ensures exact { (ls : List LegValue) (t : List ℕ) → Contains (tuples ls) t ↔ IsTuple ls t }
    ensures ascending { (ls : List LegValue) (i j : ℕ) → i < j → j < length (tuples ls) →
        slice_cmp nat_cmp (slice_index_or (tuples ls) i []) (slice_index_or (tuples ls) j []) ≡ Less }
{}

/// Exactly the tuples whose net charge is the flux are among the admitted ones, ascending and so
/// each once; and the block of each has at most as many entries as all together.
pub fn admitted_are_listed()
    ensures exact { (fs : List Factor) (ls : List LegValue) (q : List ℤ) (t : List ℕ) →
        Contains (admitted fs ls q) t ↔ IsAdmissible fs ls q t }
    ensures ascending { (fs : List Factor) (ls : List LegValue) (q : List ℤ) (i j : ℕ) → i < j → j < length (admitted fs ls q) →
        slice_cmp nat_cmp (slice_index_or (admitted fs ls q) i []) (slice_index_or (admitted fs ls q) j []) ≡ Less }
    ensures block { (fs : List Factor) (ls : List LegValue) (q : List ℤ) (t : List ℕ) → IsAdmissible fs ls q t →
        block_size ls t ≤ entries fs ls q }
{}

/// Offsets in a block and offsets inside the sectors are inverse to each other.
pub fn offsets_are_inverse()
    ensures inner { (ls : List LegValue) (t : List ℕ) (n : ℕ) → IsTuple ls t → n < block_size ls t →
        IsInner ls t (inner_of ls t n) × (offset_of ls t (inner_of ls t n) ≡ n) }
    ensures offset { (ls : List LegValue) (t os : List ℕ) → IsTuple ls t → IsInner ls t os →
        (offset_of ls t os < block_size ls t) × (inner_of ls t (offset_of ls t os) ≡ os) }
{}

/// Values of the legs and offsets in the blocks of tuples are inverse to each other.
pub fn values_are_inverse()
    ensures values { (ls : List LegValue) (t : List ℕ) (n : ℕ) → IsTuple ls t → n < block_size ls t →
        IsValues ls (values_at ls t n) × (sectors_at ls (values_at ls t n) ≡ t) × (offset_at ls (values_at ls t n) ≡ n) }
    ensures place { (ls : List LegValue) (xs : List ℕ) → IsValues ls xs →
        IsTuple ls (sectors_at ls xs) × (offset_at ls xs < block_size ls (sectors_at ls xs)) ×
        (values_at ls (sectors_at ls xs) (offset_at ls xs) ≡ xs) }
{}

/// The block of an admissible tuple has at most as many entries as the shape.
pub fn known_block<const K: usize>(
    group: &Group<K>,
    legs: &[Leg<K>],
    flux: &Charge<K>,
    tuple: &[u32],
)
    requires { IsAdmissible group.now legs.now flux.now tuple.now }
    ensures { block_size legs.now tuple.now ≤ entries group.now legs.now flux.now }
{}

//! What a group of charges promises: the trait under which tensors may be written for any group.

ghost use Rattle.std.specs.Prelude.{◌≡◌, Bool};
ghost use Rattle.qn_charge.specs.Charges.{xor};

/// An Abelian group of charges, written as a sum, with a parity that adds.
pub trait Abelian {
    type Charge;

    /// Holds of the groups.
    ghost is_group: { Self → Type 0 };

    /// Holds of the charges in their canonical form.
    ghost is_canonical: { Self → Self.Charge → Type 0 };

    /// Holds of the charges that the type can keep.
    ghost is_within: { Self → Self.Charge → Type 0 };

    /// The charge of nothing.
    ghost none: { Self → Self.Charge };

    /// The sum of two charges.
    ghost sum: { Self → Self.Charge → Self.Charge → Self.Charge };

    /// The negative of a charge.
    ghost opposite: { Self → Self.Charge → Self.Charge };

    /// The parity of a charge, true for odd.
    ghost odd: { Self → Self.Charge → Bool };

    /// The charge of nothing.
    fn zero(&self) -> Self::Charge
        ensures value { result ≡ none self.now }
        ensures canonical { is_canonical self.now result };

    /// The sum of two charges.
    fn add(&self, a: &Self::Charge, b: &Self::Charge) -> Self::Charge
        requires first { is_canonical self.now a.now }
        requires second { is_canonical self.now b.now }
        requires within { is_within self.now (sum self.now a.now b.now) }
        ensures value { result ≡ sum self.now a.now b.now }
        ensures canonical { is_canonical self.now result };

    /// The negative of a charge.
    fn neg(&self, a: &Self::Charge) -> Self::Charge
        requires canonical { is_canonical self.now a.now }
        requires within { is_within self.now (opposite self.now a.now) }
        ensures value { result ≡ opposite self.now a.now }
        ensures canonical { is_canonical self.now result };

    /// The parity of a charge, true for odd.
    fn parity(&self, a: &Self::Charge) -> bool
        ensures { result ≡ odd self.now a.now };

    ghost associative: { (g : Self) (a b c : Self.Charge) → is_group g → sum g (sum g a b) c ≡ sum g a (sum g b c) };

    ghost commutative: { (g : Self) (a b : Self.Charge) → sum g a b ≡ sum g b a };

    ghost neutral: { (g : Self) (a : Self.Charge) → is_canonical g a → sum g (none g) a ≡ a };

    ghost inverse: { (g : Self) (a : Self.Charge) → is_group g → sum g (opposite g a) a ≡ none g };

    ghost parity_adds: { (g : Self) (a b : Self.Charge) → is_group g → odd g (sum g a b) ≡ xor (odd g a) (odd g b) };
}

//! Laws of operator strings.
ghost use Rattle.qn_opsum.specs.Strings.{NormalLaw, OrderedStringLaw, StringLaw};

/// A term is the product of its sites' matrices, with the sign of its inversions and of its odd
/// operators after odd values.
pub fn strings_are_products()
    ensures any_order { StringLaw }
    ensures in_site_order { OrderedStringLaw }
{}

/// A term is its sorted term, negated where the permutation of its odd operators is odd.
pub fn sorted_strings()
    ensures { NormalLaw }
{}

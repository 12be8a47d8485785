//! The signs that code asks for: of a rearrangement, of a block that moves past a block, and of a chord.

ghost use Rattle.std.specs.Prelude.{◌≡◌, ◌==◌, ◌<◌, ◌&&◌, nat_lt, length, All};
ghost use Rattle.qn_sign.specs.Positions.{is_odd_at, positions};
ghost use Rattle.qn_sign.specs.Sign.{block_parity, exchange_sign};

/// Whether the sign of a rearrangement is minus: whether the number of pairs of odd things in the reverse order is odd.
/// The thing at position `i` of the word is odd where `odd[i]` is true, and the thing at position `goal[k]` stands k-th
/// in the goal. The goal is a permutation of the positions; a list of some of them has a sign too, that of the things
/// in it.
pub fn exchange(odd: &[bool], goal: &[usize]) -> bool
    requires positions { All (λ k. k < length odd.now) goal.now }
    ensures sign { result ≡ exchange_sign ◌==◌ (is_odd_at odd.now) (positions (length odd.now)) goal.now }
{
    let mut minus = false;
    let mut rest = goal;
    while let [position, later @ ..] = rest {
        if odd[*position] {
            minus ^= passes_odd(odd, *position, later);
        }
        rest = later;
    }
    minus
}

/// Whether the positions `later` have an odd number of odd things that are before `position` in the word.
fn passes_odd(odd: &[bool], position: usize, later: &[usize]) -> bool
    requires positions { All (λ k. k < length odd.now) later.now }
    ensures count { result ≡ block_parity (λ k. is_odd_at odd.now k && nat_lt k position) later.now }
{
    let mut passes = false;
    for other in later {
        passes ^= is_odd_before(odd, *other, position);
    }
    passes
}

/// Whether the thing at `other` is odd and before `position` in the word.
fn is_odd_before(odd: &[bool], other: usize, position: usize) -> bool
    requires position { other < length odd.now }
    ensures value { result ≡ (is_odd_at odd.now other && nat_lt other position) }
{
    other < position && odd[other]
}

/// Whether a sign comes where one block of things moves past another: true where both are odd.
pub fn block_move(first_odd: bool, second_odd: bool) -> bool
    ensures value { result ≡ (first_odd && second_odd) }
{
    first_odd && second_odd
}

/// Whether a sign comes where the two ends of a summed line meet: true where the Out end stands first and its value is
/// odd.
pub fn chord(out_first: bool, odd: bool) -> bool
    ensures value { result ≡ (out_first && odd) }
{
    out_first && odd
}

//! Laws of the exchange sign, for things of any type and any test that tells which of them are the same.
ghost use Rattle.std.specs.Prelude.{Bool};
ghost use Rattle.qn_sign.specs.ExchangeLaws.{BlockIsTaken, BlocksMoveInGoal, BlocksMoveInWord, CommonFirstPart, CommonLastPart, LocalSign, NamesDoNotMatter, OrdersArePermutations, OtherParitiesDoNotMatter, PairIsRemoved, PositionsStandForThings, SignTurnsBack, SignsCompose};
ghost use Rattle.qn_sign.specs.Sign.{IsTest};

/// The sign of a composition is the product of the signs.
pub fn signs_compose<E>()
    ensures { (same : E → E → Bool) → IsTest same → SignsCompose same }
{}

/// Word and goal may change places: the way back has the same sign.
pub fn sign_turns_back<E>()
    ensures { (same : E → E → Bool) → IsTest same → SignTurnsBack same }
{}

/// Two things of equal parity that are neighbours in the word and in the goal, in the same order, may be left out.
pub fn pair_is_removed<E>()
    ensures { (same : E → E → Bool) → IsTest same → PairIsRemoved same }
{}

/// Where two neighbouring blocks of the goal change places, the sign changes by [`block_move`](crate::block_move) of
/// their parities.
pub fn blocks_move_in_goal<E>()
    ensures { (same : E → E → Bool) → IsTest same → BlocksMoveInGoal same }
{}

/// Where two neighbouring blocks of the word change places, the sign changes by [`block_move`](crate::block_move) of
/// their parities.
pub fn blocks_move_in_word<E>()
    ensures { (same : E → E → Bool) → IsTest same → BlocksMoveInWord same }
{}

/// A first part that stays may be left out.
pub fn common_first_part<E>()
    ensures { (same : E → E → Bool) → IsTest same → CommonFirstPart same }
{}

/// A last part that stays may be left out.
pub fn common_last_part<E>()
    ensures { (same : E → E → Bool) → IsTest same → CommonLastPart same }
{}

/// A part that is rearranged where it stands, between two parts that stay, has its own sign.
pub fn local_sign<E>()
    ensures { (same : E → E → Bool) → IsTest same → LocalSign same }
{}

/// A block that gives up things, even together, to the front of the goal has its own sign, times that of what remains.
pub fn block_is_taken<E>()
    ensures { (same : E → E → Bool) → IsTest same → BlockIsTaken same }
{}

/// Only the parities of the things in the goal matter.
pub fn other_parities_do_not_matter<E>()
    ensures { (same : E → E → Bool) → IsTest same → OtherParitiesDoNotMatter same }
{}

/// Things may be called by their positions in the word, as [`exchange`](crate::exchange) calls them.
pub fn positions_stand_for_things<E>()
    ensures { (same : E → E → Bool) → IsTest same → PositionsStandForThings same }
{}

/// Things may be called by other names, as long as names that differ stay different.
pub fn names_do_not_matter<E, F>()
    ensures { (same : E → E → Bool) (alike : F → F → Bool) → IsTest same → NamesDoNotMatter same alike }
{}

/// A list is a permutation of the positions exactly where each position stands in it once.
pub fn orders_are_permutations()
    ensures { OrdersArePermutations }
{}

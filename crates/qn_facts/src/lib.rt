//! Facts on lists, booleans, options, results, orderings and numbers that std has no lemma for.
//!
//! For the proofs of every crate above: no code, and no word of the project stands here.
//! It hands on lemmas by subject, in `proofs/`.
#![tactic(auto)]

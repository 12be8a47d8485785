//! Functions kept as the entries of tensors that conserve charge.
//!
//! For sites, whose operators become the tensors of an automaton. It hands on `Rule` and the trait
//! `EntryFunction`; and `CountedRule`, for contractions that ask a rule only for what they need.
#![tactic(auto)]

mod counted;
mod function;
mod rule;

pub use counted::CountedRule;
pub use function::EntryFunction;
pub use rule::Rule;

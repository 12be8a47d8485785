//! Rules contracted with tensors: a rule is a function kept as the entries of a tensor, of which only what a contraction needs
//! is asked.
//!
//! For commands that apply functions to the legs of a tensor. It hands on `contract_lazy`; `LegRule`, whose rule
//! weighs the values of one leg; `apply_rule`, which carries such a rule out; and `apply_rules`, which carries out a list of
//! them, each a `LazyRule`.
#![tactic(auto)]

mod applying;
mod asking;
mod contraction;
pub mod laws;
mod lazy_rule;
mod leg_rule;
mod meeting;
mod rules;
mod written;

pub use applying::apply_rule;
pub use contraction::contract_lazy;
pub use lazy_rule::LazyRule;
pub use leg_rule::{LegRule, both_legs};
pub use rules::{RuleFault, apply_rules};

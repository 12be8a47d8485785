//! Operator sums and states as documents: their form, their first fault, and what they stand for.
#![tactic(auto)]

mod chains;
mod objects;
mod operators;
mod owned;
mod sites;
mod states;
mod sums;
mod terms;

pub use states::{AnyStates, States, read_states};
pub use sums::{AnySum, read_sum};

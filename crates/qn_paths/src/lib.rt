//! The sum over the paths of the automaton: the value of its network is the sum of the operator strings.
//!
//! Definitions are in `specs/`. Each law is a function with an empty body, whose clause is the law.
#![tactic(auto)]

pub mod examples;
pub mod laws;

//! Overlap and expectation: chains of tensors, their amplitudes, and the networks whose values these are.
//!
//! Definitions are in `specs/`. Each law is a function with an empty body, whose clause is the law.
#![tactic(auto)]

pub mod brakets;
pub mod chains;
pub mod examples;

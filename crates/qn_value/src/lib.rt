//! What tensors and networks are worth: definitions (in `specs/`), and the laws by which a network may be contracted.
//!
//! Each law is a function with an empty body, whose clause is the law.
#![tactic(auto)]

pub mod by_blocks;
pub mod by_rows;
pub mod conservation;
pub mod contraction;
pub mod examples;
pub mod exchange;
pub mod naming;
pub mod order;
pub mod passing;
pub mod plain;
pub mod twisting;

//! The exchange sign of odd things that are brought into another order, and its laws.
//!
//! For every crate that contracts, permutes or conjugates: each takes its signs from this definition.
//! It hands on `exchange`, `block_move` and `chord`, and the laws by which signs may be moved about.
#![tactic(auto)]

pub mod laws;
mod signs;

pub use signs::{block_move, chord, exchange};

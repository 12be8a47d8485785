//! An operator sum as a finite automaton: definitions, and laws that hold of them.
//!
//! For `qn_paths` and `qn_mpo`. It hands on the automaton of a sum, the order of its links, and that it conserves
//! charge.
#![tactic(auto)]

pub mod laws;

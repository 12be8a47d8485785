//! Expectations that are kept while tensors of the states are replaced: only the steps from the replaced site on are done again.
#![tactic(auto)]

mod chains;
mod corr;
mod fault;
mod sweep;

pub use corr::Corr;
pub use fault::{CorrFault, PutFault};

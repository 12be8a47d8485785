//! Sums of products of operators on sites.
//!
//! For automata, generated workloads and documents. It hands on `OpSum`, checked, with its terms in site order.
#![tactic(auto)]

mod checks;
mod fault;
pub mod laws;
mod normal;
mod sum;
mod term;

pub use fault::SumFault;
pub use sum::OpSum;
pub use term::{Normal, Term};

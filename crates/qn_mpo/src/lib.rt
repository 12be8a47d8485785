//! The automaton of an operator sum as a chain of tensors.
//!
//! For the commands `mpo` and `expect`. It hands on the chain with its entries, and its shape alone.
#![tactic(auto)]

mod chain;
mod factor;
mod fault;
mod frame;
mod link;
mod product;
mod row;
mod rules;
mod scene;
mod site;
mod stage;
mod state;
mod sum;
mod table;
mod tensor;
mod term;

pub use chain::{build, skeleton};
pub use fault::BuildFault;
pub use rules::operator_rules;

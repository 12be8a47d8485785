//! Chains of tensors on sites in a row: states and operators, and the networks of their overlaps and expectations.
//!
//! For documents and commands. It hands on `Chain`, checked, and the network of a braket.
#![tactic(auto)]

mod chain;
mod checks;
mod fault;
mod labels;
pub mod laws;
mod network;
mod standard;

pub use chain::{Chain, ChainKind, Who};
pub use checks::same_leg;
pub use fault::ChainFault;
pub use network::{expect_net, overlap_net};

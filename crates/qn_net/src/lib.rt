//! Networks of tensors: what they are, their plans, the parts of a network, and where the sums of a plan grow too
//! large.
//!
//! The laws are functions with empty bodies, whose clauses are the laws.
#![tactic(auto)]

pub mod examples;
mod fault;
pub mod fusing;
mod labels;
mod lines;
mod meeting;
mod member;
mod network;
pub mod operations;
mod order;
pub mod passing;
pub mod plans;
mod table;
mod twist;
pub mod values;

pub use fault::NetFault;
pub use member::{Member, MemberRole, NetTensor, member_law};
pub use network::Network;

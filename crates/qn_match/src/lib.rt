//! Which blocks of two tensors are multiplied in a contraction.
#![tactic(auto)]

mod counting;
mod filling;
mod index;
mod keys;
pub mod laws;
mod marks;
mod pairing;
mod task;

pub use counting::cost;
pub use pairing::{are_paired, is_pair};
pub use task::{Task, pairs};

//! Block tensors with their legs in another order.
#![tactic(auto)]

mod axis;
mod block;
mod tensor;

pub use tensor::permute;

//! Tensors times -1 where an odd number of some of their legs have odd values.
//!
//! For the engine, which twists a tensor in place of the lines that it sums. It hands on `twist`.
#![tactic(auto)]

mod block;
mod tensor;

pub use tensor::twist;

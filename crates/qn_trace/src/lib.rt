//! Couples of legs of one tensor summed over.
//!
//! For the engine. It hands on `trace`, with the entries of its result and the first place that passes the limit.
#![tactic(auto)]

mod numbers;
mod sources;
mod sum;
mod tensor;

pub use qn_block::StepFault;
pub use tensor::trace;

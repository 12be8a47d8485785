//! The value of a network of tensors, step by step along its plan.
#![tactic(auto)]

mod evaluation;
mod fault;
mod fusing;
mod known;
mod labels;
mod part;
mod steps;
mod twisting;

pub use evaluation::{carry, evaluate, evaluate_planned, finished, start};
pub use fault::EngineFault;
pub use known::known_steps;
pub use part::{Kept, Part};

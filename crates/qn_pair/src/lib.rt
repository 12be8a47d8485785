//! Two tensors contracted over shared legs.
#![tactic(auto)]

mod contraction;
mod frame;
mod gate;
mod job;
mod result;
mod sharing;
mod task_list;
mod worker;

pub use contraction::contract;
pub use gate::{Gate, OpenGate};
pub use qn_block::StepFault;
pub use worker::work;

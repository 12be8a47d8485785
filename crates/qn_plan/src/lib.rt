//! The plan of a network: the steps that an order of its labels gives, with what they cost.
#![tactic(auto)]

mod ends;
mod fusing;
pub mod laws;
mod member;
mod planning;
mod shape;
mod start;
mod step;
mod walk;

pub use ends::is_listed;
pub use fusing::meets_condition;
pub use planning::plan;
pub use step::{PlanFault, Step, StepKind};

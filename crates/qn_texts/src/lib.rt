//! The texts of plans and of summaries.
#![tactic(auto)]

mod plan_text;
mod summary_text;

pub use plan_text::write_plan;
pub use summary_text::{Summary, write_summary};

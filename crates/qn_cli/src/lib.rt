//! The commands of `qntn`, from words and bytes to a text and a status.
#![tactic(auto)]

mod brakets;
mod command;
mod expectations;
mod generated;
pub mod laws;
mod networks;
mod operators;
mod status;
mod tell;

pub use command::run;
pub use qn_pair::{Gate, OpenGate};
pub use qn_words::{Job, read_words};
pub use status::Status;

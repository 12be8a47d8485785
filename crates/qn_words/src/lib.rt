//! The words of the command line of `qntn`.
//!
//! For `qn_cli`. It hands on the job that the words name, or the place of the first word that is at fault.
#![tactic(auto)]

mod words;

pub use words::{Job, read_words};

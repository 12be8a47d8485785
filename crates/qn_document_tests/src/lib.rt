//! Tests of documents: what is read, what is written, and the first fault of each kind of document.
//!
//! The documents at fault stand in `examples/faults`. Here are counts at their limits and above, and `read_tensor`,
//! which no command calls.
#![tactic(auto)]

#[cfg(test)]
mod counts;
#[cfg(test)]
mod lines;
#[cfg(test)]
mod sums;
#[cfg(test)]
mod texts;

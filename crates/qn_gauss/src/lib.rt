//! Exact Gaussian integers of bounded magnitude, their decimals, and a counter of their products.
//!
//! For every crate that has entries. It hands on `Gauss` with sums and products that are exact or refused, and `Steps`.
#![tactic(auto)]

mod decimal;
mod gauss;
mod magnitude;
mod steps;

pub use decimal::{parse_decimal, text, write_decimal};
pub use gauss::{Gauss, LIMIT};
pub use magnitude::{mag_add, mag_mul};
pub use steps::Steps;

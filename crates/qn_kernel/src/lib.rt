//! The blocks of a contraction: sums of products of pairs of blocks.
#![tactic(auto)]

mod bound;
mod layout;
mod matrix;
mod number;
mod paired;
mod product;
mod row;
mod source;

pub use paired::Paired;
pub use source::{Source, block_from, first_above, sources_of};

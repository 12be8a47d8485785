//! Legs of a tensor made into one and parted again, block by block.
#![tactic(auto)]

mod fault;
mod fusing;
pub mod laws;
mod lookup;
mod pieces;
mod sides;
mod splitting;

pub use fault::SplitFault;
pub use fusing::fuse;
pub use splitting::split;

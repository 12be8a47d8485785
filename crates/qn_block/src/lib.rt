//! Tensors that conserve charge, held in blocks.
//!
//! For every crate that has tensors. It hands on `BlockTensor`, made from blocks or from a function, read at values,
//! conjugated and copied, and `Combiner`, which fuses legs.
#![tactic(auto)]

mod charges;
mod checks;
mod combiner;
mod conjugate;
mod copies;
mod entry;
mod fault;
mod from_fn;
pub mod laws;
mod new;
mod starts;
mod step;
mod table;
mod tensor;
mod values;

pub use combiner::Combiner;
pub use fault::{BlockFault, FuseFault};
pub use starts::Start;
pub use step::StepFault;
pub use tensor::{Block, BlockTensor};

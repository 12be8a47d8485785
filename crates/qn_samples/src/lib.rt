//! Makers of small legs, fluxes, blocks, tensors and combiners from rows of plain numbers. The crates of tests, and no
//! others, stand on them; all is checked where it is made, and a row that is wrong is told by a `SampleFault`.
#![tactic(auto)]

mod fault;
mod legs;
mod tensors;

pub use fault::SampleFault;
pub use legs::{BOSON, FERMION, LegRow, PARITY, Sectors, charge_of, flux_of, leg_of, legs_of};
pub use tensors::{
    BlockRow, TensorRow, are_blocks, blocks_of, combiner_of, entries_of, number, tensor_of,
};

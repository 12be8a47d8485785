//! Documents of networks: their first fault, the networks that they stand for, and their texts.
//! Parts of documents and whole tensors are those of `qn_parts`.
#![tactic(auto)]

mod combiners;
pub mod laws;
mod members;
mod networks;
mod tables;
mod writing;

pub use networks::{AnyNet, read_network};
pub use qn_parts::{
    AnyTensor, DocFault, Fault, flag_at, forms, items, items_at, list, parts, read_tensor,
    read_tree, whole_at, write_tensor,
};
pub use writing::write_network;

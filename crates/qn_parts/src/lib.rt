//! Documents: their first fault, the tensors that they mean, and the texts of tensors.
#![tactic(auto)]

mod blocks;
mod documents;
mod fault;
mod groups;
mod legs;
pub mod parts;
mod sectors;
mod tensors;
mod tree;
mod writing;

pub use documents::{AnyTensor, read_tensor};
pub use fault::{DocFault, Fault};
pub use qn_json::{flag_at, forms, items, items_at, list, whole_at};
pub use tree::read_tree;
pub use writing::write_tensor;

//! JSON values: their items and members, the forms that documents use, and texts that are written a
//! token at a time.
#![tactic(auto)]

mod entries;
pub mod forms;
mod tree;
mod written;

pub use entries::{are_entries, entry, is_entry};
pub use forms::are_numbers;
pub use tree::{flag_at, items, items_at, list, whole_at};
pub use written::{finished, write_count, write_entries, write_entry, write_numbers, write_whole};

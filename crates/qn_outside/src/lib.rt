//! Input and output: what the program reads from and writes to, in memory and of the system.
//!
//! For `qn_cli` and for tests that let single calls fail. It hands on the traits `Source` and `Sink`, reading to the
//! end and writing a whole piece, with a fault for each way in which these can fail.
#![tactic(auto)]

mod adapters;
mod count;
mod in_memory;
mod read_whole;
mod sink_in_memory;
mod source_in_memory;
mod traits;
mod write_whole;

pub use adapters::{StdSink, StdSource};
pub use read_whole::{MAX_BYTES, ReadAllFault, read_all};
pub use sink_in_memory::MemSink;
pub use source_in_memory::MemSource;
pub use traits::{Failed, Sink, Source};
pub use write_whole::{WriteFault, write_all};

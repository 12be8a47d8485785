//! How a call of the program ends, and its exit number.

ghost use Rattle.std.specs.Prelude.{◌≡◌};
ghost use Rattle.qn_cli.specs.Statuses.{exit_number};

use qn_index::Tuple;
use qn_parts::Fault;

/// How a call ends.
#[derive(Debug, Drop)]
pub enum Status {
    /// The whole text was written.
    Done,
    /// The words don't fit; `word` is the place, from 1, of the first that doesn't.
    Usage { word: u32 },
    /// The document's first fault.
    Malformed { fault: Fault },
    /// The first step, from 1, whose sum of magnitudes passes the limit, at this tuple of sectors
    /// of its result and this offset in the block.
    Passed { step: u32, at: Tuple, offset: u64 },
    /// The source failed.
    ReadFault,
    /// The sink failed.
    WriteFault,
    /// Memory is wanting.
    Memory,
}

impl Status {
    /// The number with which the program ends.
    pub fn exit_number(&self) -> u8
        ensures { result ≡ exit_number self.now }
    {
        match self {
            Status::Done => 0,
            Status::Usage { .. } => 2,
            Status::Malformed { .. } => 3,
            Status::Passed { .. } => 4,
            Status::ReadFault => 5,
            Status::WriteFault => 6,
            Status::Memory => 7,
        }
    }
}

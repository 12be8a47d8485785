//! Reading all bytes to the end.

ghost use Rattle.std.specs.Prelude.{◌≡◌, ◌+◌, ◌-◌, ◌<◌, ◌≤◌, length, IfOk, OnOk, OnErr, IsErrOf};
ghost use Rattle.std.specs.Io.KnownBytes.{Consumes, IsAtEnd, Keeps};
ghost use Rattle.qn_outside.specs.Faults.{Rose};
ghost use Rattle.qn_outside.specs.Reading.{Took, TookAtMost, ReadsMore};

use crate::{Failed, Source};
use std::alloc::{AllocError, Global};
use thiserror::Error;

/// The most bytes that `read_all` gives, 64 MiB.
pub const MAX_BYTES: usize = 67_108_864;

// How many bytes one read asks for.
const CHUNK: usize = 65_536;

/// Why a source was not read to its end.
#[derive(Clone, Copy, Debug, PartialEq, Eq, Error)]
pub enum ReadAllFault {
    /// A read failed.
    #[error("the source failed")]
    ReadFault,
    /// One byte more than `MAX_BYTES` came.
    #[error("more than {MAX_BYTES} bytes came")]
    TooLong,
    /// Memory is wanting.
    #[error("memory")]
    Memory,
}

impl From<AllocError> for ReadAllFault {
    ghost use Rattle.qn_outside.specs.declared.read_whole.ReadAllFault.TheVariants.{Memory};

    ghost from_gives = { λ _ e. e ≡ Memory };

    fn from(_: AllocError) -> ReadAllFault {
        ReadAllFault::Memory
    }
}

impl From<Failed> for ReadAllFault {
    ghost use Rattle.qn_outside.specs.declared.read_whole.ReadAllFault.TheVariants.{ReadFault};

    ghost from_gives = { λ _ e. e ≡ ReadFault };

    fn from(_: Failed) -> ReadAllFault {
        ReadAllFault::ReadFault
    }
}

// Reads the next bytes behind those that are there, at most one more than the limit.
fn read_more<S: Source>(
    source: &mut S,
    chunk: &mut [u8],
    all: &mut Vec<u8>,
) -> Result<usize, ReadAllFault>
    requires some { 0 < length chunk.old }
    requires limit { length all.old.items ≤ MAX_BYTES }
    ensures grows { IfOk result (λ n. ReadsMore (S.left source.old) (S.left source.new)
        all.old.items all.new.items n) }
    ensures limit { length all.new.items ≤ MAX_BYTES + 1 }
    ensures length { length chunk.new ≡ length chunk.old }
    ensures failed { IsErrOf result ReadAllFault.ReadFault
        → Keeps (S.left source.old) (S.left source.new) }
    ensures part { OnErr result (TookAtMost (S.left source.old) (S.left source.new)
        (MAX_BYTES + 1 - length all.old.items)) }
    ensures count { S.faults source.old ≤ S.faults source.new }
    ensures cause { IsErrOf result ReadAllFault.ReadFault
        → Rose (S.faults source.old) (S.faults source.new) }
    ensures not_yet { IsErrOf result ReadAllFault.TooLong → ⊥ }
{
    let room = (MAX_BYTES + 1 - all.len()).min(chunk.len());
    let n = source.read(&mut chunk[..room])?;
    all.extend_from_slice(&chunk[..n])?;
    Ok(n)
}

/// Reads all bytes to the end. Where more than `MAX_BYTES` come, it stops at the first one more.
/// Each read but the last takes at least one byte.
pub fn read_all<S: Source>(alloc: Global, source: &mut S) -> Result<Vec<u8>, ReadAllFault>
    ensures whole { IfOk result (λ all. Consumes (S.left source.old) (S.left source.new) all.items) }
    ensures end { OnOk result (IsAtEnd (S.left source.new)) }
    ensures within { IfOk result (λ all. length all.items ≤ MAX_BYTES) }
    ensures too_long { IsErrOf result ReadAllFault.TooLong
        → Took (S.left source.old) (S.left source.new) (MAX_BYTES + 1) }
    ensures failed { IsErrOf result ReadAllFault.ReadFault
        → TookAtMost (S.left source.old) (S.left source.new) MAX_BYTES }
    ensures part { OnErr result
        (TookAtMost (S.left source.old) (S.left source.new) (MAX_BYTES + 1)) }
    ensures count { S.faults source.old ≤ S.faults source.new }
    ensures cause { IsErrOf result ReadAllFault.ReadFault
        → Rose (S.faults source.old) (S.faults source.new) }
{
    let mut all = Vec::new(alloc);
    let mut chunk = [0; CHUNK];
    while all.len() <= MAX_BYTES {
        if read_more(source, &mut chunk, &mut all)? == 0 {
            return Ok(all);
        }
    }
    Err(ReadAllFault::TooLong)
}

//! Writing a whole piece.

ghost use Rattle.std.specs.Prelude.{◌<◌, ◌≤◌, length, take, IfErr, OnOk, OnErr};
ghost use Rattle.std.specs.Io.KnownBytes.{Appends};
ghost use Rattle.qn_outside.specs.Faults.{Rose};

use crate::Sink;
use thiserror::Error;

/// The sink failed after it took the first `written` bytes.
#[derive(Clone, Copy, Debug, PartialEq, Eq, Error)]
#[error("the sink failed after {written} bytes")]
pub struct WriteFault {
    /// How many bytes of the piece were taken.
    pub written: usize,
}

/// Writes the whole piece, in as many writes as the sink asks for. It takes no memory.
pub fn write_all<O: Sink>(out: &mut O, piece: &[u8]) -> Result<(), WriteFault>
    ensures whole { OnOk result (Appends (O.held out.old) (O.held out.new) piece.now) }
    ensures part { IfErr result (λ fault. Appends (O.held out.old) (O.held out.new)
        (take fault.written piece.now)) }
    ensures fewer { IfErr result (λ fault. fault.written < length piece.now) }
    ensures count { O.faults out.old ≤ O.faults out.new }
    ensures cause { OnErr result (Rose (O.faults out.old) (O.faults out.new)) }
{
    let mut written = 0;
    while written < piece.len() {
        match out.write(&piece[written..]) {
            Ok(n) => written += n,
            Err(_) => return Err(WriteFault { written }),
        }
    }
    Ok(())
}

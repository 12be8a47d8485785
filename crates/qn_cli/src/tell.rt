//! Telling on the error sink how a call ended. It takes no memory.
ghost use Rattle.std.specs.Prelude.{◌≡◌, ◌++◌, ◌≤◌, OnOk, OnErr, codes, decimal, true, false};
ghost use Rattle.serde_json.specs.Written.{comma_if};
ghost use Rattle.std.specs.Io.KnownBytes.{Appends};
ghost use Rattle.qn_outside.specs.Faults.{Rose};
ghost use Rattle.qn_cli.specs.Lines.{joined, numbers_after, fault_line, passed_line, usage_line, line_of, AppendsFront};

use crate::status::Status;
use itoa::Buffer;
use qn_outside::{Sink, WriteFault, write_all};
use qn_parts::Fault;

/// Writes the pieces, one after another.
fn write_pieces<E: Sink>(err: &mut E, pieces: &[&[u8]]) -> Result<(), WriteFault>
    ensures whole { OnOk result (Appends (E.held err.old) (E.held err.new) (joined pieces.now)) }
    ensures part { OnErr result (AppendsFront (E.held err.old) (E.held err.new) (joined pieces.now)) }
    ensures count { E.faults err.old ≤ E.faults err.new }
    ensures cause { OnErr result (Rose (E.faults err.old) (E.faults err.new)) }
{
    for piece in pieces {
        write_all(err, piece)?;
    }
    Ok(())
}

/// Writes a number, with a comma before it where one is before it.
fn write_number<E: Sink>(err: &mut E, later: bool, n: u32) -> Result<(), WriteFault>
    ensures whole { OnOk result (Appends (E.held err.old) (E.held err.new) (comma_if later ++ decimal n)) }
    ensures part { OnErr result (AppendsFront (E.held err.old) (E.held err.new) (comma_if later ++ decimal n)) }
    ensures count { E.faults err.old ≤ E.faults err.new }
    ensures cause { OnErr result (Rose (E.faults err.old) (E.faults err.new)) }
{
    let mut digits = Buffer::new();
    let number = digits.format(n).as_bytes();
    if later {
        write_pieces(err, &[b",".as_slice(), number])
    } else {
        write_all(err, number)
    }
}

/// Writes numbers with commas between them.
fn write_numbers<E: Sink>(err: &mut E, numbers: &[u32]) -> Result<(), WriteFault>
    ensures whole { OnOk result (Appends (E.held err.old) (E.held err.new) (numbers_after false numbers.now)) }
    ensures part { OnErr result (AppendsFront (E.held err.old) (E.held err.new) (numbers_after false numbers.now)) }
    ensures count { E.faults err.old ≤ E.faults err.new }
    ensures cause { OnErr result (Rose (E.faults err.old) (E.faults err.new)) }
{
    let mut later = false;
    for n in numbers {
        write_number(err, later, *n)?;
        later = true;
    }
    Ok(())
}

fn write_fault<E: Sink>(err: &mut E, fault: Fault) -> Result<(), WriteFault>
    ensures whole { OnOk result (Appends (E.held err.old) (E.held err.new) (fault_line fault)) }
    ensures part { OnErr result (AppendsFront (E.held err.old) (E.held err.new) (fault_line fault)) }
    ensures cause { OnErr result (Rose (E.faults err.old) (E.faults err.new)) }
{
    let mut code = Buffer::new();
    let mut tensor = Buffer::new();
    let mut part = Buffer::new();
    let mut item = Buffer::new();
    let pieces = [
        b"qntn: malformed F".as_slice(),
        code.format(fault.code).as_bytes(),
        b" tensor ".as_slice(),
        tensor.format(fault.tensor).as_bytes(),
        b" part ".as_slice(),
        part.format(fault.part).as_bytes(),
        b" item ".as_slice(),
        item.format(fault.item).as_bytes(),
        b"\n".as_slice(),
    ];
    write_pieces(err, &pieces)
}

fn write_usage<E: Sink>(err: &mut E, word: u32) -> Result<(), WriteFault>
    ensures whole { OnOk result (Appends (E.held err.old) (E.held err.new) (usage_line word)) }
    ensures part { OnErr result (AppendsFront (E.held err.old) (E.held err.new) (usage_line word)) }
    ensures cause { OnErr result (Rose (E.faults err.old) (E.faults err.new)) }
{
    let mut place = Buffer::new();
    let pieces = [
        b"qntn: usage word ".as_slice(),
        place.format(word).as_bytes(),
        b"\n".as_slice(),
    ];
    write_pieces(err, &pieces)
}

fn write_step<E: Sink>(err: &mut E, step: u32) -> Result<(), WriteFault>
    ensures whole { OnOk result (Appends (E.held err.old) (E.held err.new) (codes "qntn: passed step " ++ (decimal step ++ codes " at ["))) }
    ensures part { OnErr result (AppendsFront (E.held err.old) (E.held err.new) (codes "qntn: passed step " ++ (decimal step ++ codes " at ["))) }
    ensures count { E.faults err.old ≤ E.faults err.new }
    ensures cause { OnErr result (Rose (E.faults err.old) (E.faults err.new)) }
{
    let mut digits = Buffer::new();
    let pieces = [
        b"qntn: passed step ".as_slice(),
        digits.format(step).as_bytes(),
        b" at [".as_slice(),
    ];
    write_pieces(err, &pieces)
}

fn write_offset<E: Sink>(err: &mut E, offset: u64) -> Result<(), WriteFault>
    ensures whole { OnOk result (Appends (E.held err.old) (E.held err.new) (codes "] offset " ++ (decimal offset ++ codes "\n"))) }
    ensures part { OnErr result (AppendsFront (E.held err.old) (E.held err.new) (codes "] offset " ++ (decimal offset ++ codes "\n"))) }
    ensures count { E.faults err.old ≤ E.faults err.new }
    ensures cause { OnErr result (Rose (E.faults err.old) (E.faults err.new)) }
{
    let mut digits = Buffer::new();
    let pieces = [
        b"] offset ".as_slice(),
        digits.format(offset).as_bytes(),
        b"\n".as_slice(),
    ];
    write_pieces(err, &pieces)
}

fn write_passed<E: Sink>(err: &mut E, step: u32, at: &[u32], offset: u64) -> Result<(), WriteFault>
    ensures whole { OnOk result (Appends (E.held err.old) (E.held err.new) (passed_line step at.now offset)) }
    ensures part { OnErr result (AppendsFront (E.held err.old) (E.held err.new) (passed_line step at.now offset)) }
    ensures cause { OnErr result (Rose (E.faults err.old) (E.faults err.new)) }
{
    write_step(err, step)?;
    write_numbers(err, at)?;
    write_offset(err, offset)
}

fn write_line<E: Sink>(err: &mut E, line: &[u8]) -> Result<(), WriteFault>
    ensures whole { OnOk result (Appends (E.held err.old) (E.held err.new) line.now) }
    ensures part { OnErr result (AppendsFront (E.held err.old) (E.held err.new) line.now) }
    ensures cause { OnErr result (Rose (E.faults err.old) (E.faults err.new)) }
{
    write_all(err, line)
}

/// Writes the line of a status; nothing for `Done`.
pub fn tell<E: Sink>(err: &mut E, status: &Status) -> Result<(), WriteFault>
    ensures whole { OnOk result (Appends (E.held err.old) (E.held err.new) (line_of status.now)) }
    ensures part { OnErr result (AppendsFront (E.held err.old) (E.held err.new) (line_of status.now)) }
    ensures cause { OnErr result (Rose (E.faults err.old) (E.faults err.new)) }
    ensures done { status.now ≡ Status.Done → err.new ≡ err.old }
{
    match status {
        Status::Done => Ok(()),
        Status::Usage { word } => write_usage(err, *word),
        Status::Malformed { fault } => write_fault(err, *fault),
        Status::Passed { step, at, offset } => write_passed(err, *step, at.as_slice(), *offset),
        Status::ReadFault => write_line(err, b"qntn: read fault\n"),
        Status::WriteFault => write_line(err, b"qntn: write fault\n"),
        Status::Memory => write_line(err, b"qntn: memory\n"),
    }
}

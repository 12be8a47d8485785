//! How calls end over memory.

ghost use Rattle.std.specs.Prelude.{◌≡◌, ◌<◌};

use crate::rows::{ROWS, Row};
use qn_cli::{OpenGate, Status, run};
use qn_gauss::Steps;
use qn_outside::{MemSink, MemSource};
use std::alloc::{AllocError, Global};
use std::marker::Brand;
use std::process::Abort;
use std::sync::ledger::{Blank, Ledger};
use std::test::Fail;
use std::thread::Threads;

// The words of a line, between single blanks.
pub(crate) fn split(alloc: Global, line: &str) -> Result<Vec<String>, AllocError> {
    let mut words = Vec::new(alloc);
    if line.is_empty() {
        return Ok(words);
    }
    for word in line.split(' ') {
        words.push(String::from_str(alloc, word)?)?;
    }
    Ok(words)
}

// How one call ends over memory, with ten bytes a read and a write and this much room for the
// answer, where the reads and writes of these numbers, from 1, fail.
pub(crate) fn ends<L: Ledger, R: Threads + Sync>(
    blank: Blank,
    rt: &R,
    alloc: Global,
    line: &str,
    bytes: Vec<u8>,
    room: usize,
    failing: [u64; 3],
) -> Result<(Status, MemSink, MemSink), AllocError>
    requires name { blank.name ≡ L.name }
    requires parts { blank.parts ≡ L.parts }
    requires some { 0 < L.parts }
{
    let [read, write, error] = failing;
    let words = split(alloc, line)?;
    let piece = if bytes.len() < 1000 { 10 } else { bytes.len() };
    let mut source = MemSource::new(bytes, piece, vec![in alloc; read]?);
    let mut out = MemSink::new(alloc, room, 10, vec![in alloc; write]?)?;
    let mut err = MemSink::new(alloc, 200, 10, vec![in alloc; error]?)?;
    let mut steps = Steps::<L>::new(blank);
    let status = run(
        rt,
        alloc,
        words.as_slice(),
        &mut source,
        &mut out,
        &mut err,
        &OpenGate,
        &mut steps,
    );
    Ok((status, out, err))
}

// The row ends so on these bytes.
fn expect_end<L: Ledger, R: Abort + Threads + Sync>(
    blank: Blank,
    rt: &R,
    alloc: Global,
    row: Row,
    bytes: Vec<u8>,
) -> Result<(), AllocError>
    requires name { blank.name ≡ L.name }
    requires parts { blank.parts ≡ L.parts }
    requires some { 0 < L.parts }
{
    let (words, text, failing, exit, held, line) = row;
    let (status, out, err) = ends::<L, R>(blank, rt, alloc, words, bytes, 1000, failing)?;
    assert_eq!(rt; status.exit_number(), exit, "{words} {text}");
    assert!(rt; out.held() == held.as_bytes(), "{words} {text}");
    assert!(rt; err.held() == line.as_bytes(), "{words} {text}");
    Ok(())
}

#[test]
fn worked_rows(rt: HostRuntime) -> Result<(), Fail> {
    for row in ROWS {
        let bytes = row.1.as_bytes().to_vec(rt.alloc())?;
        expect_end::<Brand, _>(Blank::new(1), &rt, rt.alloc(), *row, bytes)?;
    }
    Ok(())
}

// As many blanks as no document may have.
fn blanks(alloc: Global, count: usize) -> Result<Vec<u8>, AllocError> {
    vec![in alloc; b' '; count]
}

#[test]
fn too_long(rt: HostRuntime) -> Result<(), Fail> {
    let line = "qntn: malformed F1 tensor 0 part 0 item 0\n";
    let row = ("contract", "", [0, 0, 0], 3, "", line);
    let bytes = blanks(rt.alloc(), 67_108_865)?;
    expect_end::<Brand, _>(Blank::new(1), &rt, rt.alloc(), row, bytes)?;
    Ok(())
}

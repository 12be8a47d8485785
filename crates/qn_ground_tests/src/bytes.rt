//! Reading and writing whole, with calls that fail; readers and writers of std.

use qn_outside::{
    Failed, MAX_BYTES, MemSink, MemSource, ReadAllFault, Sink, Source, StdSink, StdSource,
    WriteFault, read_all, write_all,
};
use std::alloc::{AllocError, Global};
use std::io;
use std::io::{ErrorKind, Read};
use std::test::Fail;

// `abc` by one byte a read, where the read with this number fails: what is read, what with the next call, and how many
// reads failed.
fn read_twice(
    alloc: Global,
    number: u64,
) -> Result<(Result<Vec<u8>, ReadAllFault>, Vec<u8>, u64), AllocError> {
    let bytes = b"abc".to_vec(alloc)?;
    let mut source = MemSource::new(bytes, 1, vec![in alloc; number]?);
    let first = read_all(alloc, &mut source);
    let rest = read_all(alloc, &mut source).unwrap_or(Vec::new(alloc));
    Ok((first, rest, source.faults()))
}

#[test]
fn reads_to_the_end(rt: HostRuntime) -> Result<(), Fail> {
    for (number, left) in [(1u64, "abc"), (3, "c"), (4, "")] {
        let (first, rest, faults) = read_twice(rt.alloc(), number)?;
        assert_eq!(rt; first.err(), Some(ReadAllFault::ReadFault));
        assert!(rt; rest.as_slice() == left.as_bytes());
        assert_eq!(rt; faults, 1);
    }
    let (first, rest, faults) = read_twice(rt.alloc(), 9)?;
    assert!(rt; first?.as_slice() == b"abc".as_slice() && rest.is_empty() && faults == 0);
    Ok(())
}

// What is read of this many bytes, and how many are left then.
fn read_many(
    alloc: Global,
    count: usize,
) -> Result<(Result<usize, ReadAllFault>, usize), AllocError> {
    let bytes = vec![in alloc; b' '; count]?;
    let mut source = MemSource::new(bytes, usize::MAX, Vec::new(alloc));
    let first = read_all(alloc, &mut source).map(|all| all.len());
    let rest = read_all(alloc, &mut source).map(|all| all.len());
    Ok((first, rest.unwrap_or(0)))
}

#[test]
fn reads_up_to_the_limit(rt: HostRuntime) -> Result<(), Fail> {
    assert!(rt; read_many(rt.alloc(), MAX_BYTES)? == (Ok(MAX_BYTES), 0));
    assert!(rt; read_many(rt.alloc(), MAX_BYTES + 3)? == (Err(ReadAllFault::TooLong), 2));
    Ok(())
}

// Twelve bytes by five a write, where the write with this number fails: the answer, and what is held.
fn written(
    alloc: Global,
    room: usize,
    number: u64,
) -> Result<(Result<(), WriteFault>, MemSink), AllocError> {
    let mut sink = MemSink::new(alloc, room, 5, vec![in alloc; number]?)?;
    let answer = write_all(&mut sink, b"abcdefghijkl");
    Ok((answer, sink))
}

#[test]
fn writes_the_whole_piece(rt: HostRuntime) -> Result<(), Fail> {
    for (room, number, want, held) in [
        (12, 1, Err(WriteFault { written: 0 }), ""),
        (12, 3, Err(WriteFault { written: 10 }), "abcdefghij"),
        (12, 9, Ok(()), "abcdefghijkl"),
        (7, 9, Err(WriteFault { written: 7 }), "abcdefg"),
    ] {
        let (answer, sink) = written(rt.alloc(), room, number)?;
        assert!(rt; answer == want && sink.held() == held.as_bytes());
        assert_eq!(rt; sink.faults(), u64::from(want.is_err()));
    }
    let text = WriteFault { written: 7 }.to_string(rt.alloc())?;
    assert_eq!(rt; text.as_str(), "the sink failed after 7 bytes");
    Ok(())
}

// A reader of which every read fails.
#[derive(Drop)]
struct Broken;

impl Read for Broken {
    fn read(&mut self, _buf: &mut [u8]) -> io::Result<usize> {
        Err(ErrorKind::Other.into())
    }
}

#[test]
fn readers_and_writers_of_std(rt: HostRuntime) -> Result<(), Fail> {
    let alloc = rt.alloc();
    let mut source = StdSource::new(b"abc".as_slice());
    let all = read_all(alloc, &mut source)?;
    assert!(rt; all.as_slice() == b"abc".as_slice());
    assert_eq!(rt; StdSource::new(Broken).read(&mut [0; 2]), Err(Failed));
    let mut taken = Vec::new(alloc);
    assert_eq!(rt; write_all(&mut StdSink::new(&mut taken), b"abc"), Ok(()));
    assert!(rt; taken.as_slice() == b"abc".as_slice());
    let mut room = [0; 2];
    let mut full = StdSink::new(room.as_mut_slice());
    assert_eq!(rt;
        write_all(&mut full, b"abc"),
        Err(WriteFault { written: 2 })
    );
    Ok(())
}

//! Each public call on its happy path, and the lines of texts that come in pieces.
use crate::lines::{LineError, LineReader, Next};
use crate::pausing::{NoPause, Pause, Point};
use crate::streams::{Sink, Source};
use crate::{MemorySink, MemorySource, StdStream, write_all};
use std::alloc::{AllocError as OutOfMemory, Global};
use std::test::Fail;

// Puts what a call for the next line found behind the others: the line and `|`, `~` for one passed over, `$` for the
// end. Says whether to go on.
fn put_found(
    reader: &LineReader,
    next: Result<Next, LineError>,
    found: &mut Vec<u8>,
) -> Result<bool, OutOfMemory> {
    let (mark, more) = match next {
        Ok(Next::Line) => {
            found.extend_from_slice(reader.line())?;
            (b"|", true)
        }
        Ok(Next::Passed) => (b"~", true),
        Ok(Next::End) => (b"$", false),
        Err(LineError::Fault) => (b"!", true),
        Err(LineError::TooLong { line }) => {
            let number = line.to_string(*found.allocator())?;
            found.extend_from_slice(number.as_bytes())?;
            (b"<", false)
        }
        Err(LineError::TooMuch) => (b">", false),
        Err(LineError::OutOfMemory) => (b"?", false),
    };
    found.extend_from_slice(mark)?;
    Ok(more)
}

// All that a reader finds in a text, with lines of at most 4 bytes and 40 bytes in all.
fn findings_in(
    alloc: Global,
    text: &[u8],
    failing: &[u64],
    piece: usize,
) -> Result<Vec<u8>, OutOfMemory> {
    let bytes = text.to_vec(alloc)?;
    let mut source = MemorySource::new(bytes, failing.to_vec(alloc)?, piece.max(1));
    let mut reader = LineReader::new(alloc, 4, 40)?;
    let mut found = Vec::new(alloc);
    for _ in 0..60 {
        let next = reader.next_line(&mut source);
        if !put_found(&reader, next, &mut found)? {
            break;
        }
    }
    Ok(found)
}

// Whether a reader finds the same in a text in pieces of 1, 3 and 65,536 bytes.
fn finds(alloc: Global, text: &[u8], found: &[u8]) -> Result<bool, OutOfMemory> {
    Ok(
        findings_in(alloc, text, &[], 1)?.as_slice() == found
            && findings_in(alloc, text, &[], 3)?.as_slice() == found
            && findings_in(alloc, text, &[], 65_536)?.as_slice() == found,
    )
}

#[test]
fn lines_of_texts(rt: HostRuntime) -> Result<(), Fail> {
    let alloc = rt.alloc();
    assert!(rt; finds(alloc, b"", b"$")?);
    assert!(rt; finds(alloc, b"\n", b"~$")?);
    assert!(rt; finds(alloc, b"ab\ncd\n", b"ab|cd|$")?);
    assert!(rt; finds(alloc, b"ab\r\n\r\ncd", b"ab|~cd|$")?);
    assert!(rt; finds(alloc, b"a\r\r\nb\r", b"a\r|b|$")?);
    assert!(rt; finds(alloc, b"-- a long comment\n-\n--\r\nx", b"~-|~x|$")?);
    Ok(())
}

#[test]
fn limits_of_texts(rt: HostRuntime) -> Result<(), Fail> {
    let alloc = rt.alloc();
    assert!(rt; finds(alloc, b"abcd\r\nabcd", b"abcd|abcd|$")?);
    assert!(rt; finds(alloc, b"\nabcde\nf\n", b"~2<")?);
    assert!(rt; finds(alloc, b"a\nb\nabcd\rx", b"a|b|3<")?);
    assert!(rt; finds(alloc, b"--3456789 123456789 123456789 123456789\n", b"~$")?);
    assert!(rt;
        finds(
            alloc,
            b"a\n--3456789 123456789 123456789 1234567\nb",
            b"a|~>"
        )?
    );
    assert!(rt;
        finds(
            alloc,
            b"a\n--3456789 123456789 123456789 1234567890",
            b"a|>"
        )?
    );
    Ok(())
}

#[test]
fn faults_in_mid_line(rt: HostRuntime) -> Result<(), Fail> {
    let alloc = rt.alloc();
    let found = findings_in(alloc, b"abc\n--d\ne", &[0, 2, 4, 5], 2)?;
    assert_eq!(rt; found.as_slice(), b"!!abc|!!~e|$".as_slice());
    Ok(())
}

#[test]
fn source_in_memory(rt: HostRuntime) -> Result<(), Fail> {
    let alloc = rt.alloc();
    let mut source = MemorySource::new(b"abcd".to_vec(alloc)?, vec![in alloc; 1]?, 3);
    let mut buf = [0u8; 4];
    assert_eq!(rt; source.read(&mut buf).ok(), Some(3));
    assert_eq!(rt; buf.as_slice(), b"abc\0".as_slice());
    assert!(rt; source.read(&mut buf).is_err());
    assert_eq!(rt; source.read(&mut buf).ok(), Some(1));
    assert_eq!(rt; source.read(&mut buf).ok(), Some(0));
    Ok(())
}

#[test]
fn sink_in_memory(rt: HostRuntime) -> Result<(), Fail> {
    let alloc = rt.alloc();
    let mut sink = MemorySink::new(vec![in alloc; 3]?, 2);
    write_all(&mut sink, b"hello")?;
    assert!(rt; write_all(&mut sink, b"!").is_err());
    assert_eq!(rt; sink.write(b" you").ok(), Some(2));
    assert_eq!(rt; sink.bytes(), b"hello y".as_slice());
    assert_eq!(rt; sink.refused(), 0);
    Ok(())
}

#[test]
fn streams_of_std(rt: HostRuntime) -> Result<(), Fail> {
    let alloc = rt.alloc();
    let mut source = StdStream::source(b"abc".as_slice());
    let mut buf = [0u8; 2];
    assert_eq!(rt; source.read(&mut buf).ok(), Some(2));
    let mut sink = StdStream::sink(Vec::new(alloc));
    assert_eq!(rt; sink.write(&buf).ok(), Some(2));
    NoPause.at(1, Point::BeforeStatement);
    Ok(())
}

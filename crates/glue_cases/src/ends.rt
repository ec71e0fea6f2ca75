use crate::compare::assert_told;
use glue_ends::{
    MemSink, MemSource, PlannedFile, ReadEnd, Sink, Source, WriteEnd, WriteFault, read_whole,
    write_files,
};
use glue_inputs::shown;
use std::alloc::{AllocError, Global};
use std::io;
use std::io::Read;
use std::process::Abort;
use values::{Seq, Text};

/// What is read, at most `limit` bytes, of a source that gives two bytes a call and fails at one call.
fn source_told(alloc: Global, bytes: &[u8], fail: u64, limit: usize) -> Result<String, AllocError> {
    let fails = Vec::from_slice(alloc, &[fail])?;
    let mut source = MemSource::new(Vec::from_slice(alloc, bytes)?, 2, fails);
    shown(alloc, read_whole(alloc, &mut source, limit, 3))
}

/// The source's bytes, its failing call, the limit, and what comes. Five bytes in pieces of two take four reads.
const READS: &[(&[u8], u64, usize, &str)] = &[
    (b"abcde", 0, 5, "Ok([97, 98, 99, 100, 101])"),
    (b"abcde", 5, 5, "Ok([97, 98, 99, 100, 101])"),
    (b"abcde", 1, 5, "Err(Failed)"),
    (b"abcde", 3, 5, "Err(Failed)"),
    (b"abcde", 4, 5, "Err(Failed)"),
    (b"abcde", 0, 4, "Err(TooLong)"),
    (b"abcde", 4, 4, "Err(TooLong)"),
    (b"", 0, 0, "Ok([])"),
    (b"a", 0, 0, "Err(TooLong)"),
];

/// A reader whose reads fail.
#[derive(Drop)]
struct Broken;

impl Read for Broken {
    fn read(&mut self, _buf: &mut [u8]) -> io::Result<usize> {
        Err(io::Error::from(io::ErrorKind::Other))
    }
}

/// What is read of a reader over three bytes.
fn reader_told(alloc: Global) -> Result<String, AllocError> {
    let text: &[u8] = b"abc";
    shown(alloc, read_whole(alloc, &mut ReadEnd::new(text), 3, 2))
}

#[test]
fn a_source_is_read_to_its_end(rt: HostRuntime) -> Result<(), AllocError> {
    for (bytes, fail, limit, want) in READS {
        assert_told(&rt, source_told(rt.alloc(), bytes, *fail, *limit), want)?;
    }
    assert_told(&rt, reader_told(rt.alloc()), "Ok([97, 98, 99])")?;
    let mut buf = [0u8; 2];
    assert!(rt; ReadEnd::new(Broken).read(&mut buf).is_err());
    Ok(())
}

fn planned(
    alloc: Global,
    path: &str,
    bytes: &[u8],
    is_text: bool,
) -> Result<PlannedFile, AllocError> {
    let path = Text::from_str(alloc, path)?;
    Ok(PlannedFile {
        path,
        bytes: Seq::from_vec(bytes.to_vec(alloc)?),
        is_text,
    })
}

fn two_files(alloc: Global) -> Result<Vec<PlannedFile>, AllocError> {
    let text = planned(alloc, "out.js", b"x;\n", true)?;
    let module = planned(alloc, "out_bg.wasm", b"\0\xabs", false)?;
    Ok(Vec::from_array(alloc, [text, module])?)
}

/// Whether the sink takes the files; none where memory runs out.
fn is_written(alloc: Global, files: &[PlannedFile], sink: &mut MemSink) -> Option<bool> {
    match write_files(alloc, files, sink) {
        Ok(()) => Some(true),
        Err(WriteFault::Failed) => Some(false),
        Err(WriteFault::OutOfMemory) => None,
    }
}

/// Whether the files are written to a sink whose call `fail` fails; none where it has not taken the wanted bytes.
fn is_listed(
    alloc: Global,
    files: &[PlannedFile],
    fail: u64,
    want: &[u8],
) -> Result<Option<bool>, AllocError> {
    let mut sink = MemSink::new(alloc, Vec::from_slice(alloc, &[fail])?);
    let is_written = is_written(alloc, files, &mut sink);
    Ok(if sink.taken() == want {
        is_written
    } else {
        None
    })
}

/// The failing call, and what was taken of the listing before it.
const LISTINGS: &[(u64, &[u8])] = &[
    (1, b""),
    (2, b"file out.js text 3\n"),
    (3, b"file out.js text 3\nx;\n"),
    (4, b"file out.js text 3\nx;\n\n"),
    (5, b"file out.js text 3\nx;\n\nfile out_bg.wasm hex 3\n"),
    (
        6,
        b"file out.js text 3\nx;\n\nfile out_bg.wasm hex 3\n00ab73",
    ),
    (
        7,
        b"file out.js text 3\nx;\n\nfile out_bg.wasm hex 3\n00ab73\n",
    ),
];

/// A slice with no room takes none of the bytes.
fn assert_written<H: Abort>(rt: &H) {
    let mut kept = [0u8; 4];
    let mut sink = WriteEnd::new(kept.as_mut_slice());
    assert!(rt; sink.write_all(b"abc").is_ok());
    assert!(rt; sink.write_all(b"de") == Err(WriteFault::Failed));
    drop(sink);
    assert!(rt; kept.as_slice() == b"abcd".as_slice());
}

#[test]
fn files_are_listed_to_a_sink(rt: HostRuntime) -> Result<(), AllocError> {
    let files = two_files(rt.alloc())?;
    for (fail, taken) in LISTINGS {
        // Six calls write the listing.
        let is_written = is_listed(rt.alloc(), files.as_slice(), *fail, taken)?;
        assert!(rt; is_written == Some(*fail == 7), "at {fail}");
    }
    assert_written(&rt);
    Ok(())
}

//! The forms over a reader and a writer, on readers and writers that are short, fail and end.
ghost use Rattle.std.specs.Prelude.{◌<◌};

use crate::program::answer;
use crate::run::send;
use crate::sink::{Sink, StdSink};
use crate::source::{Source, SourceFailed, StdSource};
use crate::tests::{NUTS, NUTS_LINES, package_of};
use std::alloc::Global;
use std::io::{self, Read, Write};
use std::test::Fail;
use test_tables::assert_text;
use xlsx_commands::ToolError;

/// Gives its bytes, at most `piece` a call; the call of this number, counted from 0, fails.
#[derive(Drop)]
struct PlannedReader<'a> {
    left: &'a [u8],
    piece: usize,
    failing_read: Option<u64>,
    reads: u64,
}

impl<'a> Read for PlannedReader<'a> {
    fn read(&mut self, into: &mut [u8]) -> io::Result<usize> {
        let call = self.reads;
        self.reads = call.saturating_add(1);
        if self.failing_read == Some(call) {
            return Err(io::Error::from(io::ErrorKind::BrokenPipe));
        }
        let count = self.piece.min(into.len()).min(self.left.len());
        into[..count].copy_from_slice(&self.left[..count]);
        self.left = &self.left[count..];
        Ok(count)
    }
}

fn reader_of(left: &[u8], piece: usize, failing_read: Option<u64>) -> PlannedReader<'_> {
    PlannedReader {
        left,
        piece,
        failing_read,
        reads: 0,
    }
}

/// Takes at most `piece` bytes a call, and can flush; the calls of these numbers, counted from 0,
/// fail.
#[derive(Drop)]
struct PlannedWriter {
    written: Vec<u8>,
    piece: usize,
    failing_write: Option<u64>,
    failing_flush: Option<u64>,
    writes: u64,
    flushes: u64,
}

impl Write for PlannedWriter {
    fn write(&mut self, piece: &[u8]) -> io::Result<usize> {
        let call = self.writes;
        self.writes = call.saturating_add(1);
        if self.failing_write == Some(call) {
            return Err(io::Error::from(io::ErrorKind::BrokenPipe));
        }
        let count = self.piece.min(piece.len());
        self.written.extend_from_slice(&piece[..count])?;
        Ok(count)
    }

    fn flush(&mut self) -> io::Result<()> {
        let call = self.flushes;
        self.flushes = call.saturating_add(1);
        if self.failing_flush == Some(call) {
            return Err(io::Error::from(io::ErrorKind::BrokenPipe));
        }
        Ok(())
    }
}

fn writer_of(alloc: Global, piece: usize) -> PlannedWriter {
    PlannedWriter {
        written: Vec::new(alloc),
        piece,
        failing_write: None,
        failing_flush: None,
        writes: 0,
        flushes: 0,
    }
}

/// What came of a source in 12 reads of up to four bytes, with `!` for a failed read and `.` for an
/// end.
fn reads_of<S: Source>(alloc: Global, source: &mut S) -> Result<String, Fail> {
    let mut came = Vec::new(alloc);
    for _ in 0..12 {
        let mut piece = [b'?'; 4];
        match source.read(&mut piece) {
            Ok(0) => came.push(b'.')?,
            Ok(count) => came.extend_from_slice(&piece[..count])?,
            Err(SourceFailed) => came.push(b'!')?,
        }
    }
    Ok(String::from_utf8(came)?)
}

#[test]
fn a_reader_is_read_whole_and_in_order(rt: HostRuntime) -> Result<(), Fail> {
    for (text, piece, failing_read, came, faults) in [
        ("nut cake", 1, None, "nut cake....", 0),
        ("nut cake", 3, None, "nut cake.........", 0),
        ("nut cake", 4, None, "nut cake..........", 0),
        ("nut cake", 100, None, "nut cake..........", 0),
        ("", 4, None, "............", 0),
        ("nut cake", 4, Some(0), "!nut cake.........", 1),
        ("nut cake", 4, Some(1), "nut !cake.........", 1),
        ("nut cake", 3, Some(2), "nut ca!ke........", 1),
        ("nut cake", 4, Some(2), "nut cake!.........", 1),
    ] {
        let mut source = StdSource::new(reader_of(text.as_bytes(), piece, failing_read));
        let found = reads_of(rt.alloc(), &mut source)?;
        assert_text(&found, came, text)?;
        assert!(rt; source.faults() == faults, "of pieces of {piece}");
    }
    Ok(())
}

#[test]
fn a_writer_takes_all_of_a_piece_once(rt: HostRuntime) -> Result<(), Fail> {
    for piece in [1, 3, 7, 8, 100] {
        let mut writer = writer_of(rt.alloc(), piece);
        let mut sink = StdSink::new(&mut writer);
        let sent = send(&mut sink, b"nut cake");
        assert!(rt;
            sent == Ok(()) && sink.faults() == 0,
            "in pieces of {piece}"
        );
        let written = std::str::from_utf8(writer.written.as_slice())?;
        assert_text(written, "nut cake", "in pieces")?;
        assert!(rt; writer.flushes == writer.writes, "in pieces of {piece}");
    }
    Ok(())
}

#[test]
fn a_writer_that_fails_has_a_front(rt: HostRuntime) -> Result<(), Fail> {
    for (piece, failing_write, failing_flush, front) in [
        (0, None, None, ""),
        (3, Some(0), None, ""),
        (3, Some(1), None, "nut"),
        (3, Some(2), None, "nut ca"),
        (3, None, Some(0), "nut"),
        (3, None, Some(2), "nut cake"),
        (100, None, Some(0), "nut cake"),
    ] {
        let mut writer = PlannedWriter {
            failing_write,
            failing_flush,
            ..writer_of(rt.alloc(), piece)
        };
        let mut sink = StdSink::new(&mut writer);
        let sent = send(&mut sink, b"nut cake");
        let is_refused = sent == Err(ToolError::WriteFault);
        assert!(rt; is_refused && sink.faults() == 1, "at {front}");
        let written = std::str::from_utf8(writer.written.as_slice())?;
        assert_text(written, front, "a front")?;
    }
    Ok(())
}

#[test]
fn an_empty_piece_is_written(rt: HostRuntime) {
    let mut sink = StdSink::new(writer_of(rt.alloc(), 3));
    assert!(rt; sink.write(b"") == Ok(0) && sink.faults() == 0);
}

#[test]
fn a_run_is_the_same_over_readers_and_writers(rt: HostRuntime) -> Result<(), Fail> {
    let alloc = rt.alloc();
    let input = package_of(alloc, NUTS)?;
    let mut words = Vec::new(alloc);
    words.push(String::from_str(alloc, "cells")?)?;
    words.push(String::from_str(alloc, "S")?)?;
    for (read_piece, failing_read, write_piece, failing_flush, answered, written) in [
        (1, None, 1, None, Ok(()), NUTS_LINES),
        (1_000_000, None, 1_000_000, None, Ok(()), NUTS_LINES),
        (100, Some(3), 100, None, Err(ToolError::ReadFault), ""),
        (100, None, 0, None, Err(ToolError::WriteFault), ""),
        (
            100,
            None,
            10,
            Some(1),
            Err(ToolError::WriteFault),
            &NUTS_LINES[..20],
        ),
    ] {
        let mut source = StdSource::new(reader_of(input.as_bytes(), read_piece, failing_read));
        let mut writer = PlannedWriter {
            failing_flush,
            ..writer_of(alloc, write_piece)
        };
        let found = answer(alloc, &words, &mut source, &mut StdSink::new(&mut writer));
        assert!(rt; found == answered, "of {written}");
        let came = std::str::from_utf8(writer.written.as_slice())?;
        assert_text(came, written, "over readers and writers")?;
    }
    Ok(())
}

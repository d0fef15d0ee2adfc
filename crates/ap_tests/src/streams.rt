//! Sources and sinks, in memory and of std.

use ap_io::{
    Failed, Gate, MemSink, MemSource, NoGate, Sink, Source, StdSink, StdSource, SteadySink,
    SteadySource,
};
use std::alloc::{AllocError, Global};
use std::io::{self, Read, Write};

/// A read of one byte: which it is, `!` where the read fails, and `.` at the end.
fn read_one<S: Source>(source: &mut S) -> &'static str {
    let mut buf = [0u8; 1];
    match source.read(&mut buf) {
        Ok(0) => ".",
        Ok(_) => match buf[0] {
            7 => "7",
            8 => "8",
            _ => "0",
        },
        Err(Failed) => "!",
    }
}

/// What some reads of one byte give.
fn reads<S: Source>(alloc: Global, source: &mut S, count: u32) -> Result<String, AllocError> {
    let mut out = String::new(alloc);
    for _ in 0..count {
        out.push_str(read_one(source))?;
    }
    Ok(out)
}

/// A write of a piece: how many bytes it takes, and `!` where it fails.
fn write_one<K: Sink>(sink: &mut K, piece: &[u8]) -> &'static str {
    if piece.is_empty() {
        return "";
    }
    match sink.write(piece) {
        Ok(1) => "1",
        Ok(2) => "2",
        Ok(_) => "more",
        Err(Failed) => "!",
    }
}

/// What some writes do.
fn writes<K: Sink>(alloc: Global, sink: &mut K, pieces: &[&str]) -> Result<String, AllocError> {
    let mut out = String::new(alloc);
    for piece in pieces {
        out.push_str(write_one(sink, piece.as_bytes()))?;
    }
    Ok(out)
}

fn source_fails_as_told(alloc: Global) -> Result<bool, AllocError> {
    let mut source = MemSource::new(vec![in alloc; 7, 8]?, vec![in alloc; 2]?);
    let read = reads(alloc, &mut source, 4)?;
    Ok(read.as_str() == "7!8." && source.faults() == 1)
}

fn steady_source_never_fails(alloc: Global) -> Result<bool, AllocError> {
    let mut source = SteadySource::new(vec![in alloc; 7]?);
    let read = reads(alloc, &mut source, 2)?;
    Ok(read.as_str() == "7." && source.faults() == 0)
}

#[test]
fn sources_in_memory_are_read(rt: HostRuntime) {
    assert!(rt; matches!(source_fails_as_told(rt.alloc()), Ok(true)));
    assert!(rt; matches!(steady_source_never_fails(rt.alloc()), Ok(true)));
}

/// It takes two bytes at a write, and three in all, and its second write fails.
fn sink_takes_what_it_has_room_for(alloc: Global) -> Result<bool, AllocError> {
    let fails = vec![in alloc; 2]?;
    let mut sink = MemSink::new(alloc, 2, 3, fails).or(Err(AllocError))?;
    let written = writes(alloc, &mut sink, &["abc", "c", "cd", "ab"])?;
    Ok(written.as_str() == "2!1!" && sink.bytes() == b"abc".as_slice() && sink.faults() == 2)
}

fn steady_sink_never_fails(alloc: Global) -> Result<bool, AllocError> {
    let mut sink = SteadySink::new();
    let written = writes(alloc, &mut sink, &["ab"])?;
    NoGate.enter(0, 1);
    Ok(written.as_str() == "2" && sink.faults() == 0)
}

#[test]
fn sinks_in_memory_are_written(rt: HostRuntime) {
    assert!(rt; matches!(sink_takes_what_it_has_room_for(rt.alloc()), Ok(true)));
    assert!(rt; matches!(steady_sink_never_fails(rt.alloc()), Ok(true)));
}

// A stream of std that fails at its second call.
#[derive(Drop)]
struct Halting {
    calls: u8,
}

impl Halting {
    fn turn(&mut self) -> io::Result<()> {
        self.calls = self.calls.saturating_add(1);
        if self.calls == 2 {
            return Err(io::Error::from(io::ErrorKind::WouldBlock));
        }
        Ok(())
    }
}

impl Read for Halting {
    fn read(&mut self, buf: &mut [u8]) -> io::Result<usize> {
        self.turn()?;
        Ok(buf.len())
    }
}

impl Write for Halting {
    /// From its third call on it takes no bytes.
    fn write(&mut self, piece: &[u8]) -> io::Result<usize> {
        self.turn()?;
        Ok(if self.calls > 2 { 0 } else { piece.len() })
    }

    fn flush(&mut self) -> io::Result<()> {
        Ok(())
    }
}

fn reader_counts(alloc: Global) -> Result<bool, AllocError> {
    let mut source = StdSource::new(Halting { calls: 0 });
    let read = reads(alloc, &mut source, 3)?;
    Ok(read.as_str() == "0!0" && source.faults() == 1)
}

fn writer_counts(alloc: Global) -> Result<bool, AllocError> {
    let mut sink = StdSink::new(Halting { calls: 0 });
    let written = writes(alloc, &mut sink, &["ab", "ab", "ab"])?;
    Ok(written.as_str() == "2!!" && sink.faults() == 2)
}

#[test]
fn errors_of_std_are_counted(rt: HostRuntime) {
    assert!(rt; matches!(reader_counts(rt.alloc()), Ok(true)));
    assert!(rt; matches!(writer_counts(rt.alloc()), Ok(true)));
}

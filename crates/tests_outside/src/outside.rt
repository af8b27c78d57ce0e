//! Reads and writes that fail, and the adapters over std's readers and writers.
use fsl_outside::{
    Failed, MemorySink, MemorySource, Sink, Source, StdSink, StdSource, read_whole, write_whole,
};
use std::alloc::{AllocError, Global};
use std::io;
use std::io::{ErrorKind, Read, Write};

// Is interrupted at its first call, moves a byte at each later one, and breaks at this one.
#[derive(Drop)]
struct Drip {
    calls: u64,
    breaks: u64,
}

impl Drip {
    fn step(&mut self, len: usize) -> io::Result<usize> {
        self.calls = self.calls.saturating_add(1);
        if self.calls == 1 {
            return Err(io::Error::from(ErrorKind::Interrupted));
        }
        if self.calls >= self.breaks {
            return Err(io::Error::from(ErrorKind::BrokenPipe));
        }
        Ok(len.min(1))
    }
}

impl Read for Drip {
    fn read(&mut self, buf: &mut [u8]) -> io::Result<usize> {
        let count = self.step(buf.len())?;
        if count > buf.len() {
            return Ok(0);
        }
        buf[..count].fill(b'x');
        Ok(count)
    }
}

impl Write for Drip {
    fn write(&mut self, buf: &[u8]) -> io::Result<usize> {
        let count = self.step(buf.len())?;
        Ok(count.min(buf.len()))
    }

    fn flush(&mut self) -> io::Result<()> {
        Ok(())
    }
}

fn dripping(breaks: u64) -> Drip {
    Drip { calls: 0, breaks }
}

/// How many bytes a source gives up to its end, where it has at most so many, and how often it failed.
fn count_read<S: Source>(alloc: Global, source: &mut S, limit: usize) -> (Option<usize>, u64) {
    let count = match read_whole(alloc, source, limit) {
        Ok(Some(text)) => Some(text.bytes().len()),
        _ => None,
    };
    (count, source.faults())
}

/// The same of 70,000 bytes in memory, where this call fails. They take three reads, the last of which finds the end.
fn read_memory(
    alloc: Global,
    failing: u64,
    limit: usize,
) -> Result<(Option<usize>, u64), AllocError> {
    let bytes = vec![in alloc; 7u8; 70_000]?;
    let mut source = MemorySource::new(bytes, vec![in alloc; failing]?);
    Ok(count_read(alloc, &mut source, limit))
}

/// Four such reads: whole, over the limit, and where a read fails.
fn reads_of_memory(alloc: Global) -> Result<[(Option<usize>, u64); 4], AllocError> {
    Ok([
        read_memory(alloc, 0, 70_000)?,
        read_memory(alloc, 0, 69_999)?,
        read_memory(alloc, 2, 70_000)?,
        read_memory(alloc, 3, 70_000)?,
    ])
}

#[test]
fn reads_whole(rt: HostRuntime) -> Result<(), AllocError> {
    let found = reads_of_memory(rt.alloc())?;
    assert_eq!(rt; found, [(Some(70_000), 0), (None, 0), (None, 1), (None, 1)]);
    Ok(())
}

/// Whether two writes were done, and how often the sink failed.
fn write_twice<K: Sink>(sink: &mut K) -> ([bool; 2], u64) {
    let done = [
        write_whole(sink, b"seven b").is_ok(),
        write_whole(sink, b"8").is_ok(),
    ];
    (done, sink.faults())
}

/// The same of a sink in memory whose second write fails, and whether it has taken the first one alone.
fn write_memory(alloc: Global) -> Result<(([bool; 2], u64), bool), AllocError> {
    let mut sink = MemorySink::new(alloc, vec![in alloc; 2u64]?);
    let found = write_twice(&mut sink);
    let is_taken = sink.taken() == b"seven b".as_slice();
    Ok((found, is_taken))
}

#[test]
fn writes_whole(rt: HostRuntime) -> Result<(), AllocError> {
    assert_eq!(rt; write_memory(rt.alloc())?, (([true, false], 1), true));
    Ok(())
}

/// What `count_read` tells of a source that is let go then.
fn count_let_go<S: Source + Drop>(
    alloc: Global,
    mut source: S,
    limit: usize,
) -> (Option<usize>, u64) {
    count_read(alloc, &mut source, limit)
}

/// What `count_read` tells of a drip, and the read behind it.
fn count_drip(alloc: Global) -> ((Option<usize>, u64), (Result<usize, Failed>, u64)) {
    let mut drip = StdSource::new(dripping(9));
    let found = count_read(alloc, &mut drip, 6);
    let next = drip.read(&mut [0u8; 4]);
    (found, (next, drip.faults()))
}

#[test]
fn adapts_readers(rt: HostRuntime) {
    let whole = count_let_go(rt.alloc(), StdSource::new(b"text".as_slice()), 4);
    let none = count_let_go(rt.alloc(), StdSource::<Drip>::none(), 6);
    assert_eq!(rt; [whole, none], [(Some(4), 0), (None, 1)]);
    assert_eq!(rt; count_drip(rt.alloc()), ((None, 0), (Err(Failed), 1)));
}

/// What `write_twice` tells of a sink that is let go then.
fn write_let_go<K: Sink + Drop>(mut sink: K) -> ([bool; 2], u64) {
    write_twice(&mut sink)
}

#[test]
fn adapts_writers(rt: HostRuntime) {
    let found = [
        write_let_go(StdSink::new(Vec::<u8>::new(rt.alloc()))),
        write_let_go(StdSink::new(dripping(9))),
        write_let_go(StdSink::<Drip>::none()),
    ];
    assert_eq!(rt;
        found,
        [([true; 2], 0), ([true, false], 1), ([false; 2], 2)]
    );
}

//! A source that tells how much was read, at most once a second.
use super::hand::Hand;
use fsl_outside::{Failed, MemorySink, MemorySource, Source};
use fsl_watch::WatchedSource;
use std::alloc::{AllocError, Global};
use std::cell::Cell;

/// Whether the reads answer as those of the source in memory do, at these milliseconds: four give bytes, the third of the five fails.
fn answers<S: Source>(source: &mut S, clock: &Cell<u64>) -> bool {
    let mut into = [0u8; 3];
    clock.set(999);
    let early = source.read(&mut into) == Ok(3);
    clock.set(1000);
    let due = source.read(&mut into) == Ok(3);
    clock.set(2000);
    let failed = source.read(&mut into) == Err(Failed);
    clock.set(1999);
    let not_due = source.read(&mut into) == Ok(3);
    clock.set(2500);
    let again = source.read(&mut into) == Ok(1);
    let bytes = into == *b"jhi";
    [
        early,
        due,
        failed,
        not_due,
        again,
        bytes,
        source.faults() == 1,
    ] == [true; 7]
}

/// Whether it is so, with a line at the first second and one behind the next.
fn is_told(alloc: Global) -> Result<bool, AllocError> {
    let clock = Cell::new(0);
    let inner = MemorySource::new(b"abcdefghij".to_vec(alloc)?, [3u64].to_vec(alloc)?);
    let out = MemorySink::new(alloc, Vec::new(alloc));
    let mut source = WatchedSource::new(alloc, inner, out, Hand(&clock));
    let is_answered = answers(&mut source, &clock);
    let is_told = source.out().taken()
        == b"fossil: the input: 6 bytes read\nfossil: the input: 10 bytes read\n".as_slice();
    drop(source);
    Ok(is_answered & is_told)
}

#[test]
fn a_source_tells_at_most_once_a_second(rt: HostRuntime) -> Result<(), AllocError> {
    assert!(rt; is_told(rt.alloc())?);
    Ok(())
}

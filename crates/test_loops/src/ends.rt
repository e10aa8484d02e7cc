//! A source and a sink of which one call fails.
use std::alloc::Global;
use tokei_io::{Counted, FailOnce, Sink, Source};

/// Takes three bytes at most, through the bound.
fn three<S: Source>(source: &mut S) -> Option<usize> {
    let mut buffer = [0u8; 3];
    source.pull(&mut buffer).ok()
}

/// Appends the bytes, through the bound.
fn append<S: Sink>(sink: &mut S, bytes: &[u8]) -> bool {
    sink.put(bytes).is_ok()
}

/// What five pulls of eight bytes took, of which the second fails and the third goes through one
/// more loan; whether one had failed before the second, and behind it.
fn pulls() -> ([Option<usize>; 5], [bool; 2]) {
    let mut source = FailOnce::new(Counted::new(b"abcdefgh".as_slice()), 1);
    let first = three(&mut source);
    let before = source.failed();
    let second = three(&mut source);
    let behind = source.failed();
    let third = three(&mut &mut source);
    let rest = (three(&mut source), three(&mut source));
    ([first, second, third, rest.0, rest.1], [before, behind])
}

#[test]
fn one_pull_fails(rt: HostRuntime) {
    let taken = [Some(3), None, Some(3), Some(2), Some(0)];
    assert!(rt; pulls() == (taken, [false, true]));
}

/// Whether only the second of four appends fails, and the bytes of the others are appended in their
/// order.
fn second_put_fails(alloc: Global) -> bool {
    let mut sink = FailOnce::new(Counted::new(Vec::new(alloc)), 1);
    let appended = [
        append(&mut &mut sink, b"ab"),
        append(&mut &mut sink, b"cd"),
        append(&mut &mut sink, b"ef"),
        append(&mut &mut sink, b"gh"),
    ];
    appended == [true, false, true, true] && sink.inner.inner.as_slice() == b"abefgh".as_slice()
}

#[test]
fn one_put_fails(rt: HostRuntime) {
    assert!(rt; second_put_fails(rt.alloc()));
}

//! Histories and their text.

ghost use Rattle.std.specs.Prelude.{◌≡◌, length};

use history::{Entry, Kept, TraceError, What, java, print, read};
use std::alloc::Global;
use std::process::Abort;
use std::test::Fail;

/// The trace of a program that prints one number.
const TRACE: &[u8] =
    b"jvt-trace carriers 1\nM 0 0\nS 0 0 1 -\nS 0 0 2 -\nS 0 0 1 -\nU 0 0\nend 5\n";

const fn step(steps: u32) -> Entry {
    Entry {
        carrier: 0,
        what: What::Step {
            thread: 0,
            steps,
            pick: None,
        },
    }
}

const fn mount() -> Entry {
    Entry {
        carrier: 0,
        what: What::Mount(0),
    }
}

const fn unmount() -> Entry {
    Entry {
        carrier: 0,
        what: What::Unmount(0),
    }
}

#[test]
fn a_trace_is_printed_and_read(rt: HostRuntime) -> Result<(), Fail> {
    let entries = [mount(), step(1), step(2), step(1), unmount()];
    let text = print(rt.alloc(), 1, &entries).ok().ok_or("memory")?;
    assert!(rt; text.as_slice() == TRACE);
    let (carriers, found) = read(rt.alloc(), TRACE).ok().ok_or("a trace")?;
    assert_eq!(rt; carriers, 1);
    assert!(rt; found.as_slice() == entries.as_slice());
    Ok(())
}

#[test]
fn the_java_part_of_a_history(rt: HostRuntime) -> Result<(), Fail> {
    let entries = [mount(), step(1), step(2), step(1), unmount()];
    let found = java(rt.alloc(), &entries).ok().ok_or("memory")?;
    assert!(rt; found.as_slice() == [step(1), step(2), step(1)].as_slice());
    Ok(())
}

// How many entries a short trace has.
fn count_of(alloc: Global, text: &[u8]) -> Result<usize, TraceError> {
    if text.len() > 1000 {
        return Err(TraceError::NoMemory);
    }
    let (_, entries) = read(alloc, text)?;
    Ok(entries.len())
}

// So many entries, or the first bad line.
fn outcome(wanted: Result<usize, u32>) -> Result<usize, TraceError> {
    match wanted {
        Ok(count) => Ok(count),
        Err(line) => Err(TraceError::Bad { line }),
    }
}

// Each text is read as so many entries, or its first bad line is named.
fn expect_counts(rt: &impl Abort, alloc: Global, table: &[(&[u8], Result<usize, u32>)]) {
    for (text, wanted) in table {
        assert_eq!(rt; count_of(alloc, text), outcome(*wanted));
    }
}

// Texts by their first lines.
const FIRST_LINES: [(&[u8], Result<usize, u32>); 14] = [
    (b"", Err(1)),
    (b"X\n", Err(1)),
    (b"\njvt-trace carriers 1\nend 0\n", Err(1)),
    (b"jvt-trace carriers 1", Err(1)),
    (b"jvt-trace carriers\nend 0\n", Err(1)),
    (b"jvt-trace carriers 1 \nend 0\n", Err(1)),
    (b"jvt-trace carriers 01\nend 0\n", Err(1)),
    (b"jvt-trace carriers +1\nend 0\n", Err(1)),
    (b"jvt-trace carriers 1\r\nend 0\r\n", Err(1)),
    (b"jvt-trace carriers 4294967296\nend 0\n", Err(1)),
    (b"jvt-trace carriers 99999999999999999999\nend 0\n", Err(1)),
    (b"jvt-trace carriers 4294967295\nend 0\n", Ok(0)),
    (b"jvt-trace carriers 0\nend 0\n", Ok(0)),
    (b"end 0\n", Err(1)),
];

// Texts by their lines of entries.
const ENTRIES: [(&[u8], Result<usize, u32>); 20] = [
    (b"jvt-trace carriers 1\nS 0 0 0 -\nend 1\n", Err(2)),
    (b"jvt-trace carriers 1\nS 0 0 1\nend 1\n", Err(2)),
    (b"jvt-trace carriers 1\nS 0 0 1 - \nend 1\n", Err(2)),
    (b"jvt-trace carriers 1\nS 0 0 1 --\nend 1\n", Err(2)),
    (b"jvt-trace carriers 1\nS 0 0 1 4294967296\nend 1\n", Err(2)),
    (b"jvt-trace carriers 1\nS 0 0 1 4294967295\nend 1\n", Ok(1)),
    (b"jvt-trace carriers 1\nS 0 0 4294967296 -\nend 1\n", Err(2)),
    (b"jvt-trace carriers 1\nM 0 4294967296\nend 1\n", Err(2)),
    (b"jvt-trace carriers 1\nM 0\nend 1\n", Err(2)),
    (b"jvt-trace carriers 1\nM 0 0 0\nend 1\n", Err(2)),
    (b"jvt-trace carriers 1\nm 0 0\nend 1\n", Err(2)),
    (b"jvt-trace carriers 1\n M 0 0\nend 1\n", Err(2)),
    (b"jvt-trace carriers 1\n\xff 0 0\nend 1\n", Err(2)),
    (b"jvt-trace carriers 1\nM 0 0\r\nend 1\n", Err(2)),
    (
        b"jvt-trace carriers 1\nC 0 18446744073709551615\nend 1\n",
        Ok(1),
    ),
    (
        b"jvt-trace carriers 1\nC 0 18446744073709551616\nend 1\n",
        Err(2),
    ),
    (b"jvt-trace carriers 1\n\nend 0\n", Err(2)),
    (b"jvt-trace carriers 1\nM 0 0\nM 0  0\nend 2\n", Err(3)),
    (
        b"jvt-trace carriers 1\nM 0 0\nU 0 0\nM 00 0\nend 3\n",
        Err(4),
    ),
    (b"jvt-trace carriers 1\nM 0 0\nU 0 0\nC 0 1\nend 3\n", Ok(3)),
];

// Texts by their last lines.
const LAST_LINES: [(&[u8], Result<usize, u32>); 13] = [
    (b"jvt-trace carriers 1\n", Err(2)),
    (b"jvt-trace carriers 1\nM 0 0\n", Err(3)),
    (b"jvt-trace carriers 1\nM 0 0", Err(2)),
    (b"jvt-trace carriers 1\nend 0", Err(2)),
    (b"jvt-trace carriers 1\nend 0\r\n", Err(2)),
    (b"jvt-trace carriers 1\nend 00\n", Err(2)),
    (b"jvt-trace carriers 1\nend 1\n", Err(2)),
    (b"jvt-trace carriers 1\nM 0 0\nend 0\n", Err(3)),
    (b"jvt-trace carriers 1\nM 0 0\nend 2\n", Err(3)),
    (b"jvt-trace carriers 1\nend 0\n\n", Err(3)),
    (b"jvt-trace carriers 1\nend 0\nend 0\n", Err(3)),
    (b"jvt-trace carriers 1\nend 0\nM 0 0\n", Err(3)),
    (b"jvt-trace carriers 1\nM 0 0\nend 1\nX", Err(4)),
];

#[test]
fn traces_are_read_or_the_first_bad_line_is_named(rt: HostRuntime) {
    expect_counts(&rt, rt.alloc(), &FIRST_LINES);
    expect_counts(&rt, rt.alloc(), &ENTRIES);
    expect_counts(&rt, rt.alloc(), &LAST_LINES);
}

/// A history by itself, made with a number.
#[derive(Drop)]
struct Log {
    entries: Vec<Entry>,
    number: u32,
}

impl Kept for Log {
    type Setting = u32;

    ghost history = { λ log. log.entries.items };

    ghost setting = { λ log. log.number };

    fn entries(&self) -> &[Entry] {
        self.entries.as_slice()
    }
}

fn count_entries<K: Kept>(kept: &K) -> usize
    ensures { result ≡ length (K.history kept.now) }
{
    kept.entries().len()
}

#[test]
fn what_keeps_a_history_lends_it(rt: HostRuntime) -> Result<(), Fail> {
    let log = Log {
        entries: vec![in rt.alloc(); mount(), unmount()]?,
        number: 4,
    };
    assert_eq!(rt; count_entries(&log), 2);
    assert_eq!(rt; log.number, 4);
    Ok(())
}

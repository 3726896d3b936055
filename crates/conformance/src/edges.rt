//! Tests of the edges: what the clocks read, the system's files and outputs, and every public call once.

use jvm_edges::{
    Clock, Failed, FileStore, Gate, ListClock, MapStore, MemSink, OpenGate, RealClock, Sink,
    StdSink, StepClock, Store, StoreError,
};
use std::alloc::{AllocError, Global};
use std::fs;
use std::test::Fail;

// A store with a file `a` of the bytes 1, 2 and 3, and one `b` of the byte 4.
fn two_files(alloc: Global, fail_at: Vec<u64>) -> Result<MapStore, AllocError> {
    let mut files = Vec::new(alloc);
    files.push((String::from_str(alloc, "a")?, vec![in alloc; 1, 2, 3]?))?;
    files.push((String::from_str(alloc, "b")?, vec![in alloc; 4]?))?;
    Ok(MapStore::new(files, fail_at))
}

// Whether the first bytes of this file, at most two, are these.
fn finds<S: Store>(store: &mut S, alloc: Global, name: &str, wanted: &[u8]) -> bool {
    match store.read(alloc, name, 2) {
        Ok(Some(found)) => found.as_slice() == wanted,
        Ok(None) | Err(_) => false,
    }
}

// Whether a store has no file of that name.
fn misses<S: Store>(store: &mut S, alloc: Global, name: &str) -> bool {
    match store.read(alloc, name, 2) {
        Ok(found) => found.is_none(),
        Err(_) => false,
    }
}

// A reading of a clock that carriers share.
fn shared_reading<C: Clock + Sync>(clock: &C) -> u64 {
    clock.now()
}

#[test]
fn a_store_in_memory_gives_the_first_bytes_of_its_files(rt: HostRuntime) -> Result<(), Fail> {
    let mut store = two_files(rt.alloc(), Vec::new(rt.alloc()))?;
    assert!(rt; finds(&mut store, rt.alloc(), "a", &[1, 2]));
    assert!(rt; finds(&mut store, rt.alloc(), "b", &[4]));
    assert!(rt; misses(&mut store, rt.alloc(), "c"));
    assert_eq!(rt; store.faults(), 0);
    Ok(())
}

#[test]
fn a_store_in_memory_fails_at_the_chosen_calls(rt: HostRuntime) -> Result<(), Fail> {
    let mut store = two_files(rt.alloc(), vec![in rt.alloc(); 1]?)?;
    assert!(rt; matches!(store.read(rt.alloc(), "b", 2), Err(StoreError::Failed)));
    assert_eq!(rt; store.faults(), 1);
    assert!(rt; finds(&mut store, rt.alloc(), "b", &[4]));
    assert_eq!(rt; store.faults(), 1);
    Ok(())
}

#[test]
fn a_sink_in_memory_takes_pieces_until_its_room_is_used_up(rt: HostRuntime) -> Result<(), Fail> {
    let mut sink = MemSink::new(rt.alloc(), 2, 3, Vec::new(rt.alloc()))?;
    assert_eq!(rt; sink.put(b"abcd"), Ok(2));
    assert_eq!(rt; sink.put(b"cd"), Ok(1));
    assert_eq!(rt; sink.put(b"d"), Err(Failed));
    assert_eq!(rt; sink.put(b""), Ok(0));
    assert_eq!(rt; sink.bytes(), b"abc".as_slice());
    assert_eq!(rt; sink.faults(), 1);
    Ok(())
}

#[test]
fn a_sink_in_memory_fails_at_the_chosen_puts(rt: HostRuntime) -> Result<(), Fail> {
    let mut sink = MemSink::new(rt.alloc(), 9, 9, vec![in rt.alloc(); 1]?)?;
    assert_eq!(rt; sink.put(b"a"), Err(Failed));
    assert_eq!(rt; sink.put(b"a"), Ok(1));
    assert_eq!(rt; sink.bytes(), b"a".as_slice());
    assert_eq!(rt; sink.faults(), 1);
    Ok(())
}

#[test]
fn a_clock_of_steps_moves_by_naps_alone(rt: HostRuntime) {
    let clock = StepClock::new(5);
    assert_eq!(rt; shared_reading(&clock), 5);
    clock.nap(10);
    assert_eq!(rt; clock.now(), 15);
    clock.nap(u64::MAX);
    clock.nap(1);
    assert_eq!(rt; clock.now(), u64::MAX);
}

#[test]
fn a_clock_of_a_list_gives_its_readings_in_turn_and_repeats_the_last(
    rt: HostRuntime,
) -> Result<(), Fail> {
    let clock = ListClock::new(vec![in rt.alloc(); 7, 3, 10_000_000]?);
    OpenGate::new().local(0, 0);
    for wanted in [7, 3, 10_000_000, 10_000_000, 10_000_000] {
        clock.nap(7);
        assert_eq!(rt; shared_reading(&clock), wanted);
    }
    Ok(())
}

#[test]
fn a_store_of_files_reads_the_first_bytes_of_a_file(rt: HostRuntime) -> Result<(), Fail> {
    fs::write(&rt, "conformance.tmp", b"abc".as_slice())?;
    let mut store = FileStore::new(&rt);
    assert!(rt; finds(&mut store, rt.alloc(), "conformance.tmp", b"ab"));
    assert!(rt; misses(&mut store, rt.alloc(), "missing"));
    assert_eq!(rt; store.faults(), 0);
    assert!(rt; matches!(store.read(rt.alloc(), ".", 2), Err(StoreError::Failed)));
    assert_eq!(rt; store.faults(), 1);
    fs::remove_file(&rt, "conformance.tmp")?;
    Ok(())
}

#[test]
fn a_sink_of_std_fails_where_its_writer_takes_nothing(rt: HostRuntime) {
    let mut output = StdSink::new(rt.stdout());
    assert_eq!(rt; output.put(b"a line\n"), Ok(7));
    assert_eq!(rt; output.faults(), 0);
    let mut no_room = [0u8; 1];
    let mut full = StdSink::new(no_room.as_mut_slice());
    assert_eq!(rt; full.put(b"ab"), Ok(1));
    assert_eq!(rt; full.put(b"b"), Err(Failed));
    assert_eq!(rt; full.faults(), 1);
}

#[test]
fn a_real_clock_passes_the_time_of_a_nap(rt: HostRuntime) {
    let clock = RealClock::new(&rt);
    let before = shared_reading(&clock);
    clock.nap(0);
    assert!(rt; clock.now().saturating_sub(before) >= 50_000);
}

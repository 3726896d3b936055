//! The schedule of carriers on histories whose deques are known: by the plain program of `plain_schedule`.

use crate::plain_schedule::{Look, Schedule};
use history::read;
use items::NoMemory;
use std::alloc::Global;
use std::test::Fail;

/// A history with what can be seen of its program, and what it has to give.
#[derive(Clone, Copy)]
struct Row<'a> {
    trace: &'a [u8],
    /// What can be seen before the first entry and after each, by the letters of `Look`, with a space between.
    looks: &'a [u8],
    deadlines: &'a [u64],
    /// How many of its entries may stand there, from the first on.
    legal: usize,
    /// The deques after them: each ends with a slash.
    deques: &'a [u8],
}

// The part of a text between the spaces of numbers n - 1 and n.
fn word(text: &[u8], n: usize) -> &[u8] {
    let mut rest = text;
    for _ in 0..n {
        let end = rest
            .iter()
            .position(|byte| *byte == b' ')
            .unwrap_or(rest.len());
        rest = rest.get(end + 1..).unwrap_or(&[]);
    }
    let end = rest
        .iter()
        .position(|byte| *byte == b' ')
        .unwrap_or(rest.len());
    rest.split_at(end).0
}

fn look_at<'a>(row: Row<'a>, n: usize) -> Look<'a> {
    Look {
        letters: word(row.looks, n),
        deadlines: row.deadlines,
    }
}

// The deques as a text, each thread by one digit.
fn text_of(alloc: Global, deques: &[Vec<u32>]) -> Result<Vec<u8>, NoMemory> {
    let mut text = Vec::new(alloc);
    for deque in deques {
        for t in deque {
            text.push(b'0' + (*t % 10) as u8)?;
        }
        text.push(b'/')?;
    }
    Ok(text)
}

// How many entries may stand where they stand, from the first on, and the deques after them.
fn played(alloc: Global, row: Row<'_>) -> Result<(usize, Vec<u8>), NoMemory> {
    if row.trace.len() > 1000 {
        return Err(NoMemory);
    }
    let (carriers, entries) = match read(alloc, row.trace) {
        Ok(found) => found,
        Err(_) => return Err(NoMemory),
    };
    let mut schedule = Schedule::new(alloc, carriers)?;
    let mut text = text_of(alloc, &schedule.deques)?;
    let mut legal = 0;
    for n in 0..entries.len() {
        if !schedule.enter(alloc, &entries[n], look_at(row, n), look_at(row, n + 1))? {
            break;
        }
        legal = n + 1;
        text = text_of(alloc, &schedule.deques)?;
    }
    Ok((legal, text))
}

// Main prints a number, and ends.
const PRINTS: Row<'static> = Row {
    trace: b"jvt-trace carriers 1\nM 0 0\nS 0 0 1 -\nS 0 0 2 -\nS 0 0 1 -\nU 0 0\nend 5\n",
    looks: b"r r r r d. d.",
    deadlines: &[],
    legal: 5,
    deques: b"/",
};

// The same where a thread steps that isn't mounted.
const STEPS_UNMOUNTED: Row<'static> = Row {
    trace: b"jvt-trace carriers 1\nM 0 0\nS 0 0 1 -\nS 0 1 2 -\nS 0 0 1 -\nU 0 0\nend 5\n",
    legal: 2,
    ..PRINTS
};

// Carrier 0 starts thread 1, which comes to its deque.
const STARTS: Row<'static> = Row {
    trace: b"jvt-trace carriers 2\nM 0 0\nS 0 0 1 -\nS 0 0 1 -\nend 3\n",
    looks: b"r r rn rr",
    deadlines: &[],
    legal: 3,
    deques: b"1//",
};

// Carrier 1, which is idle, takes it.
const TAKES: Row<'static> = Row {
    trace: b"jvt-trace carriers 2\nM 0 0\nS 0 0 1 -\nS 0 0 1 -\nM 1 1\nend 4\n",
    looks: b"r r rn rr rr",
    legal: 4,
    deques: b"//",
    ..STARTS
};

// Thread 1 calls System.exit, and nothing comes after it.
const EXITS: Row<'static> = Row {
    trace: b"jvt-trace carriers 2\nM 0 0\nS 0 0 1 -\nM 1 1\nS 1 1 1 -\nU 1 1\nend 5\n",
    looks: b"rn rn rr rr rr. rr.",
    legal: 4,
    deques: b"//",
    ..STARTS
};

// Threads 1 and 2 are parked until 300 and 200, and the clock moves to 500.
const TIME: Row<'static> = Row {
    trace: b"jvt-trace carriers 1\nM 0 0\nS 0 0 1 -\nS 0 0 1 -\nS 0 0 1 -\nU 0 0\nM 0 1\nS 0 1 1 -\nU 0 1\nM 0 2\nS 0 2 1 -\nU 0 2\nM 0 0\nC 0 500\nend 13\n",
    looks: b"rnn rnn rrn rrr rrr~ rrr rrr rpr rpr rpr rpp rpp rpp rrr",
    deadlines: &[u64::MAX, 300, 200],
    legal: 13,
    deques: b"21/",
};

// Thread 1 parks, and thread 0 unparks it before it is unmounted.
const UNPARKS: Row<'static> = Row {
    trace: b"jvt-trace carriers 2\nM 1 0\nS 1 0 1 -\nM 0 1\nS 0 1 1 -\nS 1 0 1 -\nU 0 1\nend 6\n",
    looks: b"rn rn rr rr rp rr rr",
    deadlines: &[],
    legal: 6,
    deques: b"1//",
};

// Thread 1 parks under a native frame, and can't be unmounted.
const PINNED: Row<'static> = Row {
    trace: b"jvt-trace carriers 2\nM 0 0\nS 0 0 1 -\nM 1 1\nS 1 1 1 -\nS 1 1 1 -\nU 1 1\nend 6\n",
    looks: b"rn rn rr rr rR rP rP",
    deadlines: &[],
    legal: 5,
    deques: b"//",
};

// Threads 1 and 2 wait to be notified, thread 1 until 50; time wakes it, thread 0 notifies the other, and leaves the monitor.
const NOTIFIES: Row<'static> = Row {
    trace: b"jvt-trace carriers 3\nM 0 0\nS 0 0 1 -\nS 0 0 1 -\nM 1 1\nM 2 2\nS 1 1 1 -\nS 2 2 1 -\nU 1 1\nU 2 2\nS 0 0 1 -\nC 2 60\nS 0 0 1 2\nS 0 0 1 -\nend 13\n",
    looks: b"rnn rnn rrn rrr rrr rrr rwr rww rww rww rww+ rew+ ree+ ree",
    deadlines: &[u64::MAX, 50],
    legal: 13,
    deques: b"1///",
};

// Then thread 1 is taken up, and comes too late, since thread 0 has taken the monitor again.
const COMES_LATE: Row<'static> = Row {
    trace: b"jvt-trace carriers 3\nM 0 0\nS 0 0 1 -\nS 0 0 1 -\nM 1 1\nM 2 2\nS 1 1 1 -\nS 2 2 1 -\nU 1 1\nU 2 2\nS 0 0 1 -\nC 2 60\nS 0 0 1 2\nS 0 0 1 -\nM 1 1\nS 0 0 1 -\nU 1 1\nend 16\n",
    looks: b"rnn rnn rrn rrr rrr rrr rwr rww rww rww rww+ rew+ ree+ ree ree ree+ ree+",
    legal: 16,
    deques: b"///",
    ..NOTIFIES
};

const ROWS: [Row<'static>; 10] = [
    PRINTS,
    STEPS_UNMOUNTED,
    STARTS,
    TAKES,
    EXITS,
    TIME,
    UNPARKS,
    PINNED,
    NOTIFIES,
    COMES_LATE,
];

#[test]
fn histories_leave_their_threads_in_these_deques(rt: HostRuntime) -> Result<(), Fail> {
    for row in &ROWS {
        let (legal, deques) = played(rt.alloc(), *row)?;
        assert_eq!(rt; legal, row.legal);
        assert!(rt; deques.as_slice() == row.deques);
    }
    Ok(())
}

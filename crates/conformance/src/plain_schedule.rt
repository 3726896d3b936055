//! What carriers, run deques and the lists of one monitor hold after each entry of a history, by a plain program over lists. It knows of
//! the Java program only what is told of its threads after each entry, and shares nothing with the definitions or the machine.

use history::{Entry, What};
use items::NoMemory;
use std::alloc::Global;

/// Where a thread is.
#[derive(Clone, Copy, PartialEq, Eq)]
pub(crate) enum Spot {
    /// No thread has this number yet.
    Absent,
    /// It was made, and not started.
    Unstarted,
    /// It may go on.
    Runs,
    /// It is parked, asleep, or waits for the end of another thread.
    Blocked,
    /// It waits to be notified.
    Waits,
    /// It waits to take the monitor.
    Enters,
    /// It has ended.
    Done,
}

/// What can be seen of the program after an entry: a letter for each thread, and signs for the whole.
///
/// | Letter | Thread | Sign | Program |
/// |---|---|---|---|
/// | `n` | made, and not started | `+` | a thread owns the monitor |
/// | `r` | may go on | `~` | the last step was a yield |
/// | `p` | blocked | `.` | it has ended |
/// | `w` | in the wait list | | |
/// | `e` | in the entry list | | |
/// | `d` | done | | |
/// | `P`, `R` | the same as `p`, `r`, and pinned | | |
#[derive(Clone, Copy)]
pub(crate) struct Look<'a> {
    pub(crate) letters: &'a [u8],
    /// The time at which each thread's wait ends.
    pub(crate) deadlines: &'a [u64],
}

impl Look<'_> {
    fn letter(&self, t: u32) -> u8 {
        match self.letters.get(t as usize) {
            Some(letter) => *letter,
            None => b'-',
        }
    }

    fn spot(&self, t: u32) -> Spot {
        match self.letter(t) {
            b'n' => Spot::Unstarted,
            b'r' | b'R' => Spot::Runs,
            b'p' | b'P' => Spot::Blocked,
            b'w' => Spot::Waits,
            b'e' => Spot::Enters,
            b'd' => Spot::Done,
            _ => Spot::Absent,
        }
    }

    fn is_pinned(&self, t: u32) -> bool {
        matches!(self.letter(t), b'P' | b'R')
    }

    fn has(&self, sign: u8) -> bool {
        self.letters.iter().any(|letter| *letter == sign)
    }

    fn is_live(&self, t: u32) -> bool {
        !matches!(self.spot(t), Spot::Absent | Spot::Unstarted | Spot::Done)
    }

    fn is_enabled(&self, t: u32) -> bool {
        match self.spot(t) {
            Spot::Runs => !self.has(b'.'),
            Spot::Enters => !self.has(b'.') && !self.has(b'+'),
            _ => false,
        }
    }

    fn deadline(&self, t: u32) -> u64 {
        match self.deadlines.get(t as usize) {
            Some(deadline) => *deadline,
            None => u64::MAX,
        }
    }
}

/// What is kept of a thread while it is mounted.
#[derive(Clone, Copy)]
struct OnCarrier {
    thread: u32,
    /// Its carrier has to unmount it before anything else.
    owes: bool,
    /// There was a time since its mount at which it couldn't go on.
    was_off: bool,
}

/// Carriers, deques, and the lists of the monitor.
#[derive(Drop)]
pub(crate) struct Schedule {
    mounted: Vec<Option<OnCarrier>>,
    pub(crate) deques: Vec<Vec<u32>>,
    pub(crate) wait_list: Vec<u32>,
    pub(crate) entry_list: Vec<u32>,
    /// The carrier of the last entry.
    last: Option<u32>,
}

// The thread of a carrier that has one mounted.
fn mounted_on(carrier: Option<&Option<OnCarrier>>) -> Option<OnCarrier> {
    match carrier {
        Some(Some(on)) => Some(*on),
        _ => None,
    }
}

// The threads of a list that are at a place.
fn those_at(alloc: Global, list: &[u32], spot: Spot, look: Look<'_>) -> Result<Vec<u32>, NoMemory> {
    let mut found = Vec::new(alloc);
    for t in list {
        if look.spot(*t) == spot {
            found.push(*t)?;
        }
    }
    Ok(found)
}

// The number of a length; none is longer than numbers of 32 bits reach.
fn number(length: usize) -> u32 {
    u32::try_from(length).unwrap_or(u32::MAX)
}

impl Schedule {
    /// At first thread 0 is in the deque of carrier 0, and all else is empty.
    pub(crate) fn new(alloc: Global, carriers: u32) -> Result<Self, NoMemory> {
        let mut schedule = Schedule {
            mounted: Vec::new(alloc),
            deques: Vec::new(alloc),
            wait_list: Vec::new(alloc),
            entry_list: Vec::new(alloc),
            last: None,
        };
        for _ in 0..carriers {
            schedule.mounted.push(None)?;
            schedule.deques.push(Vec::new(alloc))?;
        }
        schedule.put(0, 0)?;
        Ok(schedule)
    }

    // A thread comes last to the deque of a carrier.
    fn put(&mut self, c: u32, t: u32) -> Result<(), NoMemory> {
        if let Some(deque) = self.deques.get_mut(c as usize) {
            deque.push(t)?;
        }
        Ok(())
    }

    fn on(&self, c: u32) -> Option<OnCarrier> {
        mounted_on(self.mounted.get(c as usize))
    }

    fn set(&mut self, c: u32, on: Option<OnCarrier>) {
        if let Some(carrier) = self.mounted.get_mut(c as usize) {
            *carrier = on;
        }
    }

    // Whether a thread is mounted or in a deque.
    fn is_placed(&self, t: u32) -> bool {
        let is_mounted = self
            .mounted
            .iter()
            .any(|on| matches!(on, Some(on) if on.thread == t));
        is_mounted
            || self
                .deques
                .iter()
                .any(|deque| deque.iter().any(|u| *u == t))
    }

    // Takes the first thread of the first deque that isn't empty, counting up from a carrier's own and round.
    fn take(&mut self, c: u32) -> Option<u32> {
        let count = self.deques.len();
        for step in 0..count {
            let k = (c as usize + step) % count;
            if let Some(deque) = self.deques.get_mut(k) {
                if !deque.is_empty() {
                    return Some(deque.remove(0));
                }
            }
        }
        None
    }

    // Mount: an idle carrier takes what it finds.
    fn mount(&mut self, c: u32, t: u32, look: Look<'_>) -> bool {
        if self.on(c).is_some() || look.has(b'.') {
            return false;
        }
        let taken = self.take(c);
        let on = OnCarrier {
            thread: t,
            owes: false,
            was_off: !look.is_enabled(t),
        };
        self.set(c, Some(on));
        taken == Some(t)
    }

    // Unmount: of a thread that has to leave, or that came too late for the monitor; after the end, of the one that ended last.
    fn unmount(&mut self, c: u32, t: u32, look: Look<'_>) -> Result<bool, NoMemory> {
        let Some(on) = self.on(c) else {
            return Ok(false);
        };
        let is_late = look.spot(t) == Spot::Enters && on.was_off && !look.is_pinned(t);
        let may = if look.has(b'.') {
            look.spot(t) == Spot::Done && self.last == Some(c)
        } else {
            on.owes || is_late
        };
        self.set(c, None);
        if look.is_enabled(t) {
            self.put(c, t)?;
        }
        Ok(may && on.thread == t)
    }

    // Step: of a mounted thread that may go on, unless it has to leave.
    fn step(
        &mut self,
        alloc: Global,
        c: u32,
        t: u32,
        pick: Option<u32>,
        before: Look<'_>,
        after: Look<'_>,
    ) -> Result<bool, NoMemory> {
        let Some(on) = self.on(c) else {
            return Ok(false);
        };
        let is_pick = pick.is_none() || self.wait_list.first().copied() == pick;
        let may = on.thread == t && !on.owes && before.is_enabled(t) && is_pick;
        let order = beginning_with(alloc, &self.wait_list, after)?;
        self.change(alloc, c, &numbers(alloc, after)?, &order, before, after)?;
        let leaves = !after.is_pinned(t) && (after.has(b'~') || !after.is_enabled(t));
        let owes = after.spot(t) == Spot::Done || leaves;
        self.set(c, Some(OnCarrier { owes, ..on }));
        Ok(may)
    }

    // Clock: those whose time has come, by their deadlines.
    fn tick(
        &mut self,
        alloc: Global,
        c: u32,
        before: Look<'_>,
        after: Look<'_>,
    ) -> Result<bool, NoMemory> {
        let order = by_deadline(alloc, before, after)?;
        self.change(alloc, c, &order, &order, before, after)?;
        Ok(!before.has(b'.'))
    }

    // What a step or a tick does to the lists of the monitor, and then to the deque of its carrier.
    fn change(
        &mut self,
        alloc: Global,
        c: u32,
        order: &[u32],
        coming: &[u32],
        before: Look<'_>,
        after: Look<'_>,
    ) -> Result<(), NoMemory> {
        self.wait_list = updated(alloc, &self.wait_list, coming, Spot::Waits, before, after)?;
        self.entry_list = updated(alloc, &self.entry_list, coming, Spot::Enters, before, after)?;
        for t in order {
            if !self.is_placed(*t) && self.is_to_run(*t, before, after) {
                self.put(c, *t)?;
            }
        }
        self.note_off(after);
        Ok(())
    }

    // Whether an entry has a thread run: it started it, made it enabled, woke it while nobody owns the monitor, or freed the monitor for
    // the first in line.
    fn is_to_run(&self, t: u32, before: Look<'_>, after: Look<'_>) -> bool {
        let is_started = !before.is_live(t) && after.is_live(t);
        let is_made_enabled = !before.is_enabled(t) && after.is_enabled(t);
        let is_in_line = after.spot(t) == Spot::Enters;
        let is_woken = before.spot(t) == Spot::Waits && is_in_line && !after.has(b'+');
        let is_freed = before.has(b'+') && !after.has(b'+');
        let is_next = is_in_line && is_freed && self.entry_list.first() == Some(&t);
        is_started || (is_made_enabled && !is_in_line) || is_woken || is_next
    }

    // Notes of each mounted thread whether it can't go on.
    fn note_off(&mut self, after: Look<'_>) {
        for c in 0..number(self.mounted.len()) {
            if let Some(on) = self.on(c) {
                let was_off = on.was_off || !after.is_enabled(on.thread);
                self.set(c, Some(OnCarrier { was_off, ..on }));
            }
        }
    }

    /// What an entry does, and whether it may stand here.
    pub(crate) fn enter(
        &mut self,
        alloc: Global,
        entry: &Entry,
        before: Look<'_>,
        after: Look<'_>,
    ) -> Result<bool, NoMemory> {
        let c = entry.carrier;
        let may = match entry.what {
            What::Mount(t) => self.mount(c, t, before),
            What::Unmount(t) => self.unmount(c, t, before)?,
            What::Step { thread, pick, .. } => self.step(alloc, c, thread, pick, before, after)?,
            What::Clock(_) => self.tick(alloc, c, before, after)?,
        };
        self.last = Some(c);
        Ok(may && (c as usize) < self.mounted.len())
    }
}

// The numbers of all threads.
fn numbers(alloc: Global, look: Look<'_>) -> Result<Vec<u32>, NoMemory> {
    let mut all = Vec::new(alloc);
    for t in 0..number(look.letters.len()) {
        all.push(t)?;
    }
    Ok(all)
}

// All threads: first these, then the others by number.
fn beginning_with(alloc: Global, first: &[u32], look: Look<'_>) -> Result<Vec<u32>, NoMemory> {
    let mut all = Vec::new(alloc);
    all.extend_from_slice(first)?;
    for t in 0..number(look.letters.len()) {
        if !first.iter().any(|u| *u == t) {
            all.push(t)?;
        }
    }
    Ok(all)
}

// All threads by their deadlines before the entry, equal ones by number.
fn by_deadline(alloc: Global, before: Look<'_>, after: Look<'_>) -> Result<Vec<u32>, NoMemory> {
    let mut all = numbers(alloc, after)?;
    all.as_mut_slice()
        .sort_by_key(alloc, |t| before.deadline(*t))?;
    Ok(all)
}

// A list after an entry: those who stay in it, then those who come to it.
fn updated(
    alloc: Global,
    list: &[u32],
    coming: &[u32],
    spot: Spot,
    before: Look<'_>,
    after: Look<'_>,
) -> Result<Vec<u32>, NoMemory> {
    let mut updated = those_at(alloc, list, spot, after)?;
    for t in coming {
        if after.spot(*t) == spot && before.spot(*t) != spot {
            updated.push(*t)?;
        }
    }
    Ok(updated)
}

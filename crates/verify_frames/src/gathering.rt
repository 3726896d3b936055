//! Gathers what the frames of exception handlers want of local variables, along their paths. The table has no contract until it
//! is tested, and one that fails the test isn't used.

ghost use Rattle.std.specs.Prelude.{IfOk, IfSome};
ghost use Rattle.verify_frames.specs.Entries.{AreRising};
ghost use Rattle.verify_frames.specs.Wanted.{IsGathered};

use crate::entries::entry_at;
use crate::frame_paths::Entry;
use crate::pc_sets::{PcSet, Span, covers, row_span};
use crate::wanted::{Slot, Want, Wanted, are_wanted, have_pcs, set_at};
use crate::watch::is_same_type;
use class_model::Row;
use items::NoMemory;
use stack_maps::VType;
use std::alloc::Global;
use type_paths::Paths;

// How many ranges may be joined in all. After that, a joined set is one range.
const MOST_JOINED: usize = 1_048_576;

// The sets of pcs, the first of them empty, and how many ranges may still be joined.
#[derive(Drop)]
struct Sets {
    made: Vec<PcSet>,
    left: usize,
}

// The least range with both.
fn hull(a: Span, b: Span) -> Span {
    Span {
        from: a.from.min(b.from),
        until: a.until.max(b.until),
    }
}

// Adds a range that begins in or after the last one; the two become one if they touch.
fn append(spans: &mut Vec<Span>, span: Span) -> Result<(), NoMemory> {
    if let Some(last) = spans.last_mut() {
        if span.from <= last.until {
            *last = hull(*last, span);
            return Ok(());
        }
    }
    spans.push(span)?;
    Ok(())
}

// The ranges of both, in order.
fn union(alloc: Global, a: &[Span], b: &[Span]) -> Result<Vec<Span>, NoMemory> {
    let mut both = Vec::with_capacity(alloc, a.len().saturating_add(b.len()))?;
    both.extend_from_slice(a)?;
    both.extend_from_slice(b)?;
    both.sort_by_key(|span| span.from)?;
    let mut spans = Vec::new(alloc);
    for span in both.iter() {
        append(&mut spans, *span)?;
    }
    Ok(spans)
}

// The least range with all of these.
fn hull_of(spans: &[Span]) -> Span {
    let mut all = Span {
        from: u32::MAX,
        until: 0,
    };
    for span in spans {
        all = hull(all, *span);
    }
    all
}

impl Sets {
    // The empty set.
    fn new(alloc: Global) -> Result<Self, NoMemory> {
        let mut made = Vec::new(alloc);
        let spans = Vec::new(alloc);
        made.push(PcSet { spans })?;
        Ok(Sets {
            made,
            left: MOST_JOINED,
        })
    }

    // Adds a set: its number.
    fn push(&mut self, spans: Vec<Span>) -> Result<usize, NoMemory> {
        let n = self.made.len();
        self.made.push(PcSet { spans })?;
        Ok(n)
    }

    // Adds a set of one range.
    fn push_one(&mut self, alloc: Global, span: Span) -> Result<usize, NoMemory> {
        let mut spans = Vec::new(alloc);
        spans.push(span)?;
        self.push(spans)
    }

    // The number of a set with the pcs of both.
    fn joined(&mut self, alloc: Global, a: usize, b: usize) -> Result<usize, NoMemory> {
        let one = set_at(&self.made, a);
        let other = set_at(&self.made, b);
        if a == b || covers(one, other) {
            return Ok(a);
        }
        if covers(other, one) {
            return Ok(b);
        }
        let count = one.len().saturating_add(other.len());
        if count > self.left {
            let span = hull(hull_of(one), hull_of(other));
            return self.push_one(alloc, span);
        }
        let spans = union(alloc, one, other)?;
        self.left -= count;
        self.push(spans)
    }

    // Adds the pcs of a row to the set of a node, which no other node has yet: the set's number.
    fn with_row(&mut self, alloc: Global, set: usize, row: &Row) -> Result<usize, NoMemory> {
        if set == 0 {
            return self.push_one(alloc, row_span(row));
        }
        if let Some(own) = self.made.get_mut(set) {
            append(&mut own.spans, row_span(row))?;
        }
        Ok(set)
    }
}

// A number above those of all nodes of local variables.
fn node_count(entries: &[Entry]) -> usize {
    let mut count = 0;
    for entry in entries {
        count = entry.locals.saturating_add(1).max(count);
    }
    count
}

// Gives each node at which the frame of a row's handler ends the pcs of its rows.
fn mark_rows(
    alloc: Global,
    sets: &mut Sets,
    nodes: &mut [usize],
    entries: &[Entry],
    rows: &[Row],
) -> Result<(), NoMemory>
    requires { AreRising entries.now }
{
    for row in rows {
        if let Some(entry) = entry_at(entries, u32::from(row.handler)) {
            let n = entry.locals;
            if n < nodes.len() {
                nodes[n] = sets.with_row(alloc, nodes[n], row)?;
            }
        }
    }
    Ok(())
}

// Adds the pcs of each node to those of the node below it.
fn mark_below(
    alloc: Global,
    sets: &mut Sets,
    nodes: &mut [usize],
    paths: &Paths,
) -> Result<(), NoMemory> {
    for above in 0..nodes.len() {
        let n = nodes.len() - 1 - above;
        if let Some(top) = paths.top(n) {
            let below = top.below as usize;
            if below < n {
                nodes[below] = sets.joined(alloc, nodes[below], nodes[n])?;
            }
        }
    }
    Ok(())
}

// For each node of local variables the set of the pcs at which a handler may ask for its type.
fn sets_of(
    alloc: Global,
    sets: &mut Sets,
    paths: &Paths,
    entries: &[Entry],
    rows: &[Row],
) -> Result<Vec<usize>, NoMemory>
    requires { AreRising entries.now }
{
    let mut nodes = Vec::new(alloc);
    nodes.resize(node_count(entries), 0)?;
    mark_rows(alloc, sets, nodes.as_mut_slice(), entries, rows)?;
    mark_below(alloc, sets, nodes.as_mut_slice(), paths)?;
    Ok(nodes)
}

impl Slot {
    // Adds a type that is wanted at the pcs of a set.
    fn add(
        &mut self,
        alloc: Global,
        sets: &mut Sets,
        item: VType,
        set: usize,
    ) -> Result<(), NoMemory> {
        for want in self.wants.iter_mut() {
            if is_same_type(want.item, item) {
                want.pcs = sets.joined(alloc, want.pcs, set)?;
                return Ok(());
            }
        }
        self.wants.push(Want { item, pcs: set })?;
        Ok(())
    }
}

// Adds a type that is wanted of a slot at the pcs of a set.
fn add_want(
    alloc: Global,
    sets: &mut Sets,
    slots: &mut Vec<Slot>,
    slot: usize,
    item: VType,
    set: usize,
) -> Result<(), NoMemory> {
    for _ in slots.len()..slot.saturating_add(1) {
        let wants = Vec::new(alloc);
        slots.push(Slot { wants })?;
    }
    match slots.get_mut(slot) {
        Some(slot) => slot.add(alloc, sets, item, set),
        None => Ok(()),
    }
}

// Adds the last type of the path of a node, if it has one and pcs.
fn add_node(
    alloc: Global,
    sets: &mut Sets,
    slots: &mut Vec<Slot>,
    paths: &Paths,
    n: usize,
    set: usize,
) -> Result<(), NoMemory> {
    if set == 0 {
        return Ok(());
    }
    let Some(top) = paths.top(n) else {
        return Ok(());
    };
    let Some(item) = top.item else {
        return Ok(());
    };
    match paths.slots(top.below as usize) {
        Some(slot) => add_want(alloc, sets, slots, slot as usize, item, set),
        None => Ok(()),
    }
}

// What the nodes with these sets want.
fn wants_of(alloc: Global, sets: Sets, paths: &Paths, nodes: &[usize]) -> Result<Wanted, NoMemory> {
    let mut sets = sets;
    let mut slots = Vec::new(alloc);
    for (n, set) in nodes.iter().enumerate() {
        add_node(alloc, &mut sets, &mut slots, paths, n, *set)?;
    }
    Ok(Wanted {
        sets: sets.made,
        slots,
    })
}

/// What the frames of the handlers of these rows, which begin in order, want of local variables. `None`: not found.
pub fn gathered(
    alloc: Global,
    paths: &Paths,
    entries: &[Entry],
    rows: &[Row],
) -> Result<Option<Wanted>, NoMemory>
    requires { AreRising entries.now }
    ensures { IfOk result (λ o. IfSome o (IsGathered paths.now entries.now rows.now)) }
{
    let mut sets = Sets::new(alloc)?;
    let nodes = sets_of(alloc, &mut sets, paths, entries, rows)?;
    let wanted = wants_of(alloc, sets, paths, &nodes)?;
    if !have_pcs(&wanted.sets, &nodes, entries, rows) {
        return Ok(None);
    }
    if !are_wanted(paths, &nodes, &wanted) {
        return Ok(None);
    }
    Ok(Some(wanted))
}

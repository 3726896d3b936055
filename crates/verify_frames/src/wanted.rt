//! What the frames of exception handlers want of local variables, slot by slot. So a store is compared with what is wanted of its
//! local variable, and not with all frames.

ghost use Rattle.std.specs.Prelude.{◌≡◌, ◌∷◌, [], MatchBool};
ghost use Rattle.std.specs.List.{All};
ghost use Rattle.verify_frames.specs.Entries.{AreRising};
ghost use Rattle.verify_frames.specs.PcSets.{Covers};
ghost use Rattle.verify_frames.specs.Wanted as spec;
ghost use Rattle.verify_frames.specs.Wanted.{HasPcs};

use crate::entries::entry_at;
use crate::frame_paths::Entry;
use crate::pc_sets::{PcSet, Span, covers, lies_in, meet, row_span};
use crate::watch::is_same_type;
use class_model::Row;
use link_model::Lookups;
use stack_maps::VType;
use type_paths::Paths;
use verify_types::assignable;

/// A type that frames of handlers want of a slot, and the number of a set that has all pcs at which they do.
#[derive(Clone, Copy)]
pub struct Want {
    pub item: VType,
    pub pcs: usize,
}

/// What is wanted of a slot.
#[derive(Drop)]
pub struct Slot {
    pub wants: Vec<Want>,
}

/// What is wanted of each slot, with the sets of pcs by number, which wants can share.
#[derive(Drop)]
pub struct Wanted {
    pub sets: Vec<PcSet>,
    pub slots: Vec<Slot>,
}

/// The set of a number; no pcs where there is none.
pub fn set_at(sets: &[PcSet], n: usize) -> &[Span]
    ensures { result.now ≡ spec.set_at sets.now n }
{
    match sets.get(n) {
        Some(set) => &set.spans,
        None => &[],
    }
}

// The pcs of a node, by the number of its set.
fn pcs_of<'a>(sets: &'a [PcSet], nodes: &[usize], n: usize) -> &'a [Span]
    ensures { result.now ≡ spec.pcs_of sets.now nodes.now n }
{
    match nodes.get(n) {
        Some(set) => set_at(sets, *set),
        None => &[],
    }
}

// Whether the type that is wanted is this one, at these pcs or more.
fn is_the_type(sets: &[PcSet], want: Want, item: VType, pcs: &[Span]) -> bool
    ensures { MatchBool result (spec.Serves sets.now (want ∷ []) item pcs.now) (Unit {0}) }
{
    if !is_same_type(want.item, item) {
        return false;
    }
    if !covers(set_at(sets, want.pcs), pcs) {
        return false;
    }
    true
}

// Whether one of these is the type, at these pcs or more.
fn serve(sets: &[PcSet], wants: &[Want], item: VType, pcs: &[Span]) -> bool
    ensures { MatchBool result (spec.Serves sets.now wants.now item pcs.now) (Unit {0}) }
{
    let mut rest = wants;
    while let Some((want, behind)) = rest.split_first() {
        if is_the_type(sets, *want, item, pcs) {
            return true;
        }
        rest = behind;
    }
    false
}

impl Wanted {
    // What is wanted of a slot.
    fn wants_at(&self, slot: usize) -> &[Want]
        ensures { result.now ≡ spec.wants_at self.now slot }
    {
        match self.slots.get(slot) {
            Some(slot) => &slot.wants,
            None => &[],
        }
    }

    /// Whether a type is assignable to all that is wanted of a slot at these pcs.
    pub fn accepts<L: Lookups>(&self, w: &L, from: u32, until: u32, slot: usize, t: VType) -> bool
        ensures { result ≡ spec.accepts (L.world w.now) self.now from until slot t }
    {
        self.wants_at(slot).iter().all(|x| assignable(w, t, x.item)
            || !meet(set_at(&self.sets, x.pcs), from, until))
    }
}

// Whether the last type of the path of a node is wanted at its pcs, if it has some, and those of the node below are no fewer.
fn is_wanted_at(paths: &Paths, nodes: &[usize], wanted: &Wanted, n: usize) -> bool
    ensures { MatchBool result (spec.IsWantedAt paths.now nodes.now wanted.now n) (Unit {0}) }
{
    let pcs = pcs_of(&wanted.sets, nodes, n);
    if pcs.is_empty() {
        return true;
    }
    let Some(top) = paths.top(n) else {
        return true;
    };
    let Some(item) = top.item else {
        return false;
    };
    let below = top.below as usize;
    let Some(slot) = paths.slots(below) else {
        return false;
    };
    if !covers(pcs_of(&wanted.sets, nodes, below), pcs) {
        return false;
    }
    if !serve(&wanted.sets, wanted.wants_at(slot as usize), item, pcs) {
        return false;
    }
    true
}

/// Whether what the nodes with these sets of pcs have is wanted at them.
pub fn are_wanted(paths: &Paths, nodes: &[usize], wanted: &Wanted) -> bool
    ensures { MatchBool result (spec.AreWanted paths.now nodes.now wanted.now) (Unit {0}) }
{
    for n in 0..nodes.len() {
        if !is_wanted_at(paths, nodes, wanted, n) {
            return false;
        }
    }
    true
}

// Whether the node of the frame of a row's handler has its pcs, if there is one.
fn has_pcs(sets: &[PcSet], nodes: &[usize], entries: &[Entry], row: &Row) -> bool
    requires { AreRising entries.now }
    ensures { MatchBool result (HasPcs sets.now nodes.now entries.now row.now) (Unit {0}) }
{
    match entry_at(entries, row.handler as u32) {
        Some(entry) => lies_in(row_span(row), pcs_of(sets, nodes, entry.locals)),
        None => true,
    }
}

/// Whether the nodes of the frames of all handlers have the pcs of their rows.
pub fn have_pcs(sets: &[PcSet], nodes: &[usize], entries: &[Entry], rows: &[Row]) -> bool
    requires { AreRising entries.now }
    ensures { MatchBool result (All (HasPcs sets.now nodes.now entries.now) rows.now) (Unit {0}) }
{
    for row in rows {
        if !has_pcs(sets, nodes, entries, row) {
            return false;
        }
    }
    true
}

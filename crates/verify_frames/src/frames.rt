//! The frames of a method's stack map (JVMS 4.7.4), each at its pc.

ghost use Rattle.std.specs.Prelude.{◌≡◌, IfOk, IfSome, MatchBool, None, map};
ghost use Rattle.std.specs.List.{All};
ghost use Rattle.std.specs.Option.{option_map};
ghost use Rattle.stack_maps.specs.Changes.{made_whole};
ghost use Rattle.verify_types.specs.Environment.{MapFrame, map_frame};
ghost use Rattle.verify_frames.specs.Entries.{Rises};
ghost use Rattle.verify_frames.specs.StackMaps.{pc_of};
ghost use Rattle.verify_frames.specs.Frames.{frame_at, frame_in, stray_frame};
ghost use Rattle.verify_frames.specs.Near.{IsNear};
ghost use Rattle.verify_frames.specs.KnownStates.{IsShared};
ghost use Rattle.verify_frames.specs.Takes.{Takes};
ghost use Rattle.verify_frames.specs.Wanted.{IsAsked};

use crate::entries::{entry_at, stray_entry};
use crate::flags::{flags_of, have_same_flag};
use crate::frame::Frame;
use crate::frame_paths::{Entry, entries_of, is_known};
use crate::gathering::gathered;
use crate::near::moved;
use crate::overwritten::Like;
use crate::skips::skips_of;
use crate::takes::takes_all;
use crate::wanted::Wanted;
use class_model::Row;
use items::NoMemory;
use link_model::{Lookups, MethodInfo};
use stack_maps::{FrameChange, VType};
use std::alloc::Global;
use std::marker::Model;
use type_paths::Paths;
use verify_instructions::is_constructor;

// With fewer local variables, no skips are made.
const LONG: u16 = 64;

/// The frames of a stack map, by rising pc. They take memory in proportion to its bytes.
#[derive(Drop)]
pub struct Frames {
    paths: Paths,
    is_constructor: bool,
    max_locals: u16,
    entries: Vec<Entry>,
    // In a constructor, for each node: whether the uninitialized object is on its path.
    flags: Vec<bool>,
    // For each node its skip, where there are many local variables.
    skips: Vec<u32>,
}

impl Model for Frames {
    ghost use Rattle.std.specs.Prelude.{List};
    ghost use Rattle.verify_types.specs.Environment.{MapFrame};
    ghost use Rattle.verify_frames.specs.Frames.{frames_in, AreKept};

    ghost Value = { List MapFrame };

    ghost view = { frames_in };

    ghost invariant = { AreKept };
}

impl Frames {
    /// The frames with these changes, the first of them after local variables of these types.
    pub fn new<L: Lookups>(
        alloc: Global,
        w: &L,
        m: &MethodInfo,
        max_locals: u16,
        first: &[VType],
        changes: &[(u32, FrameChange)],
    ) -> Result<Self, NoMemory>
        requires { Rises pc_of 0 (made_whole first.now changes.now) }
        ensures { IfOk result (λ frames. frames ≡
            map (map_frame (L.world w.now) m.now max_locals) (made_whole first.now changes.now)) }
    {
        let mut paths = Paths::new(alloc);
        let entries = entries_of(alloc, &mut paths, w, m.class, first, changes)?;
        let is_constructor = is_constructor(m);
        let flags = flags_of(alloc, &paths, is_constructor)?;
        let skips = skips_of(alloc, &paths, max_locals >= LONG)?;
        Ok(Frames {
            paths,
            is_constructor,
            max_locals,
            entries,
            flags,
            skips,
        })
    }

    /// The frame at a pc. `None`: there is none.
    pub fn at(&self, pc: u32) -> Option<Frame<'_>>
        ensures { option_map frame_in result ≡ frame_at pc self.now }
    {
        match entry_at(&self.entries, pc) {
            Some(entry) => Some(Frame {
                paths: &self.paths,
                is_constructor: self.is_constructor,
                max_locals: self.max_locals,
                entry,
            }),
            None => None,
        }
    }

    /// A number that frames with the same local variables share; 0 where there is no frame. It says nothing else.
    pub fn group(&self, pc: u32) -> usize
        ensures none { frame_at pc self.now ≡ None → result ≡ 0 }
    {
        match self.at(pc) {
            Some(frame) => frame.entry.locals,
            None => 0,
        }
    }

    /// The frame at a pc, where it has the local variables of the frame at another. `None`: it hasn't, or one of them isn't there.
    pub fn shared(&self, like: u32, pc: u32) -> Option<Frame<'_>>
        ensures { IfSome result (IsShared self.now like pc) }
    {
        let Some(other) = entry_at(&self.entries, like) else {
            return None;
        };
        let Some(entry) = entry_at(&self.entries, pc) else {
            return None;
        };
        if entry.locals != other.locals {
            return None;
        }
        Some(Frame {
            paths: &self.paths,
            is_constructor: self.is_constructor,
            max_locals: self.max_locals,
            entry,
        })
    }

    /// How a state that is like a frame is like the one at a pc, if the two differ in few local variables. `None`: not found.
    pub fn near(&self, alloc: Global, like: &Like, pc: u32) -> Result<Option<Like>, NoMemory>
        ensures { IfOk result (λ o. IfSome o (IsNear self.now like.now pc)) }
    {
        let Some(other) = entry_at(&self.entries, like.pc) else {
            return Ok(None);
        };
        let Some(entry) = entry_at(&self.entries, pc) else {
            return Ok(None);
        };
        if entry.locals == other.locals {
            return Ok(None);
        }
        if !have_same_flag(self.is_constructor, &self.flags, other.locals, entry.locals) {
            return Ok(None);
        }
        if !is_known(&self.paths, entry) {
            return Ok(None);
        }
        let most = self.max_locals;
        let overwritten = &like.overwritten;
        let moved = moved(
            alloc,
            &self.paths,
            most,
            other.locals,
            entry.locals,
            overwritten,
        )?;
        match moved {
            Some(overwritten) => Ok(Some(Like { pc, overwritten })),
            None => Ok(None),
        }
    }

    /// Whether local variables with these numbers fit those of the frame at a pc.
    pub fn takes<L: Lookups>(&self, w: &L, pc: u32, locals: &[VType], slots: &[usize]) -> bool
        ensures { MatchBool result
            (Takes (L.world w.now) self.now pc locals.now slots.now) (Unit {0}) }
    {
        let Some(entry) = entry_at(&self.entries, pc) else {
            return false;
        };
        if !takes_all(w, &self.paths, &self.skips, entry.locals, locals, slots) {
            return false;
        }
        true
    }

    /// What the frames of the handlers of these rows, which begin in order, want of local variables. `None`: it wasn't found.
    pub fn wanted(&self, alloc: Global, rows: &[Row]) -> Result<Option<Wanted>, NoMemory>
        ensures { IfOk result (λ o. IfSome o (λ wanted. All (IsAsked self.now wanted) rows.now)) }
    {
        gathered(alloc, &self.paths, &self.entries, rows)
    }

    /// The pc of the first frame after a pc, and before the next instruction unless that is the last. `None`: there is none.
    pub fn stray(&self, pc: u32, next: u32, is_last: bool) -> Option<u32>
        ensures { result ≡ option_map (λ (f : MapFrame). f.pc)
            (stray_frame pc next is_last self.now) }
    {
        match stray_entry(&self.entries, pc, next, is_last) {
            Some(entry) => Some(entry.pc),
            None => None,
        }
    }
}

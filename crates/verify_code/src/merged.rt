//! Handlers that ask the same of local variables, taken together: the frames of many handlers may share these.

ghost use Rattle.std.specs.Prelude.{◌≡◌, ◌++◌, ◌∷◌, [], IfOk, IfSome, MatchBool, OnOk, map};
ghost use Rattle.verify_types.specs.Environment.{Environment as Env};
ghost use Rattle.verify_code.specs.Accepted.{row_in};
ghost use Rattle.std.specs.List.{All};
ghost use Rattle.std.specs.List.Sorted.{IsNonDecreasingBy};
ghost use Rattle.verify_frames.specs.Wanted.{IsAsked};
ghost use Rattle.verify_code.specs.Guards.{AskAlike, guard_in, start_of};
ghost use Rattle.verify_code.specs.Merged.{AreAlike, AskSame, AsksLocals, IsNamed};

use crate::environment::Environment;
use crate::guards::{Caught, Guard, joined, sorted};
use class_model::Row;
use items::NoMemory;
use link_model::Lookups;
use std::alloc::{AllocError, Global};
use verify_frames::Wanted;
use verify_types::{assignable, throwable_type};

// With fewer rows, it saves nothing to take them together.
const MANY: usize = 16;

// No guard.
const NONE: u32 = 0xffff_ffff;

/// Rows of an exception table, some of them taken together.
#[derive(Drop)]
pub struct Merged {
    pub guards: Vec<Guard>,
    /// For each group of frames the index of the last row to one of them.
    pub last: Vec<u32>,
}

// Rows in the order of their starts, and what their handlers want of local variables, if that was found.
#[derive(Drop)]
struct Together {
    guards: Vec<Guard>,
    wanted: Option<Wanted>,
}

// The row at an index.
fn guard_at(guards: &[Guard], index: u32) -> Option<Guard> {
    match guards.get(index as usize) {
        Some(guard) => Some(*guard),
        None => None,
    }
}

// A row with the handler of another, and with what that catches.
fn named_as(guard: Guard, other: Guard) -> Guard
    ensures { IsNamed guard other result }
{
    let Row {
        start,
        end,
        handler: _,
        catch_type,
    } = guard.row;
    Guard {
        row: Row {
            start,
            end,
            handler: other.row.handler,
            catch_type,
        },
        catch: other.catch,
    }
}

// The rows without what they catch.
fn rows_of(alloc: Global, guards: &[Guard]) -> Result<Vec<Row>, AllocError>
    ensures { IfOk result (λ rows. rows.items ≡ map row_in guards.now) }
{
    guards.iter().map(|guard| guard.row).collect(alloc)
}

impl Merged {
    // No rows.
    fn new(alloc: Global) -> Self
        ensures { result.guards.items ≡ [] }
    {
        Merged {
            guards: Vec::new(alloc),
            last: Vec::new(alloc),
        }
    }

    // The index of the last row of a group.
    fn last_of(&self, group: usize) -> u32 {
        match self.last.get(group) {
            Some(index) => *index,
            None => NONE,
        }
    }

    // Makes an index that of the last row of a group.
    fn set_last(&mut self, group: usize, index: u32) -> Result<(), NoMemory>
        ensures { self.new.guards ≡ self.old.guards }
    {
        if self.last.len() <= group {
            let count = group.saturating_add(1);
            self.last.resize(count, NONE)?;
        }
        if group < self.last.len() {
            self.last[group] = index;
        }
        Ok(())
    }

    // Adds a row after the others.
    fn push(&mut self, group: usize, guard: Guard) -> Result<(), NoMemory>
        ensures { OnOk result (map guard_in self.new.guards.items
            ≡ map guard_in self.old.guards.items ++ guard_in guard ∷ []) }
    {
        let Ok(index) = u32::try_from(self.guards.len()) else {
            return Err(NoMemory);
        };
        self.set_last(group, index)?;
        self.guards.push(guard)?;
        Ok(())
    }

    // Adds a row, or makes it one with the last of its group.
    fn put(&mut self, group: usize, guard: Guard) -> Result<(), NoMemory>
        ensures { OnOk result (AskAlike (map guard_in self.new.guards.items)
            (map guard_in self.old.guards.items ++ guard_in guard ∷ [])) }
    {
        let index = self.last_of(group) as usize;
        if index < self.guards.len() {
            let before = self.guards[index];
            if let Some(both) = joined(before, guard) {
                self.guards[index] = both;
                return Ok(());
            }
        }
        self.push(group, guard)
    }
}

impl<'a, L: Lookups> Environment<'a, L> {
    // Whether a handler asks only of local variables: it catches exceptions, and what it catches fits the operand stack of the
    // frame there.
    fn asks_locals(&self, c: Caught) -> bool
        ensures { MatchBool result (AsksLocals self.now c) (Unit {0}) }
    {
        let caught = self.caught_type(c.catch);
        if !assignable(self.world, caught, throwable_type(self.world)) {
            return false;
        }
        let Some(frame) = self.frames.at(u32::from(c.handler)) else {
            return false;
        };
        if !frame.is_known() {
            return false;
        }
        frame.fits_stack(self.world, true, &[caught])
    }

    // Whether two handlers are known to ask the same: only of local variables, and of those of the same frame.
    fn are_alike(&self, a: Caught, b: Caught) -> bool
        ensures { MatchBool result (AreAlike self.now a b) (Unit {0}) }
    {
        if !self.asks_locals(a) {
            return false;
        }
        if !self.asks_locals(b) {
            return false;
        }
        match self
            .frames
            .shared(u32::from(a.handler), u32::from(b.handler))
        {
            Some(_) => true,
            None => false,
        }
    }

    // A row that asks what this one does, to the handler of another if both ask the same.
    fn renamed(&self, guard: Guard, other: Option<Guard>) -> Guard
        ensures { AskSame self.now (guard_in result ∷ []) (guard_in guard ∷ []) }
    {
        let Some(other) = other else {
            return guard;
        };
        if !self.are_alike(other.caught(), guard.caught()) {
            return guard;
        }
        named_as(guard, other)
    }

    // Puts a row after others.
    fn put_renamed(&self, merged: &mut Merged, guard: &Guard) -> Result<(), NoMemory>
        ensures { OnOk result (AskSame self.now (map guard_in merged.new.guards.items)
            (map guard_in merged.old.guards.items ++ guard_in guard.now ∷ [])) }
    {
        let group = self.frames.group(u32::from(guard.row.handler));
        let other = guard_at(&merged.guards, merged.last_of(group));
        let renamed = self.renamed(*guard, other);
        merged.put(group, renamed)?;
        Ok(())
    }

    // The rows, where those whose handlers ask the same are taken together.
    fn merged(&self, alloc: Global) -> Result<Merged, NoMemory>
        ensures { IfOk result (λ m.
            AskSame self.now (map guard_in m.guards.items) self.now.handlers) }
    {
        let mut merged = Merged::new(alloc);
        let mut rest: &[Guard] = &self.guards;
        while let Some((guard, behind)) = rest.split_first() {
            self.put_renamed(&mut merged, guard)?;
            rest = behind;
        }
        Ok(merged)
    }

    // The rows in the order of their starts, those whose handlers ask the same taken together, and what the handlers want.
    fn together(&self, alloc: Global) -> Result<Together, NoMemory>
        ensures alike { IfOk result (λ t.
            AskSame self.now (map guard_in t.guards.items) self.now.handlers) }
        ensures sorted { IfOk result (λ t. IsNonDecreasingBy start_of t.guards.items) }
        ensures asked { IfOk result (λ t. IfSome t.wanted (λ wanted.
            All (IsAsked self.now.map wanted) (map row_in t.guards.items))) }
    {
        let Merged { guards, last: _ } = self.merged(alloc)?;
        let guards = sorted(guards)?;
        let rows = rows_of(alloc, &guards)?;
        let wanted = self.frames.wanted(alloc, &rows)?;
        Ok(Together { guards, wanted })
    }

    // The same environment, with these rows.
    fn with_together(self, together: Together) -> Self
        requires alike { AskSame self (map guard_in together.guards.items) self.handlers }
        requires sorted { IsNonDecreasingBy start_of together.guards.items }
        requires asked { IfSome together.wanted (λ wanted.
            All (IsAsked self.map wanted) (map row_in together.guards.items)) }
        ensures { result ≡ self.entry }
    {
        let Environment {
            world,
            method,
            frames,
            guards: _,
            are_sorted: _,
            wanted: _,
        } = self;
        let Together { guards, wanted } = together;
        Environment {
            world,
            method,
            frames,
            guards,
            are_sorted: true,
            wanted,
        }
    }

    /// The same environment. If there are many rows, those whose handlers ask the same are taken together, and what the handlers
    /// want is known.
    pub fn with_merged(self, alloc: Global) -> Result<Self, NoMemory>
        ensures { IfOk result (λ env. env ≡ self.entry) }
    {
        if self.guards.len() < MANY {
            return Ok(self);
        }
        let together = self.together(alloc)?;
        Ok(self.with_together(together))
    }
}

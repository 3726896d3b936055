//! Exception handlers (JVMS 4.10.1.6, instructionSatisfiesHandlers).

ghost use Rattle.std.specs.Prelude.{◌≡◌, ◌<◌, ◌^◌, IfOk, IfSome, MatchOption, OnOk, false, map};
ghost use Rattle.std.specs.List.{list_all};
ghost use Rattle.std.specs.Option.{option_map_or};
ghost use Rattle.verify_types.specs.Environment.{map_at};
ghost use Rattle.verify_types.specs.Handlers as spec;
ghost use Rattle.verify_instructions.specs.Views.{state_in};
ghost use Rattle.verify_code.specs.Guards.{guard_in};
ghost use Rattle.verify_code.specs.Satisfied.{AllTaken, AreJudged};
ghost use Rattle.verify_code.specs.Handlers as parts;
ghost use Rattle.verify_code.specs.Handlers.{IsCatcher, IsRowJudged, handler, caught_fits, keeps_more};
ghost use Rattle.verify_frames.specs.KnownStates.{IsJudged, Holds, holds_at, type_state};

use crate::asking::{asking, next_start};
use crate::environment::Environment;
use crate::guards::{Caught, Guard, is_last};
use crate::satisfied::{JudgedTwice, SatisfiedStores, judged_on};
use class_model::Row;
use items::NoMemory;
use link_model::Lookups;
use stack_maps::VType;
use verify_frames::{Judged, KnownState, Written, holds_at, types_around};
use verify_instructions::State;
use verify_types::{assignable, throwable_type};

// With fewer rows, a comparison with all of them costs less than it saves to remember stores.
const MANY: usize = 16;

// Whether a pc lies in the range of a row.
fn is_covered(row: &Row, pc: u32) -> bool
    ensures { result ≡ parts.row_covers pc row.now }
{
    u32::from(row.start) <= pc && pc < u32::from(row.end)
}

// Whether two pcs, if there are such, lie in the range of a row.
fn is_covered_twice(row: &Row, twice: Option<JudgedTwice>) -> bool
    ensures { result ≡ option_map_or (λ t. parts.covers_twice t row.now) twice false }
{
    match twice {
        Some(t) => is_covered(row, t.one.at) && is_covered(row, t.other.at),
        None => false,
    }
}

impl<'a, L: Lookups> Environment<'a, L> {
    /// The type of what a handler catches.
    pub fn caught_type(&self, catch: Option<u32>) -> VType
        ensures { result ≡ spec.caught_type self.now.world catch }
    {
        match catch {
            Some(class) => self.world.class_type(class),
            None => throwable_type(self.world),
        }
    }

    // Whether the state at a handler, which lies at the pc, fits a frame of the stack map there.
    fn fits_handler_whole(&self, s: &State, caught: VType, pc: u32) -> bool
        ensures { result ≡ caught_fits self.now (state_in s.now) caught pc }
    {
        let Some(frame) = self.frames.at(pc) else {
            return false;
        };
        frame.fits_caught(self.world, s, caught)
    }

    // Whether the state at a handler, which lies at the pc, fits a frame of the stack map there.
    fn fits_handler(&self, s: &KnownState, caught: VType, pc: u32) -> bool
        requires { Holds self.now s.now }
        ensures { result ≡ caught_fits self.now (type_state s.now) caught pc }
    {
        match self.shared(s, pc) {
            Some(frame) => {
                let locals_fit = self.fits_where_overwritten(s);
                frame.fits_stack(self.world, locals_fit, &[caught])
            }
            None => self.fits_handler_whole(&s.state, caught, pc),
        }
    }

    // Whether a handler catches exceptions, and the state at it fits a frame of the stack map.
    fn is_satisfied(&self, s: &KnownState, row: &Row, catch: Option<u32>) -> bool
        requires { Holds self.now s.now }
        ensures { result ≡ spec.is_satisfied self.now (type_state s.now) (handler row.now catch) }
    {
        let caught = self.caught_type(catch);
        assignable(self.world, caught, throwable_type(self.world))
            && self.fits_handler(s, caught, u32::from(row.handler))
    }

    // The handler that is known to be satisfied after a row, where one is known before it. `None`: the pc lies in the range of the
    // row, one of the other pcs doesn't, and its handler isn't satisfied.
    fn judge_row(
        &self,
        twice: Option<JudgedTwice>,
        pc: u32,
        s: &KnownState,
        last: Option<Caught>,
        here: Caught,
        row: &Row,
    ) -> Option<Option<Caught>>
        requires holds { Holds self.now s.now }
        requires last { IsCatcher self.now (type_state s.now) last }
        requires here { here.handler ≡ row.now.handler }
        ensures { MatchOption result
            (keeps_more self.now twice pc (type_state s.now) (handler row.now here.catch) ≡ false)
            (IsRowJudged self.now twice pc (type_state s.now) (handler row.now here.catch)) }
    {
        if !is_covered(row, pc) {
            return Some(last);
        }
        if is_covered_twice(row, twice) {
            return Some(last);
        }
        if is_last(last, here) {
            return Some(last);
        }
        if !self.is_satisfied(s, row, here.catch) {
            return None;
        }
        Some(Some(here))
    }

    // Whether these handlers are satisfied at the pc, but for those of both other pcs.
    fn are_more_satisfied(
        &self,
        twice: Option<JudgedTwice>,
        pc: u32,
        s: &KnownState,
        guards: &[Guard],
    ) -> bool
        requires { Holds self.now s.now }
        ensures { result ≡ list_all
            (keeps_more self.now twice pc (type_state s.now)) (map guard_in guards.now) }
    {
        let mut rest = guards;
        let mut last = None;
        while let Some((guard, behind)) = rest.split_first() {
            let here = guard.caught();
            let Some(caught) = self.judge_row(twice, pc, s, last, here, &guard.row) else {
                return false;
            };
            last = caught;
            rest = behind;
        }
        true
    }

    // What is known of where two states satisfy the handlers: this one itself, or the one before a store and one with the types that
    // the store left.
    fn judged_twice(&self, s: &KnownState, stores: &SatisfiedStores) -> Option<JudgedTwice>
        requires holds { Holds self.now s.now }
        requires taken { AllTaken self.now stores.now }
        ensures { IfSome result (AreJudged self.now (type_state s.now)) }
    {
        if let Some(judged) = s.judged {
            return Some(JudgedTwice {
                one: judged,
                other: judged,
            });
        }
        let Some(held) = &s.stored else {
            return None;
        };
        let stored = held.get();
        let Written::Store(local) = stored.written else {
            return None;
        };
        let around = types_around(s.state.types.locals(), local);
        match stores.taken(local, around) {
            Some(other) => Some(JudgedTwice {
                one: stored.judged,
                other,
            }),
            None => None,
        }
    }

    // Where a state satisfies the handlers, if it does so at the pc. `None`: it doesn't.
    fn judge_handlers(&self, pc: u32, s: &KnownState, twice: Option<JudgedTwice>) -> Option<Judged>
        requires low { pc < 2 ^ 16 }
        requires holds { Holds self.now s.now }
        requires twice { IfSome twice (AreJudged self.now (type_state s.now)) }
        ensures judged { IfSome result (IsJudged self.now (type_state s.now)) }
        ensures found { holds_at pc result ≡ spec.are_satisfied self.now pc (type_state s.now) }
    {
        let asking = asking(&self.guards, self.are_sorted, twice, pc);
        if !self.are_more_satisfied(twice, pc, s, asking) {
            return None;
        }
        Some(Judged {
            at: pc,
            until: next_start(&self.guards, self.are_sorted, pc),
        })
    }

    // Remembers a store after which a state satisfies the handlers, if there are many.
    fn keep_store(
        &self,
        s: &KnownState,
        judged: Option<Judged>,
        stores: &mut SatisfiedStores,
    ) -> Result<(), NoMemory>
        requires judged { IfSome judged (IsJudged self.now (type_state s.now)) }
        requires taken { AllTaken self.now stores.old }
        ensures { OnOk result (AllTaken self.now stores.new) }
    {
        if self.guards.len() < MANY {
            return Ok(());
        }
        let Some(held) = &s.stored else {
            return Ok(());
        };
        let stored = held.get();
        let Written::Store(local) = stored.written else {
            return Ok(());
        };
        let Some(judged) = judged else {
            return Ok(());
        };
        let around = types_around(s.state.types.locals(), local);
        stores.put(local, around, judged)
    }

    /// A state, and where it satisfies the exception handlers: at the pc, if it does so at all.
    pub fn judged(
        &self,
        pc: u32,
        s: KnownState,
        stores: &mut SatisfiedStores,
    ) -> Result<KnownState, NoMemory>
        requires low { pc < 2 ^ 16 }
        requires holds { Holds self.now s }
        requires taken { AllTaken self.now stores.old }
        ensures same { IfOk result (λ t. type_state t ≡ type_state s) }
        ensures holds { IfOk result (Holds self.now) }
        ensures found { IfOk result (λ t.
            holds_at pc t.judged ≡ spec.are_satisfied self.now pc (type_state s)) }
        ensures taken { OnOk result (AllTaken self.now stores.new) }
    {
        if holds_at(pc, s.judged) {
            return Ok(s);
        }
        if let Some(judged) = self.judged_by_wanted(pc, &s) {
            return Ok(s.with_judged(Some(judged)));
        }
        let twice = self.judged_twice(&s, stores);
        if let Some(judged) = judged_on(pc, twice) {
            return Ok(s.with_judged(Some(judged)));
        }
        let judged = self.judge_handlers(pc, &s, twice);
        self.keep_store(&s, judged, stores)?;
        Ok(s.with_judged(judged))
    }
}

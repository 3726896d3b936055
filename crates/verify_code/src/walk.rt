//! The walk over the instructions of a method, from front to back (JVMS 4.10.1.6, mergedCodeIsTypeSafe).

ghost use Rattle.std.specs.Prelude.{◌≡◌, ◌<◌, ◌^◌, Bool, IfOk, IfSome, None, OnOk, Option, Some};
ghost use Rattle.std.specs.Option.{option_map};
ghost use Rattle.instruction_rows.specs.Table.{row};
ghost use Rattle.link_model.specs.declared.sites.Resolution.{Resolution as Meaning};
ghost use Rattle.verify_types.specs.TypeStates.{TypeState};
ghost use Rattle.verify_types.specs.Environment.{MapFrame, map_at};
ghost use Rattle.verify_types.specs.Walk.{standing};
ghost use Rattle.verify_types.specs.Faults.{is_shallow};
ghost use Rattle.verify_types.specs.Handlers.{are_satisfied};
ghost use Rattle.verify_instructions.specs.Views.{state_in};
ghost use Rattle.verify_code.specs.Findings.{instruction_of, findings_at};
ghost use Rattle.verify_frames.specs.Frames.{frame_in};
ghost use Rattle.verify_frames.specs.KnownStates.{AllHold, FitAll, IsJudged, Holds, going, holds_at, type_state};
ghost use Rattle.verify_code.specs.Satisfied.{AllTaken};
ghost use Rattle.verify_code.specs.Walks.{IsAfter, IsPassage, IsStep, IsVerdict, arrives, entry_of, place, walk_fault};

use crate::comparisons::Compared;
use crate::environment::Environment;
use crate::findings::Findings;
use crate::satisfied::SatisfiedStores;
use instruction_rows::RowWhy;
use items::{Boxed, NoMemory};
use link_model::{Lookups, Resolution};
use opcodes::Instr;
use std::alloc::Global;
use verify_frames::{
    Fitted, Frame, Judged, KnownState, Like, StateAfter, holds_at, known_after, like_behind,
    watched,
};
use verify_instructions::{State, Stop, goes_on};
use verify_types::{PcFault, VerifyWhy};

/// The state before an instruction, and whether the state in which the method begins fits the frame of the map there.
#[derive(Drop)]
pub struct Arrival {
    pub known: Option<KnownState>,
    pub fits: bool,
}

/// The state after an instruction, or the rule of its own that it breaks.
#[derive(Drop)]
pub enum After {
    Typed(KnownState),
    Broken(RowWhy),
}

/// The first rule that is broken at an instruction, or else the state after it.
#[derive(Drop)]
pub enum Verdict {
    Broken(VerifyWhy),
    Typed(KnownState),
}

/// The first rule that is broken at an instruction, or else the state that goes on after it.
#[derive(Drop)]
pub enum Passage {
    Broken(VerifyWhy),
    On(StateAfter),
}

/// The first fault at an instruction or between it and the next, or else the state that goes on after it.
#[derive(Drop)]
pub enum Step {
    Fault(PcFault),
    On(StateAfter),
}

// The rule that was broken.
fn broken_rule(stop: Stop) -> Result<RowWhy, NoMemory>
    ensures { IfOk result (λ why. stop ≡ Stop.Broken why) }
{
    match stop {
        Stop::Broken(why) => Ok(why),
        Stop::NoMemory => Err(NoMemory),
    }
}

impl<'a, L: Lookups> Environment<'a, L> {
    // The state of the frame of the map at a pc, which takes over what it has in common with the one before.
    fn state_there(
        &self,
        alloc: Global,
        before: Option<KnownState>,
        frame: &Frame<'_>,
        pc: u32,
    ) -> Result<Option<State>, NoMemory>
        requires holds { AllHold self.now before }
        requires there { map_at self.now pc ≡ Some (frame_in frame.now) }
        ensures { IfOk result (λ s. option_map state_in s ≡ (frame_in frame.now).state) }
    {
        let Some(s) = before else {
            return frame.state(alloc);
        };
        match self.shared(&s, pc) {
            Some(shared) => match shared.stack_slots(alloc)? {
                Some(stack) => Ok(Some(s.restored()?.with_stack(alloc, stack)?)),
                None => Ok(None),
            },
            None => frame.state(alloc),
        }
    }

    // Where the state of the frame of the map at a pc satisfies the exception handlers, if it shares the local variables of this
    // state.
    fn judged_over(&self, s: &KnownState, pc: u32) -> Option<Judged>
        requires { Holds self.now s.now }
        ensures { (f : MapFrame) (t : TypeState) → map_at self.now pc ≡ Some f
            → f.state ≡ Some t → IfSome result (IsJudged self.now t) }
    {
        if !s.overwritten().is_empty() {
            return None;
        }
        match self.shared(s, pc) {
            Some(_) => s.judged,
            None => None,
        }
    }

    // The same, after an instruction.
    fn judged_there(&self, before: &StateAfter, pc: u32) -> Option<Judged>
        requires { AllHold self.now before.now.known }
        ensures { (f : MapFrame) (t : TypeState) → map_at self.now pc ≡ Some f
            → f.state ≡ Some t → IfSome result (IsJudged self.now t) }
    {
        match &before.known {
            Some(s) => self.judged_over(s, pc),
            None => None,
        }
    }

    // Frames that the state of the frame of the map at a pc fits, if its local variables are those of this state.
    fn fitted_over(
        &self,
        alloc: Global,
        s: &KnownState,
        pc: u32,
    ) -> Result<Option<Boxed<Fitted>>, NoMemory>
        requires { Holds self.now s.now }
        ensures { IfOk result (λ fitted. (f : MapFrame) (t : TypeState) →
            map_at self.now pc ≡ Some f → f.state ≡ Some t → FitAll self.now t fitted) }
    {
        if !s.overwritten().is_empty() {
            return Ok(None);
        }
        let Some(fitted) = &s.fitted else {
            return Ok(None);
        };
        match self.shared(s, pc) {
            Some(_) => Ok(Some(Boxed::new(alloc, fitted.get().again()?)?)),
            None => Ok(None),
        }
    }

    // The same, after an instruction.
    fn fitted_there(
        &self,
        alloc: Global,
        before: &StateAfter,
        pc: u32,
    ) -> Result<Option<Boxed<Fitted>>, NoMemory>
        requires { AllHold self.now before.now.known }
        ensures { IfOk result (λ fitted. (f : MapFrame) (t : TypeState) →
            map_at self.now pc ≡ Some f → f.state ≡ Some t → FitAll self.now t fitted) }
    {
        match &before.known {
            Some(s) => self.fitted_over(alloc, s, pc),
            None => Ok(None),
        }
    }

    // Whether the state in which the method begins, if it is this one, fits the frame of the map at a pc.
    fn enters(&self, before: &StateAfter, is_entry: bool, frame: &Frame<'_>, pc: u32) -> bool
        requires { map_at self.now pc ≡ Some (frame_in frame.now) }
        ensures { result ≡ arrives self.now pc (entry_of is_entry (going before.now)) }
    {
        match &before.known {
            Some(s) => !(before.goes_on && is_entry) || self.fits_frame(&s.state, frame),
            None => true,
        }
    }

    // The state before the instruction at a pc: that of the frame of the map there, or else this one.
    #[inline(always)]
    fn arrive(
        &self,
        alloc: Global,
        before: StateAfter,
        is_entry: bool,
        pc: u32,
    ) -> Result<Arrival, NoMemory>
        requires { AllHold self.now before.known }
        ensures state { IfOk result (λ a. option_map type_state a.known ≡
            standing self.now pc (going before)) }
        ensures fits { IfOk result (λ a. a.fits ≡
            arrives self.now pc (entry_of is_entry (going before))) }
        ensures holds { IfOk result (λ a. AllHold self.now a.known) }
    {
        let Some(frame) = self.frames.at(pc) else {
            return Ok(Arrival {
                known: before.going(),
                fits: true,
            });
        };
        let fits = self.enters(&before, is_entry, &frame, pc);
        let judged = self.judged_there(&before, pc);
        let fitted = self.fitted_there(alloc, &before, pc)?;
        let like = Like::new(alloc, pc);
        match self.state_there(alloc, before.known, &frame, pc)? {
            Some(state) => Ok(Arrival {
                known: Some(KnownState {
                    state,
                    like: Some(like),
                    judged,
                    stored: None,
                    fitted,
                }),
                fits,
            }),
            None => Ok(Arrival { known: None, fits }),
        }
    }

    // Whether the operand stack is no deeper than it may be.
    fn is_shallow(&self, s: &State) -> bool
        ensures { result ≡ is_shallow self.now (state_in s.now) }
    {
        s.is_shallow(self.method.code.max_stack)
    }

    // What is found before an instruction is typed.
    fn findings(
        &self,
        s: &KnownState,
        fits: bool,
        i: &Instr,
        resolution: Resolution,
        is_last: bool,
    ) -> Findings
        requires holds { Holds self.now s.now }
        requires judged { holds_at i.now.pc s.now.judged
            ≡ are_satisfied self.now i.now.pc (type_state s.now) }
        ensures { result ≡
            findings_at self.now fits (instruction_of i.now resolution) is_last (type_state s.now) }
    {
        Findings {
            are_targets: self.are_targets(&i.op),
            arrives: fits,
            is_shallow: self.is_shallow(&s.state),
            has_locals: s.state.has_locals(self.method.code.max_locals),
            are_satisfied: holds_at(i.pc, s.judged),
            is_returned: s.state.is_returned(self.world, &self.method, &i.op),
            is_finished: s.state.is_finished(&i.op),
            passes_end: goes_on(&i.op) && is_last,
        }
    }

    // Types one instruction.
    #[inline(always)]
    fn after(
        &self,
        alloc: Global,
        s: KnownState,
        i: &Instr,
        resolution: Resolution,
    ) -> Result<After, NoMemory>
        requires low { i.now.pc < 2 ^ 16 }
        requires holds { Holds self.now s }
        ensures { IfOk result
            (IsAfter self.now (instruction_of i.now resolution) (type_state s)) }
    {
        let KnownState {
            state,
            like,
            judged,
            stored: _,
            fitted,
        } = s;
        let this_uninit = state.this_uninit;
        let watch = watched(alloc, &i.op, &state.types)?;
        let like = like_behind(&i.op, like, &state.types)?;
        let mut state = state;
        let applied = state.apply(self.world, &self.method, i.pc as u16, resolution, &i.op);
        let after = known_after(alloc, state, this_uninit, watch, like, judged, fitted)?;
        match applied {
            Ok(()) => Ok(After::Typed(after)),
            Err(stop) => Ok(After::Broken(broken_rule(stop)?)),
        }
    }

    // Judges one instruction.
    #[inline(always)]
    fn judge(
        &self,
        alloc: Global,
        s: KnownState,
        fits: bool,
        i: &Instr,
        resolution: Resolution,
        is_last: bool,
    ) -> Result<Verdict, NoMemory>
        requires low { i.now.pc < 2 ^ 16 }
        requires holds { Holds self.now s }
        requires judged { holds_at i.now.pc s.judged
            ≡ are_satisfied self.now i.now.pc (type_state s) }
        ensures { IfOk result (λ v. (entry : Option TypeState)
            → fits ≡ arrives self.now i.now.pc entry
            → IsVerdict self.now (place i.now resolution (Some (type_state s)) entry is_last)
            (type_state s) v) }
    {
        let findings = self.findings(&s, fits, i, resolution, is_last);
        match self.after(alloc, s, i, resolution)? {
            After::Broken(why) => Ok(Verdict::Broken(findings.why_broken(why))),
            After::Typed(after) => {
                let compared = self.compared(alloc, after, i, is_last)?;
                let Compared { known, fits } = compared;
                let is_shallow = self.is_shallow(&known.state);
                match findings.why(fits, is_shallow) {
                    Some(why) => Ok(Verdict::Broken(why)),
                    None => Ok(Verdict::Typed(known)),
                }
            }
        }
    }

    // Judges an instruction without a state before it: a frame of the stack map there names a constant that is no class.
    fn pass_unknown(&self, i: &Instr) -> Passage
        ensures { (resolution : Meaning) (entry : Option TypeState) (is_last : Bool)
            → IsPassage self.now (place i.now resolution None entry is_last) result }
    {
        if self.has_frame(i.pc) {
            Passage::Broken(VerifyWhy::Map)
        } else {
            Passage::On(StateAfter::unknown())
        }
    }

    // Judges an instruction with the state before it, if it has one.
    #[inline(always)]
    fn pass(
        &self,
        alloc: Global,
        arrival: Arrival,
        i: &Instr,
        resolution: Resolution,
        is_last: bool,
        stores: &mut SatisfiedStores,
    ) -> Result<Passage, NoMemory>
        requires low { i.now.pc < 2 ^ 16 }
        requires holds { AllHold self.now arrival.known }
        requires taken { AllTaken self.now stores.old }
        ensures taken { OnOk result (AllTaken self.now stores.new) }
        ensures passage { IfOk result (λ x. (entry : Option TypeState)
            → arrival.fits ≡ arrives self.now i.now.pc entry → IsPassage self.now
            (place i.now resolution (option_map type_state arrival.known) entry is_last) x) }
    {
        let Arrival { known, fits } = arrival;
        let Some(s) = known else {
            return Ok(self.pass_unknown(i));
        };
        let s = self.judged(i.pc, s, stores)?;
        match self.judge(alloc, s, fits, i, resolution, is_last)? {
            Verdict::Broken(why) => Ok(Passage::Broken(why)),
            Verdict::Typed(after) => Ok(Passage::On(StateAfter::new(after, goes_on(&i.op)))),
        }
    }

    // Judges an instruction, and what lies between it and the next.
    #[inline(always)]
    fn step(
        &self,
        alloc: Global,
        before: StateAfter,
        is_entry: bool,
        i: &Instr,
        resolution: Resolution,
        is_last: bool,
        stores: &mut SatisfiedStores,
    ) -> Result<Step, NoMemory>
        requires low { i.now.pc < 2 ^ 16 }
        requires holds { AllHold self.now before.known }
        requires taken { AllTaken self.now stores.old }
        ensures taken { OnOk result (AllTaken self.now stores.new) }
        ensures step { IfOk result (IsStep self.now (place i.now resolution
            (standing self.now i.now.pc (going before))
            (entry_of is_entry (going before)) is_last)) }
    {
        let arrival = self.arrive(alloc, before, is_entry, i.pc)?;
        match self.pass(alloc, arrival, i, resolution, is_last, stores)? {
            Passage::Broken(why) => Ok(Step::Fault(PcFault { pc: i.pc, why })),
            Passage::On(after) => match self.frames.stray(i.pc, i.next, is_last) {
                Some(pc) => Ok(Step::Fault(PcFault {
                    pc,
                    why: VerifyWhy::Map,
                })),
                None => Ok(Step::On(after)),
            },
        }
    }

    /// The first fault at the instructions of the method, which begins in this state. `None`: there is none.
    pub fn first_fault(&self, alloc: Global, first: State) -> Result<Option<PcFault>, NoMemory>
        requires { state_in first ≡ self.now.first }
        ensures { IfOk result (λ fault. fault ≡ walk_fault self.now) }
    {
        let first = KnownState {
            state: first,
            like: None,
            judged: None,
            stored: None,
            fitted: None,
        };
        let mut before = StateAfter::new(first, true);
        let mut stores = SatisfiedStores::new(alloc);
        let mut is_entry = true;
        let mut rest: &[Instr] = &self.method.code.code;
        let mut resolutions = self.method.resolutions;
        while let Some((i, behind)) = rest.split_first() {
            let is_last = behind.is_empty();
            let resolution = *resolutions.at(0);
            match self.step(alloc, before, is_entry, i, resolution, is_last, &mut stores)? {
                Step::Fault(fault) => return Ok(Some(fault)),
                Step::On(after) => before = after,
            }
            is_entry = false;
            rest = behind;
            resolutions = resolutions.behind_first();
        }
        Ok(None)
    }
}

//! Targets (JVMS 4.10.1.9): many frames may have the same local variables, which are then compared once.

ghost use Rattle.std.specs.Prelude.{◌≡◌, [], ◌∷◌, ℕ, ℤ, Bool, IfOk, IfSome, List, MatchBool, true};
ghost use Rattle.std.specs.List.{All, list_all};
ghost use Rattle.std.specs.Option.{option_map_or};
ghost use Rattle.instruction_rows.specs.Rows.{targets_of_row};
ghost use Rattle.instruction_rows.specs.Switches.{lookup_targets, match_target, table_targets};
ghost use Rattle.instruction_rows.specs.Table.{row};
ghost use Rattle.verify_types.specs.Environment.{map_at};
ghost use Rattle.verify_types.specs.Faults as spec;
ghost use Rattle.verify_types.specs.Handlers as handlers;
ghost use Rattle.verify_types.specs.TypeStates.{TypeState};
ghost use Rattle.verify_frames.specs.KnownStates.{AllFit, Compares, FitsBut, FitsLocals, Holds, MayFit, type_state};

use crate::environment::Environment;
use crate::targets::pc_of;
use items::NoMemory;
use link_model::Lookups;
use opcodes::{LookupSwitch, Match, Op, TableSwitch};
use std::alloc::Global;
use verify_frames::{Fitted, Frame, KnownState};

// A target of an instruction. `None`: it has none.
fn a_target(op: &Op) -> Option<i64>
    ensures { IfSome result (λ target. (test : ℤ → Bool)
        → list_all test (targets_of_row (row op.now)) ≡ true → test target ≡ true) }
{
    match op {
        Op::IfZero(_, target) => Some(*target),
        Op::IfInts(_, target) => Some(*target),
        Op::IfReferences(_, target) => Some(*target),
        Op::IfNull(_, target) => Some(*target),
        Op::Goto(target) => Some(*target),
        Op::TableSwitch(switch) => Some(switch.get().default),
        Op::LookupSwitch(switch) => Some(switch.get().default),
        _ => None,
    }
}

/// The target of a branch. `None`: the instruction is none.
pub fn branch_target(op: &Op) -> Option<i64>
    ensures { IfSome result (λ target. targets_of_row (row op.now) ≡ target ∷ []) }
{
    match op {
        Op::IfZero(_, target) => Some(*target),
        Op::IfInts(_, target) => Some(*target),
        Op::IfReferences(_, target) => Some(*target),
        Op::IfNull(_, target) => Some(*target),
        Op::Goto(target) => Some(*target),
        _ => None,
    }
}

impl<'a, L: Lookups> Environment<'a, L> {
    // The frame of the stack map at a pc, where it has the local variables of another, which a state fits.
    fn fitted(&self, fitted: Option<u32>, pc: u32) -> Option<Frame<'_>>
        ensures { (s : TypeState) → MayFit self.now s fitted
            → IfSome result (λ f. Compares self.now s pc f true) }
    {
        match fitted {
            Some(other) => self.frames.shared(other, pc),
            None => None,
        }
    }

    // Whether a state fits the frame of the stack map at a pc, if there is one, where it fits another, if that is known.
    fn fits_as(&self, s: &KnownState, fitted: Option<u32>, pc: u32) -> bool
        requires holds { Holds self.now s.now }
        requires fitted { MayFit self.now (type_state s.now) fitted }
        ensures { result ≡
            option_map_or (handlers.fits_frame self.now (type_state s.now))
            (map_at self.now pc) true }
    {
        match self.fitted(fitted, pc) {
            Some(frame) => frame.fits_stack(self.world, true, s.state.types.stack()),
            None => self.fits_at(s, pc),
        }
    }

    /// A frame with the local variables of the one at a pc, among these. `None`: there is none.
    pub fn among(&self, pcs: &[u32], pc: u32) -> Option<u32>
        ensures { (s : TypeState) (slots : List ℕ) → All (FitsBut self.now slots s) pcs.now
            → IfSome result (FitsBut self.now slots s) }
    {
        let mut rest = pcs;
        while let Some((other, behind)) = rest.split_first() {
            if self.frames.shared(*other, pc).is_some() {
                return Some(*other);
            }
            rest = behind;
        }
        None
    }

    /// Whether a state fits the local variables of a frame, where it does so but for some.
    pub fn fits_wholly(&self, s: &KnownState, slots: &[usize], pc: u32) -> bool
        ensures { FitsBut self.now slots.now (type_state s.now) pc
            → MatchBool result (FitsLocals self.now (type_state s.now) pc) (Unit {0}) }
    {
        if !self
            .frames
            .takes(self.world, pc, s.state.types.locals(), slots)
        {
            return false;
        }
        true
    }

    // The same among these, where a state fits it.
    fn fitted_among(&self, s: &KnownState, fitted: &Fitted, pc: u32) -> Option<u32>
        ensures { AllFit self.now (type_state s.now) fitted.now
            → MayFit self.now (type_state s.now) result }
    {
        let Some(other) = self.among(&fitted.pcs, pc) else {
            return None;
        };
        if !self.fits_wholly(s, &fitted.changed, other) {
            return None;
        }
        Some(other)
    }

    // The same among those that a state is known to fit.
    fn known_fitted(&self, s: &KnownState, pc: u32) -> Option<u32>
        requires { Holds self.now s.now }
        ensures { MayFit self.now (type_state s.now) result }
    {
        match &s.fitted {
            Some(fitted) => self.fitted_among(s, fitted.get(), pc),
            None => None,
        }
    }

    /// Whether a state fits the frame of the stack map at a pc, if there is one, where it may be known to fit another.
    pub fn fits_there(&self, s: &KnownState, pc: u32) -> bool
        requires { Holds self.now s.now }
        ensures { result ≡
            option_map_or (handlers.fits_frame self.now (type_state s.now))
            (map_at self.now pc) true }
    {
        self.fits_as(s, self.known_fitted(s, pc), pc)
    }

    // Whether a state fits the frame at a target, if there is one, where it fits another, if that is known.
    fn fits_target_as(&self, s: &KnownState, fitted: Option<u32>, target: i64) -> bool
        requires holds { Holds self.now s.now }
        requires fitted { MayFit self.now (type_state s.now) fitted }
        ensures { result ≡ spec.fits_target self.now (type_state s.now) target }
    {
        let Some(pc) = pc_of(target) else {
            return true;
        };
        if self.fitted(fitted, pc).is_some() {
            self.fits_as(s, fitted, pc)
        } else {
            self.fits_there(s, pc)
        }
    }

    // A frame whose local variables a state fits, where it fits the one at a pc.
    fn fitted_at(&self, fitted: Option<u32>, pc: u32) -> Option<u32>
        ensures { (s : TypeState) → MayFit self.now s fitted
            → option_map_or (handlers.fits_frame self.now s) (map_at self.now pc) true ≡ true
            → MayFit self.now s result }
    {
        if self.fitted(fitted, pc).is_some() {
            return fitted;
        }
        match self.frames.at(pc) {
            Some(frame) => { if frame.is_known() { Some(pc) } else { fitted } }
            None => fitted,
        }
    }

    // A frame whose local variables a state fits, where it fits the one at a target.
    fn fitted_at_target(&self, fitted: Option<u32>, target: i64) -> Option<u32>
        ensures { (s : TypeState) → MayFit self.now s fitted
            → spec.fits_target self.now s target ≡ true → MayFit self.now s result }
    {
        match pc_of(target) {
            Some(pc) => self.fitted_at(fitted, pc),
            None => fitted,
        }
    }

    /// Whether a state fits the frame at the target of a branch, if there is one.
    pub fn fits_branch(&self, s: &KnownState, target: i64) -> bool
        requires { Holds self.now s.now }
        ensures { result ≡ spec.fits_target self.now (type_state s.now) target }
    {
        match pc_of(target) {
            Some(pc) => self.fits_there(s, pc),
            None => true,
        }
    }

    // A frame that a state is not yet known to fit, where it fits the one at a target.
    fn newly_fitted(&self, s: &KnownState, target: i64) -> Option<u32>
        ensures { spec.fits_target self.now (type_state s.now) target ≡ true
            → MayFit self.now (type_state s.now) result }
    {
        let Some(pc) = pc_of(target) else {
            return None;
        };
        if let Some(fitted) = &s.fitted {
            if self.among(&fitted.get().pcs, pc).is_some() {
                return None;
            }
        }
        self.fitted_at(None, pc)
    }

    /// The same state after an instruction, and the frames that it is known to fit, where it fits those at all targets.
    pub fn fitted_after(
        &self,
        alloc: Global,
        s: KnownState,
        op: &Op,
        fits: bool,
    ) -> Result<KnownState, NoMemory>
        requires holds { Holds self.now s }
        requires fits { fits ≡ true
            → list_all (spec.fits_target self.now (type_state s))
            (targets_of_row (row op.now)) ≡ true }
        ensures same { IfOk result (λ t. type_state t ≡ type_state s) }
        ensures holds { IfOk result (Holds self.now) }
    {
        if !fits {
            return Ok(s);
        }
        let Some(target) = a_target(op) else {
            return Ok(s);
        };
        let Some(pc) = self.newly_fitted(&s, target) else {
            return Ok(s);
        };
        self.with_fitted(alloc, s, pc)
    }

    // Whether a state fits the frames at all of these targets.
    fn fits_all(&self, s: &KnownState, targets: &[i64]) -> bool
        requires { Holds self.now s.now }
        ensures { result ≡ list_all (spec.fits_target self.now (type_state s.now)) targets.now }
    {
        let mut fitted = None;
        let mut rest = targets;
        while let Some((target, behind)) = rest.split_first() {
            if !self.fits_target_as(s, fitted, *target) {
                return false;
            }
            fitted = self.fitted_at_target(fitted, *target);
            rest = behind;
        }
        true
    }

    // Whether a state fits the frames at the targets of all of these matches.
    fn fits_matches(&self, s: &KnownState, matches: &[Match]) -> bool
        requires { Holds self.now s.now }
        ensures { result ≡
            list_all (λ m. spec.fits_target self.now (type_state s.now) (match_target m))
            matches.now }
    {
        let mut fitted = None;
        let mut rest = matches;
        while let Some((m, behind)) = rest.split_first() {
            if !self.fits_target_as(s, fitted, m.target) {
                return false;
            }
            fitted = self.fitted_at_target(fitted, m.target);
            rest = behind;
        }
        true
    }

    /// Whether a state fits the frames at all targets of a tableswitch.
    pub fn fits_table(&self, s: &KnownState, switch: &TableSwitch) -> bool
        requires { Holds self.now s.now }
        ensures { result ≡
            list_all (spec.fits_target self.now (type_state s.now)) (table_targets switch.now) }
    {
        self.fits_branch(s, switch.default) && self.fits_all(s, &switch.targets)
    }

    /// Whether a state fits the frames at all targets of a lookupswitch.
    #[tactic(auto, using(crate::proofs::InstructionLaws::all_matches))]
    pub fn fits_lookup(&self, s: &KnownState, switch: &LookupSwitch) -> bool
        requires { Holds self.now s.now }
        ensures { result ≡
            list_all (spec.fits_target self.now (type_state s.now)) (lookup_targets switch.now) }
    {
        self.fits_branch(s, switch.default) && self.fits_matches(s, &switch.matches)
    }
}

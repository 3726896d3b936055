//! Where an instruction leads (JVMS 4.10.1.9): its targets, and the next instruction.

ghost use Rattle.std.specs.Prelude.{◌≡◌, IfSome, is_some, true};
ghost use Rattle.std.specs.List.{list_all};
ghost use Rattle.std.specs.Option.{option_map_or};
ghost use Rattle.instruction_rows.specs.Pcs as pcs;
ghost use Rattle.instruction_rows.specs.Rows.{targets_of_row};
ghost use Rattle.instruction_rows.specs.Switches.{lookup_targets, match_target, table_targets};
ghost use Rattle.instruction_rows.specs.Table.{row};
ghost use Rattle.verify_types.specs.Environment.{instruction_at, map_at};
ghost use Rattle.verify_types.specs.Faults as spec;
ghost use Rattle.verify_types.specs.Handlers as handlers;
ghost use Rattle.verify_instructions.specs.Views.{state_in};
ghost use Rattle.verify_frames.specs.Frames.{frame_in};
ghost use Rattle.verify_frames.specs.Overwrites.{are_assignable, overwritten_since};
ghost use Rattle.verify_frames.specs.KnownStates.{IsOver, Holds, type_state};

use crate::environment::Environment;
use crate::instructions::has_instruction;
use link_model::Lookups;
use opcodes::{Instr, LookupSwitch, Match, Op, TableSwitch};
use verify_frames::{Frame, KnownState, are_assignable};
use verify_instructions::{State, goes_on};

/// The pc that a target is. `None`: no code has it.
pub fn pc_of(target: i64) -> Option<u32>
    ensures { result ≡ pcs.pc_of target }
{
    if target < 0 || target > 65_535 {
        None
    } else {
        Some(target as u32)
    }
}

impl<'a, L: Lookups> Environment<'a, L> {
    // Whether an instruction lies at this pc.
    fn has_instruction(&self, pc: u32) -> bool
        ensures { result ≡ is_some (instruction_at self.now pc) }
    {
        has_instruction(&self.method.code.code, pc)
    }

    /// Whether a frame of the stack map lies at this pc.
    pub fn has_frame(&self, pc: u32) -> bool
        ensures { result ≡ is_some (map_at self.now pc) }
    {
        self.frames.at(pc).is_some()
    }

    // Whether an instruction and a frame of the stack map lie at the target.
    fn is_target(&self, target: i64) -> bool
        ensures { result ≡ spec.is_target self.now target }
    {
        match pc_of(target) {
            Some(pc) => self.has_instruction(pc) && self.has_frame(pc),
            None => false,
        }
    }

    // Whether all targets of a tableswitch are targets.
    fn are_table_targets(&self, switch: &TableSwitch) -> bool
        ensures { result ≡ list_all (spec.is_target self.now) (table_targets switch.now) }
    {
        self.is_target(switch.default) && self.are_all_targets(&switch.targets)
    }

    fn are_all_targets(&self, targets: &[i64]) -> bool
        ensures { result ≡ list_all (spec.is_target self.now) targets.now }
    {
        targets.iter().all(|target| self.is_target(*target))
    }

    // Whether all targets of a lookupswitch are targets.
    #[tactic(auto, using(crate::proofs::InstructionLaws::all_matches))]
    fn are_lookup_targets(&self, switch: &LookupSwitch) -> bool
        ensures { result ≡ list_all (spec.is_target self.now) (lookup_targets switch.now) }
    {
        self.is_target(switch.default) && self.are_match_targets(&switch.matches)
    }

    fn are_match_targets(&self, matches: &[Match]) -> bool
        ensures { result ≡ list_all (λ m. spec.is_target self.now (match_target m)) matches.now }
    {
        matches.iter().all(|m| self.is_target(m.target))
    }

    /// Whether all targets of an instruction are targets.
    pub fn are_targets(&self, op: &Op) -> bool
        ensures { result ≡ list_all (spec.is_target self.now) (targets_of_row (row op.now)) }
    {
        match op {
            Op::IfZero(_, target) => self.is_target(*target),
            Op::IfInts(_, target) => self.is_target(*target),
            Op::IfReferences(_, target) => self.is_target(*target),
            Op::IfNull(_, target) => self.is_target(*target),
            Op::Goto(target) => self.is_target(*target),
            Op::TableSwitch(switch) => self.are_table_targets(switch.get()),
            Op::LookupSwitch(switch) => self.are_lookup_targets(switch.get()),
            _ => true,
        }
    }

    /// Whether a state fits a frame of the stack map. One that names a constant that is no class isn't judged here.
    pub fn fits_frame(&self, s: &State, frame: &Frame<'_>) -> bool
        ensures { result ≡ handlers.fits_frame self.now (state_in s.now) (frame_in frame.now) }
    {
        frame.fits(self.world, s)
    }

    // Whether a state fits the frame of the stack map at a pc, if there is one.
    fn fits_whole(&self, s: &State, pc: u32) -> bool
        ensures { result ≡
            option_map_or
            (handlers.fits_frame self.now (state_in s.now))
            (map_at self.now pc)
            true }
    {
        match self.frames.at(pc) {
            Some(frame) => self.fits_frame(s, &frame),
            None => true,
        }
    }

    /// The frame of the stack map at a pc, where it is known to have the flag of a state, and its local variables but for those
    /// that were overwritten.
    pub fn shared(&self, s: &KnownState, pc: u32) -> Option<Frame<'_>>
        requires { Holds self.now s.now }
        ensures { IfSome result
            (IsOver self.now (overwritten_since s.now.like) (type_state s.now) pc) }
    {
        match &s.like {
            Some(like) => self.frames.shared(like.pc, pc),
            None => None,
        }
    }

    /// Whether what overwrote local variables of a state fits the frame that it is like.
    pub fn fits_where_overwritten(&self, s: &KnownState) -> bool
        ensures { result ≡ are_assignable self.now.world (overwritten_since s.now.like)
            (type_state s.now).types.locals }
    {
        are_assignable(self.world, s.overwritten(), s.state.types.locals())
    }

    /// Whether a state fits the frame of the stack map at a pc, if there is one.
    pub fn fits_at(&self, s: &KnownState, pc: u32) -> bool
        requires { Holds self.now s.now }
        ensures { result ≡
            option_map_or (handlers.fits_frame self.now (type_state s.now))
            (map_at self.now pc) true }
    {
        match self.shared(s, pc) {
            Some(frame) => {
                let locals_fit = self.fits_where_overwritten(s);
                frame.fits_stack(self.world, locals_fit, s.state.types.stack())
            }
            None => self.fits_whole(&s.state, pc),
        }
    }

    /// Whether a state fits the frame of the stack map at a target, if there is one.
    pub fn fits_target(&self, s: &KnownState, target: i64) -> bool
        requires { Holds self.now s.now }
        ensures { result ≡ spec.fits_target self.now (type_state s.now) target }
    {
        match pc_of(target) {
            Some(pc) => self.fits_at(s, pc),
            None => true,
        }
    }

    /// Whether the state after an instruction fits the frames at all of its targets.
    pub fn fits_targets(&self, s: &KnownState, op: &Op) -> bool
        requires { Holds self.now s.now }
        ensures { result ≡
            list_all (spec.fits_target self.now (type_state s.now)) (targets_of_row (row op.now)) }
    {
        match op {
            Op::IfZero(_, target) => self.fits_branch(s, *target),
            Op::IfInts(_, target) => self.fits_branch(s, *target),
            Op::IfReferences(_, target) => self.fits_branch(s, *target),
            Op::IfNull(_, target) => self.fits_branch(s, *target),
            Op::Goto(target) => self.fits_branch(s, *target),
            Op::TableSwitch(switch) => self.fits_table(s, switch.get()),
            Op::LookupSwitch(switch) => self.fits_lookup(s, switch.get()),
            _ => true,
        }
    }

    /// Whether the state after an instruction fits the next one.
    pub fn fits_next(&self, s: &KnownState, i: &Instr) -> bool
        requires { Holds self.now s.now }
        ensures { result ≡ spec.fits_next self.now (row i.now.op) i.now.next (type_state s.now) }
    {
        if goes_on(&i.op) {
            self.fits_there(s, i.next)
        } else {
            self.has_frame(i.next)
        }
    }
}

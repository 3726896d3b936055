//! One step in a frame, from the instruction with one index to that with another.

ghost use Rattle.std.specs.Prelude.{ℕ, ◌≡◌, ◌+◌, ◌<◌, ◌≤◌, IfSome, Some, length, slice_get, true};
ghost use Rattle.link_model.specs.Resolutions.{meanings};
ghost use Rattle.instruction_rows.specs.Pcs.{pc_after};
ghost use Rattle.verify_types.specs.Typing.{AreTyped};
ghost use Rattle.interp_local.specs.FrameRows.{way_to};
ghost use Rattle.interp_local.specs.Places as places;
ghost use Rattle.interp_local.specs.Places.{first_at};
ghost use Rattle.interp_local.specs.QuickCode.{IsCodeOf};
ghost use Rattle.interp_local.specs.Runs.{HasPc, IsAt, IsStep, Leads, StaysAt, step_by};

use crate::execution::execute;
use crate::fetched::Fetched;
use crate::places::place;
use crate::prepared::Prepared;
use crate::prepared_code::PreparedCode;
use crate::quick_code::quick_at;
use crate::staying::does_stay;
use crate::switching::switch_target;
use link_model::Lookups;
use opcodes::Instr;
use slot_block::StoredSlot;
use superinstructions::{Turn, is_left, make_quick};

/// What stays the same in a frame: its method, the number of its local variables, and how many operands it may have.
#[derive(Clone, Copy)]
pub(crate) struct FrameLayout {
    pub(crate) method: u32,
    pub(crate) locals: usize,
    pub(crate) room: usize,
}

/// Where an instruction leads: the index of the next one, and how many operands there are.
#[derive(Clone, Copy)]
pub(crate) struct Position {
    pub(crate) index: usize,
    pub(crate) used: usize,
}

/// What a step does in its frame: how many operands it leaves and how many instructions it executed.
#[derive(Clone, Copy)]
pub(crate) enum Step {
    /// Nothing, since the instruction doesn't stay in its frame.
    Leave,
    /// It leads to the instruction that follows those that were executed.
    Next {
        used: usize,
        count: usize,
    },
    /// It leads to the instruction with this index.
    Jump {
        used: usize,
        index: usize,
        count: usize,
    },
}

// The instruction with an index.
#[inline(always)]
fn instr_at(code: &[Instr], at: usize) -> &Instr
    requires { at < length code.now }
    ensures { slice_get code.now at ≡ Some result.now }
{
    &code[at]
}

/// The pc of the instruction with an index.
#[inline(always)]
pub(crate) fn pc_at(code: &[Instr], at: usize) -> u32
    requires { at < length code.now }
    ensures { (pc : ℕ) → first_at pc code.now ≡ Some at → result ≡ pc }
{
    code[at].pc
}

/// The instruction with an index, and what its constant means.
#[inline(always)]
pub(crate) fn fetch_at<'a>(code: &PreparedCode<'a>, at: usize) -> Fetched<'a>
    requires { at < length code.now.instrs.now }
    ensures instr { slice_get code.now.instrs.now at ≡ Some result.instr.now }
    ensures resolution { result.resolution.now
        ≡ places.resolution_at (meanings code.now.resolutions) at }
{
    Fetched {
        instr: instr_at(code.instrs, at),
        resolution: code.resolutions.at(at),
    }
}

// The pc after an instruction.
#[inline(always)]
fn next_pc(next: u32, target: Option<i64>) -> u32
    requires { HasPc next target }
    ensures { pc_after next (way_to target) ≡ Some result }
{
    match target {
        None => next,
        Some(pc) => pc as u32,
    }
}

/// Whether the instruction with an index stays in its frame.
#[inline(always)]
pub(crate) fn stays_at<L: Lookups>(
    p: &Prepared<L>,
    code: &PreparedCode,
    frame: &FrameLayout,
    at: usize,
    used: usize,
    slots: &[StoredSlot],
) -> bool
    requires typed { AreTyped p.now }
    requires code { IsCodeOf p.now frame.now.method code.now }
    requires fits { frame.now.locals + frame.now.room ≤ length slots.now }
    requires at { IsAt p.now code.now.instrs.now frame.now slots.now used at }
    ensures { StaysAt p.now code.now.instrs.now frame.now slots.now used at result }
{
    let instr = instr_at(code.instrs, at);
    does_stay(&instr.op, slots, frame.locals, used)
}

/// Executes the instruction with an index, which stays in its frame.
#[inline(always)]
pub(crate) fn execute_at<L: Lookups>(
    p: &Prepared<L>,
    code: &PreparedCode,
    frame: &FrameLayout,
    at: usize,
    used: usize,
    slots: &mut [StoredSlot],
) -> Position
    requires typed { AreTyped p.now }
    requires code { IsCodeOf p.now frame.now.method code.now }
    requires fits { frame.now.locals + frame.now.room ≤ length slots.old }
    requires at { IsAt p.now code.now.instrs.now frame.now slots.old used at }
    requires stays { StaysAt p.now code.now.instrs.now frame.now slots.old used at true }
    ensures { Leads p.now code.now.instrs.now frame.now slots.old used at
        slots.new result.used result.index 1 }
{
    let instr = instr_at(code.instrs, at);
    let resolution = code.resolutions.at(at);
    let left = execute(&instr.op, resolution, slots, frame.locals, used);
    let pc = next_pc(instr.next, left.target);
    Position {
        index: place(code.instrs, code.places, pc),
        used: left.used,
    }
}

// Where the instruction with an index leads, if it is a switch.
#[inline(always)]
fn switch_at<L: Lookups>(
    p: &Prepared<L>,
    code: &PreparedCode,
    frame: &FrameLayout,
    at: usize,
    used: usize,
    slots: &[StoredSlot],
) -> Option<Position>
    requires typed { AreTyped p.now }
    requires code { IsCodeOf p.now frame.now.method code.now }
    requires fits { frame.now.locals + frame.now.room ≤ length slots.now }
    requires at { IsAt p.now code.now.instrs.now frame.now slots.now used at }
    ensures { IfSome result (λ to. Leads p.now code.now.instrs.now frame.now slots.now used at
        slots.now to.used to.index 1) }
{
    let instr = instr_at(code.instrs, at);
    match switch_target(&instr.op, slots, frame.locals, used) {
        Some(target) => {
            let pc = next_pc(instr.next, Some(target));
            Some(Position {
                index: place(code.instrs, code.places, pc),
                used: used - 1,
            })
        }
        None => None,
    }
}

// The step of a quick instruction, or of a pair.
#[inline(always)]
fn step_of(turn: Turn) -> Step
    ensures { result ≡ step_by turn.used turn.count turn.jump }
{
    match turn.jump {
        None => Step::Next {
            used: turn.used,
            count: turn.count,
        },
        Some(to) => Step::Jump {
            used: turn.used,
            index: to as usize,
            count: turn.count,
        },
    }
}

/// The step of the instruction with an index, or of it and the next one where they are a pair.
#[inline(always)]
pub(crate) fn step_at<L: Lookups>(
    p: &Prepared<L>,
    code: &PreparedCode,
    frame: &FrameLayout,
    at: usize,
    used: usize,
    slots: &mut [StoredSlot],
) -> Step
    requires typed { AreTyped p.now }
    requires code { IsCodeOf p.now frame.now.method code.now }
    requires fits { frame.now.locals + frame.now.room ≤ length slots.old }
    requires at { IsAt p.now code.now.instrs.now frame.now slots.old used at }
    ensures { IsStep p.now code.now.instrs.now frame.now slots.old used at slots.new result }
{
    let quick = quick_at(code.quicks, at);
    if is_left(quick) {
        if let Some(Position { index, used }) = switch_at(p, code, frame, at, used, slots) {
            return Step::Jump {
                used,
                index,
                count: 1,
            };
        }
        if !stays_at(p, code, frame, at, used, slots) {
            return Step::Leave;
        }
        let Position { index, used } = execute_at(p, code, frame, at, used, slots);
        return Step::Jump {
            used,
            index,
            count: 1,
        };
    }
    let turn = make_quick(quick, slots, frame.locals, used);
    step_of(turn)
}

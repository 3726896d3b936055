//! The local instructions of a thread.

ghost use Rattle.std.specs.Prelude.{◌≡◌, ◌≤◌, Some, IsTrue};
ghost use Rattle.ref_model.specs.LocalRows.{rows};
ghost use Rattle.frame_soundness.specs.Typed.{Typed};
ghost use Rattle.interp_local.specs.Fetched.{IsTopAt};
ghost use Rattle.interp_local.specs.Runs.{stays_on};
ghost use Rattle.interp_local.specs.Stops.{is_slice, steps_of};
ghost use Rattle.interp_local.specs.Tops.{IsTop, StopsSo};

use crate::fetched::Fetched;
use crate::frame_run::{Stop, run_frame};
use crate::frame_step::FrameLayout;
use crate::prepared::Prepared;
use continuation::Mounted;
use link_model::Lookups;

/// Where a run of local instructions stopped, after how many.
#[derive(Clone, Copy)]
pub enum Local {
    /// Before an instruction that doesn't stay in its frame: an event, an invocation, a return, or a division by 0.
    Need { steps: u32 },
    /// Before one that stays there, since as many were executed as were allowed.
    Slice { steps: u32 },
}

/// A run of the top frame: how many instructions were executed, whether the next one stays in the frame, and which one that is.
#[derive(Clone, Copy)]
pub struct TopRun<'a> {
    pub steps: u32,
    pub stays: bool,
    pub next: Fetched<'a>,
}

/// The top frame, and where its slots begin among those of all frames.
#[derive(Clone, Copy)]
pub(crate) struct TopFrame {
    pub(crate) layout: FrameLayout,
    pub(crate) pc: u32,
    pub(crate) operands: usize,
    pub(crate) base: usize,
}

#[inline(always)]
fn top_frame<L: Lookups>(p: &Prepared<L>, m: &Mounted) -> TopFrame
    requires { Typed p.now m.now.stack.frames }
    ensures { IsTop p.now m.now.stack result }
{
    let top = m.top();
    let layout = FrameLayout {
        method: top.method,
        locals: top.locals as usize,
        room: p.max_stack(top.method) as usize,
    };
    TopFrame {
        layout,
        pc: top.pc,
        operands: top.operands as usize,
        base: m.base(),
    }
}

// Executes instructions of the top frame, at most `most`, as long as they stay in it.
#[inline(always)]
fn run_top<'a, L: Lookups>(p: &'a Prepared<L>, m: &mut Mounted, most: u32) -> Stop<'a>
    requires { Typed p.now m.old.stack.frames }
    ensures stops { StopsSo p.now m.old.stack.frames m.new.stack.frames result }
    ensures few { result.steps ≤ most }
    ensures slice { IsTrue result.stays → result.steps ≡ most }
    ensures thread { m.new.thread ≡ m.old.thread }
{
    let top = top_frame(p, m);
    let slots = m.slots();
    let slots = &mut slots[top.base..];
    let stop = run_frame(p, top.layout, top.pc, top.operands, slots, most);
    m.set_pc_and_operands(stop.pc, stop.used as u16);
    stop
}

/// Executes local instructions as `run_local` does. The answer has the instruction before which it stopped.
pub fn run_and_fetch<'a, L: Lookups>(p: &'a Prepared<L>, m: &mut Mounted, most: u32) -> TopRun<'a>
    requires typed { Typed p.now m.old.stack.frames }
    ensures rows { rows p.now result.steps m.old.stack.frames ≡ Some m.new.stack.frames }
    ensures typed { Typed p.now m.new.stack.frames }
    ensures few { result.steps ≤ most }
    ensures stays { result.stays ≡ stays_on p.now m.new.stack.frames }
    ensures slice { IsTrue result.stays → result.steps ≡ most }
    ensures next { IsTopAt p.now m.new.stack.frames result.next }
    ensures thread { m.new.thread ≡ m.old.thread }
{
    let stop = run_top(p, m, most);
    TopRun {
        steps: stop.steps,
        stays: stop.stays,
        next: stop.next,
    }
}

/// Executes local instructions of a thread (JVMS 6.5), at most `most`, as long as they stay in its top frame: pushes and loads, arithmetic
/// but a division by 0, stack moves, stores, branches and switches. This takes no memory. Invocations and returns stop it.
pub fn run_local<L: Lookups>(p: &Prepared<L>, m: &mut Mounted, most: u32) -> Local
    requires typed { Typed p.now m.old.stack.frames }
    ensures rows { rows p.now (steps_of result) m.old.stack.frames ≡ Some m.new.stack.frames }
    ensures typed { Typed p.now m.new.stack.frames }
    ensures few { steps_of result ≤ most }
    ensures stopped { is_slice result ≡ stays_on p.now m.new.stack.frames }
    ensures slice { IsTrue (is_slice result) → steps_of result ≡ most }
    ensures thread { m.new.thread ≡ m.old.thread }
{
    let stop = run_top(p, m, most);
    if stop.stays {
        Local::Slice { steps: stop.steps }
    } else {
        Local::Need { steps: stop.steps }
    }
}

//! Switches (JVMS 6.5: tableswitch, lookupswitch), on the slots of a frame.

ghost use Rattle.std.specs.Prelude.{◌+◌, ◌≤◌, IfSome, length};
ghost use Rattle.interp_local.specs.FrameRows.{CanSwitch, SwitchesTo};

use frame_instructions::{lookup_switch, table_switch};
use opcodes::Op;
use slot_block::StoredSlot;

/// The pc to which a switch leads for the int on top. `None`: it is another instruction.
#[inline(always)]
pub(crate) fn switch_target(
    op: &Op,
    slots: &[StoredSlot],
    locals: usize,
    used: usize,
) -> Option<i64>
    requires fits { locals + used ≤ length slots.now }
    requires operands { CanSwitch op.now slots.now locals used }
    ensures { IfSome result (SwitchesTo op.now slots.now locals used) }
{
    match op {
        Op::TableSwitch(s) => Some(table_switch(s.get(), slots, locals, used)),
        Op::LookupSwitch(s) => Some(lookup_switch(s.get(), slots, locals, used)),
        _ => None,
    }
}

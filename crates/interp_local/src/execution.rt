//! Instructions that stay in their frame (JVMS 6.5), executed on its slots.

ghost use Rattle.std.specs.Prelude.{◌+◌, ◌-◌, ◌≤◌, length, if◌then◌else◌, Some, None, ◌≡◌};
ghost use Rattle.instruction_rows.specs.Table as table;
ghost use Rattle.frame_instructions.specs.SlotRows.{contents_at};
ghost use Rattle.superinstructions.specs.FrameSlots.{Fits, Leaves};
ghost use Rattle.interp_local.specs.FrameRows.{frame_row, way_to};

use crate::constants::constant;
use frame_instructions::{
    if_ints, if_null, if_references, if_zero, increase, lookup_switch, push_int, push_long,
    table_switch,
};
use link_model::Resolution;
use opcodes::Op;
use slot_block::StoredSlot;
use superinstructions::{load, make_simple, store};

/// How many operands an instruction leaves, and the pc of its target where it goes to one.
#[derive(Clone, Copy)]
pub(crate) struct Left {
    pub(crate) used: usize,
    pub(crate) target: Option<i64>,
}

#[inline(always)]
fn on(used: usize) -> Left
    ensures { result ≡ record { used = used; target = None } }
{
    Left { used, target: None }
}

#[inline(always)]
fn branch(taken: bool, target: i64, used: usize) -> Left
    ensures { result ≡ record { used = used; target = if taken then Some target else None } }
{
    Left {
        used,
        target: if taken { Some(target) } else { None },
    }
}

// Executes an instruction that stays in its frame.
#[inline(never)]
pub(crate) fn execute(
    op: &Op,
    resolution: &Resolution,
    slots: &mut [StoredSlot],
    locals: usize,
    used: usize,
) -> Left
    requires fits { locals + used ≤ length slots.old }
    requires made { Fits
        (frame_row (table.row op.now) resolution.now (contents_at slots.old locals used))
        locals slots.old }
    ensures { Leaves
        (frame_row (table.row op.now) resolution.now (contents_at slots.old locals used))
        slots.new locals result.used (way_to result.target) }
{
    match op {
        Op::Simple(simple) => on(make_simple(*simple, slots, locals, used)),
        Op::PushInt(n) => on(push_int(slots, locals, used, i32::from(*n))),
        Op::PushLong(n) => on(push_long(slots, locals, used, i64::from(*n))),
        Op::PushConstant(_) => on(constant(*resolution, slots, locals, used)),
        Op::PushWideConstant(_) => on(constant(*resolution, slots, locals, used)),
        Op::Load(kind, n) => on(load(*kind, *n, slots, locals, used)),
        Op::Store(kind, n) => on(store(*kind, *n, slots, locals, used)),
        Op::Increment(n, amount) => {
            increase(slots, locals, used, *n as usize, *amount);
            on(used)
        }
        Op::IfZero(order, target) => branch(
            if_zero(*order, slots, locals, used),
            *target,
            used - 1,
        ),
        Op::IfInts(order, target) => branch(
            if_ints(*order, slots, locals, used),
            *target,
            used - 2,
        ),
        Op::IfReferences(s, target) => branch(
            if_references(*s, slots, locals, used),
            *target,
            used - 2,
        ),
        Op::IfNull(s, target) => branch(if_null(*s, slots, locals, used), *target, used - 1),
        Op::Goto(target) => branch(true, *target, used),
        Op::TableSwitch(s) => branch(true, table_switch(s.get(), slots, locals, used), used - 1),
        Op::LookupSwitch(s) => branch(true, lookup_switch(s.get(), slots, locals, used), used - 1),
        Op::GetStatic(_)
        | Op::PutStatic(_)
        | Op::GetField(_)
        | Op::PutField(_)
        | Op::InvokeVirtual(_)
        | Op::InvokeSpecial(_)
        | Op::InvokeStatic(_)
        | Op::InvokeInterface(_, _)
        | Op::InvokeDynamic(_)
        | Op::New(_)
        | Op::NewArray(_)
        | Op::ANewArray(_)
        | Op::MultiANewArray(_, _)
        | Op::CheckCast(_)
        | Op::InstanceOf(_)
        | Op::Jsr(_)
        | Op::Ret(_)
        | Op::Floating(_) => unreachable!(),
    }
}

//! The operands of the top frame: read at a depth, dropped, and a result pushed in their place (JVMS 2.6.2).

ghost use Rattle.std.specs.Prelude.{◌≡◌, ◌+◌, ◌≤◌, IsSome, List, Some, drop, length};
ghost use Rattle.opcodes.specs.declared.op.ValueKind.TheVariants as kinds;
ghost use Rattle.instruction_rows.specs.declared.value.Slot.{Slot};
ghost use Rattle.instruction_rows.specs.Kinds.{held, value};
ghost use Rattle.instruction_rows.specs.SlotEffect.{pushed};
ghost use Rattle.frames.specs.Frames.{top_room};
ghost use Rattle.ref_model.specs.Operands as spec;
ghost use Rattle.ref_model.specs.Operands.{HasOperand};
ghost use Rattle.heap_instructions.specs.Operands.{operands, ChangesOperands, HasTop, IsOperand, IsPopped};
ghost use Rattle.heap_instructions.specs.Outcomes.{IsGiven, KeptUnlessDone};

use crate::outcome::Outcome;
use continuation::Mounted;
use instruction_rows::{Slot, Value};
use opcodes::ValueKind;

// The int that a slot holds.
#[inline(always)]
fn int_in(slot: Slot) -> i32
    requires { IsSome (held kinds.Int slot) }
    ensures { held kinds.Int slot ≡ Some result }
{
    match slot {
        Slot::One(Value::Int(n)) => n,
        Slot::One(Value::Long(_) | Value::Null | Value::Ref(_)) | Slot::Second => unreachable!(),
    }
}

#[inline(always)]
fn long_in(slot: Slot) -> i64
    requires { IsSome (held kinds.Long slot) }
    ensures { held kinds.Long slot ≡ Some result }
{
    match slot {
        Slot::One(Value::Long(n)) => n,
        Slot::One(Value::Int(_) | Value::Null | Value::Ref(_)) | Slot::Second => unreachable!(),
    }
}

#[inline(always)]
fn reference_in(slot: Slot) -> Option<u32>
    requires { IsSome (held kinds.Reference slot) }
    ensures { held kinds.Reference slot ≡ Some result }
{
    match slot {
        Slot::One(Value::Ref(o)) => Some(o),
        Slot::One(Value::Null) => None,
        Slot::One(Value::Int(_) | Value::Long(_)) | Slot::Second => unreachable!(),
    }
}

/// The int at a depth.
#[inline(always)]
pub fn int_operand(mounted: &Mounted, depth: u16) -> i32
    requires { HasOperand kinds.Int depth (operands mounted.now) }
    ensures read { IsOperand kinds.Int result depth (operands mounted.now) }
    ensures within { depth + 1 ≤ length (operands mounted.now) }
{
    int_in(mounted.operand(depth))
}

/// The long at a depth, which is that of its upper slot.
#[inline(always)]
pub fn long_operand(mounted: &Mounted, depth: u16) -> i64
    requires { HasOperand kinds.Long depth (operands mounted.now) }
    ensures read { IsOperand kinds.Long result depth (operands mounted.now) }
    ensures within { depth + 2 ≤ length (operands mounted.now) }
{
    prove!(depth < mounted.top().operands);
    long_in(mounted.operand(depth + 1))
}

/// The reference at a depth, `None` for null.
#[inline(always)]
pub fn reference_operand(mounted: &Mounted, depth: u16) -> Option<u32>
    requires { HasOperand kinds.Reference depth (operands mounted.now) }
    ensures read { IsOperand kinds.Reference result depth (operands mounted.now) }
    ensures within { depth + 1 ≤ length (operands mounted.now) }
{
    reference_in(mounted.operand(depth))
}

// A reference as a value.
#[inline(always)]
fn reference_value(reference: Option<u32>) -> Value
    ensures { result ≡ value kinds.Reference reference }
{
    match reference {
        Some(o) => Value::Ref(o),
        None => Value::Null,
    }
}

/// The value of a kind at a depth.
#[inline(always)]
pub fn value_operand(mounted: &Mounted, kind: ValueKind, depth: u16) -> Value
    requires { HasOperand kind depth (operands mounted.now) }
    ensures read { IsPopped kind result depth (operands mounted.now) }
    ensures within { depth + spec.width kind ≤ length (operands mounted.now) }
{
    match kind {
        ValueKind::Int => Value::Int(int_operand(mounted, depth)),
        ValueKind::Long => Value::Long(long_operand(mounted, depth)),
        ValueKind::Reference => reference_value(reference_operand(mounted, depth)),
    }
}

/// Drops the topmost operands.
#[inline(always)]
pub fn drop_operands(mounted: &mut Mounted, count: u16)
    requires { count ≤ length (operands mounted.old) }
    ensures operands { operands mounted.new ≡ drop count (operands mounted.old) }
    ensures only { ChangesOperands mounted.old mounted.new }
{
    mounted.drop_operands(count);
}

/// Pushes a value, where it has room (JVMS 2.6.2).
#[inline(always)]
pub fn push_value(mounted: &mut Mounted, value: Value)
    requires frame { HasTop mounted.old }
    requires room { length (pushed value (operands mounted.old))
        ≤ top_room mounted.old.stack.frames }
    ensures operands { operands mounted.new ≡ pushed value (operands mounted.old) }
    ensures only { ChangesOperands mounted.old mounted.new }
{
    mounted.push(Slot::One(value));
    if matches!(value, Value::Long(_)) {
        mounted.push(Slot::Second);
    }
}

/// How many slots a value takes on the operand stack (JVMS 2.6.2).
#[inline(always)]
pub fn slots_of(value: Value) -> u16
    ensures { (stack : List Slot) → length (pushed value stack) ≡ result + length stack }
{
    match value {
        Value::Long(_) => 2,
        _ => 1,
    }
}

/// Replaces the topmost operands by a value. Undefined if the value has no room; then nothing changes.
#[inline(always)]
pub fn give(mounted: &mut Mounted, count: u16, value: Value) -> Outcome
    requires top { HasTop mounted.old }
    requires count { count ≤ length (operands mounted.old) }
    ensures given { IsGiven count value mounted.old mounted.new result }
    ensures kept { KeptUnlessDone result mounted.old mounted.new }
    ensures only { ChangesOperands mounted.old mounted.new }
{
    let room = u32::from(mounted.operand_room()) + u32::from(count);
    if room < u32::from(slots_of(value)) {
        return Outcome::Undefined;
    }
    mounted.drop_operands(count);
    push_value(mounted, value);
    Outcome::Done
}

/// How many slots a value of a kind takes on the operand stack (JVMS 2.6.2).
#[inline(always)]
pub fn width(kind: ValueKind) -> u16
    ensures width { result ≡ spec.width kind }
    ensures most { result ≤ 2 }
{
    match kind {
        ValueKind::Long => 2,
        ValueKind::Int | ValueKind::Reference => 1,
    }
}

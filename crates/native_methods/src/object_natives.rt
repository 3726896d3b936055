//! The native methods of java.lang.Object.

ghost use Rattle.std.specs.Prelude.{◌≡◌, ◌++◌, codes, pos, Some, IfOk};
ghost use Rattle.std.specs.Int.{int_wrap, w32};
ghost use Rattle.opcodes.specs.declared.op.ValueKind.TheVariants as kinds;
ghost use Rattle.instruction_rows.specs.Comparisons as comparisons;
ghost use Rattle.ref_model.specs.Classes as classes;
ghost use Rattle.ref_model.specs.NativeRows as rows;
ghost use Rattle.ref_model.specs.ObjectNatives as spec;
ghost use Rattle.ref_model.specs.Texts.{hex_text as hex_of};
ghost use Rattle.native_methods.specs.Arguments.{to_two};
ghost use Rattle.native_methods.specs.NativeStates.{Answers, KeptIfThrownOrAsked};

use crate::answer::Answer;
use crate::class_names::class_name;
use crate::state::{NativeState, new_text};
use crate::texts::hex_text;
use crate::world::NativeWorld;
use heap_instructions::class_number;
use instruction_rows::Value;
use items::NoMemory;
use ref_model::Exception;
use std::alloc::Global;

// Whether two references are null, or of the same object.
fn same_reference(a: Option<u32>, b: Option<u32>) -> bool
    ensures { result ≡ comparisons.same_reference a b }
{
    match (a, b) {
        (None, None) => true,
        (Some(a), Some(b)) => a == b,
        _ => false,
    }
}

/// A boolean as an int.
pub(crate) fn boolean(b: bool) -> Value
    ensures { result ≡ spec.boolean b }
{
    Value::Int(i32::from(b))
}

/// equals(Object): the same object.
pub(crate) fn object_equals(state: &NativeState, this: Option<u32>, other: Option<u32>) -> Answer
    ensures { Answers (λ r. to_two kinds.Reference other this (Some (spec.object_equals r)))
        state.now state.now result }
{
    Answer::Gives(boolean(same_reference(this, other)))
}

// The number of an object as an int.
fn number_as_int(o: u32) -> i32
    ensures { result ≡ int_wrap w32 (pos o) }
{
    o.cast_signed()
}

/// hashCode(): the number of the object.
pub(crate) fn identity_hash(state: &NativeState, this: Option<u32>) -> Answer
    ensures { Answers (λ r. Some (spec.identity_hash r this)) state.now state.now result }
{
    match this {
        Some(o) => Answer::Gives(Value::Int(number_as_int(o))),
        None => Answer::Throws(Exception::NullPointerException),
    }
}

// The name of a class, `@`, and a hash code.
fn description<W: NativeWorld>(
    alloc: Global,
    world: &W,
    class: u32,
    hash: i32,
) -> Result<Vec<u16>, NoMemory>
    ensures { IfOk result (λ text.
        text.items ≡ classes.class_name (W.world world.now) class ++ codes "@" ++ hex_of hash) }
{
    let mut text = class_name(alloc, world, class)?;
    text.push(64)?;
    text.extend_from_slice(hex_text(alloc, hash)?.as_slice())?;
    Ok(text)
}

/// The text of an object whose hash code is this: the name of its class, `@`, and the hash code.
pub(crate) fn described<W: NativeWorld>(
    alloc: Global,
    world: &W,
    state: &mut NativeState,
    this: Option<u32>,
    hash: i32,
) -> Result<Answer, NoMemory>
    ensures answer { IfOk result (λ a. Answers
        (λ r. Some (spec.described (W.world world.now) r this (hex_of hash)))
        state.old state.new a) }
    ensures kept { IfOk result (λ a. KeptIfThrownOrAsked a state.old state.new) }
{
    let Some(o) = this else {
        return Ok(Answer::Throws(Exception::NullPointerException));
    };
    match class_number(world, &state.heap, o) {
        Some(class) => {
            let text = description(alloc, world, class, hash)?;
            new_text(state, text.as_slice())
        }
        None => Ok(Answer::Throws(Exception::VerifyError)),
    }
}

//! The native methods of java.lang.StringBuilder. A builder has one field, the String of its text so far.

ghost use Rattle.std.specs.Prelude.{◌≡◌, Some, IfOk};
ghost use Rattle.std.specs.Option.{option_copied};
ghost use Rattle.opcodes.specs.declared.op.ValueKind.TheVariants as kinds;
ghost use Rattle.ref_model.specs.BuilderNatives as spec;
ghost use Rattle.native_methods.specs.Arguments.{to_one, to_two};
ghost use Rattle.native_methods.specs.NativeStates.{Answers, KeptIfThrownOrAsked, builder_units};

use crate::answer::Answer;
use crate::state::{NativeState, joined, make_text, new_text, set_value, text_at};
use crate::texts::null_text;
use heap_instructions::value_in;
use instruction_rows::Value;
use items::NoMemory;
use ref_model::Exception;
use std::alloc::Global;

// The units of a builder's text; null is the empty text. `None`: there is no such builder.
fn builder_text(state: &NativeState, o: u32) -> Option<&[u16]>
    ensures { option_copied result ≡ builder_units state.now.heap.objects o }
{
    match value_in(&state.heap, o, 0)? {
        Value::Null => Some(&[]),
        Value::Ref(text) => text_at(state, text),
        Value::Int(_) | Value::Long(_) => None,
    }
}

/// append: the builder has a new String with these units more, and is the result.
pub(crate) fn append(
    alloc: Global,
    state: &mut NativeState,
    this: Option<u32>,
    units: &[u16],
) -> Result<Answer, NoMemory>
    ensures answer { IfOk result (λ a.
        Answers (λ r. Some (spec.appended r this units.now)) state.old state.new a) }
    ensures kept { IfOk result (λ a. KeptIfThrownOrAsked a state.old state.new) }
{
    let Some(o) = this else {
        return Ok(Answer::Throws(Exception::NullPointerException));
    };
    let Some(before) = builder_text(state, o) else {
        return Ok(Answer::Throws(Exception::VerifyError));
    };
    let text = joined(alloc, before, units)?;
    let Some(new) = make_text(state, text.as_slice())? else {
        return Ok(Answer::Throws(Exception::OutOfMemoryError));
    };
    if !set_value(state, o, 0, Value::Ref(new)) {
        return Ok(Answer::Undefined);
    }
    Ok(Answer::Gives(Value::Ref(o)))
}

/// append(String), where null is its own text.
pub(crate) fn append_string(
    alloc: Global,
    state: &mut NativeState,
    this: Option<u32>,
    text: Option<u32>,
) -> Result<Answer, NoMemory>
    ensures answer { IfOk result (λ a. Answers
        (λ r. to_two kinds.Reference text this (Some (spec.append_string r)))
        state.old state.new a) }
    ensures kept { IfOk result (λ a. KeptIfThrownOrAsked a state.old state.new) }
{
    let Some(o) = text else {
        return append(alloc, state, this, null_text());
    };
    let Some(units) = text_at(state, o) else {
        return Ok(Answer::Throws(Exception::VerifyError));
    };
    let units = Vec::from_slice(alloc, units)?;
    append(alloc, state, this, units.as_slice())
}

/// length(). It is undefined of a text with more units than an int counts.
pub(crate) fn builder_length(state: &NativeState, this: Option<u32>) -> Answer
    ensures { Answers (λ r. to_one kinds.Reference this (Some (spec.builder_length r)))
        state.now state.now result }
{
    let Some(o) = this else {
        return Answer::Throws(Exception::NullPointerException);
    };
    let Some(units) = builder_text(state, o) else {
        return Answer::Throws(Exception::VerifyError);
    };
    match i32::try_from(units.len()) {
        Ok(len) => Answer::Gives(Value::Int(len)),
        Err(_) => Answer::Undefined,
    }
}

/// toString(): a new String.
pub(crate) fn builder_to_string(
    alloc: Global,
    state: &mut NativeState,
    this: Option<u32>,
) -> Result<Answer, NoMemory>
    ensures answer { IfOk result (λ a. Answers
        (λ r. to_one kinds.Reference this (Some (spec.builder_to_string r)))
        state.old state.new a) }
    ensures kept { IfOk result (λ a. KeptIfThrownOrAsked a state.old state.new) }
{
    let Some(o) = this else {
        return Ok(Answer::Throws(Exception::NullPointerException));
    };
    let Some(units) = builder_text(state, o) else {
        return Ok(Answer::Throws(Exception::VerifyError));
    };
    let units = Vec::from_slice(alloc, units)?;
    new_text(state, units.as_slice())
}

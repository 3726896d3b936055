//! The native methods of java.lang.String.

ghost use Rattle.std.specs.Prelude.{◌≡◌, Some, IfOk};
ghost use Rattle.opcodes.specs.declared.op.ValueKind.TheVariants as kinds;
ghost use Rattle.ref_model.specs.StringNatives as spec;
ghost use Rattle.native_methods.specs.Arguments.{to_one, to_two};
ghost use Rattle.native_methods.specs.NativeStates.{Answers, KeptIfThrownOrAsked, other_units};

use crate::answer::Answer;
use crate::object_natives::boolean;
use crate::state::{NativeState, joined, new_text, text_at};
use crate::texts::text_hash;
use instruction_rows::Value;
use items::NoMemory;
use ref_model::Exception;
use std::alloc::Global;

/// length(). It is undefined of a String with more units than an int counts.
pub(crate) fn string_length(state: &NativeState, this: Option<u32>) -> Answer
    ensures { Answers (λ r. to_one kinds.Reference this (Some (spec.string_length r)))
        state.now state.now result }
{
    let Some(o) = this else {
        return Answer::Throws(Exception::NullPointerException);
    };
    let Some(units) = text_at(state, o) else {
        return Answer::Throws(Exception::VerifyError);
    };
    match i32::try_from(units.len()) {
        Ok(len) => Answer::Gives(Value::Int(len)),
        Err(_) => Answer::Undefined,
    }
}

// The unit at an index. `None`: the index is outside.
fn unit_at(units: &[u16], index: i32) -> Option<u16>
    ensures { result ≡ spec.unit_at units.now index }
{
    match usize::try_from(index) {
        Ok(n) => units.get(n).copied(),
        Err(_) => None,
    }
}

/// charAt(int).
pub(crate) fn string_char_at(state: &NativeState, this: Option<u32>, index: i32) -> Answer
    ensures { Answers (λ r. to_two kinds.Int index this (Some (spec.string_char_at r)))
        state.now state.now result }
{
    let Some(o) = this else {
        return Answer::Throws(Exception::NullPointerException);
    };
    let Some(units) = text_at(state, o) else {
        return Answer::Throws(Exception::VerifyError);
    };
    match unit_at(units, index) {
        Some(unit) => Answer::Gives(Value::Int(i32::from(unit))),
        None => Answer::Throws(Exception::StringIndexOutOfBoundsException),
    }
}

/// isEmpty().
pub(crate) fn string_is_empty(state: &NativeState, this: Option<u32>) -> Answer
    ensures { Answers (λ r. to_one kinds.Reference this (Some (spec.string_is_empty r)))
        state.now state.now result }
{
    let Some(o) = this else {
        return Answer::Throws(Exception::NullPointerException);
    };
    match text_at(state, o) {
        Some(units) => Answer::Gives(boolean(units.len() == 0)),
        None => Answer::Throws(Exception::VerifyError),
    }
}

// Whether another object is a String of the same units.
fn is_text(state: &NativeState, units: &[u16], other: Option<u32>) -> bool
    ensures { result ≡ spec.is_text units.now (other_units state.now.heap.objects other) }
{
    let Some(o) = other else {
        return false;
    };
    match text_at(state, o) {
        Some(others) => units == others,
        None => false,
    }
}

/// equals(Object): a String of the same units.
pub(crate) fn string_equals(state: &NativeState, this: Option<u32>, other: Option<u32>) -> Answer
    ensures { Answers (λ r. to_two kinds.Reference other this (Some (spec.string_equals r)))
        state.now state.now result }
{
    let Some(o) = this else {
        return Answer::Throws(Exception::NullPointerException);
    };
    match text_at(state, o) {
        Some(units) => Answer::Gives(boolean(is_text(state, units, other))),
        None => Answer::Throws(Exception::VerifyError),
    }
}

/// hashCode().
pub(crate) fn string_hash_code(state: &NativeState, this: Option<u32>) -> Answer
    ensures { Answers (λ r. to_one kinds.Reference this (Some (spec.string_hash_code r)))
        state.now state.now result }
{
    let Some(o) = this else {
        return Answer::Throws(Exception::NullPointerException);
    };
    match text_at(state, o) {
        Some(units) => Answer::Gives(Value::Int(text_hash(units))),
        None => Answer::Throws(Exception::VerifyError),
    }
}

/// toString(): this String.
pub(crate) fn string_to_string(state: &NativeState, this: Option<u32>) -> Answer
    ensures { Answers (λ r. to_one kinds.Reference this (Some (spec.string_to_string r)))
        state.now state.now result }
{
    let Some(o) = this else {
        return Answer::Throws(Exception::NullPointerException);
    };
    match text_at(state, o) {
        Some(_) => Answer::Gives(Value::Ref(o)),
        None => Answer::Throws(Exception::VerifyError),
    }
}

/// concat(String): this String where the other is empty, else a new one.
pub(crate) fn string_concat(
    alloc: Global,
    state: &mut NativeState,
    this: Option<u32>,
    other: Option<u32>,
) -> Result<Answer, NoMemory>
    ensures answer { IfOk result (λ a. Answers
        (λ r. to_two kinds.Reference other this (Some (spec.string_concat r)))
        state.old state.new a) }
    ensures kept { IfOk result (λ a. KeptIfThrownOrAsked a state.old state.new) }
{
    let Some(o) = this else {
        return Ok(Answer::Throws(Exception::NullPointerException));
    };
    let Some(units) = text_at(state, o) else {
        return Ok(Answer::Throws(Exception::VerifyError));
    };
    let Some(p) = other else {
        return Ok(Answer::Throws(Exception::NullPointerException));
    };
    let Some(others) = text_at(state, p) else {
        return Ok(Answer::Throws(Exception::VerifyError));
    };
    if others.is_empty() {
        return Ok(Answer::Gives(Value::Ref(o)));
    }
    let text = joined(alloc, units, others)?;
    new_text(state, text.as_slice())
}

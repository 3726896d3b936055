//! The native methods of java.io.PrintStream, which write a text in UTF-8.

ghost use Rattle.std.specs.Prelude.{◌≡◌, ◌++◌, Some, IfOk, OnOk};
ghost use Rattle.ref_model.specs.NativeRows.{on_text_or};
ghost use Rattle.ref_model.specs.Printing as spec;
ghost use Rattle.ref_model.specs.Texts as texts;
ghost use Rattle.native_methods.specs.NativeStates.{Answers, KeptIfThrownOrAsked, printed};

use crate::answer::Answer;
use crate::state::{NativeState, text_at};
use crate::texts::null_text;
use crate::utf8::push_text;
use items::NoMemory;
use link_model::ERR_STREAM;
use ref_model::Exception;
use std::alloc::Global;

// Appends a text in UTF-8 and a line's end.
fn push_line(out: &mut Vec<u8>, units: &[u16]) -> Result<(), NoMemory>
    ensures { OnOk result
        (out.new.items ≡ out.old.items ++ texts.text_bytes (spec.line units.now)) }
{
    push_text(out, units)?;
    out.push(b'\n')?;
    Ok(())
}

// Appends a text in UTF-8, with or without a line's end.
fn push_printed(out: &mut Vec<u8>, units: &[u16], ends_line: bool) -> Result<(), NoMemory>
    ensures { OnOk result
        (out.new.items ≡ out.old.items ++ texts.text_bytes (printed ends_line units.now)) }
{
    if ends_line {
        push_line(out, units)
    } else {
        push_text(out, units)
    }
}

/// Writes a text to a stream, with or without a line's end.
pub(crate) fn print(
    state: &mut NativeState,
    stream: Option<u32>,
    units: &[u16],
    ends_line: bool,
) -> Result<Answer, NoMemory>
    ensures answer { IfOk result (λ a. Answers
        (λ r. Some (spec.written r stream (printed ends_line units.now))) state.old state.new a) }
    ensures kept { IfOk result (λ a. KeptIfThrownOrAsked a state.old state.new) }
{
    match stream {
        Some(ERR_STREAM) => {
            push_printed(&mut state.err, units, ends_line)?;
            Ok(Answer::Returns)
        }
        Some(_) => {
            push_printed(&mut state.out, units, ends_line)?;
            Ok(Answer::Returns)
        }
        None => Ok(Answer::Throws(Exception::NullPointerException)),
    }
}

/// The same of a String, where null is its own text.
pub(crate) fn print_string(
    alloc: Global,
    state: &mut NativeState,
    stream: Option<u32>,
    text: Option<u32>,
    ends_line: bool,
) -> Result<Answer, NoMemory>
    ensures answer { IfOk result (λ a. Answers
        (λ r. Some (on_text_or texts.null_text r text
        (λ units. spec.written r stream (printed ends_line units))))
        state.old state.new a) }
    ensures kept { IfOk result (λ a. KeptIfThrownOrAsked a state.old state.new) }
{
    let Some(o) = text else {
        return print(state, stream, null_text(), ends_line);
    };
    let Some(units) = text_at(state, o) else {
        return Ok(Answer::Throws(Exception::VerifyError));
    };
    let units = Vec::from_slice(alloc, units)?;
    print(state, stream, units.as_slice(), ends_line)
}

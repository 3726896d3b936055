//! Answers without a run.

ghost use Rattle.std.specs.Prelude.{◌≡◌, []};
ghost use Rattle.command_line.specs.Answers.{line_of, memory_line};
ghost use Rattle.command_line.specs.Commands.{names_meaning, no_names};
ghost use Rattle.answers.specs.Reports.{IsSameOrNoMemory, refusal_of};
ghost use Rattle.answers.specs.Taken.{TakesAnswer, TakesLine};

use crate::report::Report;
use crate::writing::put_both;
use command_line::{CommandError, NO_MEMORY, Names, USAGE, Why, make_line};
use jvm_edges::{Sink, put_all};
use std::alloc::Global;

/// The answer where memory ran out before any argument was looked at. Writes the answer's line to `err`.
pub fn no_memory<E: Sink>(alloc: Global, err: &mut E) -> Report
    ensures why { result.why ≡ Why.NoMemory }
    ensures history { result.history.items ≡ [] }
    ensures out_written { result.out_written ≡ 0 }
    ensures err_written { result.err_written ≡ 0 }
    ensures line { TakesLine E.contents E.faults err.old err.new memory_line [] 0 }
{
    let _ = put_all(err, NO_MEMORY);
    idle_report(alloc, Why::NoMemory)
}

/// The answer to arguments that give no command. Writes its line to `err`, and after that of Usage the text that says what is wrong.
pub fn refuse_arguments<E: Sink>(alloc: Global, error: CommandError, err: &mut E) -> Report
    ensures why { result.why ≡ refusal_of error }
    ensures history { result.history.items ≡ [] }
    ensures out_written { result.out_written ≡ 0 }
    ensures err_written { result.err_written ≡ 0 }
    ensures line { TakesAnswer E.contents E.faults err.old err.new (refusal_of error)
        (line_of no_names (refusal_of error)) 0 }
{
    match error {
        CommandError::Usage(text) => {
            put_both(err, USAGE, text.as_bytes());
            idle_report(alloc, Why::Usage)
        }
        CommandError::NoMemory => no_memory(alloc, err),
    }
}

/// Answers without a run, and writes the line.
pub fn refuse<E: Sink>(alloc: Global, why: Why, names: Names, err: &mut E) -> Report
    ensures why { IsSameOrNoMemory why result.why }
    ensures history { result.history.items ≡ [] }
    ensures out_written { result.out_written ≡ 0 }
    ensures line { TakesLine E.contents E.faults err.old err.new
        (line_of (names_meaning names.entry) result.why) [] 0 }
    ensures err_written { result.err_written ≡ 0 }
{
    idle_report(alloc, with_line(alloc, why, names, err))
}

// The report of an answer without a run.
fn idle_report(alloc: Global, why: Why) -> Report
    ensures why { result.why ≡ why }
    ensures history { result.history.items ≡ [] }
    ensures out_written { result.out_written ≡ 0 }
    ensures err_written { result.err_written ≡ 0 }
{
    Report {
        why,
        history: Vec::new(alloc),
        out_written: 0,
        err_written: 0,
    }
}

// Writes the answer's line, which may name an argument of the command. The result is the answer, or NoMemory where there was no memory for
// the line.
fn with_line<E: Sink>(alloc: Global, why: Why, names: Names, err: &mut E) -> Why
    ensures why { IsSameOrNoMemory why result }
    ensures line { TakesLine E.contents E.faults err.old err.new
        (line_of (names_meaning names.entry) result) [] 0 }
{
    match make_line(alloc, &why, names) {
        Ok(line) => {
            let _ = put_all(err, line.as_slice());
            why
        }
        Err(_) => {
            let _ = put_all(err, NO_MEMORY);
            Why::NoMemory
        }
    }
}

//! The run of a checked program, and the writing of what came of it.

ghost use Rattle.std.specs.Prelude.{◌≡◌, ◌⊎◌, ◌<◌, ◌++◌, [], ℕ, Bool, Some, IfOk, length};
ghost use Rattle.link_soundness.specs.Library.{HasLibrary};
ghost use Rattle.step_soundness.specs.OpeningLaws.{IsMain};
ghost use Rattle.ref_model.specs.Setting.{Setting};
ghost use Rattle.command_line.specs.Answers.{line_of};
ghost use Rattle.command_line.specs.Commands.{Names as Named, no_names as none_named};
ghost use Rattle.java_cli.specs.Headline as spec;
ghost use Rattle.answers.specs.Taken.{OutFaults, TakesLine, taken_of};
ghost use Rattle.answers.specs.Reports.{IsIdle};
ghost use Rattle.java_cli.specs.Headline.{IsRunOrNoMemory, OnNoRun, OnRun, RanProgram, Unwritten, Wrote, ending_answer, tail_of, trace_part};

use answers::{Report, no_memory, put_both, put_part};
use carrier::{Execution, run};
use class_world::World;
use command_line::{CANNOT_WRITE, SinkName, Which, Why, make_line, no_names};
use history::{Entry, print};
use items::{Items, NoMemory};
use jvm_edges::{Clock, Gate, Sink};
use ref_model::{Ending, Limits, Which as Limited};
use std::alloc::Global;
use std::sync::Wait;
use std::thread::Threads;
use verify_code::Checked;

/// Runs the main method with this number of a checked program, with these limits, on so many carriers, each in a thread of its own as far as
/// threads can be started. Writes the program's output to `out`; and to `err` its error output, then the answer's line, and then, where `trace` is
/// set, the text of the history. A carrier that finds nothing to do naps by the clock.
pub fn run_checked<R: Threads + Wait + Sync, O: Sink, E: Sink, C: Clock + Sync, G: Gate + Sync>(
    rt: &R,
    alloc: Global,
    checked: Checked<World>,
    main: u32,
    limits: Limits,
    carriers: u32,
    trace: bool,
    out: &mut O,
    err: &mut E,
    clock: &C,
    gate: &G,
) -> Report
    requires library { HasLibrary checked.program }
    requires main { IsMain checked main }
    requires carriers { 0 < carriers }
    requires threads { 0 < limits.threads }
    // Where the program ran, its history is legal, the answer is how it ends, and what is written is its output.
    ensures headline { OnRun result.why ((p : Setting) → p.world ≡ checked → p.main ≡ main
        → p.limits ≡ limits → RanProgram p (C.gives clock.now) carriers
        (O.contents out.old) (O.contents out.new)
        (λ text. TakesLine E.contents E.faults err.old err.new
        (tail_of none_named trace carriers result) text result.err_written) result) }
    // Otherwise memory ran out; the history is empty, and neither sink took any output of a program.
    ensures answer { IsRunOrNoMemory result.why }
    ensures idle { OnNoRun result.why (IsIdle (O.contents out.old) (O.contents out.new) result) }
    // No fault of `out` goes unanswered.
    ensures out_faults { OutFaults result.why (O.faults out.old) (O.faults out.new) }
    ensures line { OnNoRun result.why (TakesLine E.contents E.faults err.old err.new
        (line_of none_named result.why) [] result.err_written) }
{
    match run(rt, alloc, checked, main, limits, carriers, clock, gate) {
        Ok(execution) => deliver(alloc, execution, carriers, trace, out, err),
        Err(_) => no_memory(alloc, err),
    }
}

// The answer to a program with this ending, which lists these threads. A run has no other ending than the first seven.
fn answer_to(ending: Ending, listed: Vec<u32>) -> Why
    ensures { result ≡ ending_answer listed.items ending }
{
    match ending {
        Ending::Ended => Why::Ended,
        Ending::MainThrew => Why::MainThrew,
        Ending::Exited(status) => Why::Exited(status),
        Ending::Stalled => Why::Stalled {
            threads: Items::from(listed),
        },
        Ending::Starved => Why::Starved {
            threads: Items::from(listed),
        },
        Ending::Limit(Limited::Threads, number) => Why::Limit {
            which: Which::Threads,
            number,
        },
        Ending::Limit(Limited::Events, number) => Why::Limit {
            which: Which::Events,
            number,
        },
        Ending::Limit(Limited::Files | Limited::FileSize, _) | Ending::Halted => Why::NoMemory,
    }
}

// The answer to a run, where a sink that failed took the bytes of its number.
fn answer_with(why: Why, out_fault: Option<u64>, err_fault: Option<u64>) -> Why
    ensures { result ≡ spec.answer_with why out_fault err_fault }
{
    match (out_fault, err_fault) {
        (Some(written), _) => Why::SinkFault {
            which: SinkName::Out,
            written,
        },
        (None, Some(written)) => Why::SinkFault {
            which: SinkName::Err,
            written,
        },
        (None, None) => why,
    }
}

// The line of the answer: that of the program's ending, unless the out sink failed.
fn line_after<'a>(out_fault: Option<u64>, line: &'a [u8]) -> &'a [u8]
    ensures { result.now ≡ spec.line_after out_fault line.now }
{
    match out_fault {
        None => line,
        Some(_) => CANNOT_WRITE,
    }
}

// Puts the program's error output, and after all of it the line and the text of the history. The result is how many bytes of the error output
// the sink took, where it fails there.
fn put_faults<E: Sink>(err: &mut E, text: &[u8], line: &[u8], trace_text: &[u8]) -> Option<u64>
    ensures taken { TakesLine E.contents E.faults err.old err.new (line.now ++ trace_text.now)
        text.now (taken_of result (length text.now)) }
    ensures short { (n : ℕ) → result ≡ Some n → n < length text.now }
{
    match put_part(err, text) {
        Some(taken) => Some(taken),
        None => {
            put_both(err, line, trace_text);
            None
        }
    }
}

// Writes what a run left, the line, and the text of the history.
fn write_run<O: Sink, E: Sink>(
    history: Vec<Entry>,
    text: &[u8],
    error_text: &[u8],
    why: Why,
    line: &[u8],
    trace_text: &[u8],
    out: &mut O,
    err: &mut E,
) -> Report
    ensures { (names : Named) (trace : Bool) (carriers : ℕ) → line.now ≡ line_of names why
        → trace_text.now ≡ trace_part trace carriers history.items
        → Wrote O.contents O.faults out.old out.new E.contents E.faults err.old err.new
        names trace carriers history.items text.now error_text.now why result }
{
    let out_fault = put_part(out, text);
    let err_fault = put_faults(err, error_text, line_after(out_fault, line), trace_text);
    Report {
        why: answer_with(why, out_fault, err_fault),
        history,
        out_written: out_fault.unwrap_or(text.len() as u64),
        err_written: err_fault.unwrap_or(error_text.len() as u64),
    }
}

// The text of the history, where it is asked for.
fn make_trace(
    alloc: Global,
    trace: bool,
    carriers: u32,
    history: &[Entry],
) -> Result<Vec<u8>, NoMemory>
    ensures { IfOk result (λ v. v.items ≡ trace_part trace carriers history.now) }
{
    if trace {
        return print(alloc, carriers, history);
    }
    Ok(Vec::new(alloc))
}

// Writes what a run left, the line, which names no argument, and the text of the history, where it is asked for. Takes the memory for these two
// before anything is written.
fn deliver<O: Sink, E: Sink>(
    alloc: Global,
    execution: Execution,
    carriers: u32,
    trace: bool,
    out: &mut O,
    err: &mut E,
) -> Report
    ensures { Unwritten out.old out.new E.contents E.faults err.old err.new result
        ⊎ Wrote O.contents O.faults out.old out.new E.contents E.faults err.old err.new
        none_named trace carriers execution.history.items execution.out.items
        execution.err.items (ending_answer execution.listed.items execution.ending) result }
{
    let Execution {
        history,
        out: text,
        err: error_text,
        listed,
        ending,
    } = execution;
    let why = answer_to(ending, listed);
    let line = make_line(alloc, &why, no_names());
    let trace_text = make_trace(alloc, trace, carriers, &history);
    match (line, trace_text) {
        (Ok(line), Ok(trace_text)) => write_run(
            history,
            &text,
            &error_text,
            why,
            line.as_slice(),
            &trace_text,
            out,
            err,
        ),
        _ => no_memory(alloc, err),
    }
}

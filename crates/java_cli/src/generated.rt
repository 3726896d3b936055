//! The command `gen`.

ghost use Rattle.std.specs.Prelude.{◌<◌, ◌≤◌, [], IfErr, IfOk, false};
ghost use Rattle.arguments.specs.Meanings.{gen_meaning};
ghost use Rattle.command_line.specs.Answers.{line_of};
ghost use Rattle.command_line.specs.Commands.{no_names as none_named};
ghost use Rattle.answers.specs.Reports.{IsIdle};
ghost use Rattle.answers.specs.Taken.{OutFaults, TakesLine};
ghost use Rattle.java_cli.specs.Generated.{HasMade, IsGenExact, IsGenRefusal, RanGenerated};
ghost use Rattle.java_cli.specs.Headline.{OnNoRun, OnRun, tail_of};

use crate::command_run::run_limits;
use crate::program_run::run_checked;
use crate::runnable::Runnable;
use answers::{Report, refuse};
use command_line::{Gen, Why, no_names};
use gen_load::program;
use jvm_edges::{Clock, Gate, Sink};
use program_files::{accept_files, start};
use std::alloc::Global;
use std::sync::Wait;
use std::thread::Threads;

/// The class with the main method of the generated program.
const MAIN: &str = "Load";

/// The most entries of the history of a generated program.
const EVENTS: u32 = 4_194_304;

// The generated program of so many threads, or what is wrong with its classes.
fn make_program(alloc: Global, count: u32) -> Result<Runnable, Why>
    requires some { 0 < count }
    requires limit { count ≤ 50000 }
    ensures made { IfOk result (HasMade count) }
    ensures refusal { IfErr result (IsGenRefusal count) }
{
    let classes = program(alloc, count)?;
    let checked = accept_files(alloc, classes)?;
    let main = start(alloc, MAIN, checked.world())?;
    Ok(Runnable { checked, main })
}

/// Runs the generated program of the command's number of threads.
pub fn run_generated<R: Threads + Wait + Sync, O: Sink, E: Sink, C: Clock + Sync, G: Gate + Sync>(
    rt: &R,
    alloc: Global,
    command: &Gen,
    out: &mut O,
    err: &mut E,
    clock: &C,
    gate: &G,
) -> Report
    requires carriers { 0 < command.now.carriers }
    requires some { 0 < command.now.count }
    requires limit { command.now.count ≤ 50000 }
    ensures headline { OnRun result.why (RanGenerated (gen_meaning command.now) (C.gives clock.now)
        (O.contents out.old) (O.contents out.new)
        (λ text. TakesLine E.contents E.faults err.old err.new
        (tail_of none_named false command.now.carriers result) text result.err_written) result) }
    ensures idle { OnNoRun result.why (IsIdle (O.contents out.old) (O.contents out.new) result) }
    ensures exact { IsGenExact command.now.count result.why }
    ensures out_faults { OutFaults result.why (O.faults out.old) (O.faults out.new) }
    ensures line { OnNoRun result.why (TakesLine E.contents E.faults err.old err.new
        (line_of none_named result.why) [] result.err_written) }
{
    match make_program(alloc, command.count) {
        Ok(runnable) => run_checked(
            rt,
            alloc,
            runnable.checked,
            runnable.main,
            run_limits(EVENTS),
            command.carriers,
            false,
            out,
            err,
            clock,
            gate,
        ),
        Err(why) => refuse(alloc, why, no_names(), err),
    }
}

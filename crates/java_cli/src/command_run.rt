//! The command `run`.

ghost use Rattle.std.specs.Prelude.{◌≡◌, ◌<◌, ◌≢◌, []};
ghost use Rattle.jvm_edges.specs.Causes.{Rose};
ghost use Rattle.arguments.specs.Meanings.{run_meaning};
ghost use Rattle.command_line.specs.Answers.{line_of};
ghost use Rattle.command_line.specs.Commands.{names_of as names_of_run};
ghost use Rattle.java_cli.specs.Causes.{IsExact};
ghost use Rattle.input_files.specs.StoreFaults.{StoreFaults};
ghost use Rattle.program_files.specs.Limits.{run_limits as limits_of_run};
ghost use Rattle.answers.specs.Taken.{OutFaults, TakesLine};
ghost use Rattle.answers.specs.Reports.{IsIdle};
ghost use Rattle.java_cli.specs.Headline.{OnNoRun, OnRun, Ran, run_tail};

use crate::program_run::run_checked;
use crate::runnable::read_program;
use answers::{Report, refuse};
use command_line::{Run, Why, names_of};
use jvm_edges::{Clock, Gate, Sink, Store};
use ref_model::Limits;
use std::alloc::Global;
use std::sync::Wait;
use std::thread::Threads;

/// The limits of a run whose history may have so many entries.
pub(crate) fn run_limits(events: u32) -> Limits
    ensures { result ≡ limits_of_run events }
{
    Limits {
        heap_cells: 4_194_304,
        threads: 100_000,
        events,
    }
}

/// Reads the program that the files of a run are, and runs it, or says why it can't be run.
pub fn run_program<
    R: Threads + Wait + Sync,
    S: Store,
    O: Sink,
    E: Sink,
    C: Clock + Sync,
    G: Gate + Sync,
>(
    rt: &R,
    alloc: Global,
    run: &Run,
    store: &mut S,
    out: &mut O,
    err: &mut E,
    clock: &C,
    gate: &G,
) -> Report
    requires { 0 < run.now.carriers }
    ensures headline { OnRun result.why (Ran (run_meaning run.now) (S.files store.old)
        (C.gives clock.now) (O.contents out.old) (O.contents out.new)
        (λ text. TakesLine E.contents E.faults err.old err.new
        (run_tail (run_meaning run.now) result) text result.err_written) result) }
    ensures idle { OnNoRun result.why (IsIdle (O.contents out.old) (O.contents out.new) result) }
    ensures exact { IsExact (S.files store.old) (Rose (S.faults store.old) (S.faults store.new))
        (run_meaning run.now) result.why }
    ensures store_faults { StoreFaults result.why (S.faults store.old) (S.faults store.new) }
    ensures out_faults { OutFaults result.why (O.faults out.old) (O.faults out.new) }
    ensures line { OnNoRun result.why (TakesLine E.contents E.faults err.old err.new
        (line_of (names_of_run (run_meaning run.now)) result.why) [] result.err_written) }
{
    match read_program(alloc, run, store) {
        Ok(runnable) => run_checked(
            rt,
            alloc,
            runnable.checked,
            runnable.main,
            run_limits(run.events),
            run.carriers,
            run.trace,
            out,
            err,
            clock,
            gate,
        ),
        Err(why) => refuse(alloc, why, names_of(run), err),
    }
}

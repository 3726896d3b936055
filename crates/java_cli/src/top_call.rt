//! The call that does all that the program does.

ghost use Rattle.std.specs.Prelude.{◌≡◌, ◌⊎◌, false};
ghost use Rattle.jvm_edges.specs.Causes.{Rose};
ghost use Rattle.arguments.specs.Commands.{command_of, texts};
ghost use Rattle.command_line.specs.Answers.{line_of};
ghost use Rattle.command_line.specs.Commands.{names_in, no_names};
ghost use Rattle.java_cli.specs.Causes.{IsExact};
ghost use Rattle.input_files.specs.StoreFaults.{StoreFaults};
ghost use Rattle.answers.specs.Taken.{OutFaults, TakesAnswer, TakesLine};
ghost use Rattle.answers.specs.Reports.{IsIdle, Shown};
ghost use Rattle.class_tools.specs.Due.{IsAssembly, IsListing};
ghost use Rattle.java_cli.specs.Generated.{IsGenExact, RanGenerated};
ghost use Rattle.java_cli.specs.Headline.{IfAsm, IfGen, IfHelp, IfList, IfRun, IsUsageExact, OnNoRun, OnRun, Ran, run_tail, tail_of};
ghost use Rattle.java_cli.specs.Tools.{Converts};

use crate::command_run::run_program;
use crate::generated::run_generated;
use answers::{Report, refuse_arguments, show};
use class_tools::{Assembly, Listing, convert_file};
use command_line::{Command, Why, read_command};
use jvm_edges::{Clock, Gate, Sink, Store};
use std::alloc::Global;
use std::sync::Wait;
use std::thread::Threads;

/// Does all that the program does. Reads the command that the arguments spell, of which the first is the program's name, and runs it: writes
/// the program's output to `out`; and to `err` its error output, then the answer's line, and then the text of the history, where it is asked
/// for. Its threads run on carriers in operating-system threads of their own. A program whose threads all wait for a time waits for it by the
/// clock. Where the help or the version is asked for, it goes to `out`.
pub fn jvt<R: Threads + Wait + Sync, S: Store, O: Sink, E: Sink, C: Clock + Sync, G: Gate + Sync>(
    rt: &R,
    alloc: Global,
    args: &[String],
    store: &mut S,
    out: &mut O,
    err: &mut E,
    clock: &C,
    gate: &G,
) -> Report
    // Where a program was run, its history is legal, the answer is how it ends, and what is written is its output.
    ensures headline { IfRun (command_of (texts args.now)) (λ c. OnRun result.why
        (Ran c (S.files store.old) (C.gives clock.now) (O.contents out.old) (O.contents out.new)
        (λ text. TakesLine E.contents E.faults err.old err.new (run_tail c result)
        text result.err_written) result)) }
    // Where the answer is no run's, the history is empty, and neither sink took any output of a program.
    ensures idle { OnNoRun result.why (IsIdle (O.contents out.old) (O.contents out.new) result) }
    ensures usage { IsUsageExact (command_of (texts args.now)) result.why }
    ensures exact { IfRun (command_of (texts args.now)) (λ c. IsExact (S.files store.old)
        (Rose (S.faults store.old) (S.faults store.new)) c result.why) }
    // Where the words ask for a class file or a listing, it goes to `out`.
    ensures asm { IfAsm (command_of (texts args.now)) (λ file. Converts IsAssembly
        (S.files store.old) (Rose (S.faults store.old) (S.faults store.new)) file
        (O.contents out.old) (O.contents out.new) result) }
    ensures list { IfList (command_of (texts args.now)) (λ file. Converts IsListing
        (S.files store.old) (Rose (S.faults store.old) (S.faults store.new)) file
        (O.contents out.old) (O.contents out.new) result) }
    // The generated program is run as one that is read from files is.
    ensures generated { IfGen (command_of (texts args.now)) (λ c. OnRun result.why
        (RanGenerated c (C.gives clock.now) (O.contents out.old) (O.contents out.new)
        (λ text. TakesLine E.contents E.faults err.old err.new
        (tail_of no_names false c.carriers result) text result.err_written) result)) }
    ensures gen_exact { IfGen (command_of (texts args.now)) (λ c. IsGenExact c.count result.why) }
    // Where a text was asked for, it is shown, unless memory ran out.
    ensures help { IfHelp (command_of (texts args.now)) ((result.why ≡ Why.NoMemory)
        ⊎ Shown O.contents out.old out.new E.contents E.faults err.old err.new result) }
    // No fault of the store or of `out` goes unanswered.
    ensures store_faults { StoreFaults result.why (S.faults store.old) (S.faults store.new) }
    ensures out_faults { OutFaults result.why (O.faults out.old) (O.faults out.new) }
    ensures line { OnNoRun result.why (TakesAnswer E.contents E.faults err.old err.new result.why
        (line_of (names_in (command_of (texts args.now))) result.why) result.err_written) }
{
    let command = match read_command(alloc, args) {
        Ok(command) => command,
        Err(error) => return refuse_arguments(alloc, error, err),
    };
    match command {
        Command::Run(run) => run_program(rt, alloc, &run, store, out, err, clock, gate),
        Command::Asm { file } => convert_file(alloc, &Assembly, &file, store, out, err),
        Command::List { file } => convert_file(alloc, &Listing, &file, store, out, err),
        Command::Gen(load) => run_generated(rt, alloc, &load, out, err, clock, gate),
        Command::Help(text) => show(alloc, text.as_bytes(), out, err),
    }
}

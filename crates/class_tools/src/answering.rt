//! The answer to a command on one file.

ghost use Rattle.std.specs.Prelude.{◌≡◌, ◌∷◌, [], IfErr, string_bytes};
ghost use Rattle.command_line.specs.Answers.{line_of};
ghost use Rattle.command_line.specs.Commands.{names_meaning, names_of_files as named_files};
ghost use Rattle.answers.specs.Taken.{OutFaults, TakesLine};
ghost use Rattle.class_tools.specs.Exact.{IsRefusal};
ghost use Rattle.class_tools.specs.Making.{Answers};

use answers::{Report, refuse, show};
use command_line::{Names, Why, names_of_files};
use jvm_edges::Sink;
use std::alloc::Global;
use std::slice;

// The names of a command on one file.
fn names_of_file(file: &String) -> Names<'_>
    ensures { names_meaning result ≡ named_files (string_bytes file.now ∷ []) }
{
    names_of_files(slice::from_ref(file))
}

/// Writes what a command made of its file to `out`, or answers without it. The answer's line goes to `err`.
pub fn answer<O: Sink, E: Sink>(
    alloc: Global,
    made: Result<Vec<u8>, Why>,
    file: &String,
    out: &mut O,
    err: &mut E,
) -> Report
    requires { IfErr made IsRefusal }
    ensures answers { Answers (O.contents out.old) (O.contents out.new) made result }
    ensures history { result.history.items ≡ [] }
    ensures out_faults { OutFaults result.why (O.faults out.old) (O.faults out.new) }
    ensures err_written { result.err_written ≡ 0 }
    ensures line { TakesLine E.contents E.faults err.old err.new
        (line_of (named_files (string_bytes file.now ∷ [])) result.why) [] 0 }
{
    match made {
        Ok(bytes) => show(alloc, &bytes, out, err),
        Err(why) => refuse(alloc, why, names_of_file(file), err),
    }
}

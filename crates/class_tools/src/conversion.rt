//! What the commands on one file have in common: the file is read, and what is made of it is written.

ghost use Rattle.std.specs.Prelude.{◌≡◌, ◌∷◌, ◌≤◌, ℕ, List, [], IfErr, IfOk, length, string_bytes};
ghost use Rattle.jvm_edges.specs.Causes.{Rose};
ghost use Rattle.command_line.specs.Answers.{line_of};
ghost use Rattle.command_line.specs.Commands.{names_of_files};
ghost use Rattle.answers.specs.Reports.{IsIdle};
ghost use Rattle.answers.specs.Taken.{OutFaults, TakesLine};
ghost use Rattle.input_files.specs.Limits.{most_bytes};
ghost use Rattle.input_files.specs.StoreFaults.{StoreFaults};
ghost use Rattle.class_tools.specs.Due.{Due, writes};
ghost use Rattle.class_tools.specs.Exact.{HasCause, IsExact, IsRefusal, IsWritten, OnNoText, OnText};
ghost use Rattle.class_tools.specs.Making.{IsOfBytes, Makes};

use crate::answering::answer;
use answers::Report;
use command_line::Why;
use input_files::read_file;
use jvm_edges::{Sink, Store};
use std::alloc::Global;

/// What a command makes of the bytes of its file.
pub trait Conversion {
    /// What is due by the bytes.
    ghost owes: { List ℕ → Due → Type 0 };

    /// The bytes that are to be written, or the answer in place of them.
    fn convert(&self, alloc: Global, bytes: &[u8]) -> Result<Vec<u8>, Why>
        requires { length bytes.now ≤ most_bytes }
        ensures made { Makes owes bytes.now result }
        ensures kind { IfErr result IsOfBytes };

    /// At most one thing is due by the same bytes.
    ghost one_is_due: { (bytes : List ℕ) (what other : Due) → owes bytes what
        → owes bytes other → what ≡ other };
}

// The bytes that the conversion makes of the file, or the answer in place of them.
fn converted<T: Conversion, S: Store>(
    alloc: Global,
    conversion: &T,
    file: &str,
    store: &mut S,
) -> Result<Vec<u8>, Why>
    ensures cause { IfOk result (λ bytes.
        HasCause T.owes (S.files store.old) file.now (writes bytes.items)) }
    ensures kept { IfOk result (λ bytes. S.faults store.new ≡ S.faults store.old) }
    ensures exact { IfErr result (IsExact T.owes (S.files store.old)
        (Rose (S.faults store.old) (S.faults store.new)) file.now) }
    ensures refusal { IfErr result IsRefusal }
    ensures faults { IfErr result (λ why.
        StoreFaults why (S.faults store.old) (S.faults store.new)) }
{
    let bytes = read_file(alloc, 0, file, store)?;
    conversion.convert(alloc, &bytes)
}

/// Converts the file, and writes the bytes that are made of it to `out`. The answer's line goes to `err`.
pub fn convert_file<T: Conversion, S: Store, O: Sink, E: Sink>(
    alloc: Global,
    conversion: &T,
    file: &String,
    store: &mut S,
    out: &mut O,
    err: &mut E,
) -> Report
    // What was written is what is due.
    ensures written { OnText result.why (IsWritten T.owes (S.files store.old)
        (string_bytes file.now) (O.contents out.old) (O.contents out.new) result) }
    ensures idle { OnNoText result.why (IsIdle (O.contents out.old) (O.contents out.new) result) }
    ensures exact { IsExact T.owes (S.files store.old)
        (Rose (S.faults store.old) (S.faults store.new)) (string_bytes file.now) result.why }
    ensures history { result.history.items ≡ [] }
    // No fault of the store or of `out` goes unanswered.
    ensures store_faults { StoreFaults result.why (S.faults store.old) (S.faults store.new) }
    ensures out_faults { OutFaults result.why (O.faults out.old) (O.faults out.new) }
    ensures err_written { result.err_written ≡ 0 }
    ensures line { TakesLine E.contents E.faults err.old err.new
        (line_of (names_of_files (string_bytes file.now ∷ [])) result.why) [] 0 }
{
    let made = converted(alloc, conversion, file.as_str(), store);
    answer(alloc, made, file, out, err)
}

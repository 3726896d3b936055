//! Texts that are asked for.

ghost use Rattle.std.specs.Prelude.{◌≡◌, []};
ghost use Rattle.answers.specs.Reports.{Shown, TakesText};
ghost use Rattle.answers.specs.Taken.{OutFaults};

use crate::report::Report;
use crate::writing::put_part;
use command_line::{CANNOT_WRITE, SinkName, Why};
use jvm_edges::Sink;
use std::alloc::Global;

/// Writes a text, or other bytes, that were asked for to `out`. Where that fails, the answer's line goes to `err`.
pub fn show<O: Sink, E: Sink>(alloc: Global, text: &[u8], out: &mut O, err: &mut E) -> Report
    ensures shown { Shown O.contents out.old out.new E.contents E.faults err.old err.new result }
    ensures text { TakesText (O.contents out.old) (O.contents out.new) text.now result }
    ensures out_faults { OutFaults result.why (O.faults out.old) (O.faults out.new) }
{
    match put_part(out, text) {
        None => report(alloc, Why::Ended, text.len() as u64),
        Some(written) => {
            let _ = put_part(err, CANNOT_WRITE);
            report(
                alloc,
                Why::SinkFault {
                    which: SinkName::Out,
                    written,
                },
                written,
            )
        }
    }
}

// The report of a text that was written.
fn report(alloc: Global, why: Why, out_written: u64) -> Report
    ensures why { result.why ≡ why }
    ensures history { result.history.items ≡ [] }
    ensures out_written { result.out_written ≡ out_written }
    ensures err_written { result.err_written ≡ 0 }
{
    Report {
        why,
        history: Vec::new(alloc),
        out_written,
        err_written: 0,
    }
}

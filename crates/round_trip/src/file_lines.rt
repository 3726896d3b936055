//! What came of each file, a line for each.

ghost use Rattle.std.specs.Prelude.{◌≡◌, IsTrue, IfOk};
ghost use Rattle.round_trip.specs.Outcomes.{HasOutcome, HaveOutcomes, OutFaults, is_same as is_same_outcome};

use crate::outcome::Outcome;
use crate::trial::outcome_of_file;
use jvm_edges::{Sink, Store, put_all};
use std::alloc::Global;

/// Why a line was not written.
#[derive(Clone, Copy, Debug, PartialEq, Eq)]
pub enum LineError {
    /// The sink failed.
    SinkFault,
    /// Memory ran out.
    NoMemory,
}

/// Reads each of these files as a class file and writes it again, and puts a line on each to the sink. `true`: each was
/// written as it was read.
pub fn copy_files<S: Store, O: Sink>(
    alloc: Global,
    names: &[String],
    store: &mut S,
    out: &mut O,
) -> Result<bool, LineError>
    ensures outcomes { IfOk result (HaveOutcomes (S.files store.old) names.now) }
    ensures kept { S.files store.new ≡ S.files store.old }
    // No fault of the store or of the sink goes unanswered.
    ensures store_faults { IfOk result (λ same.
        IsTrue same → S.faults store.new ≡ S.faults store.old) }
    ensures out_faults { OutFaults result (O.faults out.old) (O.faults out.new) }
{
    let mut all_same = true;
    for name in names {
        all_same &= copy_file(alloc, name.as_str(), store, out)?;
    }
    Ok(all_same)
}

// Reads and writes one file, and puts its line. `true`: it was written as it was read.
fn copy_file<S: Store, O: Sink>(
    alloc: Global,
    name: &str,
    store: &mut S,
    out: &mut O,
) -> Result<bool, LineError>
    ensures store_faults { IfOk result (λ same.
        IsTrue same → S.faults store.new ≡ S.faults store.old) }
    ensures out_faults { OutFaults result (O.faults out.old) (O.faults out.new) }
    ensures outcome { IfOk result (HasOutcome (S.files store.old) name.now) }
    ensures kept { S.files store.new ≡ S.files store.old }
{
    let outcome = outcome_of_file(alloc, store, name);
    let Ok(line) = format!(in alloc; "{name}: {outcome}\n") else {
        return Err(LineError::NoMemory);
    };
    match put_all(out, line.as_bytes()) {
        Ok(()) => Ok(is_same(outcome)),
        Err(_) => Err(LineError::SinkFault),
    }
}

fn is_same(outcome: Outcome) -> bool
    ensures { result ≡ is_same_outcome outcome }
{
    matches!(outcome, Outcome::Same)
}

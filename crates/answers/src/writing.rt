//! Puts bytes into sinks that may fail.

ghost use Rattle.std.specs.Prelude.{◌≡◌, ◌++◌, []};
ghost use Rattle.answers.specs.Taken.{Takes, TakesLine};

use jvm_edges::{Sink, put_all};

/// Puts all the bytes. The result is how many the sink took, where it fails.
pub fn put_part<S: Sink>(sink: &mut S, bytes: &[u8]) -> Option<u64>
    ensures { Takes S.contents S.faults sink.old sink.new bytes.now result }
{
    match put_all(sink, bytes) {
        Ok(()) => None,
        Err(part) => Some(part.taken),
    }
}

/// Puts the first bytes, and after all of them the others.
pub fn put_both<S: Sink>(sink: &mut S, first: &[u8], others: &[u8])
    ensures { TakesLine S.contents S.faults sink.old sink.new (first.now ++ others.now) [] 0 }
{
    if put_part(sink, first).is_none() {
        let _ = put_part(sink, others);
    }
}

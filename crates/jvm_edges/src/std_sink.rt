//! A sink over a writer of the system.

ghost use Rattle.std.specs.Prelude.{◌≡◌, ◌<◌, ◌≤◌, ℕ, None, IfOk, length};
ghost use Rattle.std.specs.Io.KnownBytes.{WriteAppends};
ghost use Rattle.jvm_edges.specs.Causes.{SinkHasCause};
ghost use Rattle.jvm_edges.specs.States.{WriterState, new_writer};

use crate::sink::{Failed, Sink};
use std::io::Write;
use std::marker::Model;

/// A writer of std, as standard output or standard error. As a `Sink` it says nothing of the bytes, since a writer
/// need not say what it holds; its own `put` says what the writer does. Clauses see it as the bytes that the writer
/// holds, where they are known, and the count of faults.
#[derive(Drop)]
pub struct StdSink<W: Write> {
    writer: W,
    faults: u64,
}

impl<W: Write> Model for StdSink<W> {
    ghost Value = { WriterState };

    ghost view = { λ sink. record { contents = W.contents sink.writer; faults = sink.faults } };
}

impl<W: Write> StdSink<W> {
    /// A sink that writes to this writer.
    pub fn new(writer: W) -> Self
        ensures { result ≡ new_writer (W.contents writer) }
    {
        StdSink { writer, faults: 0 }
    }

    /// How often the writer failed or took nothing, at most the greatest u64.
    pub fn faults(&self) -> u64
        ensures { result ≡ self.now.faults }
    {
        self.faults
    }
}

impl<W: Write> Sink for StdSink<W> {
    ghost contents = { λ _. None };

    ghost faults = { λ sink. sink.faults };

    /// A writer that takes none of the bytes has failed.
    fn put(&mut self, bytes: &[u8]) -> Result<usize, Failed>
        ensures within { IfOk result (λ taken. taken ≤ length bytes.now) }
        ensures goes_on { 0 < length bytes.now → IfOk result (λ taken. 0 < taken) }
        ensures appends { WriteAppends self.old.contents self.new.contents result bytes.now }
        ensures cause { SinkHasCause self.old.faults self.new.faults result }
    {
        match self.writer.write(bytes) {
            Ok(taken) if taken > 0 || bytes.is_empty() => Ok(taken),
            Ok(_) | Err(_) => {
                self.faults = self.faults.saturating_add(1);
                Err(Failed)
            }
        }
    }
}

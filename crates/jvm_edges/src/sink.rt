ghost use Rattle.std.specs.Prelude.{◌≡◌, ◌<◌, ◌≤◌, ℕ, List, Option, length, take, IfOk, OnErr};
ghost use Rattle.jvm_edges.specs.Bytes.{Appends};
ghost use Rattle.jvm_edges.specs.Causes.{SinkHasCause};

use thiserror::Error;

/// A sink failed. Its count of faults rose.
#[derive(Clone, Copy, Debug, PartialEq, Eq, Error)]
#[error("the output could not be written")]
pub struct Failed;

/// Where bytes are written to.
pub trait Sink {
    /// The bytes that the sink took so far, where they are known.
    ghost contents: { Self → Option (List ℕ) };

    /// How often the sink failed, at most the greatest u64.
    ghost faults: { Self → ℕ };

    /// Takes the first of these bytes, and answers how many: at least one, where there is one. The count of faults
    /// rises exactly where the answer is `Failed`.
    fn put(&mut self, bytes: &[u8]) -> Result<usize, Failed>
        ensures within { IfOk result (λ taken. taken ≤ length bytes.now) }
        ensures goes_on { 0 < length bytes.now → IfOk result (λ taken. 0 < taken) }
        ensures taken { IfOk result (λ taken.
            Appends (contents self.old) (take taken bytes.now) (contents self.new)) }
        ensures refused { OnErr result (contents self.new ≡ contents self.old) }
        ensures cause { SinkHasCause (faults self.old) (faults self.new) result };
}

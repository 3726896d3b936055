//! The bodies of attributes, which are slices of the bytes that follow the pool (JVMS 4.7).

ghost use Rattle.std.specs.Prelude.{◌≡◌, ◌+◌, ◌*◌, length, IfOk};

use shared_slices::{SharedSlice, SharedVec};
use std::alloc::{AllocError, Global};
use std::sync::ledger::Ledger;
use steps::Steps;

/// The bytes of a body, in front of those after it. They are compared with the tail there, and copied only where they are
/// others, so each byte takes two steps.
pub fn body_of<L: Ledger>(
    alloc: Global,
    tail: &SharedVec<u8>,
    bytes: &[u8],
    rest: &[u8],
    steps: &mut Steps<L>,
) -> Result<SharedSlice<u8>, AllocError>
    ensures body { IfOk result (λ body. body ≡ bytes.now) }
    ensures cost { steps.new ≡ steps.old + 2 * length bytes.now }
{
    steps.spend(bytes.len());
    steps.spend(bytes.len());
    let behind = rest.len().saturating_add(bytes.len());
    let start = tail.as_slice().len().saturating_sub(behind);
    tail.slice_of(alloc, start, bytes)
}

//! Replies to what a thread asks.

use instruction_rows::Value;
use ref_model::Exception;
use vthread_state::Phase;

/// What is answered to a request.
#[derive(Clone, Copy)]
pub(crate) enum Reply {
    /// The thread goes on at its next instruction.
    Goes,
    /// The same, with a value on the operand stack.
    Gives(Value),
    /// It throws a new exception.
    Throws(Exception),
    /// It waits in this phase.
    Waits(Phase),
}

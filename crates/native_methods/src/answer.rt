ghost use Rattle.std.specs.Prelude.{◌≤◌, length};
ghost use Rattle.heap_instructions.specs.Operands.{ChangesOperands, HasTop, operands};
ghost use Rattle.heap_instructions.specs.Outcomes.{KeptUnlessDone};
ghost use Rattle.native_methods.specs.NativeStates.{IsAnswered};

use continuation::Mounted;
use heap_instructions::{Outcome, drop_operands, give};
use instruction_rows::Value;
use ref_model::{Exception, ThreadRequest};

/// What a native method answers to its arguments.
#[derive(Clone, Copy)]
pub(crate) enum Answer {
    /// It returns without a result.
    Returns,
    /// It returns this value.
    Gives(Value),
    /// It throws a new exception, and nothing has changed.
    Throws(Exception),
    /// It asks this of the threads, and nothing has changed.
    Asks(ThreadRequest),
    /// The definitions answer nothing here, or give a count that is greater than an int.
    Undefined,
}

/// The outcome of an answer that replaces the topmost operands.
pub(crate) fn outcome_of(mounted: &mut Mounted, count: u16, answer: Answer) -> Outcome
    requires top { HasTop mounted.old }
    requires count { count ≤ length (operands mounted.old) }
    ensures answered { IsAnswered count answer mounted.old mounted.new result }
    ensures kept { KeptUnlessDone result mounted.old mounted.new }
    ensures only { ChangesOperands mounted.old mounted.new }
{
    match answer {
        Answer::Returns => {
            drop_operands(mounted, count);
            Outcome::Done
        }
        Answer::Gives(value) => give(mounted, count, value),
        Answer::Throws(exception) => Outcome::Throws(exception),
        Answer::Asks(request) => Outcome::Asks {
            request,
            operands: count,
        },
        Answer::Undefined => Outcome::Undefined,
    }
}

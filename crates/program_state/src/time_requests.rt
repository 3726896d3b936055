//! What a thread asks of the clock (java.lang.System).

ghost use Rattle.std.specs.Prelude.{ℕ};
ghost use Rattle.link_model.specs.World.{World};
ghost use Rattle.schedule_soundness.specs.PutLaws.{OthersStay};
ghost use Rattle.program_state.specs.Replies.{Answers};

use crate::reply::Reply;
use crate::state::ProgramState;
use instruction_rows::Value;
use ref_model::ThreadRequest;
use thread_calls::{nano_time, time_millis};

/// nanoTime.
pub(crate) fn tell_nanos(state: &ProgramState) -> Reply
    ensures { (w : World) (t : ℕ) → Answers w ThreadRequest.TellsNanos
        (OthersStay t) t state.now state.now result }
{
    Reply::Gives(Value::Long(nano_time(state.time)))
}

/// currentTimeMillis.
pub(crate) fn tell_millis(state: &ProgramState) -> Reply
    ensures { (w : World) (t : ℕ) → Answers w ThreadRequest.TellsMillis
        (OthersStay t) t state.now state.now result }
{
    Reply::Gives(Value::Long(time_millis(state.time)))
}

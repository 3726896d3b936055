use crate::outcome::MonitorOutcome;
use ref_model::Exception;

/// What is answered to a thread that asks something of a monitor.
#[derive(Clone, Copy)]
pub(crate) enum MonitorReply {
    /// The thread goes on at its next instruction, with this outcome.
    Goes(MonitorOutcome),
    /// It throws a new exception.
    Throws(Exception),
    /// It waits, with this outcome.
    Waits(MonitorOutcome),
}

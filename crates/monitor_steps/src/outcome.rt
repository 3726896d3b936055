/// What became of a step of a thread on a monitor.
#[derive(Clone, Copy)]
pub enum MonitorOutcome {
    /// The thread made its step, and no other one may go on by that.
    Done,
    /// The same, but a monitor that it left has no owner now. The first thread in line for it, if there is one.
    Frees(Option<u32>),
    /// The same, but it notified this thread, which had waited longest.
    Notifies(u32),
}

/// What became of a step.
#[derive(Clone, Copy, Debug, PartialEq, Eq)]
pub enum After {
    /// The thread goes on.
    Goes,
    /// The thread goes on and runs, and the program hasn't ended.
    Runs,
    /// The thread has to be unmounted: it yielded or can't go on.
    Leaves,
    /// The thread can't go on, and its carrier keeps it, since it is pinned (JEP 444).
    Waits,
    /// The thread has ended.
    Ends,
    /// Nothing was done: the step reads the clock, and time has to go on first.
    ReadsClock,
    /// No entry was made, and the run has ended: no more threads may be made, or there was no memory.
    Halts,
}

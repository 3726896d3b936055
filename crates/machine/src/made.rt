/// What a step did to other threads.
#[derive(Clone, Copy)]
pub(crate) enum Others {
    /// It left them as they were, or did something to a monitor that has an owner afterwards. It may be the last step of its thread.
    Stay,
    /// Nobody else may go on by it, and its thread goes on.
    Quiet,
    /// It started this one.
    Starts(u32),
    /// It gave this one a permit or an interrupt.
    Wakes(u32),
    /// It left a monitor, which has no owner now. The first thread in line for that, if there is one.
    Frees(Option<u32>),
    /// It notified this one, which had waited longest.
    Notifies(u32),
}

/// A step that was made.
#[derive(Clone, Copy)]
pub(crate) struct Move {
    pub(crate) others: Others,
    /// Whether it was a yield.
    pub(crate) yields: bool,
}

/// What came of a step that was tried.
#[derive(Clone, Copy)]
pub(crate) enum Attempt<T> {
    /// It was made.
    Made(T),
    /// It makes a thread where there may be no more, and wasn't made.
    LacksThreads,
    /// It reads the clock, and wasn't made, since time has to go on first. Nothing has changed.
    ReadsClock,
}

/// The same of what becomes of a thread, or that there was no memory, in one word.
#[derive(Clone, Copy)]
pub(crate) enum StepResult {
    /// The step was made, and the thread goes on.
    Goes,
    /// It was made, the thread goes on and runs, and the program hasn't ended.
    Runs,
    /// It was made and notified this thread, and the thread that made it goes on.
    Notifies(u32),
    /// It was made, and the thread has to be unmounted.
    Leaves,
    /// It was made, and the thread can't go on, and is pinned.
    Waits,
    /// It was made, and the thread has ended.
    Ends,
    /// It makes a thread where there may be no more, and wasn't made.
    LacksThreads,
    /// It reads the clock, and wasn't made, since time has to go on first.
    ReadsClock,
    /// There was no memory.
    LacksMemory,
}

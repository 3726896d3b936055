/// Which limit a run came to.
#[derive(Clone, Copy, Debug, PartialEq, Eq)]
pub enum Which {
    /// The files of the command.
    Files,
    /// The bytes of a file.
    FileSize,
    /// The threads that were made.
    Threads,
    /// The entries of the history.
    Events,
}

/// How a run ends (JLS 12.8; `System.exit`).
#[derive(Clone, Copy, Debug, PartialEq, Eq)]
pub enum Ending {
    /// Each thread that was started and isn't a daemon ran to its end.
    Ended,
    /// The same, and an exception that nothing caught ended the main thread.
    MainThrew,
    /// The program called `System.exit` with this status.
    Exited(i32),
    /// No thread can go on, and none waits for a time.
    Stalled,
    /// Each carrier has a pinned thread that can't go on, and another thread could.
    Starved,
    /// The run came to a limit, which is this number.
    Limit(Which, u32),
    /// The run was given up.
    Halted,
}

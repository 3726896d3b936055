/// What a live thread is at. A deadline is a time in nanoseconds, and a monitor, an exception and a thread are numbers.
#[derive(Clone, Copy, Debug, PartialEq, Eq)]
pub enum Phase {
    /// Its next step is its next instruction.
    Run,
    /// An exception looks for its handler.
    Throwing(u32),
    /// It waits to enter a monitor.
    Entering(u32),
    /// It waits in `Object.wait`; `count` is how often it had entered the monitor.
    Waiting {
        monitor: u32,
        count: u32,
        deadline: Option<u64>,
    },
    /// Its wait ended, and it waits to enter the monitor again, `count` times.
    Reenter {
        monitor: u32,
        count: u32,
        wake: Wake,
    },
    /// It waits in `LockSupport.park` or `parkNanos`.
    Parked(Option<u64>),
    /// It waits in `Thread.sleep`.
    Asleep(u64),
    /// It waits in `Thread.join`.
    Joining {
        target: u32,
        deadline: Option<u64>,
    },
}

/// What ended a wait (`Object.wait`).
#[derive(Clone, Copy, Debug, PartialEq, Eq)]
pub enum Wake {
    Notified,
    TimedOut,
    Interrupted,
}

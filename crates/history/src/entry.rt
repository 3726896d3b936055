/// An entry of the history: a carrier, and what it did.
#[derive(Clone, Copy, Debug, PartialEq, Eq)]
pub struct Entry {
    pub carrier: u32,
    pub what: What,
}

/// What an entry did. Threads are numbered from 0, in the order of their construction.
#[derive(Clone, Copy, Debug, PartialEq, Eq)]
pub enum What {
    /// The carrier took this thread up.
    Mount(u32),
    /// The carrier put this thread down.
    Unmount(u32),
    /// The thread did `steps` steps, at least one. The last of them may have picked a thread.
    Step {
        thread: u32,
        steps: u32,
        pick: Option<u32>,
    },
    /// The machine's time became this number of nanoseconds.
    Clock(u64),
}

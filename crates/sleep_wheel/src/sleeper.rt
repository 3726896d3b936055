/// A thread that sleeps, and the time at which it is to wake, in nanoseconds. Sleepers are ordered by their deadlines, and then
/// by their threads.
#[derive(Clone, Copy, PartialEq, Eq, PartialOrd, Ord)]
pub struct Sleeper {
    pub deadline: u64,
    pub thread: u32,
}

/// Names a sleeper in a wheel, until it is taken out.
#[derive(Clone, Copy)]
pub struct Key {
    pub number: usize,
}

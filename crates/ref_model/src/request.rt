use vthread_state::ThreadKind;

/// What an instruction or a native method asks that concerns other threads, monitors or the clock. Threads and objects are numbers, and a
/// monitor has that of its object.
#[derive(Clone, Copy)]
pub enum ThreadRequest {
    /// `Thread.currentThread`.
    Current,
    /// `Thread.yield`.
    Yields,
    /// A constructor of `Thread`: a thread of this Thread object, whose name is this String, if it has one.
    Creates {
        kind: ThreadKind,
        object: u32,
        name: Option<u32>,
    },
    /// `Thread.start`.
    Starts(u32),
    /// `Thread.join`.
    Joins {
        thread: u32,
        millis: Option<i64>,
    },
    /// `Thread.sleep`, in milliseconds.
    Sleeps(i64),
    /// `Thread.interrupt`.
    Interrupts(u32),
    /// `Thread.isInterrupted`.
    TellsInterrupt(u32),
    /// `Thread.interrupted`.
    TakesInterrupt,
    /// `Thread.isAlive`.
    TellsAlive(u32),
    /// `Thread.isVirtual`.
    TellsVirtual(u32),
    /// `Thread.isDaemon`.
    TellsDaemon(u32),
    /// `Thread.getName`.
    TellsName(u32),
    /// `Thread.getState`.
    TellsState(u32),
    /// `Thread.setDaemon`.
    SetsDaemon {
        thread: u32,
        daemon: bool,
    },
    /// `Thread.setName`, by the String.
    SetsName {
        thread: u32,
        name: u32,
    },
    /// `LockSupport.park`, or `parkNanos` with a time in nanoseconds.
    Parks(Option<i64>),
    /// `LockSupport.unpark`.
    Unparks(u32),
    /// `System.nanoTime`.
    TellsNanos,
    /// `System.currentTimeMillis`.
    TellsMillis,
    /// monitorenter.
    Enters(u32),
    /// monitorexit.
    Exits(u32),
    /// `Object.wait`.
    WaitsOn {
        monitor: u32,
        millis: Option<i64>,
    },
    /// `Object.notify`.
    Notifies(u32),
    /// `Object.notifyAll`.
    NotifiesAll(u32),
}

use invocation::SynchronizedCall;
use opcodes::ValueKind;
use ref_model::ThreadRequest;

/// What an instruction asks of the threads.
#[derive(Clone, Copy)]
pub struct PendingRequest {
    pub request: ThreadRequest,
    /// The pc of the next instruction.
    pub next: u32,
    /// How many slots of the operand stack it takes.
    pub operands: u16,
}

/// A return from the frame of a synchronized method, whose thread leaves its monitor with it (JVMS 2.11.10).
#[derive(Clone, Copy)]
pub struct MonitorReturn {
    /// The kind of what it gives back. `None`: nothing.
    pub kind: Option<ValueKind>,
    pub monitor: u32,
}

/// What became of an instruction.
#[derive(Clone, Copy)]
pub enum Progress {
    /// The thread made a step.
    Stepped,
    /// The instruction asks this, and nothing has changed.
    Asks(PendingRequest),
    /// The instruction calls this synchronized method, which asks for its monitor, and nothing has changed.
    Calls(SynchronizedCall),
    /// The instruction is this return, which leaves a monitor, and nothing has changed.
    Returns(MonitorReturn),
}

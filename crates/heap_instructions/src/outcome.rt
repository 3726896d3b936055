use ref_model::{Exception, ThreadRequest};

/// What became of an instruction or of a native method.
#[derive(Clone, Copy)]
pub enum Outcome {
    /// It is done: the operand stack is that with which the frame goes on.
    Done,
    /// It throws a new exception, and nothing has changed.
    Throws(Exception),
    /// It throws this object, and nothing has changed.
    ThrowsObject(u32),
    /// It asks this of the threads, and takes so many slots of the operand stack: nothing has changed.
    Asks {
        request: ThreadRequest,
        operands: u16,
    },
    /// The definitions have no effect here, or its result has no room on the operand stack or is no int: nothing has changed.
    Undefined,
}

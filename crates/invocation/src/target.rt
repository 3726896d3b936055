use lib_table::Native;
use ref_model::Exception;

/// A method with code that an invocation begins (JVMS 2.6), with the size of its frame.
#[derive(Clone, Copy, Debug, PartialEq, Eq)]
pub struct Callee {
    pub method: u32,
    /// How many slots it takes from the operands, the receiver's among them.
    pub slots: u16,
    /// How many local variables its frame has, in slots.
    pub locals: u16,
    /// How many operands its frame may have, in slots.
    pub operands: u16,
}

/// What an invocation comes to.
#[derive(Clone, Copy, Debug, PartialEq, Eq)]
pub enum Target {
    /// The machine does this in place of the method's code.
    Native(Native),
    /// This method begins.
    Code(Callee),
    /// This method begins, which is jvt.Native.hold: its frame is native, and pins its thread (JEP 444).
    Pins(Callee),
    /// This synchronized method begins once the thread has its monitor (JVMS 2.11.10).
    Synchronized(Callee),
    /// It throws a new exception.
    Throws(Exception),
    /// The definitions have no effect: a look-up has nothing. Frames that keep to the typing never get there.
    Undefined,
}

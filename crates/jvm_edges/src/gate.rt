/// A gate that each carrier passes before it executes local instructions, so that a test can make one carrier wait
/// until another has run.
pub trait Gate {
    /// The carrier of this number is about to execute local instructions of the thread of this number.
    fn local(&self, carrier: u32, thread: u32);
}

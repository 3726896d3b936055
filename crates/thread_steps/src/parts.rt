use instruction_rows::Value;
use native_methods::NativeState;
use vthread_state::Status;

/// What a step of a thread reads and writes beside the frames: the heap, the output and the static fields of a program, and how far the
/// thread is.
#[derive(Drop)]
pub struct Parts {
    pub natives: NativeState,
    /// The values of the static fields, in the order of all fields.
    pub statics: Vec<Value>,
    /// The status of the thread that steps.
    pub status: Status,
    /// Whether an exception that nothing caught ended the main thread.
    pub main_threw: bool,
}

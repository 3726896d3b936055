/// Why a method is not well typed (JVMS 4.10.1; own where a line says so). Of several reasons at one instruction the first in
/// this order is named.
#[derive(Clone, Copy, Debug, PartialEq, Eq)]
pub enum VerifyWhy {
    /// The bytes of the stack map are none, or a frame of it lies at no instruction, or names a constant that is no class
    /// (JVMS 4.7.4).
    Map,
    /// A branch goes to no instruction, or to one without a frame of the map.
    Target,
    /// The types that arrive at a frame of the map aren't assignable to it, or the frame is missing after an instruction that
    /// doesn't go on.
    Frame,
    /// An operand or a local variable is of the wrong type.
    Kind,
    /// There are fewer operands than the instruction takes, or more than the method may have.
    Depth,
    /// A local variable is past those of the method.
    Locals,
    /// An exception handler can't take what is thrown to it.
    Handler,
    /// A return that isn't one of the method's result.
    Return,
    /// An object is created, initialized or returned from its constructor where that isn't allowed. (in part own)
    Init,
    /// The code runs past its last instruction.
    End,
}

/// An operation on two ints (JVMS 6.5).
#[derive(Clone, Copy)]
pub enum IntOp {
    Add,
    Sub,
    Mul,
    Div,
    Rem,
    Shl,
    Shr,
    Ushr,
    And,
    Or,
    Xor,
}

/// An operation on two longs (JVMS 6.5).
#[derive(Clone, Copy)]
pub enum LongOp {
    Add,
    Sub,
    Mul,
    Div,
    Rem,
    And,
    Or,
    Xor,
}

/// A shift of a long by an int (JVMS 6.5).
#[derive(Clone, Copy)]
pub enum ShiftOp {
    Shl,
    Shr,
    Ushr,
}

/// A type whose values are ints on the operand stack, and take fewer bits in a variable (JVMS 2.11.1).
#[derive(Clone, Copy)]
pub enum Narrow {
    /// One bit.
    Bool,
    /// 8 bits with a sign.
    Byte,
    /// 16 bits without a sign.
    Char,
    /// 16 bits with a sign.
    Short,
}

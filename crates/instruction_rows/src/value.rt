/// A value of the Java program (JVMS 2.2). boolean, byte, char and short are ints here.
#[derive(Clone, Copy, Debug, PartialEq, Eq)]
pub enum Value {
    Int(i32),
    Long(i64),
    /// The null reference.
    Null,
    /// The number of an object.
    Ref(u32),
}

/// A local variable or an entry of the operand stack (JVMS 2.6.1, 2.6.2). A long takes two.
#[derive(Clone, Copy, Debug, PartialEq, Eq)]
pub enum Slot {
    One(Value),
    /// The other half of a long, or an unset local variable.
    Second,
}

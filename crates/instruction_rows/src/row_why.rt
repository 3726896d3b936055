/// Why an instruction doesn't fit the types before it (JVMS 4.10.1.9). Operands are judged from the top on, and the
/// first that breaks a rule is the reason.
#[derive(Clone, Copy, Debug, PartialEq, Eq)]
pub enum RowWhy {
    /// An operand or a local variable is of the wrong type, or a long would be split.
    Kind,
    /// There are fewer operands than the instruction takes.
    Depth,
    /// There is no local variable of that index.
    Locals,
    /// An object would be created or initialized where that isn't allowed (JVMS 4.10.1.9, `new` and `invokespecial`). No
    /// local row is refused so.
    Init,
}

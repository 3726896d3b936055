use items::Items;

/// The types of the locals and of the operand stack at one pc, the first local and the bottom of
/// the stack first (JVMS 4.10.1.2). A long or a double is one item.
#[derive(Drop, PartialEq, Eq)]
pub struct FrameTypes {
    pub locals: Items<VType>,
    pub stack: Items<VType>,
}

/// What a frame changes of the one before it (JVMS 4.7.4). Its operand stack is always named whole, the bottom first.
#[derive(Drop)]
pub struct FrameChange {
    pub locals: LocalsChange,
    pub stack: Items<VType>,
}

/// What a frame changes of the locals of the one before it (JVMS 4.7.4).
#[derive(Drop)]
pub enum LocalsChange {
    /// They are the same.
    Same,
    /// The last ones are dropped, this many.
    Chop(u8),
    /// After them come these.
    Append(Items<VType>),
    /// All are these.
    Full(Items<VType>),
}

/// A verification type (JVMS 4.7.4, 4.10.1.2).
#[derive(Clone, Copy, Debug, PartialEq, Eq)]
pub enum VType {
    Top,
    Int,
    Float,
    Double,
    Long,
    Null,
    UninitThis,
    /// A class by its index in the constant pool, as in a map.
    Object(u16),
    /// An object before its constructor ran, by the pc of its `new`.
    Uninit(u16),
    /// A class by its number, or an array with this many dimensions. No map has it.
    Named(u8, Base),
}

/// The element type of a named array type, or the class that a type without dimensions names.
#[derive(Clone, Copy, Debug, PartialEq, Eq)]
pub enum Base {
    Bool,
    Byte,
    Char,
    Short,
    Int,
    Long,
    Float,
    Double,
    /// A class by its number.
    Class(u32),
}

use items::{Boxed, Items};
use shared_slices::SharedSlice;

/// An attribute of a class, a field or a method (JVMS 4.7). The name is an index of the constant pool.
#[derive(Drop, PartialEq, Eq)]
pub struct Attribute {
    pub name: u16,
    pub body: Body,
}

/// The contents of an attribute.
#[derive(Drop, PartialEq, Eq)]
pub enum Body {
    /// A method's Code (JVMS 4.7.3). It lies by itself, since other attributes are many and small.
    Code(Boxed<CodeBody>),
    /// A field's ConstantValue, by its index in the constant pool (JVMS 4.7.2).
    Constant(u16),
    /// The bytes of an attribute that is not recognized (JVMS 4.7.1).
    Other(SharedSlice<u8>),
}

/// A method's code (JVMS 4.7.3).
#[derive(Drop, PartialEq, Eq)]
pub struct CodeBody {
    /// The greatest depth of the operand stack, in slots.
    pub max_stack: u16,
    /// The number of local variables, in slots.
    pub max_locals: u16,
    pub code: SharedSlice<u8>,
    /// The exception table.
    pub rows: Items<Row>,
    pub attributes: Items<CodeAttribute>,
}

/// A row of an exception table (JVMS 4.7.3): three pcs, and the class that is caught, by its index in the constant pool, or 0
/// for every throwable.
#[derive(Clone, Copy, Debug, PartialEq, Eq)]
pub struct Row {
    pub start: u16,
    pub end: u16,
    pub handler: u16,
    pub catch_type: u16,
}

/// An attribute of a Code attribute (JVMS 4.7). The name is an index of the constant pool.
#[derive(Drop, PartialEq, Eq)]
pub struct CodeAttribute {
    pub name: u16,
    pub body: CodeExtra,
}

/// The contents of an attribute of a Code attribute.
#[derive(Drop, PartialEq, Eq)]
pub enum CodeExtra {
    /// The bytes of a StackMapTable (JVMS 4.7.4).
    StackMap(SharedSlice<u8>),
    /// The bytes of an attribute that is not recognized (JVMS 4.7.1).
    Other(SharedSlice<u8>),
}

use instruction_rows::Value;
use stack_maps::Base;

/// What the constant of an instruction means (JVMS 5.4.3), by numbers of the world.
#[derive(Clone, Copy)]
pub enum Site {
    /// The instruction names no constant.
    Plain,
    /// A field.
    Field(u32),
    /// A method: that which the constant resolves to, or which invokespecial selects, if it selects one (JVMS 6.5).
    Method(u32),
    /// A class, an interface or an array class; for newarray, anewarray and multianewarray that of the array.
    Class(u32),
    /// A value that is pushed.
    Value(Value),
}

/// Why an invokespecial has no method to run (JVMS 6.5).
#[derive(Clone, Copy, Debug, PartialEq, Eq)]
pub enum SelectionFailure {
    /// No maximally specific method has a body.
    Abstract,
    /// Several maximally specific methods have one.
    Several,
}

/// What the constant of an instruction means, and the class that it names: for a field or a method, the class in which it is looked
/// for (JVMS 4.4.2). An invokespecial that selects no method has `failure`.
#[derive(Clone, Copy)]
pub struct Resolution {
    pub site: Site,
    pub class: Option<u32>,
    pub failure: Option<SelectionFailure>,
}

/// An array type: its dimensions, at least one, and the type of its last elements.
#[derive(Clone, Copy)]
pub struct ArrayType {
    pub dimensions: u8,
    pub base: Base,
}

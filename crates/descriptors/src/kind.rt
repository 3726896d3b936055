use items::Items;

/// A type that is no array: what an array has as its last elements (JVMS 2.4, 4.3.2).
#[derive(Debug, Drop)]
pub enum ElementType {
    Byte,
    Char,
    Double,
    Float,
    Int,
    Long,
    Short,
    Bool,
    /// A class or an interface, by its name (JVMS 4.2.1).
    Class(Items<u16>),
}

/// A type of a field, a parameter or a result (JVMS 4.3.2): an array of the element type, or with no
/// dimensions the element type itself.
#[derive(Debug, Drop)]
pub struct Kind {
    pub dimensions: u8,
    pub element: ElementType,
}

/// The parameters and the result of a method, which may be none (JVMS 4.3.3).
#[derive(Debug, Drop)]
pub struct Signature {
    pub args: Items<Kind>,
    pub result: Option<Kind>,
}

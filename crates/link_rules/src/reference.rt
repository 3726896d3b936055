/// How an instruction invokes a method (JVMS 6.5).
#[derive(Clone, Copy, PartialEq, Eq)]
pub struct Invocation {
    /// Whether the method is one of the class itself, and not of its instances.
    pub is_static: bool,
    /// Whether the constant may be a Methodref.
    pub by_class: bool,
    /// Whether the constant may be an InterfaceMethodref.
    pub by_interface: bool,
    /// The slots of the arguments, with the receiver, that invokeinterface counts.
    pub count: Option<u8>,
}

/// What an instruction names a class for (JVMS 6.5).
#[derive(Clone, Copy, PartialEq, Eq)]
pub enum Purpose {
    /// For its objects: checkcast, instanceof, the rows of an exception table.
    Type,
    /// For an instance of it: new.
    Instance,
    /// For the elements of an array: anewarray.
    Element,
    /// For an array of which this many dimensions get a length: multianewarray.
    Array(u8),
}

use shared_slices::SharedSlice;

/// An entry of the constant pool (JVMS 4.4). A number is the index of another entry, unless the variant's line says
/// otherwise.
#[derive(Drop, PartialEq, Eq)]
pub enum Const {
    /// The entry at index 0, and the one after a Long or a Double (JVMS 4.1, 4.4.5).
    Unused,
    /// A text in the units of UTF-16 (JVMS 4.4.7).
    Utf8(SharedSlice<u16>),
    /// An int (JVMS 4.4.4).
    Integer(i32),
    /// The bits of a float (JVMS 4.4.4).
    Float(u32),
    /// A long (JVMS 4.4.5).
    Long(i64),
    /// The bits of a double (JVMS 4.4.5).
    Double(u64),
    /// The name of a class, an interface or an array class (JVMS 4.4.1).
    Class(u16),
    /// The text of a String (JVMS 4.4.3).
    Text(u16),
    /// A class, and a name with a descriptor (JVMS 4.4.2).
    Fieldref(u16, u16),
    /// A class, and a name with a descriptor (JVMS 4.4.2).
    Methodref(u16, u16),
    /// An interface, and a name with a descriptor (JVMS 4.4.2).
    InterfaceMethodref(u16, u16),
    /// A name and a descriptor (JVMS 4.4.6).
    NameAndType(u16, u16),
    /// A kind of method handle, which is no index, and a member (JVMS 4.4.8).
    MethodHandle(u8, u16),
    /// A method's descriptor (JVMS 4.4.9).
    MethodType(u16),
    /// A bootstrap method, which is no index of the pool, and a name with a descriptor (JVMS 4.4.10).
    Dynamic(u16, u16),
    /// A bootstrap method, which is no index of the pool, and a name with a descriptor (JVMS 4.4.10).
    InvokeDynamic(u16, u16),
    /// The name of a module (JVMS 4.4.11).
    Module(u16),
    /// The name of a package (JVMS 4.4.12).
    Package(u16),
}

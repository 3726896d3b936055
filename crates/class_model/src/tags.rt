//! The tags of constants (JVMS 4.4, table 4.4-A).

/// The tag of a text (JVMS 4.4.7).
pub const TAG_UTF8: u8 = 1;

/// The tag of an int (JVMS 4.4.4).
pub const TAG_INTEGER: u8 = 3;

/// The tag of a float (JVMS 4.4.4).
pub const TAG_FLOAT: u8 = 4;

/// The tag of a long (JVMS 4.4.5).
pub const TAG_LONG: u8 = 5;

/// The tag of a double (JVMS 4.4.5).
pub const TAG_DOUBLE: u8 = 6;

/// The tag of a class (JVMS 4.4.1).
pub const TAG_CLASS: u8 = 7;

/// The tag of a String (JVMS 4.4.3).
pub const TAG_STRING: u8 = 8;

/// The tag of a field (JVMS 4.4.2).
pub const TAG_FIELDREF: u8 = 9;

/// The tag of a method of a class (JVMS 4.4.2).
pub const TAG_METHODREF: u8 = 10;

/// The tag of a method of an interface (JVMS 4.4.2).
pub const TAG_INTERFACE_METHODREF: u8 = 11;

/// The tag of a name with a descriptor (JVMS 4.4.6).
pub const TAG_NAME_AND_TYPE: u8 = 12;

/// The tag of a method handle (JVMS 4.4.8).
pub const TAG_METHOD_HANDLE: u8 = 15;

/// The tag of a method type (JVMS 4.4.9).
pub const TAG_METHOD_TYPE: u8 = 16;

/// The tag of a dynamically computed constant (JVMS 4.4.10).
pub const TAG_DYNAMIC: u8 = 17;

/// The tag of a dynamically computed call site (JVMS 4.4.10).
pub const TAG_INVOKE_DYNAMIC: u8 = 18;

/// The tag of a module (JVMS 4.4.11).
pub const TAG_MODULE: u8 = 19;

/// The tag of a package (JVMS 4.4.12).
pub const TAG_PACKAGE: u8 = 20;

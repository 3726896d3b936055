//! Flags of classes, fields and methods (JVMS 4.1, 4.5, 4.6).

/// A class or a member that every class may name.
pub const ACC_PUBLIC: u16 = 0x0001;

/// A member that its own class alone may name (JVMS 4.5, 4.6).
pub const ACC_PRIVATE: u16 = 0x0002;

/// A field or method of the class itself, and not of its instances (JVMS 4.5, 4.6).
pub const ACC_STATIC: u16 = 0x0008;

/// A class without subclasses, or a method that is not overridden (JVMS 4.1, 4.6).
pub const ACC_FINAL: u16 = 0x0010;

/// A method that holds its receiver's monitor, or its class's, while it runs (JVMS 4.6).
pub const ACC_SYNCHRONIZED: u16 = 0x0020;

/// A method whose code is not Java (JVMS 4.6).
pub const ACC_NATIVE: u16 = 0x0100;

/// An interface (JVMS 4.1).
pub const ACC_INTERFACE: u16 = 0x0200;

/// A method without code, or a class that is not instantiated (JVMS 4.1, 4.6).
pub const ACC_ABSTRACT: u16 = 0x0400;

/// The file is that of a module and not of a class (JVMS 4.1).
pub const ACC_MODULE: u16 = 0x8000;

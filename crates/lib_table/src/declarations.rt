//! Classes as Java declares them (JLS 8, 9). A name of a class has slashes, as in class files (JVMS 4.2.1).

use crate::instruction::Instruction;
use crate::native::Native;

/// A class or an interface (JLS 8.1, 9.1).
#[derive(Clone, Copy)]
pub struct ClassDeclaration {
    pub flags: u16,
    pub name: &'static str,
    /// The superclass, which `java.lang.Object` alone lacks.
    pub parent: Option<&'static str>,
    pub interfaces: &'static [&'static str],
    pub fields: &'static [FieldDeclaration],
    pub methods: &'static [MethodDeclaration],
}

/// A field (JLS 8.3).
#[derive(Clone, Copy)]
pub struct FieldDeclaration {
    pub flags: u16,
    pub name: &'static str,
    pub descriptor: &'static str,
}

/// A method or a constructor (JLS 8.4, 8.8).
#[derive(Clone, Copy)]
pub struct MethodDeclaration {
    pub flags: u16,
    pub name: &'static str,
    pub descriptor: &'static str,
    pub body: MethodBody,
}

/// What a method does.
#[derive(Clone, Copy)]
pub enum MethodBody {
    Abstract,
    Native(Native),
    Code(MethodCode),
}

/// Code with the sizes of its frame (JVMS 4.7.3).
#[derive(Clone, Copy)]
pub struct MethodCode {
    pub max_stack: u16,
    pub max_locals: u16,
    pub instructions: &'static [Instruction],
    /// The pc of the only stack map frame, at most 63. It has the first locals and an empty operand stack (JVMS 4.7.4).
    pub frame: Option<u8>,
}

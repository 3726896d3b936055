//! The fields and methods of a world, and the code of a method.

ghost use Rattle.std.specs.Prelude.{◌≡◌};
ghost use Rattle.link_model.specs.Fields.{is_static_field};
ghost use Rattle.link_model.specs.Initializers.{is_static_method};

use class_model::{ACC_STATIC, Row};
use descriptors::{Kind, Signature};
use items::Items;
use opcodes::Instr;

/// A field of a class of the world (JVMS 4.5). `class` is the number of the class that declares it.
#[derive(Drop)]
pub struct FieldInfo {
    pub class: u32,
    pub flags: u16,
    pub name: Items<u16>,
    pub kind: Kind,
}

impl FieldInfo {
    /// Whether the field is static.
    pub fn is_static(&self) -> bool
        ensures { result ≡ is_static_field self.now }
    {
        self.flags & ACC_STATIC == ACC_STATIC
    }
}

/// A method of a class of the world (JVMS 4.6). `class` is the number of the class that declares it.
#[derive(Drop)]
pub struct MethodInfo {
    pub class: u32,
    pub flags: u16,
    pub name: Items<u16>,
    pub signature: Signature,
}

impl MethodInfo {
    /// Whether the method is static.
    pub fn is_static(&self) -> bool
        ensures { result ≡ is_static_method self.now }
    {
        self.flags & ACC_STATIC == ACC_STATIC
    }
}

/// The code of a method (JVMS 4.7.3). `map` is the body of its StackMapTable, or that of a table without frames.
#[derive(Drop)]
pub struct MethodCode {
    pub max_stack: u16,
    pub max_locals: u16,
    pub code: Items<Instr>,
    pub rows: Items<Row>,
    pub map: Items<u8>,
}

use crate::Attribute;
use items::Items;

/// A field or a method (JVMS 4.5, 4.6). The name and the descriptor are indices of the constant pool.
#[derive(Drop, PartialEq, Eq)]
pub struct Member {
    pub flags: u16,
    pub name: u16,
    pub descriptor: u16,
    pub attributes: Items<Attribute>,
}

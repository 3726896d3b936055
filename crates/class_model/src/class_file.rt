use crate::{Attribute, Const, Member};
use items::Items;

/// A class file (JVMS 4.1). `own` is its this_class and `parent` its super_class; these and `interfaces` are indices of the
/// constant pool. `pool` has an entry for each index from 0 on, so the first is `Const::Unused`.
#[derive(Drop, PartialEq, Eq)]
pub struct ClassFile {
    pub minor: u16,
    pub major: u16,
    pub pool: Items<Const>,
    pub flags: u16,
    pub own: u16,
    pub parent: u16,
    pub interfaces: Items<u16>,
    pub fields: Items<Member>,
    pub methods: Items<Member>,
    pub attributes: Items<Attribute>,
}

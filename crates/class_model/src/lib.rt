//! A class file as plain values (JVMS 4). Each field has the order and the width of the standard's item; a count or a length is
//! that of its list, so no value says it twice.
#![tactic(auto)]

mod access_flags;
mod attribute;
mod class_file;
mod constant;
mod member;
mod tags;

pub use access_flags::{
    ACC_ABSTRACT, ACC_FINAL, ACC_INTERFACE, ACC_MODULE, ACC_NATIVE, ACC_PRIVATE, ACC_PUBLIC,
    ACC_STATIC, ACC_SYNCHRONIZED,
};
pub use attribute::{Attribute, Body, CodeAttribute, CodeBody, CodeExtra, Row};
pub use class_file::ClassFile;
pub use constant::Const;
pub use member::Member;
pub use tags::{
    TAG_CLASS, TAG_DOUBLE, TAG_DYNAMIC, TAG_FIELDREF, TAG_FLOAT, TAG_INTEGER,
    TAG_INTERFACE_METHODREF, TAG_INVOKE_DYNAMIC, TAG_LONG, TAG_METHOD_HANDLE, TAG_METHOD_TYPE,
    TAG_METHODREF, TAG_MODULE, TAG_NAME_AND_TYPE, TAG_PACKAGE, TAG_STRING, TAG_UTF8,
};

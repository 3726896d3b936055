//! The keys of constants.

ghost use Rattle.std.specs.Prelude.{◌≡◌, ◌∷◌, ◌++◌, IfOk, OnOk};
ghost use Rattle.asm_pool.specs.Keys.{key_of};

use class_model::{
    Const, TAG_CLASS, TAG_FIELDREF, TAG_INTEGER, TAG_INTERFACE_METHODREF, TAG_LONG, TAG_METHODREF,
    TAG_NAME_AND_TYPE, TAG_STRING, TAG_UTF8,
};
use itoa::{Buffer, Integer};
use std::alloc::{AllocError, Global};

/// A constant as a text of numbers, by which it is found: its tag, and what it holds.
pub fn key_of(alloc: Global, constant: &Const) -> Result<Vec<u16>, AllocError>
    ensures { IfOk result (λ key. key.items ≡ key_of constant.now) }
{
    match constant {
        Const::Utf8(units) => tagged(alloc, TAG_UTF8, units),
        Const::Integer(n) => number_key(alloc, TAG_INTEGER, *n),
        Const::Long(n) => number_key(alloc, TAG_LONG, *n),
        Const::Class(name) => tagged(alloc, TAG_CLASS, &[*name]),
        Const::Text(text) => tagged(alloc, TAG_STRING, &[*text]),
        Const::Fieldref(class, member) => tagged(alloc, TAG_FIELDREF, &[*class, *member]),
        Const::Methodref(class, member) => tagged(alloc, TAG_METHODREF, &[*class, *member]),
        Const::InterfaceMethodref(class, member) => {
            tagged(alloc, TAG_INTERFACE_METHODREF, &[*class, *member])
        }
        Const::NameAndType(name, descriptor) => {
            tagged(alloc, TAG_NAME_AND_TYPE, &[*name, *descriptor])
        }
        _ => Ok(Vec::new(alloc)),
    }
}

fn tagged(alloc: Global, tag: u8, units: &[u16]) -> Result<Vec<u16>, AllocError>
    ensures { IfOk result (λ key. key.items ≡ tag ∷ units.now) }
{
    let mut key = Vec::with_capacity(alloc, units.len().saturating_add(1))?;
    key.push(u16::from(tag))?;
    key.extend_from_slice(units)?;
    Ok(key)
}

fn number_key<I: Integer>(alloc: Global, tag: u8, number: I) -> Result<Vec<u16>, AllocError>
    ensures { IfOk result (λ key. key.items ≡ tag ∷ I.text number) }
{
    let mut buffer = Buffer::new();
    let mut key = Vec::new(alloc);
    key.push(u16::from(tag))?;
    append(&mut key, buffer.format(number).as_bytes())?;
    Ok(key)
}

/// Appends bytes as units.
pub fn append(units: &mut Vec<u16>, bytes: &[u8]) -> Result<(), AllocError>
    ensures { OnOk result (units.new.items ≡ units.old.items ++ bytes.now) }
{
    for byte in bytes {
        units.push(u16::from(*byte))?;
    }
    Ok(())
}

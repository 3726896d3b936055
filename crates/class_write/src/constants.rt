//! The constant pool (JVMS 4.4).

ghost use Rattle.std.specs.Prelude.{◌≡◌, ◌++◌, OnOk};
ghost use Rattle.class_grammar.specs.Layout as spec;
ghost use Rattle.class_grammar.specs.Ranges.{IsConstant, IsTable};

use crate::numbers::{u2, u4};
use crate::text::string;
use class_model::{
    Const, TAG_CLASS, TAG_DOUBLE, TAG_DYNAMIC, TAG_FIELDREF, TAG_FLOAT, TAG_INTEGER,
    TAG_INTERFACE_METHODREF, TAG_INVOKE_DYNAMIC, TAG_LONG, TAG_METHOD_HANDLE, TAG_METHOD_TYPE,
    TAG_METHODREF, TAG_MODULE, TAG_NAME_AND_TYPE, TAG_PACKAGE, TAG_STRING, TAG_UTF8,
};
use items::NoMemory;

// A tag, and a number in two bytes.
fn tag_and_u2(out: &mut Vec<u8>, tag: u8, n: u16) -> Result<(), NoMemory>
    ensures { OnOk result (out.new.items ≡ out.old.items ++ spec.u1 tag ++ spec.u2 n) }
{
    out.push(tag)?;
    u2(out, n)
}

fn pair(out: &mut Vec<u8>, tag: u8, first: u16, second: u16) -> Result<(), NoMemory>
    ensures { OnOk result (out.new.items ≡
        out.old.items ++ spec.u1 tag ++ spec.u2 first ++ spec.u2 second) }
{
    tag_and_u2(out, tag, first)?;
    u2(out, second)
}

fn word(out: &mut Vec<u8>, tag: u8, n: u32) -> Result<(), NoMemory>
    ensures { OnOk result (out.new.items ≡ out.old.items ++ spec.u1 tag ++ spec.u4 n) }
{
    out.push(tag)?;
    u4(out, n)
}

fn double_word(out: &mut Vec<u8>, tag: u8, n: u64) -> Result<(), NoMemory>
    ensures { OnOk result (out.new.items ≡ out.old.items ++ spec.u1 tag ++ spec.u8 n) }
{
    out.push(tag)?;
    out.extend_from_slice(&n.to_be_bytes())?;
    Ok(())
}

fn constant(out: &mut Vec<u8>, constant: &Const) -> Result<(), NoMemory>
    requires { IsConstant constant.now }
    ensures { OnOk result (out.new.items ≡ out.old.items ++ spec.constant constant.now) }
{
    match constant {
        Const::Unused => Ok(()),
        Const::Utf8(units) => {
            out.push(TAG_UTF8)?;
            string(out, units)
        }
        Const::Integer(n) => word(out, TAG_INTEGER, n.cast_unsigned()),
        Const::Float(bits) => word(out, TAG_FLOAT, *bits),
        Const::Long(n) => double_word(out, TAG_LONG, n.cast_unsigned()),
        Const::Double(bits) => double_word(out, TAG_DOUBLE, *bits),
        Const::Class(name) => tag_and_u2(out, TAG_CLASS, *name),
        Const::Text(units) => tag_and_u2(out, TAG_STRING, *units),
        Const::Fieldref(class, member) => pair(out, TAG_FIELDREF, *class, *member),
        Const::Methodref(class, member) => pair(out, TAG_METHODREF, *class, *member),
        Const::InterfaceMethodref(class, member) => pair(
            out,
            TAG_INTERFACE_METHODREF,
            *class,
            *member,
        ),
        Const::NameAndType(name, descriptor) => pair(out, TAG_NAME_AND_TYPE, *name, *descriptor),
        Const::MethodHandle(kind, member) => {
            out.push(TAG_METHOD_HANDLE)?;
            tag_and_u2(out, *kind, *member)
        }
        Const::MethodType(descriptor) => tag_and_u2(out, TAG_METHOD_TYPE, *descriptor),
        Const::Dynamic(bootstrap, member) => pair(out, TAG_DYNAMIC, *bootstrap, *member),
        Const::InvokeDynamic(bootstrap, member) => pair(
            out,
            TAG_INVOKE_DYNAMIC,
            *bootstrap,
            *member,
        ),
        Const::Module(name) => tag_and_u2(out, TAG_MODULE, *name),
        Const::Package(name) => tag_and_u2(out, TAG_PACKAGE, *name),
    }
}

/// The constant pool after the number of its entries, entry 0 included (JVMS 4.1).
pub fn pool(out: &mut Vec<u8>, entries: &[Const]) -> Result<(), NoMemory>
    requires { IsTable IsConstant entries.now }
    ensures { OnOk result (out.new.items ≡ out.old.items ++ spec.table spec.constant entries.now) }
{
    u2(out, entries.len() as u16)?;
    for entry in entries {
        constant(out, entry)?;
    }
    Ok(())
}

//! Attributes (JVMS 4.7).

ghost use Rattle.std.specs.Prelude.{◌≡◌, ◌++◌, length, OnOk};
ghost use Rattle.class_grammar.specs.Layout as spec;
ghost use Rattle.class_grammar.specs.Ranges.{IsU2, IsU4, IsTable, IsAttribute, IsBody, IsCode, IsCodeAttribute};

use crate::numbers::{fill_u4, u2, u4};
use class_model::{Attribute, Body, CodeAttribute, CodeBody, CodeExtra, Row};
use items::NoMemory;

// Bytes after their number.
fn length_and_bytes(out: &mut Vec<u8>, bytes: &[u8]) -> Result<(), NoMemory>
    requires { IsU4 (length bytes.now) }
    ensures { OnOk result (out.new.items ≡ out.old.items ++ spec.length_and_bytes bytes.now) }
{
    u4(out, bytes.len() as u32)?;
    out.extend_from_slice(bytes)?;
    Ok(())
}

// A row of an exception table (JVMS 4.7.3).
fn row(out: &mut Vec<u8>, row: &Row) -> Result<(), NoMemory>
    ensures { OnOk result (out.new.items ≡ out.old.items ++ spec.row row.now) }
{
    u2(out, row.start)?;
    u2(out, row.end)?;
    u2(out, row.handler)?;
    u2(out, row.catch_type)
}

fn rows(out: &mut Vec<u8>, rows: &[Row]) -> Result<(), NoMemory>
    requires { IsU2 (length rows.now) }
    ensures { OnOk result (out.new.items ≡ out.old.items ++ spec.table spec.row rows.now) }
{
    u2(out, rows.len() as u16)?;
    for one in rows {
        row(out, one)?;
    }
    Ok(())
}

fn code_attribute(out: &mut Vec<u8>, attribute: &CodeAttribute) -> Result<(), NoMemory>
    requires { IsCodeAttribute attribute.now }
    ensures { OnOk result (out.new.items ≡ out.old.items ++ spec.code_attribute attribute.now) }
{
    u2(out, attribute.name)?;
    match &attribute.body {
        CodeExtra::StackMap(bytes) => length_and_bytes(out, bytes),
        CodeExtra::Other(bytes) => length_and_bytes(out, bytes),
    }
}

fn code_attributes(out: &mut Vec<u8>, attributes: &[CodeAttribute]) -> Result<(), NoMemory>
    requires { IsTable IsCodeAttribute attributes.now }
    ensures { OnOk result (out.new.items ≡
        out.old.items ++ spec.table spec.code_attribute attributes.now) }
{
    u2(out, attributes.len() as u16)?;
    for attribute in attributes {
        code_attribute(out, attribute)?;
    }
    Ok(())
}

// The body of a Code attribute (JVMS 4.7.3).
fn code(out: &mut Vec<u8>, code: &CodeBody) -> Result<(), NoMemory>
    requires { IsCode code.now }
    ensures { OnOk result (out.new.items ≡ out.old.items ++ spec.code code.now) }
{
    u2(out, code.max_stack)?;
    u2(out, code.max_locals)?;
    length_and_bytes(out, &code.code)?;
    rows(out, &code.rows)?;
    code_attributes(out, &code.attributes)
}

fn body(out: &mut Vec<u8>, body: &Body) -> Result<(), NoMemory>
    requires { IsBody body.now }
    ensures { OnOk result (out.new.items ≡ out.old.items ++ spec.body body.now) }
{
    match body {
        Body::Code(inner) => code(out, inner.get()),
        Body::Constant(value) => u2(out, *value),
        Body::Other(bytes) => {
            out.extend_from_slice(bytes)?;
            Ok(())
        }
    }
}

fn attribute(out: &mut Vec<u8>, attribute: &Attribute) -> Result<(), NoMemory>
    requires { IsAttribute attribute.now }
    ensures { OnOk result (out.new.items ≡ out.old.items ++ spec.attribute attribute.now) }
{
    u2(out, attribute.name)?;
    let start = out.len();
    u4(out, 0)?;
    body(out, &attribute.body)?;
    fill_u4(out, start);
    Ok(())
}

/// The attributes of a class or a member after their number (JVMS 4.7).
pub fn attributes(out: &mut Vec<u8>, table: &[Attribute]) -> Result<(), NoMemory>
    requires { IsTable IsAttribute table.now }
    ensures { OnOk result (out.new.items ≡ out.old.items ++ spec.table spec.attribute table.now) }
{
    u2(out, table.len() as u16)?;
    for one in table {
        attribute(out, one)?;
    }
    Ok(())
}

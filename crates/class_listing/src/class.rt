//! The text of a class file.

ghost use Rattle.std.specs.Prelude.{◌≡◌};
ghost use Rattle.asm_code.specs.Encoding.{Puts};
ghost use Rattle.asm_listing.specs.Numbers.{Gives, GivesBy};
ghost use Rattle.class_listing.specs.Listing as spec;

use crate::flags::{class_flags, member_flags};
use crate::method::put_methods;
use asm_listing::{class_at, word_at};
use asm_text::{Line, LineError, print_line};
use class_model::{ClassFile, Const, Member};
use std::alloc::Global;

fn class_line(alloc: Global, pool: &[Const], flags: u16, own: u16) -> Result<Line, LineError>
    ensures { Gives result (spec.class_line pool.now flags own) }
{
    Ok(Line::Class {
        name: class_at(alloc, pool, own)?,
        flags: class_flags(alloc, flags)?,
    })
}

fn put_class(
    alloc: Global,
    text: &mut Vec<u8>,
    pool: &[Const],
    flags: u16,
    own: u16,
) -> Result<(), LineError>
    ensures { Puts result text.new.items (spec.with_class pool.now flags own text.old.items) }
{
    let line = class_line(alloc, pool, flags, own)?;
    print_line(text, &line)?;
    Ok(())
}

// A class without a superclass has no line for it.
fn put_super(
    alloc: Global,
    text: &mut Vec<u8>,
    pool: &[Const],
    parent: u16,
) -> Result<(), LineError>
    ensures { Puts result text.new.items (spec.with_super pool.now parent text.old.items) }
{
    if parent == 0 {
        return Ok(());
    }
    let name = class_at(alloc, pool, parent)?;
    print_line(text, &Line::Super(name))?;
    Ok(())
}

fn put_interface(
    alloc: Global,
    text: &mut Vec<u8>,
    pool: &[Const],
    index: u16,
) -> Result<(), LineError>
    ensures { Puts result text.new.items (spec.with_interface pool.now index text.old.items) }
{
    let name = class_at(alloc, pool, index)?;
    print_line(text, &Line::Implements(name))?;
    Ok(())
}

fn put_interfaces(
    alloc: Global,
    text: &mut Vec<u8>,
    pool: &[Const],
    indexes: &[u16],
) -> Result<(), LineError>
    ensures { Puts result text.new.items
        (spec.with_interfaces pool.now indexes.now text.old.items) }
{
    for index in indexes {
        put_interface(alloc, text, pool, *index)?;
    }
    Ok(())
}

fn field_line(alloc: Global, pool: &[Const], field: &Member) -> Result<Line, LineError>
    ensures { Gives result (spec.field_line pool.now field.now) }
{
    Ok(Line::Field {
        name: word_at(alloc, pool, field.name)?,
        descriptor: word_at(alloc, pool, field.descriptor)?,
        flags: member_flags(alloc, field.flags)?,
    })
}

// A field has no attribute.
fn put_field(
    alloc: Global,
    text: &mut Vec<u8>,
    pool: &[Const],
    field: &Member,
) -> Result<(), LineError>
    ensures { Puts result text.new.items (spec.with_field pool.now field.now text.old.items) }
{
    let line = field_line(alloc, pool, field)?;
    if !field.attributes.is_empty() {
        return Err(LineError::Bad);
    }
    print_line(text, &line)?;
    Ok(())
}

fn put_fields(
    alloc: Global,
    text: &mut Vec<u8>,
    pool: &[Const],
    fields: &[Member],
) -> Result<(), LineError>
    ensures { Puts result text.new.items (spec.with_fields pool.now fields.now text.old.items) }
{
    for field in fields {
        put_field(alloc, text, pool, field)?;
    }
    Ok(())
}

/// The text of the class file. `Bad`: a part of it has no line.
pub fn listing_of(alloc: Global, file: &ClassFile) -> Result<Vec<u8>, LineError>
    ensures { GivesBy (λ text. text.items) result (spec.listing file.now) }
{
    let mut text = Vec::new(alloc);
    put_class(alloc, &mut text, &file.pool, file.flags, file.own)?;
    put_super(alloc, &mut text, &file.pool, file.parent)?;
    put_interfaces(alloc, &mut text, &file.pool, &file.interfaces)?;
    put_fields(alloc, &mut text, &file.pool, &file.fields)?;
    put_methods(alloc, &mut text, &file.pool, &file.methods)?;
    Ok(text)
}

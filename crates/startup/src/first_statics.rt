//! The values with which static fields begin (JVMS 2.3, 2.4, 4.7.2).

ghost use Rattle.std.specs.Prelude.{◌≡◌, ◌++◌, ◌+◌, Some, filter, map, position, IfOk, OnOk};
ghost use Rattle.std.specs.Option.{option_map};
ghost use Rattle.std.specs.List.{flat_map};
ghost use Rattle.class_grammar.specs.Text.{same_text};
ghost use Rattle.items.specs.First.{first_in};
ghost use Rattle.link_rules.specs.Members.{is_static};
ghost use Rattle.link_model.specs.Strings.{strings_of};
ghost use Rattle.ref_model.specs.Opening as spec;
ghost use Rattle.startup.specs.FirstStatics as parts;

use class_grammar::{is_same, text_at};
use class_model::{Attribute, Body, ClassFile, Const, Member};
use descriptors::Kind;
use heap_instructions::kept;
use instruction_rows::Value;
use items::NoMemory;
use link_model::{ERR_STREAM, FIRST_STATE, OUT_STREAM};
use link_numbers::{Names, kind_of, string_number};
use link_resolution::{is_static, key_in, own_name};
use link_tables::Tables;
use runtime_program::zero_of;
use std::alloc::Global;

fn stream_of(name: &[u16]) -> Option<u32>
    ensures { result ≡ parts.stream_of name.now }
{
    if is_same(name, b"out") {
        Some(OUT_STREAM)
    } else if is_same(name, b"err") {
        Some(ERR_STREAM)
    } else {
        None
    }
}

// The place of a state of a thread.
fn place_of(name: &[u16]) -> Option<u32>
    ensures { result ≡ position (same_text name.now) spec.state_names }
{
    if is_same(name, b"NEW") {
        Some(0)
    } else if is_same(name, b"RUNNABLE") {
        Some(1)
    } else if is_same(name, b"BLOCKED") {
        Some(2)
    } else if is_same(name, b"WAITING") {
        Some(3)
    } else if is_same(name, b"TIMED_WAITING") {
        Some(4)
    } else if is_same(name, b"TERMINATED") {
        Some(5)
    } else {
        None
    }
}

fn state_of(name: &[u16]) -> Option<u32>
    ensures { result ≡ parts.state_of name.now }
{
    match place_of(name) {
        Some(place) => place.checked_add(FIRST_STATE),
        None => None,
    }
}

// The object with which a field of a built-in class begins.
fn opening_object(class: &[u16], name: &[u16]) -> Option<u32>
    ensures { result ≡ spec.opening_object class.now name.now }
{
    if is_same(class, b"java/lang/System") {
        stream_of(name)
    } else if is_same(class, b"java/lang/Thread$State") {
        state_of(name)
    } else {
        None
    }
}

fn constant_in(attribute: &Attribute) -> Option<u16>
    ensures { result ≡ spec.constant_in attribute.now }
{
    match &attribute.body {
        Body::Constant(index) => Some(*index),
        _ => None,
    }
}

// The index of the constant in the first ConstantValue attribute.
fn constant_index(attributes: &[Attribute]) -> Option<u16>
    ensures { result ≡ first_in spec.constant_in attributes.now }
{
    for attribute in attributes {
        if let Some(index) = constant_in(attribute) {
            return Some(index);
        }
    }
    None
}

fn text_value(strings: &Names, text: &[u16]) -> Result<Option<Value>, NoMemory>
    ensures { IfOk result (λ v. v ≡ parts.text_value strings.now text.now) }
{
    match string_number(strings, text)? {
        Some(number) => Ok(Some(Value::Ref(number))),
        None => Ok(None),
    }
}

fn constant_value(
    strings: &Names,
    pool: &[Const],
    constant: &Const,
) -> Result<Option<Value>, NoMemory>
    ensures { IfOk result (λ v. v ≡ parts.constant_value strings.now pool.now constant.now) }
{
    match constant {
        Const::Integer(n) => Ok(Some(Value::Int(*n))),
        Const::Long(n) => Ok(Some(Value::Long(*n))),
        Const::Text(index) => match text_at(pool, *index) {
            Some(text) => text_value(strings, text),
            None => Ok(None),
        },
        _ => Ok(None),
    }
}

// The value of a field's ConstantValue attribute.
fn attribute_value(
    strings: &Names,
    pool: &[Const],
    field: &Member,
) -> Result<Option<Value>, NoMemory>
    ensures { IfOk result (λ v. v ≡ parts.attribute_value strings.now pool.now field.now) }
{
    match constant_index(&field.attributes) {
        Some(index) => match pool.get(usize::from(index)) {
            Some(constant) => constant_value(strings, pool, constant),
            None => Ok(None),
        },
        None => Ok(None),
    }
}

fn constant_or_zero(kind: &Kind, constant: Option<Value>) -> Value
    ensures { result ≡ spec.constant_or_zero kind.now constant }
{
    match constant {
        Some(value) => kept(kind, value),
        None => zero_of(kind),
    }
}

fn object_or(object: Option<u32>, value: Value) -> Value
    ensures { result ≡ spec.object_or object value }
{
    match object {
        Some(object) => Value::Ref(object),
        None => value,
    }
}

// The value with which a static field begins.
fn static_opening(
    alloc: Global,
    strings: &Names,
    file: &ClassFile,
    field: &Member,
) -> Result<Value, NoMemory>
    ensures { IfOk result (λ v. v ≡ parts.static_opening strings.now file.now field.now) }
{
    let key = key_in(&file.pool, field);
    let object = opening_object(own_name(file), key.name);
    let constant = attribute_value(strings, &file.pool, field)?;
    let kind = kind_of(alloc, key.descriptor)?;
    Ok(object_or(object, constant_or_zero(&kind, constant)))
}

fn add_static(
    alloc: Global,
    strings: &Names,
    file: &ClassFile,
    field: &Member,
    statics: &mut Vec<Value>,
) -> Result<(), NoMemory>
    ensures { OnOk result (statics.new.items ≡
        statics.old.items ++ parts.static_value strings.now file.now field.now) }
{
    if is_static(field) {
        statics.push(static_opening(alloc, strings, file, field)?)?;
    }
    Ok(())
}

fn add_statics(
    alloc: Global,
    strings: &Names,
    file: &ClassFile,
    statics: &mut Vec<Value>,
) -> Result<(), NoMemory>
    ensures { OnOk result (statics.new.items ≡
        statics.old.items ++ parts.static_values strings.now file.now) }
{
    for field in file.fields.iter() {
        add_static(alloc, strings, file, field, statics)?;
    }
    Ok(())
}

/// The values with which the static fields of a program begin, by its Strings.
pub(crate) fn first_statics(
    alloc: Global,
    program: &Tables,
    strings: &Names,
) -> Result<Vec<Value>, NoMemory>
    ensures { IfOk result (λ v. v.items
        ≡ flat_map (parts.static_values strings.now) program.now.program.classes) }
{
    let mut statics = Vec::new(alloc);
    for file in program.hierarchy().classes().files() {
        add_statics(alloc, strings, file, &mut statics)?;
    }
    Ok(statics)
}

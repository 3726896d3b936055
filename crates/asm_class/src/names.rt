//! Which words may name a class, a field or a method, and which are their descriptors (JVMS 4.2, 4.3).

ghost use Rattle.std.specs.Prelude.{◌≡◌, IfOk, codes, false};
ghost use Rattle.std.specs.List.{list_all};
ghost use Rattle.descriptors.specs.Descriptors.{are_parts};
ghost use Rattle.descriptors.specs.States as descriptors;
ghost use Rattle.class_grammar.specs.Text.{same_text};
ghost use Rattle.class_grammar.specs.Names as grammar;
ghost use Rattle.asm_class.specs.Names as spec;

use asm_text::{FrameType, Operands};
use descriptors::{is_field_descriptor, is_method_descriptor};
use std::alloc::{AllocError, Global};

fn is_name_byte(byte: u8) -> bool
    ensures { result ≡ grammar.is_name_unit byte }
{
    !(byte == b'.' || byte == b';' || byte == b'[' || byte == b'/')
}

fn is_method_byte(byte: u8) -> bool
    ensures { result ≡ grammar.is_method_unit byte }
{
    is_name_byte(byte) && !(byte == b'<' || byte == b'>')
}

fn is_some(name: &[u8]) -> bool
    ensures { result ≡ grammar.is_some_text name.now }
{
    match name {
        [_, ..] => true,
        [] => false,
    }
}

fn are_name_bytes(name: &[u8]) -> bool
    ensures { result ≡ list_all grammar.is_name_unit name.now }
{
    name.iter().all(|byte| is_name_byte(*byte))
}

fn are_method_bytes(name: &[u8]) -> bool
    ensures { result ≡ list_all grammar.is_method_unit name.now }
{
    name.iter().all(|byte| is_method_byte(*byte))
}

fn is_field_name(name: &[u8]) -> bool
    ensures { result ≡ grammar.is_field_name name.now }
{
    is_some(name) && are_name_bytes(name)
}

fn is_method_name(name: &[u8]) -> bool
    ensures { result ≡ grammar.is_method_name name.now }
{
    name == b"<init>".as_slice()
        || name == b"<clinit>".as_slice()
        || (is_some(name) && are_method_bytes(name))
}

/// Whether this is the class without a superclass.
pub fn is_object(name: &[u8]) -> bool
    ensures { result ≡ same_text name.now grammar.object_class }
{
    name == b"java/lang/Object".as_slice()
}

// Whether each part between slashes has a byte, and none that no name has.
fn are_parts(name: &[u8]) -> bool
    ensures { result ≡ are_parts false name.now }
{
    let mut begun = false;
    for byte in name {
        if *byte == b'/' {
            if !begun {
                return false;
            }
            begun = false;
        } else if is_name_byte(*byte) {
            begun = true;
        } else {
            return false;
        }
    }
    begun
}

// The units of a word.
fn units_of(alloc: Global, word: &[u8]) -> Result<Vec<u16>, AllocError>
    ensures { IfOk result (λ units. units.items ≡ word.now) }
{
    let mut units = Vec::with_capacity(alloc, word.len())?;
    for byte in word {
        units.push(u16::from(*byte))?;
    }
    Ok(units)
}

fn is_field(alloc: Global, descriptor: &[u8]) -> Result<bool, AllocError>
    ensures { IfOk result (λ answer. answer ≡ descriptors.is_field descriptor.now) }
{
    let units = units_of(alloc, descriptor)?;
    Ok(is_field_descriptor(&units))
}

fn is_method(alloc: Global, descriptor: &[u8]) -> Result<bool, AllocError>
    ensures { IfOk result (λ answer. answer ≡ descriptors.is_method descriptor.now) }
{
    let units = units_of(alloc, descriptor)?;
    Ok(is_method_descriptor(&units))
}

fn begins_with_bracket(name: &[u8]) -> bool
    ensures { result ≡ grammar.begins_with (codes "[") name.now }
{
    match name {
        [first, ..] => *first == b'[',
        [] => false,
    }
}

/// Whether the word is the name of a class, or the descriptor of an array.
pub fn is_class_text(alloc: Global, name: &[u8]) -> Result<bool, AllocError>
    ensures { IfOk result (λ answer. answer ≡ grammar.is_class_text name.now) }
{
    if are_parts(name) {
        return Ok(true);
    }
    if !begins_with_bracket(name) {
        return Ok(false);
    }
    is_field(alloc, name)
}

/// Whether a field may have this name and this descriptor.
pub fn is_field_of(alloc: Global, name: &[u8], descriptor: &[u8]) -> Result<bool, AllocError>
    ensures { IfOk result (λ answer. answer ≡ spec.is_field_of name.now descriptor.now) }
{
    if !is_field_name(name) {
        return Ok(false);
    }
    is_field(alloc, descriptor)
}

/// Whether a method may have this name and this descriptor.
pub fn is_method_of(alloc: Global, name: &[u8], descriptor: &[u8]) -> Result<bool, AllocError>
    ensures { IfOk result (λ answer. answer ≡ spec.is_method_of name.now descriptor.now) }
{
    if !is_method_name(name) {
        return Ok(false);
    }
    is_method(alloc, descriptor)
}

fn is_member_of(
    alloc: Global,
    opcode: u8,
    name: &[u8],
    descriptor: &[u8],
) -> Result<bool, AllocError>
    ensures { IfOk result (λ answer. answer ≡ spec.is_member_of opcode name.now descriptor.now) }
{
    if opcode < 182 {
        is_field_of(alloc, name, descriptor)
    } else {
        is_method_of(alloc, name, descriptor)
    }
}

/// Whether what the instruction names has such names.
pub fn is_sound(alloc: Global, opcode: u8, operands: &Operands) -> Result<bool, AllocError>
    ensures { IfOk result (λ answer. answer ≡ spec.is_sound opcode operands.now) }
{
    match operands {
        Operands::Member {
            class,
            name,
            descriptor,
        } => {
            if !is_class_text(alloc, class)? {
                return Ok(false);
            }
            is_member_of(alloc, opcode, name, descriptor)
        }
        Operands::Class(name) => is_class_text(alloc, name),
        Operands::Dimensions(name, _) => is_class_text(alloc, name),
        _ => Ok(true),
    }
}

fn is_sound_type(alloc: Global, frame_type: &FrameType) -> Result<bool, AllocError>
    ensures { IfOk result (λ answer. answer ≡ spec.is_sound_type frame_type.now) }
{
    match frame_type {
        FrameType::Ref(name) => is_class_text(alloc, name),
        _ => Ok(true),
    }
}

/// Whether the classes that these types name have such names.
pub fn are_sound_types(alloc: Global, types: &[FrameType]) -> Result<bool, AllocError>
    ensures { IfOk result (λ answer. answer ≡ spec.are_sound_types types.now) }
{
    for frame_type in types {
        if !is_sound_type(alloc, frame_type)? {
            return Ok(false);
        }
    }
    Ok(true)
}

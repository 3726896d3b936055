//! What the names and descriptors in a constant pool mean in a program (JVMS 4.3, 4.4, 5.4.3.1).

ghost use Rattle.std.specs.Prelude.{◌≡◌, ◌≤◌, false, length};
ghost use Rattle.std.specs.Option.{option_map};
ghost use Rattle.link_rules.specs.Program as program;
ghost use Rattle.link_rules.specs.Constants as spec;
ghost use Rattle.link_resolution.specs.Keys.{key_of};

use crate::classes::Classes;
use crate::members::MemberKey;
use class_grammar::{class_name_at, text_at};
use class_model::Const;

const BRACKET: u16 = b'[' as u16;

const CLASS_LETTER: u16 = b'L' as u16;

const SEMICOLON: u16 = b';' as u16;

const CLOSING: u16 = b')' as u16;

const FLOAT_LETTER: u16 = b'F' as u16;

const DOUBLE_LETTER: u16 = b'D' as u16;

const LONG_LETTER: u16 = b'J' as u16;

const NO_KEY: MemberKey = MemberKey {
    name: &[],
    descriptor: &[],
};

/// Whether a name is that of an array class, which is its descriptor (JVMS 4.4.1).
pub fn is_array_name(name: &[u16]) -> bool
    ensures { result ≡ program.is_array_name name.now }
{
    match name {
        [first, ..] => *first == BRACKET,
        [] => false,
    }
}

/// How many dimensions the array class of this name has.
pub fn dimensions_of(name: &[u16]) -> usize
    ensures count { result ≡ spec.dimensions_of name.now }
    ensures bound { result ≤ length name.now }
{
    name.iter().take_while(|unit| **unit == BRACKET).count()
}

/// The descriptor of the last elements of an array class.
pub fn last_element(name: &[u16]) -> &[u16]
    ensures { result.now ≡ spec.last_element name.now }
{
    &name[dimensions_of(name)..]
}

/// The name in the descriptor of a class.
pub fn name_in(descriptor: &[u16]) -> &[u16]
    ensures { result.now ≡ spec.name_in descriptor.now }
{
    if descriptor.len() < 2 {
        return &[];
    }
    &descriptor[1..descriptor.len() - 1]
}

fn is_class_descriptor(descriptor: &[u16]) -> bool
    ensures { result ≡ spec.is_class_descriptor descriptor.now }
{
    match descriptor {
        [first, ..] => *first == CLASS_LETTER,
        [] => false,
    }
}

/// The name of a class, or of the class that the last elements of an array have. `None`: they are primitive.
pub fn base_name(name: &[u16]) -> Option<&[u16]>
    ensures { option_map (λ base. base.now) result ≡ spec.base_name name.now }
{
    if !is_array_name(name) {
        return Some(name);
    }
    let element = last_element(name);
    if is_class_descriptor(element) {
        Some(name_in(element))
    } else {
        None
    }
}

/// Whether the program has the class of this name; an array class counts by its last elements.
pub fn is_known(classes: &Classes, name: &[u16]) -> bool
    ensures { result ≡ spec.is_known classes.now name.now }
{
    match base_name(name) {
        Some(base) => classes.class_named(base).is_some(),
        None => true,
    }
}

/// Whether a name is that of an internal class, or of an array of them.
pub fn names_internal(classes: &Classes, name: &[u16]) -> bool
    ensures { result ≡ spec.names_internal classes.now name.now }
{
    match base_class(classes, name) {
        Some(class) => classes.is_internal(class),
        None => false,
    }
}

/// The class that a name means, or that an array has as its last elements. `None`: these are primitive, or the program has no such class.
pub fn base_class(classes: &Classes, name: &[u16]) -> Option<u32>
    ensures { result ≡ spec.base_class classes.now name.now }
{
    classes.class_named(base_name(name)?)
}

/// The class in which members of the named one are looked for: an array class has those of Object (JVMS 5.4.3.3).
pub fn home_of(classes: &Classes, name: &[u16]) -> Option<u32>
    ensures { result ≡ spec.home_of classes.now name.now }
{
    if is_array_name(name) {
        classes.object()
    } else {
        classes.class_named(name)
    }
}

// Whether a class name is being read after a unit of a descriptor.
fn is_in_name(inside: bool, unit: u16) -> bool
    ensures { result ≡ spec.is_in_name inside unit }
{
    if inside {
        unit != SEMICOLON
    } else {
        unit == CLASS_LETTER
    }
}

/// Whether a float or double is among the types of a descriptor.
pub fn is_floating(descriptor: &[u16]) -> bool
    ensures { result ≡ spec.is_floating descriptor.now }
{
    let mut inside = false;
    for unit in descriptor {
        if !inside && (*unit == DOUBLE_LETTER || *unit == FLOAT_LETTER) {
            return true;
        }
        inside = is_in_name(inside, *unit);
    }
    false
}

/// Whether a name is that of an array class of floats or doubles.
pub fn is_floating_array(name: &[u16]) -> bool
    ensures { result ≡ spec.is_floating_array name.now }
{
    is_array_name(name) && is_floating(name)
}

// How many slots of arguments begin with a unit, where `array` says that a bracket precedes it.
fn slots_at(inside: bool, array: bool, unit: u16) -> u64
    ensures { result ≡ spec.slots_at inside array unit }
{
    if inside || unit == BRACKET {
        0
    } else if !array && (unit == LONG_LETTER || unit == DOUBLE_LETTER) {
        2
    } else {
        1
    }
}

/// How many slots the arguments of a method take (JVMS 4.3.3).
pub fn argument_slots(descriptor: &[u16]) -> u64
    ensures { result ≡ spec.argument_slots descriptor.now }
{
    match descriptor {
        [_, rest @ ..] => slots_in(rest),
        [] => 0,
    }
}

fn slots_in(units: &[u16]) -> u64
    ensures { result ≡ spec.slots_in false false units.now }
{
    let mut slots = 0u64;
    let mut inside = false;
    let mut array = false;
    for unit in units {
        if !inside && *unit == CLOSING {
            return slots;
        }
        slots += slots_at(inside, array, *unit);
        array = !inside && *unit == BRACKET;
        inside = is_in_name(inside, *unit);
    }
    slots
}

// The name and the descriptor of a NameAndType (JVMS 4.4.6); any other constant has none.
fn key_in<'a>(pool: &'a [Const], constant: &Const) -> MemberKey<'a>
    ensures { key_of result ≡ spec.key_in pool.now constant.now }
{
    match constant {
        Const::NameAndType(name, descriptor) => MemberKey {
            name: text_at(pool, *name).unwrap_or(&[]),
            descriptor: text_at(pool, *descriptor).unwrap_or(&[]),
        },
        _ => NO_KEY,
    }
}

/// The name and the descriptor that the NameAndType at an index has.
pub fn key_at(pool: &[Const], index: u16) -> MemberKey<'_>
    ensures { key_of result ≡ spec.key_at pool.now index }
{
    match pool.get(usize::from(index)) {
        Some(constant) => key_in(pool, constant),
        None => NO_KEY,
    }
}

/// The name of the class at an index.
pub fn name_at(pool: &[Const], index: u16) -> &[u16]
    ensures { result.now ≡ spec.name_at pool.now index }
{
    class_name_at(pool, index).unwrap_or(&[])
}

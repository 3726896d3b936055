//! The kinds of fields and of arrays' elements, and what a store keeps of a value (JVMS 2.11.1).

ghost use Rattle.std.specs.Prelude.{◌≡◌, ℕ};
ghost use Rattle.stack_maps.specs.declared.types.VType.TheVariants as types;
ghost use Rattle.instruction_rows.specs.Kinds.{kind_of_element};
ghost use Rattle.verify_types.specs.Operands as operands;
ghost use Rattle.ref_model.specs.Kinds as spec;

use descriptors::{ElementType, Kind as FieldType};
use instruction_rows::Value;
use jvm_words::{Narrow, narrow};
use link_model::ArrayType;
use opcodes::{Element, ValueKind};
use stack_maps::Base;

#[inline(always)]
fn kind_of_element_type(element: &ElementType) -> ValueKind
    ensures { result ≡ spec.kind_of_element_type element.now }
{
    match element {
        ElementType::Byte
        | ElementType::Char
        | ElementType::Short
        | ElementType::Bool
        | ElementType::Int => ValueKind::Int,
        ElementType::Long => ValueKind::Long,
        ElementType::Float | ElementType::Double | ElementType::Class(_) => ValueKind::Reference,
    }
}

/// The kind of the values of a type.
#[inline(always)]
pub fn value_kind(field: &FieldType) -> ValueKind
    ensures { result ≡ spec.value_kind field.now }
{
    if field.dimensions == 0 {
        kind_of_element_type(&field.element)
    } else {
        ValueKind::Reference
    }
}

#[inline(always)]
fn kept_of_element(element: &ElementType, n: i32) -> i32
    ensures { result ≡ spec.kept_of_element element.now n }
{
    match element {
        ElementType::Bool => narrow(Narrow::Bool, n),
        ElementType::Byte => narrow(Narrow::Byte, n),
        ElementType::Char => narrow(Narrow::Char, n),
        ElementType::Short => narrow(Narrow::Short, n),
        _ => n,
    }
}

#[inline(always)]
fn kept_of(field: &FieldType, n: i32) -> i32
    ensures { result ≡ spec.kept_of field.now n }
{
    if field.dimensions == 0 {
        kept_of_element(&field.element, n)
    } else {
        n
    }
}

/// What a field of this type keeps of a value (JVMS 6.5: putfield, putstatic).
#[inline(always)]
pub fn kept(field: &FieldType, value: Value) -> Value
    ensures { result ≡ spec.kept field.now value }
{
    match value {
        Value::Int(n) => Value::Int(kept_of(field, n)),
        Value::Long(n) => Value::Long(n),
        Value::Null => Value::Null,
        Value::Ref(o) => Value::Ref(o),
    }
}

#[inline(always)]
fn kept_of_base(base: Base, n: i32) -> i32
    ensures { result ≡ spec.kept_of_base base n }
{
    match base {
        Base::Bool => narrow(Narrow::Bool, n),
        Base::Byte => narrow(Narrow::Byte, n),
        Base::Char => narrow(Narrow::Char, n),
        Base::Short => narrow(Narrow::Short, n),
        _ => n,
    }
}

/// What an element of an array keeps of a value (JVMS 6.5: bastore, castore, sastore).
#[inline(always)]
pub(crate) fn kept_in(array: ArrayType, value: Value) -> Value
    ensures { result ≡ spec.kept_in array value }
{
    match value {
        Value::Int(n) => Value::Int(kept_of_base(array.base, n)),
        Value::Long(n) => Value::Long(n),
        Value::Null => Value::Null,
        Value::Ref(o) => Value::Ref(o),
    }
}

/// The kind of the elements that an array instruction loads or stores.
#[inline(always)]
pub(crate) fn element_kind(element: Element) -> ValueKind
    ensures { result ≡ kind_of_element element }
{
    match element {
        Element::Int | Element::Byte | Element::Char | Element::Short => ValueKind::Int,
        Element::Long => ValueKind::Long,
        Element::Reference => ValueKind::Reference,
    }
}

#[inline(always)]
fn is_element(element: Element, base: Base) -> bool
    ensures { result ≡ operands.is_element element base }
{
    match base {
        Base::Int => matches!(element, Element::Int),
        Base::Long => matches!(element, Element::Long),
        Base::Class(_) => matches!(element, Element::Reference),
        Base::Byte | Base::Bool => matches!(element, Element::Byte),
        Base::Char => matches!(element, Element::Char),
        Base::Short => matches!(element, Element::Short),
        Base::Float | Base::Double => false,
    }
}

/// Whether an array instruction serves for arrays of this type (JVMS 6.5; baload and bastore serve for booleans too).
#[inline(always)]
pub(crate) fn serves(element: Element, array: ArrayType) -> bool
    ensures { result ≡ operands.serves element (types.Named array.dimensions array.base) }
{
    array.dimensions == 1 && is_element(element, array.base)
        || 1 < array.dimensions && matches!(element, Element::Reference)
}

fn kind_of_base(base: Base) -> ValueKind
    ensures { result ≡ spec.kind_of_base base }
{
    match base {
        Base::Bool | Base::Byte | Base::Char | Base::Short | Base::Int => ValueKind::Int,
        Base::Long => ValueKind::Long,
        Base::Float | Base::Double | Base::Class(_) => ValueKind::Reference,
    }
}

fn zero_of_kind(kind: ValueKind) -> Value
    ensures { result ≡ spec.zero_of_kind kind }
{
    match kind {
        ValueKind::Int => Value::Int(0),
        ValueKind::Long => Value::Long(0),
        ValueKind::Reference => Value::Null,
    }
}

/// The value of the elements of a new array (JVMS 2.3, 2.4).
pub(crate) fn element_zero(array: ArrayType) -> Value
    ensures { result ≡ spec.zero_of_kind (spec.kind_of_elements array) }
{
    if array.dimensions == 1 {
        zero_of_kind(kind_of_base(array.base))
    } else {
        Value::Null
    }
}

//! The verification types of classes, fields, constants and descriptors (JVMS 4.3.2, 4.10.1.2).

ghost use Rattle.std.specs.Prelude.{◌≡◌};
ghost use Rattle.verify_types.specs.ClassTypes as spec;

use descriptors::{ElementType, Kind};
use instruction_rows::Value;
use link_model::Lookups;
use opcodes::Primitive;
use stack_maps::{Base, VType};

/// What a type of a stack map means in the code of a class: a constant of its pool becomes the class that it names, and every
/// other type is itself (JVMS 4.7.4). `None`: the constant is no class.
pub fn resolve<L: Lookups>(w: &L, class: u32, t: VType) -> Option<VType>
    ensures { result ≡ spec.resolve (L.world w.now) class t }
{
    match t {
        VType::Object(index) => w.pool_type(class, index),
        other => Some(other),
    }
}

// The class of this name, as the last element of an array or by itself.
fn base_named<L: Lookups>(w: &L, name: &[u16]) -> Base
    ensures { result ≡ spec.base_named (L.world w.now) name.now }
{
    number_or_none(w, w.name_number(name))
}

// The class of a number, or a number of no class.
fn number_or_none<L: Lookups>(w: &L, found: Option<u32>) -> Base
    ensures { result ≡ spec.base_numbered (L.world w.now) found }
{
    match found {
        Some(class) => Base::Class(class),
        None => Base::Class(w.name_count()),
    }
}

/// The type of objects of java/lang/Object.
pub fn object_type<L: Lookups>(w: &L) -> VType
    ensures { result ≡ spec.object_type (L.world w.now) }
{
    VType::Named(0, number_or_none(w, w.object()))
}

/// The type of objects of java/lang/String.
pub fn string_type<L: Lookups>(w: &L) -> VType
    ensures { result ≡ spec.string_type (L.world w.now) }
{
    VType::Named(0, number_or_none(w, w.string()))
}

/// The type of objects of java/lang/Throwable.
pub fn throwable_type<L: Lookups>(w: &L) -> VType
    ensures { result ≡ spec.throwable_type (L.world w.now) }
{
    VType::Named(0, number_or_none(w, w.throwable()))
}

// The last elements of an array.
fn base_of_element<L: Lookups>(w: &L, element: &ElementType) -> Base
    ensures { result ≡ spec.base_of_element (L.world w.now) element.now }
{
    match element {
        ElementType::Byte => Base::Byte,
        ElementType::Char => Base::Char,
        ElementType::Double => Base::Double,
        ElementType::Float => Base::Float,
        ElementType::Int => Base::Int,
        ElementType::Long => Base::Long,
        ElementType::Short => Base::Short,
        ElementType::Bool => Base::Bool,
        ElementType::Class(name) => base_named(w, name),
    }
}

// The verification type of what is no array.
fn type_of_element<L: Lookups>(w: &L, element: &ElementType) -> VType
    ensures { result ≡ spec.type_of_element (L.world w.now) element.now }
{
    match element {
        ElementType::Byte
        | ElementType::Char
        | ElementType::Int
        | ElementType::Short
        | ElementType::Bool => VType::Int,
        ElementType::Double => VType::Double,
        ElementType::Float => VType::Float,
        ElementType::Long => VType::Long,
        ElementType::Class(name) => VType::Named(0, base_named(w, name)),
    }
}

/// The verification type of a field, a parameter or a result (JVMS 4.3.2): boolean, byte, char and short are ints.
pub fn type_of_kind<L: Lookups>(w: &L, kind: &Kind) -> VType
    ensures { result ≡ spec.type_of_kind (L.world w.now) kind.now }
{
    if kind.dimensions == 0 {
        type_of_element(w, &kind.element)
    } else {
        VType::Named(kind.dimensions, base_of_element(w, &kind.element))
    }
}

/// The elements of an array that `newarray` creates (JVMS 6.5).
pub fn base_of_primitive(primitive: Primitive) -> Base
    ensures { result ≡ spec.base_of_primitive primitive }
{
    match primitive {
        Primitive::Boolean => Base::Bool,
        Primitive::Char => Base::Char,
        Primitive::Float => Base::Float,
        Primitive::Double => Base::Double,
        Primitive::Byte => Base::Byte,
        Primitive::Short => Base::Short,
        Primitive::Int => Base::Int,
        Primitive::Long => Base::Long,
    }
}

/// The type of a constant that is pushed (JVMS 6.5, ldc).
pub fn type_of_value<L: Lookups>(w: &L, value: Value) -> VType
    ensures { result ≡ spec.type_of_value (L.world w.now) value }
{
    match value {
        Value::Int(_) => VType::Int,
        Value::Long(_) => VType::Long,
        Value::Null => VType::Null,
        Value::Ref(_) => string_type(w),
    }
}

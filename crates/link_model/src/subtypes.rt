//! Which classes are below others, and what is above each array class (JVMS 4.10.1.2, JLS 4.10.3).

ghost use Rattle.std.specs.Prelude.{◌≡◌};
ghost use Rattle.link_model.specs.Subtypes as spec;

use crate::Lookups;
use stack_maps::Base;

// Whether the number that was found, if any, is this one.
fn is_number(found: Option<u32>, class: u32) -> bool
    ensures { result ≡ spec.is_number found class }
{
    match found {
        Some(n) => n == class,
        None => false,
    }
}

// Whether this is the number of one of the classes above each array class (JLS 4.10.3).
fn is_above_arrays<L: Lookups>(w: &L, class: u32) -> bool
    ensures { result ≡ spec.is_above_arrays (L.world w.now) class }
{
    is_number(w.object(), class)
        || is_number(w.cloneable(), class)
        || is_number(w.serializable(), class)
}

/// Whether a type is a class that is above each array class: Object, Cloneable or Serializable (JLS 4.10.3).
pub fn is_array_super<L: Lookups>(w: &L, base: Base) -> bool
    ensures { result ≡ spec.is_array_super (L.world w.now) base }
{
    match base {
        Base::Class(class) => is_above_arrays(w, class),
        _ => false,
    }
}

/// Whether two types are the same primitive one: arrays of different primitive types are not below each other (JLS 4.10.3).
pub fn same_primitive(a: Base, b: Base) -> bool
    ensures { result ≡ spec.same_primitive a b }
{
    match b {
        Base::Class(_) => false,
        Base::Bool => matches!(a, Base::Bool),
        Base::Byte => matches!(a, Base::Byte),
        Base::Char => matches!(a, Base::Char),
        Base::Short => matches!(a, Base::Short),
        Base::Int => matches!(a, Base::Int),
        Base::Long => matches!(a, Base::Long),
        Base::Float => matches!(a, Base::Float),
        Base::Double => matches!(a, Base::Double),
    }
}

/// Whether a class is another, or that is among its superclasses and superinterfaces (JLS 4.10.2). A class that isn't in the program counts
/// as one whose only superclass is Object.
#[inline]
pub fn class_below<L: Lookups>(w: &L, a: u32, b: u32) -> bool
    ensures { result ≡ spec.class_below (L.world w.now) a b }
{
    a == b || w.is_below(a, b) || (w.class_count() <= a as usize && is_number(w.object(), b))
}

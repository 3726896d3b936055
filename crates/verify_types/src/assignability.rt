//! Which verification types are assignable to which (JVMS 4.10.1.2).

ghost use Rattle.std.specs.Prelude.{◌≡◌};
ghost use Rattle.verify_types.specs.Assignability as spec;

use link_model::{Lookups, class_below, is_array_super, same_primitive};
use stack_maps::{Base, VType};

// Whether a class or an interface is assignable to another.
fn class_assignable<L: Lookups>(w: &L, a: u32, b: u32) -> bool
    ensures { result ≡ spec.class_assignable (L.world w.now) a b }
{
    w.is_interface(b) || class_below(w, a, b)
}

// Whether the last elements of arrays, or classes, are assignable.
fn base_assignable<L: Lookups>(w: &L, a: Base, b: Base) -> bool
    ensures { result ≡ spec.base_assignable (L.world w.now) a b }
{
    match b {
        Base::Class(to) => match a {
            Base::Class(from) => class_assignable(w, from, to),
            _ => false,
        },
        _ => same_primitive(a, b),
    }
}

// Whether an array or a class is assignable to another, each by its dimensions and what lies below them.
fn named_assignable<L: Lookups>(w: &L, m: u8, a: Base, n: u8, b: Base) -> bool
    ensures { result ≡ spec.named_assignable (L.world w.now) m a n b }
{
    if m == n {
        base_assignable(w, a, b)
    } else {
        n < m && is_array_super(w, b)
    }
}

/// Whether a value of type `a` may stand for one of type `b` (JVMS 4.10.1.2). Constants of a pool are resolved first: an
/// `Object` is assignable only to Top.
pub fn assignable<L: Lookups>(w: &L, a: VType, b: VType) -> bool
    ensures { result ≡ spec.assignable (L.world w.now) a b }
{
    match b {
        VType::Top => true,
        VType::Int => matches!(a, VType::Int),
        VType::Float => matches!(a, VType::Float),
        VType::Double => matches!(a, VType::Double),
        VType::Long => matches!(a, VType::Long),
        VType::Null => matches!(a, VType::Null),
        VType::UninitThis => matches!(a, VType::UninitThis),
        VType::Object(_) => false,
        VType::Uninit(to) => match a {
            VType::Uninit(from) => from == to,
            _ => false,
        },
        VType::Named(n, to) => match a {
            VType::Null => true,
            VType::Named(m, from) => named_assignable(w, m, from, n, to),
            _ => false,
        },
    }
}

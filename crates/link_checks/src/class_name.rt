//! The name of a class in code, and the class that it means, which is looked for once.

ghost use Rattle.std.specs.Prelude.{◌≡◌};
ghost use Rattle.link_rules.specs.Constants as constants;
ghost use Rattle.link_rules.specs.Instructions as spec;
ghost use Rattle.link_checks.specs.ClassNames.{Means};

use link_resolution::{Hierarchy, base_class, base_name, is_array_name};

/// The name of a class or of an array class, and the number of that class, or of the class that its last elements are.
#[derive(Clone, Copy)]
pub struct ClassName<'a> {
    pub name: &'a [u16],
    pub class: Option<u32>,
}

/// A name, and the class that it means.
pub fn class_name<'a>(world: &Hierarchy, name: &'a [u16]) -> ClassName<'a>
    ensures name { result.name.now ≡ name.now }
    ensures means { Means world.now result }
{
    ClassName {
        name,
        class: base_class(world.classes(), name),
    }
}

/// Whether the program has the class; an array class counts by its last elements.
pub fn is_known(world: &Hierarchy, named: ClassName) -> bool
    requires { Means world.now named }
    ensures { result ≡ constants.is_known world.now named.entry.name.now }
{
    match base_name(named.name) {
        Some(_) => named.class.is_some(),
        None => true,
    }
}

/// Whether it is an internal class, or an array of them.
pub fn names_internal(world: &Hierarchy, named: ClassName) -> bool
    requires { Means world.now named }
    ensures { result ≡ constants.names_internal world.now named.entry.name.now }
{
    match named.class {
        Some(class) => world.classes().is_internal(class),
        None => false,
    }
}

/// The class in which its members are looked for: an array class has those of Object (JVMS 5.4.3.3).
pub fn home(world: &Hierarchy, named: ClassName) -> Option<u32>
    requires { Means world.now named }
    ensures { result ≡ constants.home_of world.now named.entry.name.now }
{
    if is_array_name(named.name) {
        world.classes().object()
    } else {
        named.class
    }
}

/// Whether it is an interface; an array class is none.
pub fn is_interface(world: &Hierarchy, named: ClassName) -> bool
    requires { Means world.now named }
    ensures { result ≡ spec.is_interface_name world.now named.entry.name.now }
{
    if is_array_name(named.name) {
        return false;
    }
    match named.class {
        Some(class) => world.classes().is_interface(class),
        None => false,
    }
}

/// Whether an instance may be made of the class.
pub fn is_instantiable(world: &Hierarchy, named: ClassName) -> bool
    requires { Means world.now named }
    ensures { result ≡ spec.is_instantiable world.now named.entry.name.now }
{
    if is_array_name(named.name) {
        return false;
    }
    match named.class {
        Some(class) => !(world.classes().is_interface(class) || world.classes().is_abstract(class)),
        None => true,
    }
}

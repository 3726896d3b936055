//! The rules on the name, the parents and the members of a class (JVMS 4.1, 4.5, 4.6, 5.3.5).

ghost use Rattle.std.specs.Prelude.{◌≡◌, Some, drop, slice_get};
ghost use Rattle.std.specs.List.{list_any};
ghost use Rattle.items.specs.First.{first_some};
ghost use Rattle.link_rules.specs.Hierarchy.{superclasses};
ghost use Rattle.link_rules.specs.Faults as spec;
ghost use Rattle.class_grammar.specs.Names.{is_initializer as is_initializer_name};
ghost use Rattle.link_resolution.specs.Keys.{key_of};

use crate::rules::{first_why, unless};
use class_grammar::{class_name_at, is_same};
use class_model::{ClassFile, Member};
use link_resolution::{
    Hierarchy, MemberKey, is_abstract, is_array_name, is_final, is_floating, is_known, is_native,
    is_open, is_static, key_in, names_internal, own_name,
};
use link_rules::LinkWhy;

/// What is wrong with the name of a class.
pub fn name_fault(world: &Hierarchy, class: u32, file: &ClassFile) -> Option<LinkWhy>
    ensures { result ≡ first_some (spec.name_faults world.now class file.now) }
{
    let name = own_name(file);
    let faults = [
        unless(is_first_named(world, class, name), LinkWhy::Duplicate),
        unless(!is_array_name(name), LinkWhy::WrongKind),
    ];
    first_why(&faults)
}

// Whether a class is the first of this name.
fn is_first_named(world: &Hierarchy, class: u32, name: &[u16]) -> bool
    ensures { result ≡ spec.is_first_named world.now class name.now }
{
    match world.classes().class_named(name) {
        Some(first) => first == class,
        None => false,
    }
}

// Whether the class of a name is this one or has it above it.
fn names_below(world: &Hierarchy, class: u32, name: &[u16]) -> bool
    ensures { result ≡ spec.names_below world.now class name.now }
{
    match world.classes().class_named(name) {
        Some(above) => world.is_below(above, class),
        None => false,
    }
}

// The same of a name that isn't that of an array class: such a class is above no other.
fn leads_back(world: &Hierarchy, class: u32, name: &[u16]) -> bool
    ensures { result ≡ spec.leads_back world.now class name.now }
{
    !is_array_name(name) && names_below(world, class, name)
}

fn names_interface(world: &Hierarchy, name: &[u16]) -> bool
    ensures { result ≡ spec.names_interface world.now name.now }
{
    match world.classes().class_named(name) {
        Some(class) => world.classes().is_interface(class),
        None => false,
    }
}

fn names_class(world: &Hierarchy, name: &[u16]) -> bool
    ensures { result ≡ spec.names_class world.now name.now }
{
    match world.classes().class_named(name) {
        Some(class) => !world.classes().is_interface(class),
        None => false,
    }
}

fn names_final(world: &Hierarchy, name: &[u16]) -> bool
    ensures { result ≡ spec.names_final world.now name.now }
{
    match world.classes().class_named(name) {
        Some(class) => world.classes().is_final(class),
        None => false,
    }
}

// Whether a class may not use a name: it is that of an internal class, and the class comes from a file.
fn is_internal_to(world: &Hierarchy, class: u32, name: &[u16]) -> bool
    ensures { result ≡ spec.is_internal_to world.now class name.now }
{
    world.classes().is_from_file(class) && names_internal(world.classes(), name)
}

/// What is wrong with the superclass.
pub fn parent_fault(world: &Hierarchy, class: u32, file: &ClassFile) -> Option<LinkWhy>
    ensures { result ≡ first_some (spec.parent_faults world.now class file.now) }
{
    match class_name_at(&file.pool, file.parent) {
        Some(name) => parent_fault_of(world, class, name),
        None => None,
    }
}

fn parent_fault_of(world: &Hierarchy, class: u32, name: &[u16]) -> Option<LinkWhy>
    ensures { result ≡ first_some (spec.parent_faults_of world.now class name.now) }
{
    let faults = [
        unless(is_known(world.classes(), name), LinkWhy::MissingClass),
        unless(!leads_back(world, class, name), LinkWhy::Cycle),
        unless(is_parent_kind(world, class, name), LinkWhy::WrongKind),
        unless(!names_final(world, name), LinkWhy::FinalParent),
        unless(!is_internal_to(world, class, name), LinkWhy::Unsupported),
    ];
    first_why(&faults)
}

// Whether the class of a name may be the superclass: it is no array class and no interface, and an interface has Object.
fn is_parent_kind(world: &Hierarchy, class: u32, name: &[u16]) -> bool
    ensures { result ≡ spec.is_parent_kind world.now class name.now }
{
    if is_array_name(name) || names_interface(world, name) {
        return false;
    }
    !world.classes().is_interface(class) || world.classes().is_object_name(name)
}

/// What is wrong with a direct superinterface.
pub fn interface_fault(world: &Hierarchy, class: u32, name: &[u16]) -> Option<LinkWhy>
    ensures { result ≡ first_some (spec.interface_faults world.now class name.now) }
{
    let is_kind = !is_array_name(name) && !names_class(world, name);
    let faults = [
        unless(is_known(world.classes(), name), LinkWhy::MissingClass),
        unless(!leads_back(world, class, name), LinkWhy::Cycle),
        unless(is_kind, LinkWhy::WrongKind),
        unless(!is_internal_to(world, class, name), LinkWhy::Unsupported),
    ];
    first_why(&faults)
}

// Whether the field at an index is the first of its key.
fn is_first_field(
    world: &Hierarchy,
    class: u32,
    file: &ClassFile,
    index: usize,
    field: &Member,
) -> bool
    requires { slice_get world.now.classes class ≡ Some file.now }
    ensures { result ≡ spec.is_first file.now.pool file.now.fields index field.now }
{
    match world.field_index(class, file, key_in(&file.pool, field)) {
        Some(first) => first == index,
        None => false,
    }
}

// Whether the method at an index is the first of its key.
fn is_first_method(
    world: &Hierarchy,
    class: u32,
    file: &ClassFile,
    index: usize,
    method: &Member,
) -> bool
    requires { slice_get world.now.classes class ≡ Some file.now }
    ensures { result ≡ spec.is_first file.now.pool file.now.methods index method.now }
{
    match world.method_index(class, file, key_in(&file.pool, method)) {
        Some(first) => first == index,
        None => false,
    }
}

fn has_floating(file: &ClassFile, member: &Member) -> bool
    ensures { result ≡ spec.has_floating_type file.now.pool member.now }
{
    is_floating(key_in(&file.pool, member).descriptor)
}

/// What is wrong with a field by its index.
pub fn field_fault(
    world: &Hierarchy,
    class: u32,
    file: &ClassFile,
    index: usize,
    field: &Member,
) -> Option<LinkWhy>
    requires { slice_get world.now.classes class ≡ Some file.now }
    ensures { result ≡
        first_some (spec.field_faults_at world.now class file.now index field.now) }
{
    let is_kind = !world.classes().is_interface(class) || is_static(field);
    let faults = [
        unless(
            is_first_field(world, class, file, index, field),
            LinkWhy::Duplicate,
        ),
        unless(is_kind, LinkWhy::WrongKind),
        unless(!has_floating(file, field), LinkWhy::Unsupported),
    ];
    first_why(&faults)
}

// Whether a class declares a method of this key that may not be overridden (JVMS 4.6, 5.4.5).
fn is_last(world: &Hierarchy, key: MemberKey, class: u32) -> bool
    ensures { result ≡ spec.is_last world.now (key_of key.entry) class }
{
    match world.declared_method(key, class) {
        Some(at) => match world.method(at) {
            Some(method) => is_final(method) && is_open(method),
            None => false,
        },
        None => false,
    }
}

fn any_last(world: &Hierarchy, key: MemberKey, classes: &[u32]) -> bool
    ensures { result ≡ list_any (spec.is_last world.now (key_of key.entry)) classes.now }
{
    classes.iter().any(|class| is_last(world, key, *class))
}

// The superclasses of a class without the class itself.
fn above(world: &Hierarchy, class: u32) -> &[u32]
    ensures { result.now ≡ drop 1 (superclasses world.now class) }
{
    match world.superclasses(class) {
        [_, above @ ..] => above,
        [] => &[],
    }
}

// Whether a method overrides one that is final.
fn overrides_final(world: &Hierarchy, class: u32, file: &ClassFile, method: &Member) -> bool
    ensures { result ≡ spec.overrides_final world.now class file.now.pool method.now }
{
    let key = key_in(&file.pool, method);
    is_open(method) && !is_initializer(key.name) && any_last(world, key, above(world, class))
}

// Whether a name is that of an initializer (JVMS 2.9).
fn is_initializer(name: &[u16]) -> bool
    ensures { result ≡ is_initializer_name name.now }
{
    is_same(name, b"<init>") || is_same(name, b"<clinit>")
}

/// What is wrong with a method by its index, its code aside.
pub fn method_fault(
    world: &Hierarchy,
    class: u32,
    file: &ClassFile,
    index: usize,
    method: &Member,
) -> Option<LinkWhy>
    requires { slice_get world.now.classes class ≡ Some file.now }
    ensures { result ≡
        first_some (spec.method_faults_at world.now class file.now index method.now) }
{
    let is_from_file = world.classes().is_from_file(class);
    let faults = [
        unless(
            is_first_method(world, class, file, index, method),
            LinkWhy::Duplicate,
        ),
        unless(
            !(is_abstract(method) && is_static(method)),
            LinkWhy::WrongKind,
        ),
        unless(
            !overrides_final(world, class, file, method),
            LinkWhy::FinalParent,
        ),
        unless(!(is_from_file && is_native(method)), LinkWhy::Native),
        unless(!has_floating(file, method), LinkWhy::Unsupported),
    ];
    first_why(&faults)
}

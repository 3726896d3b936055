//! The natives of the built-in classes by name.

ghost use Rattle.std.specs.Prelude.{◌≡◌, map};
ghost use Rattle.lib_table.specs.Declarations.{class_of, method_of, body_of};
ghost use Rattle.items.specs.First.{first_in};
ghost use Rattle.lib_table.specs.Natives as spec;

use crate::declarations::{ClassDeclaration, MethodBody, MethodDeclaration};
use crate::library::declaration_groups;
use crate::native::Native;
use class_grammar::is_same;

fn native_in(body: &MethodBody) -> Option<Native>
    ensures { result ≡ spec.native_in (body_of body.now) }
{
    match body {
        MethodBody::Abstract => None,
        MethodBody::Native(native) => Some(*native),
        MethodBody::Code(_) => None,
    }
}

#[tactic(auto, unfolding(crate::specs::Natives::native_of_method))]
fn native_of_method(name: &[u16], descriptor: &[u16], method: &MethodDeclaration) -> Option<Native>
    ensures { result ≡ spec.native_of_method name.now descriptor.now (method_of method.now) }
{
    if is_same(name, method.name.as_bytes()) && is_same(descriptor, method.descriptor.as_bytes()) {
        native_in(&method.body)
    } else {
        None
    }
}

fn first_of_methods(
    name: &[u16],
    descriptor: &[u16],
    methods: &[MethodDeclaration],
) -> Option<Native>
    ensures { result ≡
        first_in (spec.native_of_method name.now descriptor.now) (map method_of methods.now) }
{
    for method in methods {
        if let Some(native) = native_of_method(name, descriptor, method) {
            return Some(native);
        }
    }
    None
}

#[tactic(auto, unfolding(crate::specs::Natives::native_of_class))]
fn native_of_class(
    class: &[u16],
    name: &[u16],
    descriptor: &[u16],
    declaration: &ClassDeclaration,
) -> Option<Native>
    ensures { result ≡
        spec.native_of_class class.now name.now descriptor.now (class_of declaration.now) }
{
    if is_same(class, declaration.name.as_bytes()) {
        first_of_methods(name, descriptor, declaration.methods)
    } else {
        None
    }
}

fn first_of_classes(
    class: &[u16],
    name: &[u16],
    descriptor: &[u16],
    declarations: &[ClassDeclaration],
) -> Option<Native>
    ensures { result ≡ first_in (spec.native_of_class class.now name.now descriptor.now)
        (map class_of declarations.now) }
{
    for declaration in declarations {
        if let Some(native) = native_of_class(class, name, descriptor, declaration) {
            return Some(native);
        }
    }
    None
}

/// The native method of this class, name and descriptor. `None`: no built-in class has such a native method.
#[tactic(auto, unfolding(crate::specs::Natives::native_of))]
pub fn native_of(class: &[u16], name: &[u16], descriptor: &[u16]) -> Option<Native>
    ensures { result ≡ spec.native_of class.now name.now descriptor.now }
{
    for group in &declaration_groups() {
        if let Some(native) = first_of_classes(class, name, descriptor, group) {
            return Some(native);
        }
    }
    None
}

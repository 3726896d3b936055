//! The field or method that a name means in a class (JVMS 5.4.3.2 to 5.4.3.4).

ghost use Rattle.std.specs.Prelude.{◌≡◌, IfOk};
ghost use Rattle.items.specs.First.{first_in};
ghost use Rattle.link_rules.specs.Resolution as spec;
ghost use Rattle.link_rules.specs.Members.{declared_field, declared_method, has_method, is_abstract_method};
ghost use Rattle.link_resolution.specs.Keys.{key_of};

use crate::hierarchy::Hierarchy;
use crate::members::{MemberKey, is_abstract, is_open, is_public_instance};
use items::NoMemory;
use link_rules::MemberPlace;
use std::alloc::Global;

fn first_field(world: &Hierarchy, key: MemberKey, classes: &[u32]) -> Option<MemberPlace>
    ensures { result ≡ first_in (declared_field world.now (key_of key.entry)) classes.now }
{
    for class in classes {
        if let Some(found) = world.declared_field(key, *class) {
            return Some(found);
        }
    }
    None
}

fn first_method(world: &Hierarchy, key: MemberKey, classes: &[u32]) -> Option<MemberPlace>
    ensures { result ≡ first_in (declared_method world.now (key_of key.entry)) classes.now }
{
    for class in classes {
        if let Some(found) = world.declared_method(key, *class) {
            return Some(found);
        }
    }
    None
}

/// The field of this key in a class (JVMS 5.4.3.2).
pub fn field_of(world: &Hierarchy, class: u32, key: MemberKey) -> Option<MemberPlace>
    ensures { result ≡ spec.field_of world.now class (key_of key.entry) }
{
    first_field(world, key, world.supers(class))
}

/// The method, where it is neither private nor static.
pub fn if_open(world: &Hierarchy, at: MemberPlace) -> Option<MemberPlace>
    ensures { result ≡ spec.if_open world.now at }
{
    match world.method(at) {
        Some(method) if is_open(method) => Some(at),
        _ => None,
    }
}

// The method of this key that an interface declares, neither private nor static.
fn open_method(world: &Hierarchy, key: MemberKey, class: u32) -> Option<MemberPlace>
    ensures { result ≡ spec.open_method world.now (key_of key.entry) class }
{
    if !world.classes().is_interface(class) {
        return None;
    }
    if_open(world, world.declared_method(key, class)?)
}

/// The methods of this key that come from superinterfaces, neither private nor static.
pub fn inherited(
    alloc: Global,
    world: &Hierarchy,
    class: u32,
    key: MemberKey,
) -> Result<Vec<MemberPlace>, NoMemory>
    ensures { IfOk result (λ v. v.items ≡ spec.inherited world.now class (key_of key.entry)) }
{
    let found = world
        .supers(class)
        .iter()
        .filter_map(|above| open_method(world, key, *above))
        .collect(alloc)?;
    Ok(found)
}

// Whether another of these methods is in an interface below this one's.
fn is_hidden(world: &Hierarchy, all: &[MemberPlace], at: MemberPlace) -> bool
    ensures { result ≡ spec.is_hidden world.now all.now at }
{
    all.iter().any(|other| other.class != at.class && world.is_below(other.class, at.class))
}

// Whether a method is maximally specific among all of them and has a body.
fn is_specific_body(world: &Hierarchy, all: &[MemberPlace], at: MemberPlace) -> bool
    ensures { result ≡ spec.is_specific_body world.now all.now at }
{
    !is_hidden(world, all, at) && !has_abstract(world, at)
}

/// Whether the method at a place is abstract.
pub fn has_abstract(world: &Hierarchy, at: MemberPlace) -> bool
    ensures { result ≡ has_method is_abstract_method world.now at }
{
    match world.method(at) {
        Some(method) => is_abstract(method),
        None => false,
    }
}

/// The maximally specific methods of this key in the superinterfaces that aren't abstract (JVMS 5.4.3.3).
pub fn most_specific_bodies(
    alloc: Global,
    world: &Hierarchy,
    all: &[MemberPlace],
) -> Result<Vec<MemberPlace>, NoMemory>
    ensures { IfOk result (λ v. v.items ≡ spec.specific_bodies world.now all.now) }
{
    let mut bodies = Vec::new(alloc);
    for at in all {
        if is_specific_body(world, all, *at) {
            bodies.push(*at)?;
        }
    }
    Ok(bodies)
}

fn from_interfaces(
    alloc: Global,
    world: &Hierarchy,
    class: u32,
    key: MemberKey,
) -> Result<Option<MemberPlace>, NoMemory>
    ensures { IfOk result (λ o. o ≡ spec.from_interfaces world.now class (key_of key.entry)) }
{
    let all = inherited(alloc, world, class, key)?;
    let bodies = most_specific_bodies(alloc, world, &all)?;
    Ok(chosen(&bodies, &all))
}

// The only method with a body, else the first of all.
fn chosen(bodies: &[MemberPlace], all: &[MemberPlace]) -> Option<MemberPlace>
    ensures { result ≡ spec.chosen bodies.now all.now }
{
    match bodies {
        [only] => Some(*only),
        _ => all.first().copied(),
    }
}

/// The method of this key in a class that is no interface (JVMS 5.4.3.3).
pub fn class_method(
    alloc: Global,
    world: &Hierarchy,
    class: u32,
    key: MemberKey,
) -> Result<Option<MemberPlace>, NoMemory>
    ensures { IfOk result (λ o. o ≡ spec.class_method world.now class (key_of key.entry)) }
{
    if let Some(found) = first_method(world, key, world.superclasses(class)) {
        return Ok(Some(found));
    }
    from_interfaces(alloc, world, class, key)
}

/// The public instance method of Object.
pub fn object_method(world: &Hierarchy, key: MemberKey) -> Option<MemberPlace>
    ensures { result ≡ spec.object_method world.now (key_of key.entry) }
{
    let object = world.classes().object()?;
    let at = world.declared_method(key, object)?;
    match world.method(at) {
        Some(method) if is_public_instance(method) => Some(at),
        _ => None,
    }
}

/// The method of this key in an interface (JVMS 5.4.3.4).
pub fn interface_method(
    alloc: Global,
    world: &Hierarchy,
    class: u32,
    key: MemberKey,
) -> Result<Option<MemberPlace>, NoMemory>
    ensures { IfOk result (λ o. o ≡ spec.interface_method world.now class (key_of key.entry)) }
{
    if let Some(found) = world.declared_method(key, class) {
        return Ok(Some(found));
    }
    if let Some(found) = object_method(world, key) {
        return Ok(Some(found));
    }
    from_interfaces(alloc, world, class, key)
}

//! The method that an invocation runs on an object (JVMS 5.4.6).

ghost use Rattle.std.specs.Prelude.{◌≡◌, IfOk};
ghost use Rattle.items.specs.First.{first_in};
ghost use Rattle.link_rules.specs.Selection as spec;
ghost use Rattle.link_resolution.specs.Keys.{key_of};

use crate::hierarchy::Hierarchy;
use crate::members::{MemberKey, is_private};
use crate::resolution::{has_abstract, if_open, inherited, most_specific_bodies, object_method};
use class_grammar::text_at;
use class_model::{Const, Member};
use items::NoMemory;
use link_rules::{Choice, MemberPlace};
use std::alloc::Global;

/// The name of constructors (JVMS 2.9).
const CONSTRUCTOR: [u16; 6] = [
    b'<' as u16,
    b'i' as u16,
    b'n' as u16,
    b'i' as u16,
    b't' as u16,
    b'>' as u16,
];

/// The name and the descriptor of a member.
pub fn key_in<'a>(pool: &'a [Const], member: &Member) -> MemberKey<'a>
    ensures { key_of result ≡ spec.key_in pool.now member.now }
{
    MemberKey {
        name: text_at(pool, member.name).unwrap_or(&[]),
        descriptor: text_at(pool, member.descriptor).unwrap_or(&[]),
    }
}

// The method of this key that a class declares, where it is neither private nor static (JVMS 5.4.5).
fn override_in(world: &Hierarchy, key: MemberKey, class: u32) -> Option<MemberPlace>
    ensures { result ≡ spec.override world.now (key_of key.entry) class }
{
    if_open(world, world.declared_method(key, class)?)
}

fn first_override(world: &Hierarchy, key: MemberKey, classes: &[u32]) -> Option<MemberPlace>
    ensures { result ≡ first_in (spec.override world.now (key_of key.entry)) classes.now }
{
    for class in classes {
        if let Some(found) = override_in(world, key, *class) {
            return Some(found);
        }
    }
    None
}

fn by_body(world: &Hierarchy, at: MemberPlace) -> Choice
    ensures { result ≡ spec.by_body world.now at }
{
    if has_abstract(world, at) {
        Choice::Abstract
    } else {
        Choice::Method(at)
    }
}

fn sole_body(bodies: &[MemberPlace]) -> Choice
    ensures { result ≡ spec.sole_body bodies.now }
{
    match bodies {
        [] => Choice::Abstract,
        [only] => Choice::Method(*only),
        _ => Choice::Several,
    }
}

// The one maximally specific method of the superinterfaces that isn't abstract.
fn interface_choice(
    alloc: Global,
    world: &Hierarchy,
    class: u32,
    key: MemberKey,
) -> Result<Choice, NoMemory>
    ensures { IfOk result (λ choice.
        choice ≡ spec.interface_choice world.now class (key_of key.entry)) }
{
    let all = inherited(alloc, world, class, key)?;
    let bodies = most_specific_bodies(alloc, world, &all)?;
    Ok(sole_body(&bodies))
}

// What is selected of a method that isn't private, by its key.
fn select_by_key(
    alloc: Global,
    world: &Hierarchy,
    class: u32,
    key: MemberKey,
) -> Result<Choice, NoMemory>
    ensures { IfOk result (λ choice.
        choice ≡ spec.select_by_key world.now class (key_of key.entry)) }
{
    if let Some(at) = first_override(world, key, world.superclasses(class)) {
        return Ok(by_body(world, at));
    }
    interface_choice(alloc, world, class, key)
}

/// What invokevirtual or invokeinterface of a method selects on an object of a class (JVMS 5.4.6).
pub fn select(
    alloc: Global,
    world: &Hierarchy,
    class: u32,
    at: MemberPlace,
) -> Result<Choice, NoMemory>
    ensures { IfOk result (λ choice. choice ≡ spec.select world.now class at) }
{
    let Some(file) = world.classes().file(at.class) else {
        return Ok(Choice::Abstract);
    };
    match file.methods.get(at.index) {
        Some(method) => select_in(alloc, world, class, at, &file.pool, method),
        None => Ok(Choice::Abstract),
    }
}

// What is selected of a method of a file with this pool.
fn select_in(
    alloc: Global,
    world: &Hierarchy,
    class: u32,
    at: MemberPlace,
    pool: &[Const],
    method: &Member,
) -> Result<Choice, NoMemory>
    ensures { IfOk result (λ choice.
        choice ≡ spec.select_in world.now class at pool.now method.now) }
{
    if is_private(method) {
        return Ok(by_body(world, at));
    }
    select_by_key(alloc, world, class, key_in(pool, method))
}

// Whether the class named is above that whose code it is.
fn is_superclass(world: &Hierarchy, class: u32, named: u32) -> bool
    ensures { result ≡ spec.is_superclass world.now class named }
{
    match world.superclasses(class) {
        [_, above @ ..] => above.contains(&named),
        [] => false,
    }
}

// The class in which the search of invokespecial begins.
fn special_start(world: &Hierarchy, class: u32, named: u32, key: MemberKey) -> u32
    ensures { result ≡ spec.special_start world.now class named (key_of key.entry) }
{
    if key.name != CONSTRUCTOR.as_slice() && is_superclass(world, class, named) {
        world.parent(class).unwrap_or(named)
    } else {
        named
    }
}

// The method of instances of this key that a class declares.
fn instance_method(world: &Hierarchy, key: MemberKey, class: u32) -> Option<MemberPlace>
    ensures { result ≡ spec.instance_method world.now (key_of key.entry) class }
{
    let at = world.declared_method(key, class)?;
    if world.has_static_method(at) {
        None
    } else {
        Some(at)
    }
}

fn first_instance(world: &Hierarchy, key: MemberKey, classes: &[u32]) -> Option<MemberPlace>
    ensures { result ≡
        first_in (spec.instance_method world.now (key_of key.entry)) classes.now }
{
    for class in classes {
        if let Some(found) = instance_method(world, key, *class) {
            return Some(found);
        }
    }
    None
}

// The method of instances of this key that is declared from a class on.
fn special_declared(world: &Hierarchy, key: MemberKey, start: u32) -> Option<MemberPlace>
    ensures { result ≡ spec.special_declared world.now (key_of key.entry) start }
{
    if world.classes().is_interface(start) {
        instance_method(world, key, start).or(object_method(world, key))
    } else {
        first_instance(world, key, world.superclasses(start))
    }
}

// What is selected from a class on.
fn special_from(
    alloc: Global,
    world: &Hierarchy,
    key: MemberKey,
    start: u32,
) -> Result<Choice, NoMemory>
    ensures { IfOk result (λ choice.
        choice ≡ spec.special_from world.now (key_of key.entry) start) }
{
    if let Some(at) = special_declared(world, key, start) {
        return Ok(by_body(world, at));
    }
    interface_choice(alloc, world, start, key)
}

/// What invokespecial in the code of a class selects, where its constant names this class and a method of this key (JVMS 6.5).
pub fn select_special(
    alloc: Global,
    world: &Hierarchy,
    class: u32,
    named: u32,
    key: MemberKey,
) -> Result<Choice, NoMemory>
    ensures { IfOk result (λ choice. choice ≡
        spec.select_special world.now class named (key_of key.entry)) }
{
    special_from(alloc, world, key, special_start(world, class, named, key))
}

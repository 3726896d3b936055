//! What may be wrong with the constant that an instruction names (JVMS 5.4.3, 6.5).

ghost use Rattle.std.specs.Prelude.{◌≡◌, IfOk};
ghost use Rattle.items.specs.First.{first_some};
ghost use Rattle.link_rules.specs.Instructions as spec;
ghost use Rattle.link_resolution.specs.Keys.{key_of};
ghost use Rattle.link_checks.specs.ClassNames.{Means};
ghost use Rattle.link_checks.specs.ConstantUses.{AreFine};

use crate::class_name::{
    ClassName, class_name, home, is_instantiable, is_interface, is_known, names_internal,
};
use crate::constant_uses::{Use, known_fault};
use crate::rules::{first_why, unless};
use class_model::Const;
use items::NoMemory;
use link_resolution::{
    Hierarchy, MemberKey, argument_slots, class_method, dimensions_of, field_of, home_of,
    interface_method, is_floating, is_floating_array, key_at, name_at,
};
use link_rules::{Invocation, LinkWhy, MemberPlace, Purpose, is_floating_primitive};
use opcodes::Op;
use std::alloc::Global;

/// A class whose code names constants of its pool.
#[derive(Clone, Copy)]
pub struct Namer<'a> {
    pub world: &'a Hierarchy,
    pub class: u32,
    pub pool: &'a [Const],
}

// Whether a class of a file may not use what it names: the class is internal, or the member is `reserved`.
fn is_reserved(world: &Hierarchy, class: u32, named: ClassName, reserved: bool) -> bool
    requires { Means world.now named }
    ensures { result ≡ spec.is_reserved world.now class named.entry.name.now reserved }
{
    world.classes().is_from_file(class) && (names_internal(world, named) || reserved)
}

fn is_left_out(name: &[u16], key: MemberKey) -> bool
    ensures { result ≡ spec.is_left_out name.now (key_of key.entry) }
{
    is_floating(key.descriptor) || is_floating_array(name)
}

/// The field that a name and a key mean (JVMS 5.4.3.2).
pub fn resolved_field(world: &Hierarchy, name: &[u16], key: MemberKey) -> Option<MemberPlace>
    ensures { result ≡ spec.resolved_field world.now name.now (key_of key.entry) }
{
    field_of(world, home_of(world.classes(), name)?, key)
}

fn is_field_kind(world: &Hierarchy, wanted: bool, found: Option<MemberPlace>) -> bool
    ensures { result ≡ spec.is_field_kind world.now wanted found }
{
    match found {
        Some(at) => world.has_static_field(at) == wanted,
        None => true,
    }
}

fn is_reserved_field(world: &Hierarchy, found: Option<MemberPlace>) -> bool
    ensures { result ≡ spec.is_reserved_field world.now found }
{
    match found {
        Some(at) => !world.classes().is_from_file(at.class) && world.has_private_field(at),
        None => false,
    }
}

// The same in the class that a name means.
fn field_in(world: &Hierarchy, named: ClassName, key: MemberKey) -> Option<MemberPlace>
    requires { Means world.now named }
    ensures { result ≡ spec.resolved_field world.now named.entry.name.now (key_of key.entry) }
{
    field_of(world, home(world, named)?, key)
}

fn field_fault(
    world: &Hierarchy,
    class: u32,
    wanted: bool,
    named: ClassName,
    key: MemberKey,
) -> Option<LinkWhy>
    requires { Means world.now named }
    ensures { result ≡ first_some
        (spec.field_faults world.now class wanted named.entry.name.now (key_of key.entry)) }
{
    let found = field_in(world, named, key);
    let reserved = is_reserved(world, class, named, is_reserved_field(world, found));
    let left_out = is_left_out(named.name, key);
    let faults = [
        unless(is_known(world, named), LinkWhy::MissingClass),
        unless(is_field_kind(world, wanted, found), LinkWhy::WrongKind),
        unless(found.is_some(), LinkWhy::MissingField),
        unless(!(left_out || reserved), LinkWhy::Unsupported),
    ];
    first_why(&faults)
}

// What is wrong with a constant that is to name a field.
fn field_const_fault(namer: Namer, wanted: bool, constant: &Const) -> Option<LinkWhy>
    ensures { result ≡ first_some (spec.field_const_faults namer.entry.world.now
        namer.entry.class namer.entry.pool.now wanted constant.now) }
{
    match constant {
        Const::Fieldref(class, member) => field_fault(
            namer.world,
            namer.class,
            wanted,
            class_name(namer.world, name_at(namer.pool, *class)),
            key_at(namer.pool, *member),
        ),
        _ => Some(LinkWhy::BadCode),
    }
}

/// What is wrong with the constant at an index that is to name a field, static or of an object.
pub fn field_fault_at(namer: Namer, wanted: bool, index: u16) -> Option<LinkWhy>
    ensures { result ≡ first_some (spec.const_faults namer.entry.pool.now index
        (spec.field_const_faults namer.entry.world.now namer.entry.class namer.entry.pool.now
        wanted)) }
{
    match namer.pool.get(usize::from(index)) {
        Some(constant) => field_const_fault(namer, wanted, constant),
        None => Some(LinkWhy::BadCode),
    }
}

/// The method that a name and a key mean, in an interface or in a class (JVMS 5.4.3.3, 5.4.3.4).
pub fn resolved_method(
    alloc: Global,
    world: &Hierarchy,
    by_interface: bool,
    name: &[u16],
    key: MemberKey,
) -> Result<Option<MemberPlace>, NoMemory>
    ensures { IfOk result (λ o. o ≡
        spec.resolved_method world.now by_interface name.now (key_of key.entry)) }
{
    let Some(home) = home_of(world.classes(), name) else {
        return Ok(None);
    };
    if by_interface {
        interface_method(alloc, world, home, key)
    } else {
        class_method(alloc, world, home, key)
    }
}

// The same in the class that a name means.
fn method_in(
    alloc: Global,
    world: &Hierarchy,
    by_interface: bool,
    named: ClassName,
    key: MemberKey,
) -> Result<Option<MemberPlace>, NoMemory>
    requires { Means world.now named }
    ensures { IfOk result (λ o. o ≡
        spec.resolved_method world.now by_interface named.entry.name.now (key_of key.entry)) }
{
    let Some(home) = home(world, named) else {
        return Ok(None);
    };
    if by_interface {
        interface_method(alloc, world, home, key)
    } else {
        class_method(alloc, world, home, key)
    }
}

fn is_method_kind(world: &Hierarchy, wanted: bool, found: Option<MemberPlace>) -> bool
    ensures { result ≡ spec.is_method_kind world.now wanted found }
{
    match found {
        Some(at) => world.has_static_method(at) == wanted,
        None => true,
    }
}

fn is_reserved_method(world: &Hierarchy, found: Option<MemberPlace>) -> bool
    ensures { result ≡ spec.is_reserved_method world.now found }
{
    match found {
        Some(at) => !world.classes().is_from_file(at.class) && world.has_private_method(at),
        None => false,
    }
}

// Whether the slots of the arguments, with the receiver, are as many as invokeinterface counts.
fn is_count(count: Option<u8>, descriptor: &[u16]) -> bool
    ensures { result ≡ spec.is_count count descriptor.now }
{
    match count {
        Some(count) => count > 0 && argument_slots(descriptor) == u64::from(count) - 1,
        None => true,
    }
}

fn method_fault(
    alloc: Global,
    world: &Hierarchy,
    class: u32,
    call: Invocation,
    by_interface: bool,
    named: ClassName,
    key: MemberKey,
) -> Result<Option<LinkWhy>, NoMemory>
    requires { Means world.now named }
    ensures { IfOk result (λ fault. fault ≡ first_some (spec.method_faults
        world.now class call by_interface named.entry.name.now (key_of key.entry))) }
{
    let found = method_in(alloc, world, by_interface, named, key)?;
    let reserved = is_reserved(world, class, named, is_reserved_method(world, found));
    let left_out = is_left_out(named.name, key);
    let of_kind = is_interface(world, named) == by_interface
        && is_method_kind(world, call.is_static, found);
    let faults = [
        unless(is_known(world, named), LinkWhy::MissingClass),
        unless(of_kind, LinkWhy::WrongKind),
        unless(is_count(call.count, key.descriptor), LinkWhy::BadCode),
        unless(found.is_some(), LinkWhy::MissingMethod),
        unless(!(left_out || reserved), LinkWhy::Unsupported),
    ];
    Ok(first_why(&faults))
}

// What is wrong with a constant that is to name a method.
fn method_const_fault(
    alloc: Global,
    namer: Namer,
    call: Invocation,
    constant: &Const,
) -> Result<Option<LinkWhy>, NoMemory>
    ensures { IfOk result (λ fault. fault ≡ first_some (spec.method_const_faults
        namer.entry.world.now namer.entry.class namer.entry.pool.now call constant.now)) }
{
    match constant {
        Const::Methodref(class, member) => {
            if !call.by_class {
                return Ok(Some(LinkWhy::BadCode));
            }
            let named = class_name(namer.world, name_at(namer.pool, *class));
            let key = key_at(namer.pool, *member);
            method_fault(alloc, namer.world, namer.class, call, false, named, key)
        }
        Const::InterfaceMethodref(class, member) => {
            if !call.by_interface {
                return Ok(Some(LinkWhy::BadCode));
            }
            let named = class_name(namer.world, name_at(namer.pool, *class));
            let key = key_at(namer.pool, *member);
            method_fault(alloc, namer.world, namer.class, call, true, named, key)
        }
        _ => Ok(Some(LinkWhy::BadCode)),
    }
}

/// What is wrong with the constant at an index that is to name a method for such an invocation.
pub fn method_fault_at(
    alloc: Global,
    namer: Namer,
    call: Invocation,
    index: u16,
) -> Result<Option<LinkWhy>, NoMemory>
    ensures { IfOk result (λ fault. fault ≡ first_some (spec.const_faults namer.entry.pool.now index
        (spec.method_const_faults namer.entry.world.now namer.entry.class namer.entry.pool.now
        call))) }
{
    match namer.pool.get(usize::from(index)) {
        Some(constant) => method_const_fault(alloc, namer, call, constant),
        None => Ok(Some(LinkWhy::BadCode)),
    }
}

fn is_usable(world: &Hierarchy, named: ClassName, purpose: Purpose) -> bool
    requires { Means world.now named }
    ensures { result ≡ spec.is_usable world.now named.entry.name.now purpose }
{
    match purpose {
        Purpose::Type | Purpose::Element => true,
        Purpose::Instance => is_instantiable(world, named),
        Purpose::Array(count) => usize::from(count) <= dimensions_of(named.name),
    }
}

// Whether the elements of an array would have as many dimensions as an array can have (JVMS 4.4.1).
fn is_deepest(name: &[u16], purpose: Purpose) -> bool
    ensures { result ≡ spec.is_deepest name.now purpose }
{
    match purpose {
        Purpose::Element => dimensions_of(name) == 255,
        _ => false,
    }
}

/// What is wrong with the name of a class (JVMS 5.4.3.1).
pub fn class_fault(world: &Hierarchy, class: u32, purpose: Purpose, name: &[u16]) -> Option<LinkWhy>
    ensures { result ≡ first_some (spec.class_faults world.now class purpose name.now) }
{
    let named = class_name(world, name);
    let reserved = is_reserved(world, class, named, false);
    let left_out = is_floating_array(name) || is_deepest(name, purpose);
    let faults = [
        unless(is_known(world, named), LinkWhy::MissingClass),
        unless(is_usable(world, named, purpose), LinkWhy::WrongKind),
        unless(!(left_out || reserved), LinkWhy::Unsupported),
    ];
    first_why(&faults)
}

fn class_const_fault(
    namer: Namer,
    purpose: Purpose,
    index: u16,
    constant: &Const,
) -> Option<LinkWhy>
    ensures { result ≡ first_some (spec.class_const_faults namer.entry.world.now
        namer.entry.class namer.entry.pool.now purpose index constant.now) }
{
    match constant {
        Const::Class(_) => {
            class_fault(
                namer.world,
                namer.class,
                purpose,
                name_at(namer.pool, index),
            )
        }
        _ => Some(LinkWhy::BadCode),
    }
}

/// What is wrong with the constant at an index that is to name a class.
pub fn class_fault_at(namer: Namer, purpose: Purpose, index: u16) -> Option<LinkWhy>
    ensures { result ≡ first_some (spec.const_faults namer.entry.pool.now index
        (spec.class_const_faults namer.entry.world.now namer.entry.class namer.entry.pool.now
        purpose index)) }
{
    match namer.pool.get(usize::from(index)) {
        Some(constant) => class_const_fault(namer, purpose, index, constant),
        None => Some(LinkWhy::BadCode),
    }
}

// What is wrong with a constant that is pushed; a `wide` one takes two slots (JVMS 6.5, ldc, ldc2_w).
fn push_fault(wide: bool, constant: &Const) -> Option<LinkWhy>
    ensures { result ≡ first_some (spec.push_faults wide constant.now) }
{
    match constant {
        Const::Integer(_) | Const::Text(_) => unless(!wide, LinkWhy::BadCode),
        Const::Long(_) => unless(wide, LinkWhy::BadCode),
        Const::Float(_)
        | Const::Double(_)
        | Const::Class(_)
        | Const::MethodHandle(_, _)
        | Const::MethodType(_)
        | Const::Dynamic(_, _) => Some(LinkWhy::Unsupported),
        _ => Some(LinkWhy::BadCode),
    }
}

fn push_fault_at(pool: &[Const], wide: bool, index: u16) -> Option<LinkWhy>
    ensures { result ≡ first_some
        (spec.const_faults pool.now index (spec.push_faults wide)) }
{
    match pool.get(usize::from(index)) {
        Some(constant) => push_fault(wide, constant),
        None => Some(LinkWhy::BadCode),
    }
}

const VIRTUAL: Invocation = Invocation {
    is_static: false,
    by_class: true,
    by_interface: false,
    count: None,
};

const SPECIAL: Invocation = Invocation {
    is_static: false,
    by_class: true,
    by_interface: true,
    count: None,
};

const STATIC: Invocation = Invocation {
    is_static: true,
    by_class: true,
    by_interface: true,
    count: None,
};

// invokeinterface with this count.
fn interface_call(count: u8) -> Invocation
    ensures { result ≡ spec.interface_call count }
{
    Invocation {
        is_static: false,
        by_class: false,
        by_interface: true,
        count: Some(count),
    }
}

/// What is wrong with an instruction in the code of a class, as far as its constant says (JVMS 6.5). What is known to be fine is noted.
pub fn instr_fault(
    alloc: Global,
    namer: Namer,
    fine: &mut [Option<Use>],
    op: &Op,
) -> Result<Option<LinkWhy>, NoMemory>
    requires { AreFine namer.world.now namer.class namer.pool.now fine.old }
    ensures fault { IfOk result (λ fault. fault ≡ first_some (spec.instr_faults
        namer.entry.world.now namer.entry.class namer.entry.pool.now op.now)) }
    ensures fine { AreFine namer.entry.world.now namer.entry.class namer.entry.pool.now fine.new }
{
    match op {
        Op::PushConstant(i) => Ok(push_fault_at(namer.pool, false, *i)),
        Op::PushWideConstant(i) => Ok(push_fault_at(namer.pool, true, *i)),
        Op::GetStatic(i) => known_fault(alloc, namer, fine, Use::StaticField, *i),
        Op::PutStatic(i) => known_fault(alloc, namer, fine, Use::StaticField, *i),
        Op::GetField(i) => known_fault(alloc, namer, fine, Use::ObjectField, *i),
        Op::PutField(i) => known_fault(alloc, namer, fine, Use::ObjectField, *i),
        Op::InvokeVirtual(i) => known_fault(alloc, namer, fine, Use::Method(VIRTUAL), *i),
        Op::InvokeSpecial(i) => known_fault(alloc, namer, fine, Use::Method(SPECIAL), *i),
        Op::InvokeStatic(i) => known_fault(alloc, namer, fine, Use::Method(STATIC), *i),
        Op::InvokeInterface(i, count) => {
            known_fault(alloc, namer, fine, Use::Method(interface_call(*count)), *i)
        }
        Op::InvokeDynamic(_) => Ok(Some(LinkWhy::Unsupported)),
        Op::New(i) => known_fault(alloc, namer, fine, Use::Class(Purpose::Instance), *i),
        Op::NewArray(primitive) => Ok(unless(
            !is_floating_primitive(*primitive),
            LinkWhy::Unsupported,
        )),
        Op::ANewArray(i) => known_fault(alloc, namer, fine, Use::Class(Purpose::Element), *i),
        Op::MultiANewArray(i, count) => {
            known_fault(alloc, namer, fine, Use::Class(Purpose::Array(*count)), *i)
        }
        Op::CheckCast(i) => known_fault(alloc, namer, fine, Use::Class(Purpose::Type), *i),
        Op::InstanceOf(i) => known_fault(alloc, namer, fine, Use::Class(Purpose::Type), *i),
        Op::Jsr(_) => Ok(Some(LinkWhy::Unsupported)),
        Op::Ret(_) => Ok(Some(LinkWhy::Unsupported)),
        Op::Floating(_) => Ok(Some(LinkWhy::Unsupported)),
        _ => Ok(None),
    }
}

//! What the constant of an instruction means, by numbers (JVMS 5.4.3, 6.5), and which class a row of an exception table catches.

ghost use Rattle.std.specs.Prelude.{◌≡◌, Some, map, IfOk, OnOk, slice_get};
ghost use Rattle.link_model.specs.Sites as spec;
ghost use Rattle.link_resolution.specs.Keys.{key_of};
ghost use Rattle.link_tables.specs.KnownResolutions.{Knows};
ghost use Rattle.link_tables.specs.Linkings.{linking_in};
ghost use Rattle.link_tables.specs.ResolutionTables.{Extends};

use crate::known_resolutions::{KnownResolutions, Use, known_number};
use crate::resolution_table::{PLAIN_NUMBER, primitive_number};
use class_grammar::text_at;
use class_model::{Const, Row};
use instruction_rows::Value;
use items::NoMemory;
use link_checks::{resolved_field, resolved_method};
use link_model::{Resolution, SelectionFailure, Site};
use link_numbers::{
    ArrayNumbers, MemberNumbers, Names, array_of_kind, array_of_primitive, kind_named,
    string_number,
};
use link_resolution::{MemberKey, home_of, key_at, name_at, select_special};
use link_rules::{Choice, MemberPlace};
use opcodes::Op;
use std::alloc::Global;

/// What resolution needs: the program with the numbers of its members, the numbers of classes, and the Strings.
#[derive(Clone, Copy)]
pub struct Linker<'a> {
    pub members: &'a MemberNumbers,
    pub numbers: &'a ArrayNumbers,
    pub strings: &'a Names,
}

/// The resolution of an instruction that names no constant.
pub(crate) const PLAIN: Resolution = Resolution {
    site: Site::Plain,
    class: None,
    failure: None,
};

// A site that names nothing else.
fn without_class(site: Option<Site>) -> Resolution
    ensures { result ≡ spec.without_class site }
{
    match site {
        Some(site) => Resolution {
            site,
            class: None,
            failure: None,
        },
        None => PLAIN,
    }
}

// A site of a member of the class of this name.
fn member_of(
    alloc: Global,
    l: Linker,
    name: &[u16],
    site: Option<Site>,
) -> Result<Resolution, NoMemory>
    ensures { IfOk result (λ n. n ≡ spec.member_of (linking_in l.entry) name.now site) }
{
    match site {
        Some(site) => Ok(Resolution {
            site,
            class: l.numbers.class_number(alloc, name)?,
            failure: None,
        }),
        None => Ok(PLAIN),
    }
}

// The String of a text.
fn string_resolution(l: Linker, text: &[u16]) -> Result<Resolution, NoMemory>
    ensures { IfOk result (λ n. n ≡ spec.string_resolution (linking_in l.entry) text.now) }
{
    match string_number(l.strings, text)? {
        Some(number) => Ok(without_class(Some(Site::Value(Value::Ref(number))))),
        None => Ok(PLAIN),
    }
}

fn string_at(l: Linker, pool: &[Const], index: u16) -> Result<Resolution, NoMemory>
    ensures { IfOk result (λ n. n ≡ spec.string_at (linking_in l.entry) pool.now index) }
{
    match text_at(pool, index) {
        Some(text) => string_resolution(l, text),
        None => Ok(PLAIN),
    }
}

// A constant that is pushed (JVMS 6.5, ldc, ldc_w, ldc2_w).
fn push_resolution(l: Linker, pool: &[Const], constant: &Const) -> Result<Resolution, NoMemory>
    ensures { IfOk result (λ n. n ≡
        spec.push_resolution (linking_in l.entry) pool.now constant.now) }
{
    match constant {
        Const::Integer(n) => Ok(without_class(Some(Site::Value(Value::Int(*n))))),
        Const::Long(n) => Ok(without_class(Some(Site::Value(Value::Long(*n))))),
        Const::Text(index) => string_at(l, pool, *index),
        _ => Ok(PLAIN),
    }
}

/// The value that the constant at an index is (JVMS 6.5, ldc, ldc_w, ldc2_w).
pub fn push_at(l: Linker, pool: &[Const], index: u16) -> Result<Resolution, NoMemory>
    ensures { IfOk result (λ n. n ≡ spec.resolution_at pool.now index
        (spec.push_resolution (linking_in l.entry) pool.now)) }
{
    match pool.get(usize::from(index)) {
        Some(constant) => push_resolution(l, pool, constant),
        None => Ok(PLAIN),
    }
}

// A field (JVMS 5.4.3.2).
fn field_site(l: Linker, name: &[u16], key: MemberKey) -> Result<Option<Site>, NoMemory>
    ensures { IfOk result (λ site. site ≡
        spec.field_site (linking_in l.entry) name.now (key_of key.entry)) }
{
    match resolved_field(l.members.hierarchy(), name, key) {
        Some(at) => Ok(Some(Site::Field(l.members.field_number(at)?))),
        None => Ok(None),
    }
}

fn named_field(
    alloc: Global,
    l: Linker,
    name: &[u16],
    key: MemberKey,
) -> Result<Resolution, NoMemory>
    ensures { IfOk result (λ n. n ≡
        spec.named_field (linking_in l.entry) name.now (key_of key.entry)) }
{
    let site = field_site(l, name, key)?;
    member_of(alloc, l, name, site)
}

fn field_resolution(
    alloc: Global,
    l: Linker,
    pool: &[Const],
    constant: &Const,
) -> Result<Resolution, NoMemory>
    ensures { IfOk result (λ n. n ≡
        spec.field_resolution (linking_in l.entry) pool.now constant.now) }
{
    match constant {
        Const::Fieldref(class, member) => {
            named_field(alloc, l, name_at(pool, *class), key_at(pool, *member))
        }
        _ => Ok(PLAIN),
    }
}

/// The field that the constant at an index names.
pub fn field_at(
    alloc: Global,
    l: Linker,
    pool: &[Const],
    index: u16,
) -> Result<Resolution, NoMemory>
    ensures { IfOk result (λ n. n ≡ spec.resolution_at pool.now index
        (spec.field_resolution (linking_in l.entry) pool.now)) }
{
    match pool.get(usize::from(index)) {
        Some(constant) => field_resolution(alloc, l, pool, constant),
        None => Ok(PLAIN),
    }
}

// In the code of which class a method is called, whether by invokespecial, and whether its constant is of an interface.
#[derive(Clone, Copy)]
struct Call {
    class: u32,
    special: bool,
    of_interface: bool,
}

// What invokespecial selects of the method that its constant means.
fn special_choice(
    alloc: Global,
    l: Linker,
    class: u32,
    name: &[u16],
    key: MemberKey,
    resolved: MemberPlace,
) -> Result<Choice, NoMemory>
    ensures { IfOk result (λ choice. choice ≡ spec.special_choice
        (linking_in l.entry) class name.now (key_of key.entry) resolved) }
{
    let world = l.members.hierarchy();
    match home_of(world.classes(), name) {
        Some(home) => select_special(alloc, world, class, home, key),
        None => Ok(Choice::Method(resolved)),
    }
}

// Each other invocation has the method that its constant means.
fn method_choice(
    alloc: Global,
    l: Linker,
    call: Call,
    name: &[u16],
    key: MemberKey,
    resolved: MemberPlace,
) -> Result<Choice, NoMemory>
    ensures { IfOk result (λ choice. choice ≡ spec.method_choice
        (linking_in l.entry) call.class call.special name.now (key_of key.entry) resolved) }
{
    if !call.special {
        return Ok(Choice::Method(resolved));
    }
    special_choice(alloc, l, call.class, name, key, resolved)
}

// The method that is selected, or else the one that the constant means.
fn chosen_place(resolved: MemberPlace, choice: Choice) -> MemberPlace
    ensures { result ≡ spec.chosen_place resolved choice }
{
    match choice {
        Choice::Method(at) => at,
        Choice::Abstract | Choice::Several => resolved,
    }
}

fn failure_of(choice: Choice) -> Option<SelectionFailure>
    ensures { result ≡ spec.failure_of choice }
{
    match choice {
        Choice::Method(_) => None,
        Choice::Abstract => Some(SelectionFailure::Abstract),
        Choice::Several => Some(SelectionFailure::Several),
    }
}

// An invocation of a method of the class of this name.
fn call_of(
    alloc: Global,
    l: Linker,
    name: &[u16],
    resolved: MemberPlace,
    choice: Choice,
) -> Result<Resolution, NoMemory>
    ensures { IfOk result (λ n. n ≡
        spec.call_of (linking_in l.entry) name.now resolved choice) }
{
    let at = chosen_place(resolved, choice);
    Ok(Resolution {
        site: Site::Method(l.members.method_number(at)?),
        class: l.numbers.class_number(alloc, name)?,
        failure: failure_of(choice),
    })
}

fn named_method(
    alloc: Global,
    l: Linker,
    call: Call,
    name: &[u16],
    key: MemberKey,
) -> Result<Resolution, NoMemory>
    ensures { IfOk result (λ n. n ≡ spec.named_method (linking_in l.entry)
        call.class call.special call.of_interface name.now (key_of key.entry)) }
{
    let world = l.members.hierarchy();
    let Some(resolved) = resolved_method(alloc, world, call.of_interface, name, key)? else {
        return Ok(PLAIN);
    };
    let choice = method_choice(alloc, l, call, name, key, resolved)?;
    call_of(alloc, l, name, resolved, choice)
}

fn method_resolution(
    alloc: Global,
    l: Linker,
    class: u32,
    pool: &[Const],
    special: bool,
    constant: &Const,
) -> Result<Resolution, NoMemory>
    ensures { IfOk result (λ n. n ≡
        spec.method_resolution (linking_in l.entry) class pool.now special constant.now) }
{
    match constant {
        Const::Methodref(named, member) => {
            let call = Call {
                class,
                special,
                of_interface: false,
            };
            named_method(alloc, l, call, name_at(pool, *named), key_at(pool, *member))
        }
        Const::InterfaceMethodref(named, member) => {
            let call = Call {
                class,
                special,
                of_interface: true,
            };
            named_method(alloc, l, call, name_at(pool, *named), key_at(pool, *member))
        }
        _ => Ok(PLAIN),
    }
}

/// The method that the constant at an index names, or from which invokespecial selects.
pub fn method_at(
    alloc: Global,
    l: Linker,
    class: u32,
    pool: &[Const],
    special: bool,
    index: u16,
) -> Result<Resolution, NoMemory>
    ensures { IfOk result (λ n. n ≡ spec.resolution_at pool.now index
        (spec.method_resolution (linking_in l.entry) class pool.now special)) }
{
    match pool.get(usize::from(index)) {
        Some(constant) => method_resolution(alloc, l, class, pool, special, constant),
        None => Ok(PLAIN),
    }
}

/// A class, where there is one.
pub(crate) fn class_resolution(number: Option<u32>) -> Resolution
    ensures { result ≡ spec.class_resolution number }
{
    match number {
        Some(class) => Resolution {
            site: Site::Class(class),
            class: None,
            failure: None,
        },
        None => PLAIN,
    }
}

/// The class at an index (JVMS 5.4.3.1).
pub fn named_class(
    alloc: Global,
    l: Linker,
    pool: &[Const],
    index: u16,
) -> Result<Resolution, NoMemory>
    ensures { IfOk result (λ n. n ≡ spec.named_class (linking_in l.entry) pool.now index) }
{
    let number = l.numbers.class_number(alloc, name_at(pool, index))?;
    Ok(class_resolution(number))
}

/// The array of the class at an index.
pub fn array_of_named(
    alloc: Global,
    l: Linker,
    pool: &[Const],
    index: u16,
) -> Result<Resolution, NoMemory>
    ensures { IfOk result (λ n. n ≡ spec.array_of_named (linking_in l.entry) pool.now index) }
{
    let kind = array_of_kind(kind_named(alloc, name_at(pool, index))?);
    Ok(class_resolution(l.numbers.array_number(&kind)))
}

/// The number of what the constant of an instruction means in the code of a class with this pool. What isn't known yet is added to the
/// table.
pub fn number_of(
    alloc: Global,
    l: Linker,
    class: u32,
    pool: &[Const],
    known: &mut KnownResolutions,
    table: &mut Vec<Resolution>,
    op: &Op,
) -> Result<u32, NoMemory>
    requires { Knows (linking_in l) class pool.now table.old.items known.old }
    ensures number { IfOk result (λ n. slice_get table.new.items n ≡
        Some (spec.resolution_of (linking_in l.entry) class pool.now op.now)) }
    ensures extends { OnOk result (Extends table.old.items table.new.items) }
    ensures known { OnOk result
        (Knows (linking_in l.entry) class pool.now table.new.items known.new) }
{
    let (used, index) = match op {
        Op::PushConstant(i) | Op::PushWideConstant(i) => (Use::Value, *i),
        Op::GetStatic(i) | Op::PutStatic(i) | Op::GetField(i) | Op::PutField(i) => (Use::Field, *i),
        Op::InvokeVirtual(i) | Op::InvokeStatic(i) | Op::InvokeInterface(i, _) => (Use::Method, *i),
        Op::InvokeSpecial(i) => (Use::Special, *i),
        Op::New(i) | Op::CheckCast(i) | Op::InstanceOf(i) | Op::MultiANewArray(i, _) => {
            (Use::Class, *i)
        }
        Op::ANewArray(i) => (Use::Elements, *i),
        Op::NewArray(primitive) => return Ok(primitive_number(*primitive)),
        _ => return Ok(PLAIN_NUMBER),
    };
    known_number(alloc, l, class, pool, known, table, used, index)
}

/// The class that a row of an exception table catches. `None`: it catches every throwable (JVMS 4.7.3).
pub fn catch_of(
    alloc: Global,
    l: Linker,
    pool: &[Const],
    row: &Row,
) -> Result<Option<u32>, NoMemory>
    ensures { IfOk result (λ n. n ≡ spec.catch_of (linking_in l.entry) pool.now row.now) }
{
    if row.catch_type == 0 {
        return Ok(None);
    }
    l.numbers.class_number(alloc, name_at(pool, row.catch_type))
}

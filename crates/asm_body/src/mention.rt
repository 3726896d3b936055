//! The constants that instructions name.

ghost use Rattle.std.specs.Prelude.{◌≡◌, ◌<◌, ◌^◌, length, IfOk};
ghost use Rattle.descriptors.specs.Descriptors.{slots};
ghost use Rattle.asm_pool.specs.Mentions as pools;
ghost use Rattle.asm_pool.specs.Places.{IsPool};
ghost use Rattle.asm_body.specs.Mentions as spec;
ghost use Rattle.asm_body.specs.Mentions.{MentionsAt, Gives};

use asm_code::Mentioned;
use asm_pool::{Pool, PoolError};
use asm_text::{Constant, LineError, Operands};
use descriptors::{DescriptorError, ElementType, Kind, is_method_descriptor, method_kind};
use std::alloc::{AllocError, Global};

/// The error of the line: it has no place for its constant.
pub fn line_error(error: PoolError) -> LineError
    ensures { result ≡ spec.line_error error }
{
    match error {
        PoolError::Full => LineError::Bad,
        PoolError::NoMemory => LineError::NoMemory,
    }
}

fn int(pool: &mut Pool, value: i32) -> Result<Mentioned, LineError>
    requires { IsPool pool.old }
    ensures { MentionsAt result pool.new (spec.plain (pools.int value pool.old.entries)) }
{
    match pool.int(value) {
        Ok(index) => Ok(Mentioned { index, slots: 0 }),
        Err(error) => Err(line_error(error)),
    }
}

fn long(pool: &mut Pool, value: i64) -> Result<Mentioned, LineError>
    requires { IsPool pool.old }
    ensures { MentionsAt result pool.new (spec.plain (pools.long value pool.old.entries)) }
{
    match pool.long(value) {
        Ok(index) => Ok(Mentioned { index, slots: 0 }),
        Err(error) => Err(line_error(error)),
    }
}

fn string(pool: &mut Pool, text: &[u8]) -> Result<Mentioned, LineError>
    requires { IsPool pool.old }
    ensures { MentionsAt result pool.new (spec.plain (pools.string text.now pool.old.entries)) }
{
    match pool.string(text) {
        Ok(index) => Ok(Mentioned { index, slots: 0 }),
        Err(error) => Err(line_error(error)),
    }
}

fn class(pool: &mut Pool, name: &[u8]) -> Result<Mentioned, LineError>
    requires { IsPool pool.old }
    ensures { MentionsAt result pool.new (spec.plain (pools.class name.now pool.old.entries)) }
{
    match pool.class(name) {
        Ok(index) => Ok(Mentioned { index, slots: 0 }),
        Err(error) => Err(line_error(error)),
    }
}

fn field(
    pool: &mut Pool,
    class: &[u8],
    name: &[u8],
    descriptor: &[u8],
) -> Result<Mentioned, LineError>
    requires { IsPool pool.old }
    ensures { MentionsAt result pool.new
        (spec.plain (pools.field class.now name.now descriptor.now pool.old.entries)) }
{
    match pool.field(class, name, descriptor) {
        Ok(index) => Ok(Mentioned { index, slots: 0 }),
        Err(error) => Err(line_error(error)),
    }
}

fn method(
    pool: &mut Pool,
    class: &[u8],
    name: &[u8],
    descriptor: &[u8],
) -> Result<Mentioned, LineError>
    requires { IsPool pool.old }
    ensures { MentionsAt result pool.new
        (spec.plain (pools.method class.now name.now descriptor.now pool.old.entries)) }
{
    match pool.method(class, name, descriptor) {
        Ok(index) => Ok(Mentioned { index, slots: 0 }),
        Err(error) => Err(line_error(error)),
    }
}

// The units of a text in ASCII.
fn units_of(alloc: Global, bytes: &[u8]) -> Result<Vec<u16>, AllocError>
    ensures { IfOk result (λ units. units.items ≡ bytes.now) }
{
    let mut units = Vec::with_capacity(alloc, bytes.len())?;
    for byte in bytes {
        units.push(u16::from(*byte))?;
    }
    Ok(units)
}

// How many slots a kind takes as an argument.
fn slots_of(kind: &Kind) -> u8
    ensures { result ≡ slots kind.now }
{
    if kind.dimensions != 0 {
        return 1;
    }
    match kind.element {
        ElementType::Long | ElementType::Double => 2,
        _ => 1,
    }
}

// The slots of these kinds, with one for the receiver.
fn slots_from(kinds: &[Kind]) -> Result<u8, LineError>
    ensures { Gives result (spec.slots_from 1 kinds.now) }
{
    let mut count = 1u8;
    for kind in kinds {
        count = count.checked_add(slots_of(kind)).ok_or(LineError::Bad)?;
    }
    Ok(count)
}

fn slots_by(alloc: Global, units: &[u16]) -> Result<u8, LineError>
    requires { length units.now < 2 ^ 16 }
    ensures { Gives result (spec.slots_by units.now) }
{
    if !is_method_descriptor(units) {
        return Err(LineError::Bad);
    }
    match method_kind(alloc, units) {
        Ok(signature) => slots_from(&signature.args),
        Err(DescriptorError::Bad { .. }) => Err(LineError::Bad),
        Err(DescriptorError::NoMemory) => Err(LineError::NoMemory),
    }
}

fn slots_in(alloc: Global, descriptor: &[u8]) -> Result<u8, LineError>
    ensures { Gives result (spec.slots_in descriptor.now) }
{
    if descriptor.len() > 65_535 {
        return Err(LineError::Bad);
    }
    let units = units_of(alloc, descriptor)?;
    slots_by(alloc, &units)
}

fn interface_method(
    alloc: Global,
    pool: &mut Pool,
    class: &[u8],
    name: &[u8],
    descriptor: &[u8],
) -> Result<Mentioned, LineError>
    requires { IsPool pool.old }
    ensures { MentionsAt result pool.new
        (spec.interface_method class.now name.now descriptor.now pool.old.entries) }
{
    let slots = slots_in(alloc, descriptor)?;
    match pool.interface_method(class, name, descriptor) {
        Ok(index) => Ok(Mentioned { index, slots }),
        Err(error) => Err(line_error(error)),
    }
}

fn constant(pool: &mut Pool, constant: &Constant) -> Result<Mentioned, LineError>
    requires { IsPool pool.old }
    ensures { MentionsAt result pool.new (spec.constant constant.now pool.old.entries) }
{
    match constant {
        Constant::Int(value) => int(pool, *value),
        Constant::Long(value) => long(pool, *value),
        Constant::Text(text) => string(pool, text),
    }
}

fn member(
    alloc: Global,
    pool: &mut Pool,
    opcode: u8,
    class: &[u8],
    name: &[u8],
    descriptor: &[u8],
) -> Result<Mentioned, LineError>
    requires { IsPool pool.old }
    ensures { MentionsAt result pool.new
        (spec.member opcode class.now name.now descriptor.now pool.old.entries) }
{
    if opcode < 182 {
        return field(pool, class, name, descriptor);
    }
    if opcode == 185 {
        return interface_method(alloc, pool, class, name, descriptor);
    }
    method(pool, class, name, descriptor)
}

/// The constant that the instruction names, which the pool then has. `Bad`: there is no room in the pool, or the
/// descriptor of a method of an interface is none, or has more than 254 argument slots.
pub fn mention_of(
    alloc: Global,
    pool: &mut Pool,
    opcode: u8,
    operands: &Operands,
) -> Result<Mentioned, LineError>
    requires { IsPool pool.old }
    ensures { MentionsAt result pool.new
        (spec.mention_of opcode operands.now pool.old.entries) }
{
    match operands {
        Operands::Constant(value) => constant(pool, value),
        Operands::Member {
            class,
            name,
            descriptor,
        } => member(alloc, pool, opcode, class, name, descriptor),
        Operands::Class(name) => class(pool, name),
        Operands::Dimensions(name, _) => class(pool, name),
        Operands::Nothing
        | Operands::Byte(_)
        | Operands::Short(_)
        | Operands::Local(_)
        | Operands::Increment(..)
        | Operands::Branch(_)
        | Operands::Table { .. }
        | Operands::Lookup { .. }
        | Operands::Element(_) => Ok(Mentioned { index: 0, slots: 0 }),
    }
}

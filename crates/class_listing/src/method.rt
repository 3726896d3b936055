//! The text of a method.

ghost use Rattle.std.specs.Prelude.{◌≡◌, ◌≤◌, length, get_or, false, OnOk, IfOk};
ghost use Rattle.asm_code.specs.Encoding.{Puts};
ghost use Rattle.asm_listing.specs.Numbers.{Gives, GivesBy};
ghost use Rattle.asm_listing.specs.Code as codes;
ghost use Rattle.class_listing.specs.Methods as spec;

use crate::flags::member_flags;
use crate::rows::{name_rows, put_rows};
use asm_listing::{Found, PlacedLine, code_lines, label_of, map_lines, word_at};
use asm_text::{Line, LineError, print_line};
use class_model::{Attribute, Body, CodeAttribute, CodeBody, CodeExtra, Const, Member};
use std::alloc::{AllocError, Global};

/// The most bytes of a code (JVMS 4.7.3).
const MOST_BYTES: usize = 65_535;

fn set_flag(flags: &mut [bool], pc: u16)
    ensures { flags.new ≡ spec.with_flag flags.old pc }
{
    let pc = pc as usize;
    if pc < flags.len() {
        flags[pc] = true;
    }
}

fn set_flags(flags: &mut [bool], named: &[u16])
    ensures { flags.new ≡ spec.with_flags flags.old named.now }
{
    for pc in named {
        set_flag(flags, *pc);
    }
}

// For each pc up to the last whether it is named.
fn flags_for(alloc: Global, last: u16, named: &[u16]) -> Result<Vec<bool>, AllocError>
    ensures { IfOk result (λ flags. flags.items ≡ spec.flags_for last named.now) }
{
    let mut flags = vec![in alloc; false; last as usize + 1]?;
    set_flags(&mut flags, named);
    Ok(flags)
}

fn is_flagged(flags: &[bool], pc: u16) -> bool
    ensures { result ≡ get_or flags.now pc false }
{
    let pc = pc as usize;
    pc < flags.len() && flags[pc]
}

// The label of the pc, where it has one.
fn put_label(alloc: Global, text: &mut Vec<u8>, flags: &[bool], pc: u16) -> Result<(), AllocError>
    ensures { OnOk result (text.new.items
        ≡ spec.with_label flags.now pc text.old.items) }
{
    if is_flagged(flags, pc) {
        print_line(text, &Line::Label(label_of(alloc, pc)?))?;
    }
    Ok(())
}

// The frame of the pc, where it is the first of these.
fn put_frame(text: &mut Vec<u8>, pc: u16, frames: &[PlacedLine]) -> Result<(), AllocError>
    ensures { OnOk result (text.new.items ≡ spec.with_frame pc frames.now text.old.items) }
{
    match frames {
        [first, ..] => {
            if first.pc == pc {
                print_line(text, &first.line)?;
            }
            Ok(())
        }
        [] => Ok(()),
    }
}

// The frames behind this pc.
fn frames_after(pc: u16, frames: &[PlacedLine]) -> &[PlacedLine]
    ensures { result.now ≡ spec.frames_after pc frames.now }
{
    match frames {
        [first, rest @ ..] if first.pc == pc => rest,
        _ => frames,
    }
}

fn put_instruction(
    alloc: Global,
    text: &mut Vec<u8>,
    flags: &[bool],
    frames: &[PlacedLine],
    instruction: &PlacedLine,
) -> Result<(), AllocError>
    ensures { OnOk result (text.new.items
        ≡ spec.with_instruction flags.now frames.now instruction.now
        text.old.items) }
{
    put_label(alloc, text, flags, instruction.pc)?;
    put_frame(text, instruction.pc, frames)?;
    print_line(text, &instruction.line)
}

fn put_code(
    alloc: Global,
    text: &mut Vec<u8>,
    flags: &[bool],
    instructions: &[PlacedLine],
    frames: &[PlacedLine],
) -> Result<(), AllocError>
    ensures { OnOk result (text.new.items
        ≡ spec.with_code flags.now instructions.now frames.now text.old.items) }
{
    let mut rest = frames;
    for instruction in instructions {
        put_instruction(alloc, text, flags, rest, instruction)?;
        rest = frames_after(instruction.pc, rest);
    }
    Ok(())
}

// The sizes of the frame, the code, and the label behind it.
fn put_parts(
    alloc: Global,
    text: &mut Vec<u8>,
    flags: &[bool],
    body: &CodeBody,
    code: &Found,
    map: &Found,
) -> Result<(), AllocError>
    requires { length body.now.code ≤ 65535 }
    ensures { OnOk result (text.new.items ≡ spec.with_parts flags.now body.now
        (codes.seen code.now) (codes.seen map.now) text.old.items) }
{
    let CodeBody {
        max_stack,
        max_locals,
        ..
    } = body;
    print_line(
        text,
        &Line::Stack {
            stack: *max_stack,
            locals: *max_locals,
        },
    )?;
    put_code(alloc, text, flags, &code.lines, &map.lines)?;
    put_label(alloc, text, flags, body.code.len() as u16)
}

// The pcs that a code names, its frames and its rows.
fn named_in(
    alloc: Global,
    body: &CodeBody,
    code: &Found,
    map: &Found,
) -> Result<Vec<u16>, AllocError>
    ensures { IfOk result (λ named. named.items
        ≡ spec.named_in body.now (codes.seen code.now) (codes.seen map.now)) }
{
    let mut named = Vec::from_slice(alloc, &code.named)?;
    named.extend_from_slice(&map.named)?;
    name_rows(&mut named, &body.rows)?;
    Ok(named)
}

fn map_in(alloc: Global, pool: &[Const], extra: &CodeExtra) -> Result<Found, LineError>
    ensures { GivesBy codes.seen result (spec.map_in pool.now extra.now) }
{
    match extra {
        CodeExtra::StackMap(bytes) => map_lines(alloc, pool, bytes),
        CodeExtra::Other(_) => Err(LineError::Bad),
    }
}

// The frames of a code that has a stack map at most.
fn map_of(alloc: Global, pool: &[Const], attributes: &[CodeAttribute]) -> Result<Found, LineError>
    ensures { GivesBy codes.seen result (spec.map_of pool.now attributes.now) }
{
    match attributes {
        [] => Ok(Found::new(alloc)),
        [one] => map_in(alloc, pool, &one.body),
        _ => Err(LineError::Bad),
    }
}

fn put_body(
    alloc: Global,
    text: &mut Vec<u8>,
    pool: &[Const],
    body: &CodeBody,
) -> Result<(), LineError>
    requires { length body.now.code ≤ 65535 }
    ensures { Puts result text.new.items (spec.with_body pool.now body.now text.old.items) }
{
    let code = code_lines(alloc, pool, &body.code)?;
    let map = map_of(alloc, pool, &body.attributes)?;
    let named = named_in(alloc, body, &code, &map)?;
    let flags = flags_for(alloc, body.code.len() as u16, &named)?;
    put_parts(alloc, text, &flags, body, &code, &map)?;
    put_rows(alloc, text, pool, &body.rows)
}

fn put_small_body(
    alloc: Global,
    text: &mut Vec<u8>,
    pool: &[Const],
    body: &CodeBody,
) -> Result<(), LineError>
    ensures { Puts result text.new.items (spec.with_small_body pool.now body.now text.old.items) }
{
    if body.code.len() > MOST_BYTES {
        return Err(LineError::Bad);
    }
    put_body(alloc, text, pool, body)
}

fn put_attribute(
    alloc: Global,
    text: &mut Vec<u8>,
    pool: &[Const],
    body: &Body,
) -> Result<(), LineError>
    ensures { Puts result text.new.items (spec.with_attribute pool.now body.now text.old.items) }
{
    match body {
        Body::Code(body) => put_small_body(alloc, text, pool, body.get()),
        _ => Err(LineError::Bad),
    }
}

// The code of a method that has no other attribute.
fn put_attributes(
    alloc: Global,
    text: &mut Vec<u8>,
    pool: &[Const],
    attributes: &[Attribute],
) -> Result<(), LineError>
    ensures { Puts result text.new.items
        (spec.with_attributes pool.now attributes.now text.old.items) }
{
    match attributes {
        [] => Ok(()),
        [one] => put_attribute(alloc, text, pool, &one.body),
        _ => Err(LineError::Bad),
    }
}

fn method_line(alloc: Global, pool: &[Const], method: &Member) -> Result<Line, LineError>
    ensures { Gives result (spec.method_line pool.now method.now) }
{
    Ok(Line::Method {
        name: word_at(alloc, pool, method.name)?,
        descriptor: word_at(alloc, pool, method.descriptor)?,
        flags: member_flags(alloc, method.flags)?,
    })
}

fn put_method(
    alloc: Global,
    text: &mut Vec<u8>,
    pool: &[Const],
    method: &Member,
) -> Result<(), LineError>
    ensures { Puts result text.new.items (spec.with_method pool.now method.now text.old.items) }
{
    let line = method_line(alloc, pool, method)?;
    print_line(text, &line)?;
    put_attributes(alloc, text, pool, &method.attributes)?;
    print_line(text, &Line::End)?;
    Ok(())
}

/// Appends the methods. `Bad`: a part of one has no line.
pub fn put_methods(
    alloc: Global,
    text: &mut Vec<u8>,
    pool: &[Const],
    methods: &[Member],
) -> Result<(), LineError>
    ensures { Puts result text.new.items (spec.with_methods pool.now methods.now text.old.items) }
{
    for method in methods {
        put_method(alloc, text, pool, method)?;
    }
    Ok(())
}

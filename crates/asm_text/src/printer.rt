//! Prints lines.

ghost use Rattle.std.specs.Prelude.{◌≡◌, ◌++◌, ◌∷◌, [], map, codes, OnOk};
ghost use Rattle.std.specs.List.{flat_map};
ghost use Rattle.asm_text.specs.Words.{spaced};
ghost use Rattle.asm_text.specs.LineText as texts;
ghost use Rattle.asm_text.specs.declared.line.Line.TheVariants as lines;
ghost use Rattle.asm_text.specs.declared.instruction.Operands.TheVariants as operands;
ghost use Rattle.asm_text.specs.Mnemonics.{flag_word};

use crate::instruction::{Case, Constant, Operands};
use crate::keyword::{element_word, flag_word};
use crate::line::{Flag, FrameType, Line, Name};
use crate::mnemonic::name_of;
use itoa::{Buffer, Integer};
use std::alloc::AllocError;

/// Appends a line. Where memory runs out, some of it may have been appended.
pub fn print_line(text: &mut Vec<u8>, line: &Line) -> Result<(), AllocError>
    ensures { OnOk result (text.new.items ≡ text.old.items ++ texts.line_text line.now) }
{
    print_words(text, line)?;
    text.extend_from_slice(b"\n")
}

fn print_words(text: &mut Vec<u8>, line: &Line) -> Result<(), AllocError>
    ensures { OnOk result (text.new.items ≡ text.old.items ++ texts.line_bytes line.now) }
{
    match line {
        Line::Blank => Ok(()),
        Line::Class { flags, name } => print_class(text, flags, name),
        Line::Super(name) => print_named(text, b"super", name),
        Line::Implements(name) => print_named(text, b"implements", name),
        Line::Field {
            flags,
            name,
            descriptor,
        } => print_member(text, b"field", flags, name, descriptor),
        Line::Method {
            flags,
            name,
            descriptor,
        } => print_member(text, b"method", flags, name, descriptor),
        Line::Stack { stack, locals } => print_stack(text, *stack, *locals),
        Line::Label(label) => {
            text.extend_from_slice(label)?;
            text.extend_from_slice(b":")
        }
        Line::Frame { locals, stack } => print_frame(text, locals, stack),
        Line::Catch {
            caught,
            from,
            to,
            using,
        } => print_catch(text, caught, from, to, using),
        Line::End => text.extend_from_slice(b"end"),
        Line::Instruction { opcode, operands } => {
            text.extend_from_slice(name_of(*opcode))?;
            print_operands(text, operands)
        }
    }
}

fn print_class(text: &mut Vec<u8>, flags: &[Flag], name: &[u8]) -> Result<(), AllocError>
    ensures { OnOk result (text.new.items ≡ text.old.items
        ++ (codes "class" ++ spaced (map flag_word flags.now ++ name.now ∷ []))) }
{
    text.extend_from_slice(b"class")?;
    print_flags(text, flags)?;
    print_word(text, name)
}

// A word, and a name.
fn print_named(text: &mut Vec<u8>, word: &[u8], name: &[u8]) -> Result<(), AllocError>
    ensures { OnOk result (text.new.items ≡ text.old.items
        ++ (word.now ++ spaced (name.now ∷ []))) }
{
    text.extend_from_slice(word)?;
    print_word(text, name)
}

fn print_member(
    text: &mut Vec<u8>,
    word: &[u8],
    flags: &[Flag],
    name: &[u8],
    descriptor: &[u8],
) -> Result<(), AllocError>
    ensures { OnOk result (text.new.items ≡ text.old.items
        ++ (word.now ++ spaced (map flag_word flags.now ++ name.now ∷ descriptor.now ∷ []))) }
{
    text.extend_from_slice(word)?;
    print_flags(text, flags)?;
    print_word(text, name)?;
    print_word(text, descriptor)
}

fn print_flags(text: &mut Vec<u8>, flags: &[Flag]) -> Result<(), AllocError>
    ensures { OnOk result (text.new.items ≡ text.old.items ++ spaced (map flag_word flags.now)) }
{
    for flag in flags {
        print_word(text, flag_word(*flag))?;
    }
    Ok(())
}

fn print_stack(text: &mut Vec<u8>, stack: u16, locals: u16) -> Result<(), AllocError>
    ensures { OnOk result (text.new.items ≡ text.old.items
        ++ texts.line_bytes (lines.Stack stack locals)) }
{
    text.extend_from_slice(b"stack")?;
    print_number(text, stack)?;
    print_word(text, b"locals")?;
    print_number(text, locals)
}

fn print_frame(
    text: &mut Vec<u8>,
    locals: &[FrameType],
    stack: &[FrameType],
) -> Result<(), AllocError>
    ensures { OnOk result (text.new.items ≡ text.old.items
        ++ texts.line_bytes (lines.Frame locals.now stack.now)) }
{
    text.extend_from_slice(b"frame")?;
    print_frame_types(text, locals)?;
    print_word(text, b"|")?;
    print_frame_types(text, stack)
}

fn print_frame_types(text: &mut Vec<u8>, types: &[FrameType]) -> Result<(), AllocError>
    ensures { OnOk result (text.new.items ≡ text.old.items
        ++ spaced (flat_map texts.frame_type_words types.now)) }
{
    for frame_type in types {
        print_frame_type(text, frame_type)?;
    }
    Ok(())
}

fn print_frame_type(text: &mut Vec<u8>, frame_type: &FrameType) -> Result<(), AllocError>
    ensures { OnOk result (text.new.items ≡ text.old.items
        ++ spaced (texts.frame_type_words frame_type.now)) }
{
    match frame_type {
        FrameType::Top => print_word(text, b"top"),
        FrameType::Int => print_word(text, b"int"),
        FrameType::Long => print_word(text, b"long"),
        FrameType::Null => print_word(text, b"null"),
        FrameType::This => print_word(text, b"this"),
        FrameType::New(label) => print_pair(text, b"new", label),
        FrameType::Ref(name) => print_pair(text, b"ref", name),
    }
}

fn print_catch(
    text: &mut Vec<u8>,
    caught: &Option<Name>,
    from: &[u8],
    to: &[u8],
    handler: &[u8],
) -> Result<(), AllocError>
    ensures { OnOk result (text.new.items ≡ text.old.items
        ++ texts.line_bytes (lines.Catch caught.now from.now to.now handler.now)) }
{
    text.extend_from_slice(b"catch")?;
    print_caught(text, caught)?;
    print_pair(text, b"from", from)?;
    print_pair(text, b"to", to)?;
    print_pair(text, b"using", handler)
}

fn print_caught(text: &mut Vec<u8>, caught: &Option<Name>) -> Result<(), AllocError>
    ensures { OnOk result (text.new.items ≡ text.old.items
        ++ spaced (texts.caught_word caught.now ∷ [])) }
{
    match caught {
        Some(name) => print_word(text, name),
        None => print_word(text, b"any"),
    }
}

// The words after the name of an instruction.
fn print_operands(text: &mut Vec<u8>, operands: &Operands) -> Result<(), AllocError>
    ensures { OnOk result (text.new.items ≡ text.old.items
        ++ spaced (texts.operand_words operands.now)) }
{
    match operands {
        Operands::Nothing => Ok(()),
        Operands::Byte(value) => print_number(text, *value),
        Operands::Short(value) => print_number(text, *value),
        Operands::Constant(constant) => print_constant(text, constant),
        Operands::Local(local) => print_number(text, *local),
        Operands::Increment(local, value) => {
            print_number(text, *local)?;
            print_number(text, *value)
        }
        Operands::Branch(name) | Operands::Class(name) => print_word(text, name),
        Operands::Table {
            low,
            labels,
            default,
        } => print_table(text, *low, labels, default),
        Operands::Lookup { cases, default } => print_lookup(text, cases, default),
        Operands::Member {
            class,
            name,
            descriptor,
        } => {
            print_word(text, class)?;
            print_pair(text, name, descriptor)
        }
        Operands::Element(element) => print_word(text, element_word(*element)),
        Operands::Dimensions(name, dimensions) => {
            print_word(text, name)?;
            print_number(text, *dimensions)
        }
    }
}

fn print_constant(text: &mut Vec<u8>, constant: &Constant) -> Result<(), AllocError>
    ensures { OnOk result (text.new.items ≡ text.old.items
        ++ spaced (texts.constant_words constant.now)) }
{
    match constant {
        Constant::Int(value) => {
            print_word(text, b"int")?;
            print_number(text, *value)
        }
        Constant::Long(value) => {
            print_word(text, b"long")?;
            print_number(text, *value)
        }
        Constant::Text(word) => print_pair(text, b"text", word),
    }
}

fn print_table(
    text: &mut Vec<u8>,
    low: i32,
    labels: &[Name],
    default: &[u8],
) -> Result<(), AllocError>
    ensures { OnOk result (text.new.items ≡ text.old.items
        ++ spaced (texts.operand_words (operands.Table low labels.now default.now))) }
{
    print_number(text, low)?;
    print_all(text, labels)?;
    print_pair(text, b"default", default)
}

fn print_all(text: &mut Vec<u8>, words: &[Name]) -> Result<(), AllocError>
    ensures { OnOk result (text.new.items ≡ text.old.items ++ spaced words.now) }
{
    for word in words {
        print_word(text, word)?;
    }
    Ok(())
}

fn print_lookup(text: &mut Vec<u8>, cases: &[Case], default: &[u8]) -> Result<(), AllocError>
    ensures { OnOk result (text.new.items ≡ text.old.items
        ++ spaced (texts.operand_words (operands.Lookup cases.now default.now))) }
{
    print_cases(text, cases)?;
    print_pair(text, b"default", default)
}

fn print_cases(text: &mut Vec<u8>, cases: &[Case]) -> Result<(), AllocError>
    ensures { OnOk result (text.new.items ≡ text.old.items
        ++ spaced (flat_map texts.case_words cases.now)) }
{
    for case in cases {
        print_case(text, case)?;
    }
    Ok(())
}

fn print_case(text: &mut Vec<u8>, case: &Case) -> Result<(), AllocError>
    ensures { OnOk result (text.new.items ≡ text.old.items ++ spaced (texts.case_words case.now)) }
{
    print_number(text, case.value)?;
    print_word(text, &case.label)
}

// A space and a word.
fn print_word(text: &mut Vec<u8>, word: &[u8]) -> Result<(), AllocError>
    ensures { OnOk result (text.new.items ≡ text.old.items ++ spaced (word.now ∷ [])) }
{
    text.push(b' ')?;
    text.extend_from_slice(word)
}

// Two words, each with a space in front.
fn print_pair(text: &mut Vec<u8>, first: &[u8], second: &[u8]) -> Result<(), AllocError>
    ensures { OnOk result (text.new.items ≡ text.old.items
        ++ spaced (first.now ∷ second.now ∷ [])) }
{
    print_word(text, first)?;
    print_word(text, second)
}

// A space and a number.
fn print_number<I: Integer>(text: &mut Vec<u8>, number: I) -> Result<(), AllocError>
    ensures { OnOk result (text.new.items ≡ text.old.items ++ spaced (I.text number ∷ [])) }
{
    let mut buffer = Buffer::new();
    print_word(text, buffer.format(number).as_bytes())
}

//! The operands of an instruction, read from the words after its name.

ghost use Rattle.std.specs.Prelude.{◌≡◌};
ghost use Rattle.asm_text.specs.Parsing as parsing;
ghost use Rattle.asm_text.specs.Parsing.{Gives, Reads};
ghost use Rattle.asm_text.specs.declared.instruction.OperandKind.TheVariants as kinds;

use crate::error::LineError;
use crate::instruction::{Constant, OperandKind, Operands};
use crate::keyword::element_named;
use crate::line::Name;
use crate::lists::{cases_of, names_of};
use crate::word::same_word;
use crate::word_reader::{
    end_of, i8_at, i16_at, i32_at, i64_at, label_at, name_at, split_last, u8_at, u16_at, word_at,
};
use std::alloc::Global;

/// The operands of this kind that the words are.
pub fn operands_of(alloc: Global, kind: OperandKind, words: &[Name]) -> Result<Operands, LineError>
    ensures { Gives result (parsing.operands_of kind words.now) }
{
    match kind {
        OperandKind::Nothing => {
            end_of(words)?;
            Ok(Operands::Nothing)
        }
        OperandKind::Byte => byte_of(words),
        OperandKind::Short => short_of(words),
        OperandKind::Constant => constant_of(alloc, words),
        OperandKind::Local => local_of(words),
        OperandKind::Increment => increment_of(words),
        OperandKind::Branch => branch_of(alloc, words),
        OperandKind::Table => table_of(alloc, words),
        OperandKind::Lookup => lookup_of(alloc, words),
        OperandKind::Member => member_of(alloc, words),
        OperandKind::Class => class_of(alloc, words),
        OperandKind::Element => element_of(words),
        OperandKind::Dimensions => dimensions_of(alloc, words),
    }
}

fn byte_of(words: &[Name]) -> Result<Operands, LineError>
    ensures { Gives result (parsing.operands_of kinds.Byte words.now) }
{
    let (value, rest) = i8_at(words)?;
    end_of(rest)?;
    Ok(Operands::Byte(value))
}

fn short_of(words: &[Name]) -> Result<Operands, LineError>
    ensures { Gives result (parsing.operands_of kinds.Short words.now) }
{
    let (value, rest) = i16_at(words)?;
    end_of(rest)?;
    Ok(Operands::Short(value))
}

fn constant_of(alloc: Global, words: &[Name]) -> Result<Operands, LineError>
    ensures { Gives result (parsing.operands_of kinds.Constant words.now) }
{
    let (constant, rest) = constant_at(alloc, words)?;
    end_of(rest)?;
    Ok(Operands::Constant(constant))
}

fn constant_at(alloc: Global, words: &[Name]) -> Result<(Constant, &[Name]), LineError>
    ensures { Reads result (parsing.constant_at words.now) }
{
    let (word, rest) = word_at(words)?;
    constant_by(alloc, word, rest)
}

fn constant_by<'w>(
    alloc: Global,
    word: &[u8],
    rest: &'w [Name],
) -> Result<(Constant, &'w [Name]), LineError>
    ensures { Reads result (parsing.constant_by word.now rest.now) }
{
    if same_word(word, b"int") {
        let (value, rest) = i32_at(rest)?;
        return Ok((Constant::Int(value), rest));
    }
    if same_word(word, b"long") {
        let (value, rest) = i64_at(rest)?;
        return Ok((Constant::Long(value), rest));
    }
    if same_word(word, b"text") {
        let (text, rest) = name_at(alloc, rest)?;
        return Ok((Constant::Text(text), rest));
    }
    Err(LineError::Bad)
}

fn local_of(words: &[Name]) -> Result<Operands, LineError>
    ensures { Gives result (parsing.operands_of kinds.Local words.now) }
{
    let (local, rest) = u16_at(words)?;
    end_of(rest)?;
    Ok(Operands::Local(local))
}

fn increment_of(words: &[Name]) -> Result<Operands, LineError>
    ensures { Gives result (parsing.operands_of kinds.Increment words.now) }
{
    let (local, rest) = u16_at(words)?;
    let (value, rest) = i16_at(rest)?;
    end_of(rest)?;
    Ok(Operands::Increment(local, value))
}

fn branch_of(alloc: Global, words: &[Name]) -> Result<Operands, LineError>
    ensures { Gives result (parsing.operands_of kinds.Branch words.now) }
{
    let (label, rest) = name_at(alloc, words)?;
    end_of(rest)?;
    Ok(Operands::Branch(label))
}

fn table_of(alloc: Global, words: &[Name]) -> Result<Operands, LineError>
    ensures { Gives result (parsing.operands_of kinds.Table words.now) }
{
    let (front, back) = split_last(2, words)?;
    let (low, front) = i32_at(front)?;
    let labels = names_of(alloc, front)?;
    let (default, rest) = label_at(alloc, b"default", back)?;
    end_of(rest)?;
    Ok(Operands::Table {
        low,
        labels,
        default,
    })
}

fn lookup_of(alloc: Global, words: &[Name]) -> Result<Operands, LineError>
    ensures { Gives result (parsing.operands_of kinds.Lookup words.now) }
{
    let (front, back) = split_last(2, words)?;
    let cases = cases_of(alloc, front)?;
    let (default, rest) = label_at(alloc, b"default", back)?;
    end_of(rest)?;
    Ok(Operands::Lookup { cases, default })
}

fn member_of(alloc: Global, words: &[Name]) -> Result<Operands, LineError>
    ensures { Gives result (parsing.operands_of kinds.Member words.now) }
{
    let (class, rest) = name_at(alloc, words)?;
    let (name, rest) = name_at(alloc, rest)?;
    let (descriptor, rest) = name_at(alloc, rest)?;
    end_of(rest)?;
    Ok(Operands::Member {
        class,
        name,
        descriptor,
    })
}

fn class_of(alloc: Global, words: &[Name]) -> Result<Operands, LineError>
    ensures { Gives result (parsing.operands_of kinds.Class words.now) }
{
    let (name, rest) = name_at(alloc, words)?;
    end_of(rest)?;
    Ok(Operands::Class(name))
}

fn element_of(words: &[Name]) -> Result<Operands, LineError>
    ensures { Gives result (parsing.operands_of kinds.Element words.now) }
{
    let (word, rest) = word_at(words)?;
    let element = element_named(word).ok_or(LineError::Bad)?;
    end_of(rest)?;
    Ok(Operands::Element(element))
}

fn dimensions_of(alloc: Global, words: &[Name]) -> Result<Operands, LineError>
    ensures { Gives result (parsing.operands_of kinds.Dimensions words.now) }
{
    let (name, rest) = name_at(alloc, words)?;
    let (dimensions, rest) = u8_at(rest)?;
    end_of(rest)?;
    Ok(Operands::Dimensions(name, dimensions))
}

//! As many values as stand in front of the words, one after the other.

ghost use Rattle.std.specs.Prelude.{◌≡◌, length, IfOk};
ghost use Rattle.asm_text.specs.Parsing as parsing;
ghost use Rattle.asm_text.specs.Parsing.{Gives, Reads, many};
ghost use Rattle.asm_text.specs.Mnemonics.{named, flag_rows};
ghost use Rattle.asm_text.specs.LineText.{is_allowed};

use crate::error::LineError;
use crate::instruction::Case;
use crate::keyword::flag_named;
use crate::line::{Declared, Flag, FrameType, Name};
use crate::word::same_word;
use crate::word_reader::{end_of, i32_at, name_at, word_at};
use items::Items;
use std::alloc::{AllocError, Global};

// Whether Java has the flag there.
fn is_allowed(declared: Declared, flag: Flag) -> bool
    ensures { result ≡ is_allowed declared flag }
{
    match declared {
        Declared::Class => !matches!(flag, Flag::Synchronized),
        Declared::Field => !matches!(flag, Flag::Super | Flag::Synchronized),
        Declared::Method => !matches!(flag, Flag::Super),
    }
}

fn flag_at(declared: Declared, words: &[Name]) -> Result<(Flag, &[Name]), LineError>
    ensures { Reads result (parsing.flag_at declared words.now) }
{
    let (word, rest) = word_at(words)?;
    let flag = flag_named(word).ok_or(LineError::Bad)?;
    if !is_allowed(declared, flag) {
        return Err(LineError::Bad);
    }
    Ok((flag, rest))
}

// As many flags as there are, and the words behind them.
fn flags_at(
    alloc: Global,
    declared: Declared,
    words: &[Name],
) -> Result<(Items<Flag>, &[Name]), AllocError>
    ensures { IfOk result (λ r. (r.0, r.1.now)
        ≡ many (parsing.flag_at declared) (length words.now) words.now) }
{
    let mut flags = Items::new(alloc);
    let mut rest = words;
    for _ in 0..words.len() {
        match flag_at(declared, rest) {
            Ok((flag, behind)) => {
                flags.push(flag)?;
                rest = behind;
            }
            Err(LineError::Bad) => return Ok((flags, rest)),
            Err(LineError::NoMemory) => return Err(AllocError),
        }
    }
    Ok((flags, rest))
}

/// The flags that these words are.
pub fn flags_of(alloc: Global, declared: Declared, words: &[Name]) -> Result<Items<Flag>, LineError>
    ensures { Gives result (parsing.all_of (parsing.flag_at declared) words.now) }
{
    let (found, rest) = flags_at(alloc, declared, words)?;
    end_of(rest)?;
    Ok(found)
}

// As many names as there are, and the words behind them.
fn names_at(alloc: Global, words: &[Name]) -> Result<(Items<Name>, &[Name]), AllocError>
    ensures { IfOk result (λ r. (r.0, r.1.now)
        ≡ many parsing.name_at (length words.now) words.now) }
{
    let mut names = Items::new(alloc);
    let mut rest = words;
    for _ in 0..words.len() {
        match name_at(alloc, rest) {
            Ok((name, behind)) => {
                names.push(name)?;
                rest = behind;
            }
            Err(LineError::Bad) => return Ok((names, rest)),
            Err(LineError::NoMemory) => return Err(AllocError),
        }
    }
    Ok((names, rest))
}

/// The names that these words are.
pub fn names_of(alloc: Global, words: &[Name]) -> Result<Items<Name>, LineError>
    ensures { Gives result (parsing.all_of parsing.name_at words.now) }
{
    let (found, rest) = names_at(alloc, words)?;
    end_of(rest)?;
    Ok(found)
}

// A value of a lookup, and its label.
fn case_at(alloc: Global, words: &[Name]) -> Result<(Case, &[Name]), LineError>
    ensures { Reads result (parsing.case_at words.now) }
{
    let (value, rest) = i32_at(words)?;
    let (label, rest) = name_at(alloc, rest)?;
    Ok((Case { value, label }, rest))
}

// As many cases as there are, and the words behind them.
fn cases_at(alloc: Global, words: &[Name]) -> Result<(Items<Case>, &[Name]), AllocError>
    ensures { IfOk result (λ r. (r.0, r.1.now)
        ≡ many parsing.case_at (length words.now) words.now) }
{
    let mut cases = Items::new(alloc);
    let mut rest = words;
    for _ in 0..words.len() {
        match case_at(alloc, rest) {
            Ok((case, behind)) => {
                cases.push(case)?;
                rest = behind;
            }
            Err(LineError::Bad) => return Ok((cases, rest)),
            Err(LineError::NoMemory) => return Err(AllocError),
        }
    }
    Ok((cases, rest))
}

/// The cases that these words are.
pub fn cases_of(alloc: Global, words: &[Name]) -> Result<Items<Case>, LineError>
    ensures { Gives result (parsing.all_of parsing.case_at words.now) }
{
    let (found, rest) = cases_at(alloc, words)?;
    end_of(rest)?;
    Ok(found)
}

fn frame_type_at(alloc: Global, words: &[Name]) -> Result<(FrameType, &[Name]), LineError>
    ensures { Reads result (parsing.frame_type_at words.now) }
{
    let (word, rest) = word_at(words)?;
    frame_type_by(alloc, word, rest)
}

fn frame_type_by<'w>(
    alloc: Global,
    word: &[u8],
    rest: &'w [Name],
) -> Result<(FrameType, &'w [Name]), LineError>
    ensures { Reads result (parsing.frame_type_by word.now rest.now) }
{
    if same_word(word, b"top") {
        return Ok((FrameType::Top, rest));
    }
    if same_word(word, b"int") {
        return Ok((FrameType::Int, rest));
    }
    if same_word(word, b"long") {
        return Ok((FrameType::Long, rest));
    }
    if same_word(word, b"null") {
        return Ok((FrameType::Null, rest));
    }
    if same_word(word, b"this") {
        return Ok((FrameType::This, rest));
    }
    if same_word(word, b"new") {
        let (label, rest) = name_at(alloc, rest)?;
        return Ok((FrameType::New(label), rest));
    }
    if same_word(word, b"ref") {
        let (name, rest) = name_at(alloc, rest)?;
        return Ok((FrameType::Ref(name), rest));
    }
    Err(LineError::Bad)
}

/// As many types as there are, and the words behind them.
pub fn frame_types_at(
    alloc: Global,
    words: &[Name],
) -> Result<(Items<FrameType>, &[Name]), AllocError>
    ensures { IfOk result (λ r. (r.0, r.1.now)
        ≡ many parsing.frame_type_at (length words.now) words.now) }
{
    let mut frame_types = Items::new(alloc);
    let mut rest = words;
    for _ in 0..words.len() {
        match frame_type_at(alloc, rest) {
            Ok((frame_type, behind)) => {
                frame_types.push(frame_type)?;
                rest = behind;
            }
            Err(LineError::Bad) => return Ok((frame_types, rest)),
            Err(LineError::NoMemory) => return Err(AllocError),
        }
    }
    Ok((frame_types, rest))
}

/// The types that these words are.
pub fn frame_types_of(alloc: Global, words: &[Name]) -> Result<Items<FrameType>, LineError>
    ensures { Gives result (parsing.all_of parsing.frame_type_at words.now) }
{
    let (found, rest) = frame_types_at(alloc, words)?;
    end_of(rest)?;
    Ok(found)
}

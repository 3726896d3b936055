//! Lines, read from their bytes.

ghost use Rattle.std.specs.Prelude.{◌≡◌};
ghost use Rattle.std.specs.Option.{option_map};
ghost use Rattle.asm_text.specs.Parsing as parsing;
ghost use Rattle.asm_text.specs.Parsing.{Gives, GivesBy, Reads};
ghost use Rattle.asm_text.specs.declared.line.Line.TheVariants as lines;

use crate::error::LineError;
use crate::keyword::{Keyword, keyword_named};
use crate::line::{Declared, Line, Name};
use crate::lists::{flags_of, frame_types_at, frame_types_of};
use crate::mnemonic;
use crate::operand_reader::operands_of;
use crate::word::{copy_of, cut_at, is_word, parts_of, same_word, without_spaces};
use crate::word_reader::{after, end_of, label_at, name_at, split_last, u16_at, word_at};
use std::alloc::Global;

fn class_line(alloc: Global, words: &[Name]) -> Result<Line, LineError>
    ensures { Gives result (parsing.class_line words.now) }
{
    let (front, back) = split_last(1, words)?;
    let flags = flags_of(alloc, Declared::Class, front)?;
    let (name, rest) = name_at(alloc, back)?;
    end_of(rest)?;
    Ok(Line::Class { flags, name })
}

fn super_line(alloc: Global, words: &[Name]) -> Result<Line, LineError>
    ensures { Gives result (parsing.whole lines.Super parsing.name_at words.now) }
{
    let (name, rest) = name_at(alloc, words)?;
    end_of(rest)?;
    Ok(Line::Super(name))
}

fn implements_line(alloc: Global, words: &[Name]) -> Result<Line, LineError>
    ensures { Gives result (parsing.whole lines.Implements parsing.name_at words.now) }
{
    let (name, rest) = name_at(alloc, words)?;
    end_of(rest)?;
    Ok(Line::Implements(name))
}

fn field_line(alloc: Global, words: &[Name]) -> Result<Line, LineError>
    ensures { Gives result (parsing.field_line words.now) }
{
    let (front, back) = split_last(2, words)?;
    let flags = flags_of(alloc, Declared::Field, front)?;
    let (name, rest) = name_at(alloc, back)?;
    let (descriptor, rest) = name_at(alloc, rest)?;
    end_of(rest)?;
    Ok(Line::Field {
        flags,
        name,
        descriptor,
    })
}

fn method_line(alloc: Global, words: &[Name]) -> Result<Line, LineError>
    ensures { Gives result (parsing.method_line words.now) }
{
    let (front, back) = split_last(2, words)?;
    let flags = flags_of(alloc, Declared::Method, front)?;
    let (name, rest) = name_at(alloc, back)?;
    let (descriptor, rest) = name_at(alloc, rest)?;
    end_of(rest)?;
    Ok(Line::Method {
        flags,
        name,
        descriptor,
    })
}

fn stack_line(words: &[Name]) -> Result<Line, LineError>
    ensures { Gives result (parsing.stack_line words.now) }
{
    let (stack, rest) = u16_at(words)?;
    let (locals, rest) = u16_at(after(b"locals", rest)?)?;
    end_of(rest)?;
    Ok(Line::Stack { stack, locals })
}

fn frame_line(alloc: Global, words: &[Name]) -> Result<Line, LineError>
    ensures { Gives result (parsing.frame_line words.now) }
{
    let (locals, rest) = frame_types_at(alloc, words)?;
    let stack = frame_types_of(alloc, after(b"|", rest)?)?;
    Ok(Line::Frame { locals, stack })
}

fn catch_line(alloc: Global, words: &[Name]) -> Result<Line, LineError>
    ensures { Gives result (parsing.catch_line words.now) }
{
    let (caught, rest) = caught_at(alloc, words)?;
    let (from, rest) = label_at(alloc, b"from", rest)?;
    let (to, rest) = label_at(alloc, b"to", rest)?;
    let (using, rest) = label_at(alloc, b"using", rest)?;
    end_of(rest)?;
    Ok(Line::Catch {
        caught,
        from,
        to,
        using,
    })
}

// The class that is caught, or none where the word is `any`.
fn caught_at(alloc: Global, words: &[Name]) -> Result<(Option<Name>, &[Name]), LineError>
    ensures { Reads result (parsing.caught_at words.now) }
{
    let (word, rest) = word_at(words)?;
    if same_word(word, b"any") {
        return Ok((None, rest));
    }
    if !is_word(word) {
        return Err(LineError::Bad);
    }
    Ok((Some(copy_of(alloc, word)?), rest))
}

fn label_line(alloc: Global, label: &[u8], words: &[Name]) -> Result<Line, LineError>
    ensures { Gives result (parsing.label_line label.now words.now) }
{
    if !is_word(label) {
        return Err(LineError::Bad);
    }
    end_of(words)?;
    Ok(Line::Label(copy_of(alloc, label)?))
}

// The line after this keyword.
fn keyword_line(alloc: Global, keyword: Keyword, words: &[Name]) -> Result<Line, LineError>
    ensures { Gives result (parsing.keyword_line keyword words.now) }
{
    match keyword {
        Keyword::Class => class_line(alloc, words),
        Keyword::Super => super_line(alloc, words),
        Keyword::Implements => implements_line(alloc, words),
        Keyword::Field => field_line(alloc, words),
        Keyword::Method => method_line(alloc, words),
        Keyword::Stack => stack_line(words),
        Keyword::Frame => frame_line(alloc, words),
        Keyword::Catch => catch_line(alloc, words),
        Keyword::End => {
            end_of(words)?;
            Ok(Line::End)
        }
    }
}

fn instruction_line(alloc: Global, name: &[u8], words: &[Name]) -> Result<Line, LineError>
    ensures { Gives result (parsing.named_line name.now words.now) }
{
    let opcode = mnemonic::opcode_named(name).ok_or(LineError::Bad)?;
    let operands = operands_of(alloc, mnemonic::operands_of(opcode), words)?;
    Ok(Line::Instruction { opcode, operands })
}

// A label without its colon.
fn label_in(word: &[u8]) -> Option<&[u8]>
    ensures { option_map (λ label. label.now) result ≡ parsing.label_in word.now }
{
    word.strip_suffix(b":")
}

// The line after this word, which is no label.
fn keyed_line(alloc: Global, first: &[u8], words: &[Name]) -> Result<Line, LineError>
    ensures { Gives result (parsing.keyed_line first.now words.now) }
{
    match keyword_named(first) {
        Some(keyword) => keyword_line(alloc, keyword, words),
        None => instruction_line(alloc, first, words),
    }
}

// The line of this word and those after it.
fn line_after(alloc: Global, first: &[u8], words: &[Name]) -> Result<Line, LineError>
    ensures { Gives result (parsing.line_after first.now words.now) }
{
    match label_in(first) {
        Some(label) => label_line(alloc, label, words),
        None => keyed_line(alloc, first, words),
    }
}

// The line that the words say.
fn line_of(alloc: Global, words: &[Name]) -> Result<Line, LineError>
    ensures { Gives result (parsing.line_of words.now) }
{
    let (first, rest) = word_at(words)?;
    line_after(alloc, first, rest)
}

fn is_blank(text: &[u8]) -> bool
    ensures { result ≡ parsing.is_blank text.now }
{
    match text.split_first() {
        Some((first, _)) => *first == b'#',
        None => true,
    }
}

// The line that the bytes say, whose first is no space.
fn line_by(alloc: Global, text: &[u8]) -> Result<Line, LineError>
    ensures { Gives result (parsing.line_by text.now) }
{
    if is_blank(text) {
        return Ok(Line::Blank);
    }
    let words = parts_of(alloc, text)?;
    line_of(alloc, &words)
}

/// The line at the front of a text, which ends with a line feed.
#[tactic(auto, unfolding(crate::specs::Parsing::line_at))]
pub fn line_at(alloc: Global, text: &[u8]) -> Result<(Line, &[u8]), LineError>
    ensures { GivesBy (λ x. (x.0, x.1.now)) result (parsing.line_at text.now) }
{
    let (bytes, rest) = cut_at(b'\n', text).ok_or(LineError::Bad)?;
    let line = line_by(alloc, without_spaces(bytes))?;
    Ok((line, rest))
}

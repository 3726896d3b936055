//! The words of a line.

ghost use Rattle.std.specs.Prelude.{◌≡◌, ◌==◌, IfOk};
ghost use Rattle.std.specs.List.{list_all, position};
ghost use Rattle.std.specs.Option.{option_map};
ghost use Rattle.asm_text.specs.Words.{same_word, is_word_byte, is_word, cut_at, parts_of, without_spaces};

use crate::line::Name;
use std::alloc::{AllocError, Global};

/// Whether the bytes are a word: ASCII without spaces and line feeds, and not empty.
pub fn is_word(bytes: &[u8]) -> bool
    ensures { result ≡ is_word bytes.now }
{
    !bytes.is_empty() && are_word_bytes(bytes)
}

fn is_word_byte(byte: u8) -> bool
    ensures { result ≡ is_word_byte byte }
{
    byte < 128 && byte != b' ' && byte != b'\n'
}

fn are_word_bytes(bytes: &[u8]) -> bool
    ensures { result ≡ list_all is_word_byte bytes.now }
{
    bytes.iter().all(|b| is_word_byte(*b))
}

// The index of the first such byte.
fn first_index(wanted: u8, bytes: &[u8]) -> Option<usize>
    ensures { result ≡ position (λ b. b == wanted) bytes.now }
{
    bytes.iter().position(|b| *b == wanted)
}

/// What is in front of the first such byte, and what is behind it.
pub fn cut_at(stop: u8, bytes: &[u8]) -> Option<(&[u8], &[u8])>
    ensures { option_map (λ x. (x.0.now, x.1.now)) result ≡ cut_at stop bytes.now }
{
    let at = first_index(stop, bytes)?;
    Some((&bytes[..at], &bytes[at + 1..]))
}

/// Whether the word is this text.
pub fn same_word(word: &[u8], text: &[u8]) -> bool
    ensures { result ≡ same_word word.now text.now }
{
    word == text
}

/// A copy of the bytes.
pub fn copy_of(alloc: Global, bytes: &[u8]) -> Result<Name, AllocError>
    ensures { IfOk result (λ name. name ≡ bytes.now) }
{
    Ok(Name::from(Vec::from_slice(alloc, bytes)?))
}

/// The parts between single spaces, which may be empty.
pub fn parts_of(alloc: Global, line: &[u8]) -> Result<Vec<Name>, AllocError>
    ensures { IfOk result (λ parts. parts.items ≡ parts_of line.now) }
{
    let mut parts = Vec::new(alloc);
    let mut rest = line;
    while let Some((part, behind)) = cut_at(b' ', rest) {
        parts.push(copy_of(alloc, part)?)?;
        rest = behind;
    }
    parts.push(copy_of(alloc, rest)?)?;
    Ok(parts)
}

/// The text from its first byte on that is no space.
pub fn without_spaces(text: &[u8]) -> &[u8]
    ensures { result.now ≡ without_spaces text.now }
{
    let mut rest = text;
    while let Some((first, behind)) = rest.split_first() {
        if *first != b' ' {
            return rest;
        }
        rest = behind;
    }
    rest
}

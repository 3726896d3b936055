//! Single words at the front of others. What is read is answered with the words after it.

ghost use Rattle.std.specs.Prelude.{◌≡◌};
ghost use Rattle.asm_text.specs.Parsing as parsing;
ghost use Rattle.asm_text.specs.Parsing.{Gives, GivesBy, Reads};
ghost use Rattle.asm_text.specs.declared.error.LineError.TheVariants as errors;

use crate::error::LineError;
use crate::line::Name;
use crate::number::{int_of, number_of};
use crate::word::{copy_of, is_word};
use std::alloc::Global;

/// The first word.
pub fn word_at(words: &[Name]) -> Result<(&[u8], &[Name]), LineError>
    ensures { GivesBy (λ x. (x.0.now, x.1.now)) result (parsing.word_at words.now) }
{
    let (word, rest) = words.split_first().ok_or(LineError::Bad)?;
    Ok((word.as_slice(), rest))
}

/// The words after this one.
pub fn after<'w>(text: &[u8], words: &'w [Name]) -> Result<&'w [Name], LineError>
    ensures { GivesBy (λ rest. rest.now) result (parsing.after text.now words.now) }
{
    let (word, rest) = word_at(words)?;
    if word != text {
        return Err(LineError::Bad);
    }
    Ok(rest)
}

/// A name, a label, a descriptor or a text.
pub fn name_at(alloc: Global, words: &[Name]) -> Result<(Name, &[Name]), LineError>
    ensures { Reads result (parsing.name_at words.now) }
{
    let (word, rest) = word_at(words)?;
    if !is_word(word) {
        return Err(LineError::Bad);
    }
    Ok((copy_of(alloc, word)?, rest))
}

/// This word, and a label.
pub fn label_at<'w>(
    alloc: Global,
    text: &[u8],
    words: &'w [Name],
) -> Result<(Name, &'w [Name]), LineError>
    ensures { Reads result (parsing.label_at text.now words.now) }
{
    name_at(alloc, after(text, words)?)
}

/// That no word is left.
pub fn end_of(words: &[Name]) -> Result<(), LineError>
    ensures { Gives result (parsing.ended tt words.now) }
{
    if !words.is_empty() {
        return Err(LineError::Bad);
    }
    Ok(())
}

/// A number of 16 bits.
pub fn u16_at(words: &[Name]) -> Result<(u16, &[Name]), LineError>
    ensures { Reads result (parsing.number_at 65535 words.now) }
{
    let (word, rest) = word_at(words)?;
    let number = number_of(u64::from(u16::MAX), word).ok_or(LineError::Bad)?;
    Ok((number as u16, rest))
}

/// A number of 8 bits.
pub fn u8_at(words: &[Name]) -> Result<(u8, &[Name]), LineError>
    ensures { Reads result (parsing.number_at 255 words.now) }
{
    let (word, rest) = word_at(words)?;
    let number = number_of(u64::from(u8::MAX), word).ok_or(LineError::Bad)?;
    Ok((number as u8, rest))
}

/// A number of 8 bits with a sign.
pub fn i8_at(words: &[Name]) -> Result<(i8, &[Name]), LineError>
    ensures { Reads result (parsing.int_at parsing.most8 words.now) }
{
    let (word, rest) = word_at(words)?;
    let number = int_of(127, word).ok_or(LineError::Bad)?;
    Ok((number as i8, rest))
}

/// A number of 16 bits with a sign.
pub fn i16_at(words: &[Name]) -> Result<(i16, &[Name]), LineError>
    ensures { Reads result (parsing.int_at parsing.most16 words.now) }
{
    let (word, rest) = word_at(words)?;
    let number = int_of(32_767, word).ok_or(LineError::Bad)?;
    Ok((number as i16, rest))
}

/// A number of 32 bits with a sign.
pub fn i32_at(words: &[Name]) -> Result<(i32, &[Name]), LineError>
    ensures { Reads result (parsing.int_at parsing.most32 words.now) }
{
    let (word, rest) = word_at(words)?;
    let number = int_of(2_147_483_647, word).ok_or(LineError::Bad)?;
    Ok((number as i32, rest))
}

/// A number of 64 bits with a sign.
pub fn i64_at(words: &[Name]) -> Result<(i64, &[Name]), LineError>
    ensures { Reads result (parsing.int_at parsing.most64 words.now) }
{
    let (word, rest) = word_at(words)?;
    let number = int_of(9_223_372_036_854_775_807, word).ok_or(LineError::Bad)?;
    Ok((number, rest))
}

/// The last words, so many, behind those in front of them.
pub fn split_last(count: usize, words: &[Name]) -> Result<(&[Name], &[Name]), LineError>
    ensures { GivesBy (λ x. (x.0.now, x.1.now)) result (parsing.split_last count words.now) }
{
    if words.len() < count {
        return Err(LineError::Bad);
    }
    Ok(words.split_at(words.len() - count))
}

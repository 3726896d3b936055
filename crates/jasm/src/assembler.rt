//! Makes class files of assembler text.

ghost use Rattle.std.specs.Prelude.{◌≡◌, ◌<◌, length};
ghost use Rattle.asm_pool.specs.Places.{IsPool};
ghost use Rattle.asm_class.specs.States.{state_of};
ghost use Rattle.jasm.specs.Texts as spec;
ghost use Rattle.jasm.specs.Texts.{Answers};

use crate::error::TextError;
use asm_body::BodyError;
use asm_class::Assembly;
use asm_text::{Line, LineError, read_line};
use class_model::ClassFile;
use std::alloc::Global;

// The line at the front of a text, which has this number.
fn read_numbered(alloc: Global, line: u32, text: &[u8]) -> Result<(Line, &[u8]), TextError>
    ensures { spec.Numbers result line text.now }
{
    match read_line(alloc, text) {
        Ok(read) => Ok(read),
        Err(LineError::Bad) => Err(TextError::Bad { line }),
        Err(LineError::NoMemory) => Err(TextError::NoMemory),
    }
}

fn error_of(error: BodyError) -> TextError
    ensures { result ≡ spec.error_of error }
{
    match error {
        BodyError::Bad { line } => TextError::Bad { line },
        BodyError::NoMemory => TextError::NoMemory,
    }
}

// The rest of a text after its next line, which has this number.
fn add_line<'a>(
    alloc: Global,
    assembly: &mut Assembly,
    line: u32,
    text: &'a [u8],
) -> Result<&'a [u8], TextError>
    requires pool { IsPool assembly.old.pool }
    requires some { 0 < length text.now }
    ensures { spec.Adds result (state_of assembly.old) line text.now assembly.new }
{
    match read_numbered(alloc, line, text) {
        Ok((said, rest)) => match assembly.add_line(alloc, line, said) {
            Ok(()) => Ok(rest),
            Err(error) => Err(error_of(error)),
        },
        Err(error) => Err(error),
    }
}

/// The class file that the text makes. `Bad`: the first line that doesn't fit.
pub fn assemble(alloc: Global, text: &[u8]) -> Result<ClassFile, TextError>
    ensures { Answers result text.now }
{
    let mut assembly = Assembly::new(alloc)?;
    let mut rest = text;
    let mut line = 1;
    while !rest.is_empty() {
        rest = add_line(alloc, &mut assembly, line, rest)?;
        line = line.saturating_add(1);
    }
    match assembly.finish(alloc) {
        Some(file) => Ok(file),
        None => Err(TextError::Bad { line }),
    }
}

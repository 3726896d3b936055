//! Class files as text that is assembled to them.

ghost use Rattle.std.specs.Prelude.{Ok};
ghost use Rattle.jasm.specs.Texts.{Assembles};
ghost use Rattle.jasm.specs.Lists as spec;

use crate::assembler::assemble;
use crate::error::{ListError, TextError};
use asm_text::LineError;
use class_equality::is_same_file;
use class_listing::listing_of;
use class_model::ClassFile;
use std::alloc::Global;

// The text, where it makes the class file, and not another.
fn kept(text: Vec<u8>, made: &ClassFile, file: &ClassFile) -> Result<Vec<u8>, ListError>
    requires { Assembles text.items (Ok made.now) }
    ensures { spec.Checks result text.items file.now }
{
    if !is_same_file(made, file) {
        return Err(ListError::Unlisted);
    }
    Ok(text)
}

// The text, where it is assembled to the class file.
fn checked(alloc: Global, text: Vec<u8>, file: &ClassFile) -> Result<Vec<u8>, ListError>
    ensures { spec.Checks result text.items file.now }
{
    match assemble(alloc, &text) {
        Ok(made) => kept(text, &made, file),
        Err(TextError::Bad { .. }) => Err(ListError::Unlisted),
        Err(TextError::NoMemory) => Err(ListError::NoMemory),
    }
}

/// The listing of the class file, which is assembled to it. `Unlisted`: it has none, or another class file is assembled
/// from it.
pub fn list(alloc: Global, file: &ClassFile) -> Result<Vec<u8>, ListError>
    ensures { spec.Lists result file.now }
{
    match listing_of(alloc, file) {
        Ok(text) => checked(alloc, text, file),
        Err(LineError::Bad) => Err(ListError::Unlisted),
        Err(LineError::NoMemory) => Err(ListError::NoMemory),
    }
}

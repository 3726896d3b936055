//! The class files of the program.

ghost use Rattle.std.specs.Prelude.{◌≡◌, ◌<◌, ◌≤◌, Ok, All, IfOk};
ghost use Rattle.jasm.specs.Texts.{Assembles};
ghost use Rattle.lib_table.specs.Spelled.{IsSpelled};
ghost use Rattle.gen_load.specs.Made.{class_file, IsAssembled};
ghost use Rattle.gen_load.specs.Program as spec;
ghost use Rattle.gen_load.specs.Words.{text_of};

use crate::texts::{load_back, load_front, turn_text};
use class_model::ClassFile;
use items::NoMemory;
use itoa::Buffer;
use jasm::{TextError, assemble};
use std::alloc::{AllocError, Global};

// The text of `Load` with the number of threads.
#[tactic(auto, using(crate::proofs::TextLaws::together))]
fn load_text(alloc: Global, count: u32) -> Result<Vec<u8>, AllocError>
    ensures { IfOk result (λ text. text.items ≡ text_of (spec.load count)) }
{
    let mut buffer = Buffer::new();
    let mut text = Vec::from_slice(alloc, load_front().as_bytes())?;
    text.extend_from_slice(buffer.format(count).as_bytes())?;
    text.extend_from_slice(load_back().as_bytes())?;
    Ok(text)
}

// The class file that a text makes. Only want of memory keeps it from being made.
fn assembled(alloc: Global, text: &[u8]) -> Result<ClassFile, NoMemory>
    requires { IsAssembled text.now }
    ensures { IfOk result (λ file. Assembles text.now (Ok file)) }
{
    match assemble(alloc, text) {
        Ok(file) => Ok(file),
        Err(TextError::NoMemory) => Err(NoMemory),
        Err(TextError::Bad { .. }) => unreachable!(),
    }
}

fn load(alloc: Global, count: u32) -> Result<ClassFile, NoMemory>
    requires { count ≤ 50000 }
    ensures { IfOk result (λ file. file ≡ class_file (spec.load count)) }
{
    let text = load_text(alloc, count)?;
    assembled(alloc, &text)
}

fn turn(alloc: Global) -> Result<ClassFile, NoMemory>
    ensures { IfOk result (λ file. file ≡ class_file spec.turn) }
{
    assembled(alloc, turn_text().as_bytes())
}

/// The program of this many threads that take turns. Its main is that of the first class. Each class has bytes.
#[tactic(auto, using(crate::proofs::Making::is_program))]
pub fn program(alloc: Global, count: u32) -> Result<Vec<ClassFile>, NoMemory>
    requires some { 0 < count }
    requires limit { count ≤ 50000 }
    ensures exact { IfOk result (λ files. files.items ≡ spec.program count) }
    ensures spelled { IfOk result (λ files. All IsSpelled files.items) }
{
    let mut files = Vec::new(alloc);
    files.push(load(alloc, count)?)?;
    files.push(turn(alloc)?)?;
    Ok(files)
}

//! Reads a file of a command: its bytes, within the limit, or the class file that they spell.

ghost use Rattle.std.specs.Prelude.{◌≡◌, ◌⊎◌, ◌≤◌, Some, length, IfOk, IfErr, IfSome};
ghost use Rattle.jvm_edges.specs.Causes.{Rose};
ghost use Rattle.jvm_edges.specs.Files.{file_named};
ghost use Rattle.class_grammar.specs.Grammar.{SpellsOnly};
ghost use Rattle.input_files.specs.Limits.{most_bytes};
ghost use Rattle.input_files.specs.Errors.{IsOfStore, loaded_answer};
ghost use Rattle.input_files.specs.Contents.{IsBad};
ghost use Rattle.input_files.specs.LoadCauses.{IsRead, NotRead};
ghost use Rattle.input_files.specs.StoreFaults.{StoreFaults};

use crate::error::LoadError;
use class_file::{ReadError, read};
use class_model::ClassFile;
use jvm_edges::{Store, StoreError};
use std::alloc::Global;

/// The most bytes of a file.
pub const MOST_BYTES: u32 = 4_194_304;

/// Reads the class file of this name, whose index among the files of the command is `file`.
pub fn read_class<S: Store>(
    alloc: Global,
    file: u32,
    name: &str,
    store: &mut S,
) -> Result<ClassFile, LoadError>
    ensures found { IfOk result (IsRead (S.files store.old) name.now) }
    ensures cause { IfErr result (NotRead (S.files store.old)
        (Rose (S.faults store.old) (S.faults store.new)) file name.now) }
    ensures kept { S.files store.new ≡ S.files store.old }
    ensures faults { StoreFaults (loaded_answer result) (S.faults store.old) (S.faults store.new) }
{
    let bytes = read_file(alloc, file, name, store)?;
    class_of(alloc, file, &bytes)
}

/// Reads the bytes of the file of this name. Asks for one byte more than a file may have, so that a larger file shows.
pub fn read_file<S: Store>(
    alloc: Global,
    file: u32,
    name: &str,
    store: &mut S,
) -> Result<Vec<u8>, LoadError>
    ensures small { IfOk result (λ bytes. length bytes.items ≤ most_bytes) }
    ensures found { IfOk result (λ bytes. IfSome (S.files store.old) (λ files.
        Some bytes.items ≡ file_named name.now files)) }
    ensures cause { IfErr result (NotRead (S.files store.old)
        (Rose (S.faults store.old) (S.faults store.new)) file name.now) }
    // The bytes aren't looked at.
    ensures kind { IfErr result IsOfStore }
    ensures kept { S.files store.new ≡ S.files store.old }
    ensures faults { StoreFaults (loaded_answer result) (S.faults store.old) (S.faults store.new) }
{
    let bytes = match store.read(alloc, name, MOST_BYTES as usize + 1) {
        Ok(Some(bytes)) => bytes,
        Ok(None) => return Err(LoadError::Missing { file }),
        Err(StoreError::Failed) => return Err(LoadError::SourceFault { file }),
        Err(StoreError::NoMemory) => return Err(LoadError::NoMemory),
    };
    if bytes.len() > MOST_BYTES as usize {
        return Err(LoadError::TooLarge);
    }
    Ok(bytes)
}

/// The class file that the bytes of a file spell.
pub fn class_of(alloc: Global, file: u32, bytes: &[u8]) -> Result<ClassFile, LoadError>
    requires { length bytes.now ≤ most_bytes }
    ensures found { IfOk result (SpellsOnly bytes.now) }
    ensures bad { IfErr result (λ error.
        (error ≡ LoadError.NoMemory) ⊎ IsBad file bytes.now error) }
{
    match read(alloc, bytes) {
        Ok(class) => Ok(class),
        Err(ReadError::Bad { at, why }) => Err(LoadError::BadClass { file, at, why }),
        Err(ReadError::NoMemory) => Err(LoadError::NoMemory),
    }
}

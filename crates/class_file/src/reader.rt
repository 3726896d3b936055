//! Reading a class file: its layout, and then the checks on it.

ghost use Rattle.std.specs.Prelude.{◌≡◌, ◌<◌, ◌≤◌, ◌+◌, ◌*◌, ◌^◌, ℕ, Some, Err, length, IfOk};
ghost use Rattle.items.specs.Memory.{OkUnless};
ghost use Rattle.byte_reader.specs.Reader.{Gives};
ghost use Rattle.class_model.specs.declared.class_file.ClassFile.{ClassFile as AnyFile};
ghost use Rattle.class_grammar.specs.Grammar.{Spells};
ghost use Rattle.class_grammar.specs.declared.class_why.ClassWhy.{ClassWhy as AnyReason};
ghost use Rattle.class_file.specs.File as spec;
ghost use Rattle.class_file.specs.File.{first_bad};

use crate::ReadError;
use crate::layout::layout_of;
use byte_reader::Stop;
use class_checks::check_counted;
use class_grammar::ClassWhy;
use class_model::ClassFile;
use std::alloc::Global;
use std::marker::Brand;
use std::sync::ledger::{Blank, Ledger};
use steps::Steps;

// The class file, or the first check that fails.
#[tactic(auto, unfolding(crate::specs::File::file_of))]
fn file_of<L: Ledger>(
    alloc: Global,
    bytes: &[u8],
    steps: &mut Steps<L>,
) -> Result<ClassFile, Stop<ClassWhy>>
    ensures read { Gives result (spec.file_of bytes.now) }
    ensures cost { steps.new ≤ steps.old + 4 * length bytes.now }
{
    let file = layout_of(alloc, bytes, steps)?;
    check_counted(alloc, &file, bytes.len(), steps)?;
    Ok(file)
}

/// Reads a class file (JVMS 4.1 to 4.9).
pub fn read(alloc: Global, bytes: &[u8]) -> Result<ClassFile, ReadError>
    requires { length bytes.now < 2 ^ 32 }
    // The bytes spell what is read.
    ensures found { IfOk result (Spells bytes.now) }
    // A value that the bytes spell is read, unless memory runs out.
    ensures only { (f : AnyFile) → Spells bytes.now f →
        OkUnless result ReadError.NoMemory (λ file. file ≡ f) }
    // A refusal is the first check that fails.
    ensures bad { (at : ℕ) (why : AnyReason) → result ≡ Err (ReadError.Bad at why) →
        first_bad bytes.now ≡ Some (at, why) }
{
    read_on::<Brand>(alloc, bytes, Blank::new(1))
}

// `read`, on a ledger that nobody reads.
fn read_on<L: Ledger>(alloc: Global, bytes: &[u8], blank: Blank) -> Result<ClassFile, ReadError>
    requires name { blank.name ≡ L.name }
    requires parts { blank.parts ≡ L.parts }
    requires some { 0 < L.parts }
    requires size { length bytes.now < 2 ^ 32 }
    ensures found { IfOk result (Spells bytes.now) }
    ensures only { (f : AnyFile) → Spells bytes.now f →
        OkUnless result ReadError.NoMemory (λ file. file ≡ f) }
    ensures bad { (at : ℕ) (why : AnyReason) → result ≡ Err (ReadError.Bad at why) →
        first_bad bytes.now ≡ Some (at, why) }
{
    let mut steps = Steps::<L>::new(blank);
    read_counted(alloc, bytes, &mut steps)
}

/// `read`, with its steps counted.
pub fn read_counted<L: Ledger>(
    alloc: Global,
    bytes: &[u8],
    steps: &mut Steps<L>,
) -> Result<ClassFile, ReadError>
    requires { length bytes.now < 2 ^ 32 }
    ensures found { IfOk result (Spells bytes.now) }
    ensures only { (f : AnyFile) → Spells bytes.now f →
        OkUnless result ReadError.NoMemory (λ file. file ≡ f) }
    ensures bad { (at : ℕ) (why : AnyReason) → result ≡ Err (ReadError.Bad at why) →
        first_bad bytes.now ≡ Some (at, why) }
    // It takes at most four steps for each byte, whatever the bytes are and the answer is.
    ensures cost { steps.new ≤ steps.old + 4 * length bytes.now }
{
    match file_of(alloc, bytes, steps) {
        Ok(file) => Ok(file),
        Err(Stop::Fault(fault)) => Err(ReadError::Bad {
            at: fault.offset(bytes),
            why: fault.why,
        }),
        Err(Stop::NoMemory) => Err(ReadError::NoMemory),
    }
}

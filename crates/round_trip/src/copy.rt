ghost use Rattle.std.specs.Prelude.{◌≡◌, ◌<◌, ◌^◌, ℕ, Some, Err, length, IfOk, IsOkUnless};
ghost use Rattle.class_model.specs.declared.class_file.ClassFile.{ClassFile as AnyFile};
ghost use Rattle.class_grammar.specs.Grammar.{Spells};
ghost use Rattle.class_file.specs.File.{first_bad};
ghost use Rattle.class_grammar.specs.declared.class_why.ClassWhy.{ClassWhy as AnyReason};

use class_file::{ReadError, read};
use class_write::write;
use std::alloc::Global;

/// Reads a class file and writes it again.
pub fn copy_of(alloc: Global, bytes: &[u8]) -> Result<Vec<u8>, ReadError>
    requires { length bytes.now < 2 ^ 32 }
    // What is read is written again byte for byte.
    ensures same { IfOk result (λ copy. copy.items ≡ bytes.now) }
    // Nothing but a class file is read.
    ensures found { IfOk result (λ copy. (f : AnyFile) × Spells bytes.now f) }
    // Each class file is read and written, unless memory runs out.
    ensures only { (f : AnyFile) → Spells bytes.now f → IsOkUnless result ReadError.NoMemory }
    // A refusal is the first check that fails.
    ensures bad { (at : ℕ) (why : AnyReason) → result ≡ Err (ReadError.Bad at why) →
        first_bad bytes.now ≡ Some (at, why) }
{
    let file = read(alloc, bytes)?;
    match write(alloc, &file) {
        Ok(copy) => Ok(copy),
        Err(_) => Err(ReadError::NoMemory),
    }
}

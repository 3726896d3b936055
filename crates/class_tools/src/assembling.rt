//! The command `asm`.

ghost use Rattle.std.specs.Prelude.{◌≡◌, ℕ, List, Ok, IfOk};
ghost use Rattle.jasm.specs.Texts.{Assembles};
ghost use Rattle.class_grammar.specs.Grammar.{SpellsOnly};
ghost use Rattle.class_tools.specs.Making.{text_answer};

use crate::conversion::Conversion;
use asm_soundness::assembled_is_spelled;
use class_model::ClassFile;
use class_write::{NoMemory, write};
use command_line::Why;
use jasm::{TextError, assemble};
use std::alloc::Global;

// The bytes of a class file that a text makes.
fn written(alloc: Global, class: &ClassFile) -> Result<Vec<u8>, NoMemory>
    requires { (text : List ℕ) × Assembles text (Ok class.now) }
    ensures { IfOk result (λ bytes. SpellsOnly bytes.items class.now) }
{
    assembled_is_spelled();
    write(alloc, class)
}

// The answer to a text that is not assembled.
fn answer_of(error: TextError) -> Why
    ensures { result ≡ text_answer error }
{
    match error {
        TextError::Bad { line } => Why::BadText { line },
        TextError::NoMemory => Why::NoMemory,
    }
}

/// Makes of a text the bytes of the class file that it is assembled to.
pub struct Assembly;

impl Conversion for Assembly {
    ghost use Rattle.class_tools.specs.Due.{IsAssembly};
    ghost use Rattle.class_tools.specs.OneDue.{one_assembly};

    ghost owes = { IsAssembly };

    fn convert(&self, alloc: Global, text: &[u8]) -> Result<Vec<u8>, Why> {
        match assemble(alloc, text) {
            Ok(class) => Ok(written(alloc, &class)?),
            Err(error) => Err(answer_of(error)),
        }
    }

    ghost one_is_due = { one_assembly };
}

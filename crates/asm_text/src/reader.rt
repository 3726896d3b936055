//! Reads the line at the front of a text.

ghost use Rattle.std.specs.Prelude.{◌≡◌, ℕ, List, IfOk, Err};
ghost use Rattle.items.specs.Memory.{OkUnless};
ghost use Rattle.asm_text.specs.declared.error.LineError.TheVariants as errors;
ghost use Rattle.asm_text.specs.declared.line.Line.{Line as OneLine};
ghost use Rattle.asm_text.specs.Spelling.{BeginsWith};

use crate::error::LineError;
use crate::line::Line;
use crate::line_reader::line_at;
use std::alloc::Global;

/// The line at the front of a text, with the text after its line feed.
pub fn read_line(alloc: Global, text: &[u8]) -> Result<(Line, &[u8]), LineError>
    // The text begins with the line that it returns.
    ensures found { IfOk result (λ r. BeginsWith text.now r.0 r.1.now) }
    // The line that the text begins with is returned, unless memory ran out.
    ensures only { (l : OneLine) (rest : List ℕ) → BeginsWith text.now l rest
        → OkUnless result errors.NoMemory (λ r. (r.0 ≡ l) × (r.1.now ≡ rest)) }
    // A text that is refused begins with no line.
    ensures bad { result ≡ Err errors.Bad
        → (l : OneLine) (rest : List ℕ) → BeginsWith text.now l rest → ⊥ }
{
    line_at(alloc, text)
}

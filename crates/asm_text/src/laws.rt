//! Laws of the text of lines.

ghost use Rattle.std.specs.Prelude.{◌≡◌, ◌++◌, ℕ, List};
ghost use Rattle.asm_text.specs.declared.line.Line.{Line};
ghost use Rattle.asm_text.specs.LineText.{IsLine, line_text};
ghost use Rattle.asm_text.specs.Spelling.{BeginsWith};

/// A text begins with one line at most. This does nothing.
pub fn one_line()
    ensures { (text : List ℕ) (l k : Line) (rest more : List ℕ)
        → BeginsWith text l rest → BeginsWith text k more → (l ≡ k) × (rest ≡ more) }
{}

/// What is printed of a line says this line. This does nothing.
pub fn printed_line()
    ensures { (l : Line) (rest : List ℕ) → IsLine l → BeginsWith (line_text l ++ rest) l rest }
{}

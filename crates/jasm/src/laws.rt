//! Laws of assembler text.

ghost use Rattle.std.specs.Prelude.{◌≡◌, ℕ, List, Result};
ghost use Rattle.class_model.specs.declared.class_file.ClassFile.{ClassFile};
ghost use Rattle.jasm.specs.Texts.{Assembles};

/// A text makes one class file at most, or is refused at one line. This does nothing.
pub fn one_answer()
    ensures { (text : List ℕ) (made other : Result ClassFile ℕ) → Assembles text made
        → Assembles text other → made ≡ other }
{}

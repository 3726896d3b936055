//! Laws of the definitions, each the contract of a function that does nothing.

ghost use Rattle.std.specs.Prelude.{◌≡◌, ◌<◌, List, ℕ, None, slice_index};
ghost use Rattle.class_model.specs.declared.class_file.ClassFile.{ClassFile};
ghost use Rattle.class_grammar.specs.Grammar.{Spells};
ghost use Rattle.class_file.specs.File.{first_bad};

/// Bytes spell at most one value.
pub fn one_value()
    ensures { (bytes : List ℕ) (f g : ClassFile) → Spells bytes f → Spells bytes g → f ≡ g }
{}

/// Bytes have a first failing check exactly where they spell no value.
pub fn one_outcome()
    ensures none_bad { (bytes : List ℕ) (f : ClassFile) → Spells bytes f → first_bad bytes ≡ None }
    ensures some_spelled { (bytes : List ℕ) → ((i : ℕ) → slice_index bytes i < 256) →
        first_bad bytes ≡ None → (f : ClassFile) × Spells bytes f }
{}

//! Laws of the definitions, each the contract of a function that does nothing.

ghost use Rattle.std.specs.Prelude.{◌≡◌, ◌+◌, List, ℕ, length};
ghost use Rattle.class_model.specs.declared.class_file.ClassFile.{ClassFile};
ghost use Rattle.class_grammar.specs.Layout.{attribute, class_file, table};
ghost use Rattle.class_grammar.specs.Checks.{items, size_of};
ghost use Rattle.class_grammar.specs.Grammar.{Spells};

/// Each value has at most one spelling.
pub fn one_spelling()
    ensures { (a b : List ℕ) (f : ClassFile) → Spells a f → Spells b f → a ≡ b }
{}

/// The items of a class file take just the bytes in front of its own attributes, so the size of the items before a fault
/// is the fault's offset.
pub fn items_are_whole()
    ensures { (f : ClassFile) →
        size_of (items f) + length (table attribute f.attributes) ≡ length (class_file f) }
{}

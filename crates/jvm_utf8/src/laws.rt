//! Laws of the definitions, each the contract of a function that does nothing.

ghost use Rattle.std.specs.Prelude.{◌≡◌, List, ℕ};
ghost use Rattle.jvm_utf8.specs.Text.{AreUnits, text};
ghost use Rattle.jvm_utf8.specs.Refusal.{IsFirstBad};

/// Bytes are the text of at most one list of units.
pub fn one_text()
    ensures { (a b : List ℕ) → AreUnits a → AreUnits b → text a ≡ text b → a ≡ b }
{}

/// Bytes have at most one first offset at which no unit begins, and a text has none.
pub fn one_first_bad()
    ensures one { (bytes : List ℕ) (a b : ℕ) → IsFirstBad bytes a → IsFirstBad bytes b → a ≡ b }
    ensures no_text { (units : List ℕ) (at : ℕ) → AreUnits units → IsFirstBad (text units) at → ⊥ }
{}

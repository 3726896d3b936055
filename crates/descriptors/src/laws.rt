//! Laws of the definitions, each the contract of a function that does nothing.

ghost use Rattle.std.specs.Prelude.{◌≡◌, ◌↔◌, List, true, ℕ};
ghost use Rattle.descriptors.specs.declared.kind.Kind.{Kind as AnyKind};
ghost use Rattle.descriptors.specs.declared.kind.Signature.{Signature as AnySignature};
ghost use Rattle.descriptors.specs.Descriptors.{IsKind, IsSignature, method_spelling, spelling};
ghost use Rattle.descriptors.specs.States.{is_field, is_method};
ghost use Rattle.descriptors.specs.Refusal.{IsField, IsFirstBad, IsMethod};

/// A text is the descriptor of at most one kind.
pub fn one_kind()
    ensures { (a b : AnyKind) → IsKind a → IsKind b → spelling a ≡ spelling b → a ≡ b }
{}

/// A text is the descriptor of at most one signature.
pub fn one_signature()
    ensures { (a b : AnySignature) → IsSignature a → IsSignature b
        → method_spelling a ≡ method_spelling b → a ≡ b }
{}

/// A text has at most one first bad unit, and none if it is a descriptor.
pub fn one_first_bad()
    ensures of_field { (units : List ℕ) (a b : ℕ) → IsFirstBad IsField units a
        → IsFirstBad IsField units b → a ≡ b }
    ensures of_method { (units : List ℕ) (a b : ℕ) → IsFirstBad IsMethod units a
        → IsFirstBad IsMethod units b → a ≡ b }
    ensures no_field { (units : List ℕ) (at : ℕ) → IsFirstBad IsField units at → IsField units → ⊥ }
    ensures no_method { (units : List ℕ) (at : ℕ) → IsFirstBad IsMethod units at
        → IsMethod units → ⊥ }
{}

/// The tests decide whether units are the descriptor of a field, and of a method.
pub fn tests_decide()
    ensures field { (units : List ℕ) → (is_field units ≡ true) ↔ IsField units }
    ensures method { (units : List ℕ) → (is_method units ≡ true) ↔ IsMethod units }
{}

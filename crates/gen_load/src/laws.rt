//! A law of the program's definition.

ghost use Rattle.std.specs.Prelude.{◌≡◌, ℕ, Ok};
ghost use Rattle.gen_load.specs.Made.{class_file, made};
ghost use Rattle.gen_load.specs.Program as spec;

/// Each line of the program fits, whatever the number of its threads is: the classes are what the lines make. This does
/// nothing.
pub fn lines_fit()
    ensures load { (n : ℕ) → made (spec.load n) ≡ Ok (class_file (spec.load n)) }
    ensures turn { made spec.turn ≡ Ok (class_file spec.turn) }
{}

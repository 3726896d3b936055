//! Laws of the definitions, each the contract of a function that does nothing.

ghost use Rattle.std.specs.Prelude.{◌≡◌, ℕ, List};
ghost use Rattle.opcodes.specs.declared.op.Instr.{Instr};
ghost use Rattle.opcodes.specs.Code.{IsCode};

/// Bytes are the code of one list of instructions at most.
pub fn one_decoding()
    ensures { (code : List ℕ) (is js : List Instr) → IsCode code is → IsCode code js → is ≡ js }
{}

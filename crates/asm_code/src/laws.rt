//! Laws of the code.

ghost use Rattle.std.specs.Prelude.{◌≡◌, ◌+◌, ℕ, List, Some, length};
ghost use Rattle.asm_text.specs.declared.instruction.Operands.{Operands as OneOperands};
ghost use Rattle.asm_code.specs.declared.instruction.Mentioned.{Mentioned as OneMentioned};
ghost use Rattle.asm_code.specs.Encoding.{Targets, with_instruction};
ghost use Rattle.asm_code.specs.Sizes as spec;

/// An instruction appends as many bytes as its size says. This does nothing.
pub fn sizes_hold()
    ensures { (target : Targets) (pc opcode : ℕ) (m : OneMentioned) (ops : OneOperands)
        (code new : List ℕ) → with_instruction target pc opcode m ops code ≡ Some new
        → length new ≡ length code + spec.size_of pc opcode ops }
{}

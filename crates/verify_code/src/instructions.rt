//! The instructions of a method, by rising pc.

ghost use Rattle.std.specs.Prelude.{◌≡◌, drop, find, is_some, nat_lt, ◌==◌};
ghost use Rattle.std.specs.List.{prefix_len};
ghost use Rattle.opcodes.specs.declared.op.Instr.{Instr as Instruction};
ghost use Rattle.verify_frames.specs.Entries.{Rises, first_at};

use opcodes::Instr;

// The instructions from a pc on.
fn instructions_from(code: &[Instr], pc: u32) -> &[Instr]
    requires { Rises (λ (i : Instruction). i.pc) 0 code.now }
    ensures { result.now ≡
        drop (prefix_len (λ (i : Instruction). nat_lt i.pc pc) code.now) code.now }
{
    let n = code.partition_point(|i| i.pc < pc);
    code.split_at(n).1
}

// Whether the first of these instructions lies at the pc.
fn is_first_at(code: &[Instr], pc: u32) -> bool
    ensures { result ≡ is_some (first_at (λ (i : Instruction). i.pc) pc code.now) }
{
    match code.first() {
        Some(i) => i.pc == pc,
        None => false,
    }
}

/// Whether an instruction lies at this pc.
pub fn has_instruction(code: &[Instr], pc: u32) -> bool
    requires { Rises (λ (i : Instruction). i.pc) 0 code.now }
    ensures { result ≡ is_some (find (λ (i : Instruction). i.pc == pc) code.now) }
{
    is_first_at(instructions_from(code, pc), pc)
}

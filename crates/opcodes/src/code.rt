//! Decoding a code array.

ghost use Rattle.std.specs.Prelude.{◌≡◌, ℕ, ◌<◌, ◌^◌, List, length, IfOk};
ghost use Rattle.items.specs.Memory.{OkUnless};
ghost use Rattle.opcodes.specs.declared.error.CodeWhy.{CodeWhy};
ghost use Rattle.opcodes.specs.declared.op.Instr.{Instr};
ghost use Rattle.opcodes.specs.Code.{IsCode, IsFirstBad, error_at};

use crate::error::{CodeError, CodeWhy};
use crate::op::Instr;
use crate::operands::op_of;
use byte_reader::Stop;
use std::alloc::Global;

/// The instructions of a code array (JVMS 4.9, 6.5). Where it isn't a list of instructions, the error names the first
/// that is bad, by its pc, and of its fields the first that passes the end (`Short`) or isn't allowed (`Opcode`,
/// `Operand`).
pub fn decode(alloc: Global, code: &[u8]) -> Result<Vec<Instr>, CodeError>
    requires { length code.now < 2 ^ 32 }
    // The code is the instructions that it returns.
    ensures found { IfOk result (λ v. IsCode code.now v.items) }
    // The instructions that the code is are returned, unless memory ran out.
    ensures only { (is : List Instr) → IsCode code.now is
        → OkUnless result CodeError.NoMemory (λ v. v.items ≡ is) }
    // What is refused at `pc` is no instruction, and all before it are.
    ensures bad { (pc : ℕ) (why : CodeWhy) → result ≡ Err (CodeError.Bad pc why)
        → IsFirstBad code.now pc why }
{
    let mut instrs = Vec::new(alloc);
    let mut rest = code;
    let mut pc = 0u32;
    while !rest.is_empty() {
        let (op, behind) = match op_of(alloc, pc, rest) {
            Ok(found) => found,
            Err(stop) => return Err(error_at(pc, stop)),
        };
        let next = pc + (rest.len() - behind.len()) as u32;
        instrs.push(Instr { pc, next, op })?;
        rest = behind;
        pc = next;
    }
    Ok(instrs)
}

// The error where the instruction at `pc` was not read.
fn error_at(pc: u32, stop: Stop<CodeWhy>) -> CodeError
    ensures { result ≡ error_at pc stop }
{
    match stop {
        Stop::Fault(fault) => CodeError::Bad { pc, why: fault.why },
        Stop::NoMemory => CodeError::NoMemory,
    }
}

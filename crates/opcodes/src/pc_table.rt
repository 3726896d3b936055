ghost use Rattle.std.specs.Prelude.{◌<◌, ◌^◌, length};
ghost use Rattle.items.specs.Memory.{OkUnless};
ghost use Rattle.opcodes.specs.Code.{IsCode};
ghost use Rattle.opcodes.specs.Indexes.{AreIndexesByPc};

use crate::{CodeError, Instr};
use std::alloc::Global;

/// In place of an index, where no instruction starts.
pub const NO_INSTR: u32 = u32::MAX;

/// For each pc of a code the index of the instruction that starts there, or `NO_INSTR`. Together with each
/// instruction's own `pc` it goes from pcs to instructions and back.
pub fn index_by_pc(alloc: Global, code: &[u8], instrs: &[Instr]) -> Result<Vec<u32>, CodeError>
    requires size { length code.now < 2 ^ 32 }
    requires is_code { IsCode code.now instrs.now }
    ensures { OkUnless result CodeError.NoMemory (λ v. AreIndexesByPc code.now instrs.now v.items) }
{
    let mut indexes = Vec::with_capacity(alloc, code.len())?;
    for (index, instr) in instrs.iter().enumerate() {
        indexes.push(index as u32)?;
        indexes.resize(instr.next as usize, NO_INSTR)?;
    }
    Ok(indexes)
}

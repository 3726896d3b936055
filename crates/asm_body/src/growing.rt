//! The instructions of a body, line by line.

ghost use Rattle.std.specs.Prelude.{◌≡◌, [], OnOk};
ghost use Rattle.asm_pool.specs.Places.{IsPool};
ghost use Rattle.asm_body.specs.Growing as spec;
ghost use Rattle.asm_body.specs.Growing.{Grows};

use crate::mention::mention_of;
use crate::placed::Placed;
use asm_code::{Mentioned, size_of};
use asm_pool::Pool;
use asm_text::{LineError, Operands};
use items::Items;
use std::alloc::{AllocError, Global};

/// The instructions so far, and how many bytes they have.
#[derive(Drop)]
pub struct Instructions {
    pub size: u16,
    pub placed: Items<Placed>,
}

// How long the code is with the next instruction.
fn next_size(size: u16, opcode: u8, operands: &Operands) -> Option<u16>
    ensures { result ≡ spec.next_size size opcode operands.now }
{
    size.checked_add(size_of(size, opcode, operands)?)
}

impl Instructions {
    /// No instruction. This takes no memory.
    pub fn new(alloc: Global) -> Self
        ensures size { result.size ≡ 0 }
        ensures placed { result.placed ≡ [] }
    {
        Instructions {
            size: 0,
            placed: Items::new(alloc),
        }
    }

    // Appends an instruction that ends at `size`.
    fn push(
        &mut self,
        size: u16,
        line: u32,
        opcode: u8,
        mentioned: Mentioned,
        operands: Operands,
    ) -> Result<(), AllocError>
        ensures { OnOk result
            (self.new ≡ spec.with_placed self.old size line opcode mentioned operands) }
    {
        self.placed.push(Placed {
            line,
            pc: self.size,
            opcode,
            mentioned,
            operands,
        })?;
        self.size = size;
        Ok(())
    }

    /// Appends the instruction of a line; its constant comes into the pool. `Bad`: the code would have more than 65,535
    /// bytes, or the constant has no place in the pool.
    pub fn add(
        &mut self,
        alloc: Global,
        pool: &mut Pool,
        line: u32,
        opcode: u8,
        operands: Operands,
    ) -> Result<(), LineError>
        requires { IsPool pool.old }
        ensures { Grows result self.new pool.new
            (spec.grown self.old line opcode operands pool.old.entries) }
    {
        let size = next_size(self.size, opcode, &operands).ok_or(LineError::Bad)?;
        let mentioned = mention_of(alloc, pool, opcode, &operands)?;
        self.push(size, line, opcode, mentioned, operands)?;
        Ok(())
    }
}

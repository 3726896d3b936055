//! The code of a body.

ghost use Rattle.std.specs.Prelude.{◌≡◌, []};
ghost use Rattle.asm_code.specs.Places.{place_of};
ghost use Rattle.asm_body.specs.Bodies as spec;
ghost use Rattle.asm_body.specs.Bodies.{AnswersBy};

use crate::error::BodyError;
use crate::placed::Placed;
use asm_code::{Labels, put_instruction};
use asm_text::LineError;
use std::alloc::Global;

/// The error of a line: `Bad` names it.
pub fn at_line(line: u32, error: LineError) -> BodyError
    ensures { result ≡ spec.at_line line error }
{
    match error {
        LineError::Bad => BodyError::Bad { line },
        LineError::NoMemory => BodyError::NoMemory,
    }
}

/// The bytes of the instructions.
pub fn code_of(
    alloc: Global,
    labels: &Labels,
    instructions: &[Placed],
) -> Result<Vec<u8>, BodyError>
    ensures { AnswersBy (λ code. code.items) result
        (spec.put_all (place_of labels.now) instructions.now []) }
{
    let mut code = Vec::new(alloc);
    for instruction in instructions {
        put_one(&mut code, labels, instruction)?;
    }
    Ok(code)
}

fn put_one(code: &mut Vec<u8>, labels: &Labels, placed: &Placed) -> Result<(), BodyError>
    ensures { AnswersBy (λ done. code.new.items) result
        (spec.put_one (place_of labels.now) placed.now code.old.items) }
{
    let Placed {
        line,
        pc,
        opcode,
        mentioned,
        operands,
    } = placed;
    match put_instruction(code, labels, *pc, *opcode, *mentioned, operands) {
        Ok(()) => Ok(()),
        Err(error) => Err(at_line(*line, error)),
    }
}

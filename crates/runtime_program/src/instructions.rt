//! The instruction at a pc of a method.

ghost use Rattle.std.specs.Prelude.{◌≡◌};
ghost use Rattle.std.specs.Option.{option_map};
ghost use Rattle.link_model.specs.Resolutions.{meanings};
ghost use Rattle.interp_local.specs.Fetched.{instruction_of, instruction_at as instruction_found};
ghost use Rattle.runtime_program.specs.Instructions.{instruction_by};

use interp_local::Fetched;
use link_model::Resolutions;
use link_tables::Tables;
use opcodes::Instr;

// The instruction at an index, where there is one.
#[inline(always)]
fn instruction_at<'a>(
    instrs: &'a [Instr],
    resolutions: Resolutions<'a>,
    index: Option<u32>,
) -> Option<Fetched<'a>>
    ensures { option_map instruction_of result
        ≡ instruction_by instrs.now (meanings resolutions.entry) index }
{
    let i = index?;
    let instr = instrs.get(i as usize)?;
    let resolution = resolutions.at(i as usize);
    Some(Fetched { instr, resolution })
}

/// The instruction that begins at a pc of a method, in constant time.
#[inline(always)]
pub(crate) fn instruction(tables: &Tables, method: u32, pc: u32) -> Option<Fetched<'_>>
    ensures { option_map instruction_of result
        ≡ instruction_found tables.now method pc }
{
    match tables.code(method) {
        Some(code) => instruction_at(
            &code.code,
            tables.resolutions(method),
            tables.index_at(method, pc),
        ),
        None => None,
    }
}

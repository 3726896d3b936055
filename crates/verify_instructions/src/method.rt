//! A method with code, and what its tables say (JVMS 4.10.1.6).

ghost use Rattle.std.specs.Prelude.{◌≡◌, ◌==◌, position};
ghost use Rattle.opcodes.specs.declared.op.Instr.{Instr as Instruction};
ghost use Rattle.std.specs.List.{list_any};
ghost use Rattle.std.specs.List.Sorted.{IsNonDecreasingBy};
ghost use Rattle.link_model.specs.Resolutions.{meanings};
ghost use Rattle.verify_types.specs.Environment as environment;
ghost use Rattle.verify_types.specs.Calls as spec;
ghost use Rattle.verify_instructions.specs.Tables.{is_row_covered, new_at};

use class_model::Row;
use link_model::{MethodCode, MethodInfo, Resolutions, Site};
use opcodes::{Instr, Op};

/// A method with code, what each instruction's constant resolves to, and what each row of its exception table catches.
#[derive(Clone, Copy)]
pub struct Method<'a> {
    pub info: &'a MethodInfo,
    pub code: &'a MethodCode,
    pub resolutions: Resolutions<'a>,
    pub catches: &'a [Option<u32>],
    /// The instructions lie by rising pc.
    pub ghost in_order: { IsNonDecreasingBy (λ (i : Instruction). i.pc) code.now.code },
}

// The class whose objects the instruction makes.
fn made_by(op: &Op, site: Site) -> Option<u32>
    ensures { result ≡ spec.made_by op.now site }
{
    match op {
        Op::New(_) => match site {
            Site::Class(class) => Some(class),
            _ => None,
        },
        _ => None,
    }
}

// The index of the first instruction at a pc. `None`: there is none.
fn index_at(code: &[Instr], pc: u32) -> Option<usize>
    requires { IsNonDecreasingBy (λ (i : Instruction). i.pc) code.now }
    ensures { result ≡ position (λ (i : Instruction). i.pc == pc) code.now }
{
    let n = code.partition_point(|i| i.pc < pc);
    let Some(i) = code.get(n) else {
        return None;
    };
    if i.pc == pc { Some(n) } else { None }
}

/// The class of the `new` at a pc. `None`: there is none.
pub fn new_class(m: &Method<'_>, pc: u16) -> Option<u32>
    ensures { result ≡
        new_at pc (environment.with_resolutions m.now.code.now.code (meanings m.now.resolutions)) }
{
    let code: &[Instr] = &m.code.code;
    let Some(n) = index_at(code, u32::from(pc)) else {
        return None;
    };
    let Some(i) = code.get(n) else {
        return None;
    };
    made_by(&i.op, m.resolutions.at(n).site)
}

// Whether the pc lies in the range of the row.
fn is_row_covered(pc: u16, row: &Row) -> bool
    ensures { result ≡ is_row_covered pc row.now }
{
    row.start <= pc && pc < row.end
}

/// Whether the pc lies in the range of a row.
pub fn is_covered(rows: &[Row], pc: u16) -> bool
    ensures { result ≡ list_any (is_row_covered pc) rows.now }
{
    rows.iter().any(|row| is_row_covered(pc, row))
}

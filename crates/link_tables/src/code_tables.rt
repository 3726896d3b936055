//! What the code of each method of a world names, and where its instructions begin.

ghost use Rattle.std.specs.Prelude.{◌≡◌, IfOk};
ghost use Rattle.link_model.specs.Infos.{codes_of};
ghost use Rattle.link_model.specs.Numbering.{numbering_of};
ghost use Rattle.link_tables.specs.Parts.{AreOfCodes};

use crate::pc_tables::all_by_pc;
use crate::resolutions::{NumberedResolutions, all_catches, all_resolutions};
use crate::sites::Linker;
use items::{Items, NoMemory};
use link_model::MethodCode;
use link_numbers::{ArrayNumbers, MemberNumbers, Names, all_strings};
use std::alloc::Global;

/// The tables of the instructions and exception tables of each method, and the texts of the Strings that they name.
#[derive(Drop)]
pub(crate) struct CodeTables {
    pub(crate) by_pc: Vec<Items<u16>>,
    pub(crate) resolutions: NumberedResolutions,
    pub(crate) catches: Vec<Items<Option<u32>>>,
    pub(crate) strings: Names,
}

/// Those of a program with these codes.
pub(crate) fn code_tables(
    alloc: Global,
    members: &MemberNumbers,
    numbers: &ArrayNumbers,
    codes: &[Option<MethodCode>],
) -> Result<CodeTables, NoMemory>
    requires codes { codes.now ≡ codes_of members.now }
    requires numbers { numbers.now ≡ numbering_of members.now }
    ensures { IfOk result (AreOfCodes members.now) }
{
    let strings = all_strings(alloc, members.hierarchy())?;
    let linker = Linker {
        members,
        numbers,
        strings: &strings,
    };
    let resolutions = all_resolutions(alloc, linker, codes)?;
    let catches = all_catches(alloc, linker)?;
    let by_pc = all_by_pc(alloc, codes)?;
    Ok(CodeTables {
        by_pc,
        resolutions,
        catches,
        strings,
    })
}

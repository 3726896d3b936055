//! That the state in which a program begins keeps to the typing (JVMS 2.11.1, 4.10).

ghost use Rattle.std.specs.Prelude.{◌≡◌, Some, IfOk};
ghost use Rattle.ref_model.specs.Opening.{opening};
ghost use Rattle.frame_soundness.specs.TypedStates.{IsTypedState};
ghost use Rattle.step_soundness.specs.OpeningLaws.{IsMain};
ghost use Rattle.link_soundness.specs.Begins.{MayBegin};
ghost use Rattle.link_soundness.specs.Library.{HasLibrary};
ghost use Rattle.link_soundness.specs.OpeningClasses.{HasOpeningClasses};
ghost use Rattle.startup.specs.Openings.{opened_state, setting};

use crate::begin::{Opened, open};
use items::NoMemory;
use link_soundness::{
    linked_classes_open, linked_fields_have_kinds, linked_programs_begin, linked_values_fit,
};
use ref_model::Limits;
use runtime_program::ReadyProgram;
use std::alloc::Global;
use step_soundness::{linked_worlds_open, openings_are_typed};

// That a program with the built-in classes has what its opening asks for.
fn has_opening(program: &ReadyProgram, main: u32)
    requires library { HasLibrary program.now.program }
    requires main { IsMain program.now main }
    ensures classes { HasOpeningClasses program.now }
    ensures begins { MayBegin program.now }
{
    let _ = main;
    program.is_linked();
    linked_classes_open();
    linked_programs_begin();
}

/// The same as `open` for a program with the built-in classes, whose main method takes an array of Strings. The state keeps to the typing.
pub fn open_typed(
    alloc: Global,
    program: &ReadyProgram,
    main: u32,
    limits: Limits,
) -> Result<Opened, NoMemory>
    requires library { HasLibrary program.now.program }
    requires main { IsMain program.now main }
    ensures state { IfOk result (λ o. opening (setting program.now main limits)
        ≡ Some (opened_state limits o)) }
    ensures typed { IfOk result (λ o.
        IsTypedState program.now (opened_state limits o)) }
    ensures cells { IfOk result (λ o. o.heap.cells ≡ limits.heap_cells) }
    ensures used { IfOk result (λ o. o.heap.used ≡ 0) }
    ensures thread { IfOk result (λ o. o.mounted.thread ≡ 0) }
{
    program.is_linked();
    linked_worlds_open();
    linked_fields_have_kinds();
    linked_values_fit();
    openings_are_typed();
    has_opening(program, main);
    let opened = open(alloc, program, main, limits)?;
    Ok(opened)
}

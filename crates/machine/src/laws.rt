//! What holds of a program that is run.

ghost use Rattle.std.specs.Prelude.{◌≡◌, false};
ghost use Rattle.step_soundness.specs.OpeningLaws.{IsMain};
ghost use Rattle.link_soundness.specs.Library.{HasLibrary};
ghost use Rattle.schedule_soundness.specs.PromiseLaws.{IsPlain};
ghost use Rattle.startup.specs.Openings.{setting};
ghost use Rattle.machine.specs.Legal.{IsAccepted};

use ref_model::Limits;
use schedule_soundness::{histories_are_typed, promises_are_kept};
use startup::ReadyProgram;

/// Whether the main method is jvt.Native.hold, whose frame pins its thread.
pub(crate) fn main_pins(program: &ReadyProgram, main: u32) -> bool
    ensures { result ≡ false → IsPlain program.now main }
{
    match program.method(main) {
        Some(method) => program.is_hold(method),
        None => false,
    }
}

/// A linked program with the built-in classes is as its steps ask, and no thread of it begins pinned.
pub(crate) fn is_accepted(program: &ReadyProgram, main: u32, limits: Limits)
    requires library { HasLibrary program.now.program }
    requires main { IsMain program.now main }
    requires plain { IsPlain program.now main }
    ensures { IsAccepted (setting program.now main limits) }
{
    program.is_linked();
    histories_are_typed();
    promises_are_kept();
}

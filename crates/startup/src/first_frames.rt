//! The frames with which a program begins: main's, and above it those of the class initializers, the first to run on top.

ghost use Rattle.std.specs.Prelude.{◌≡◌, ◌<◌, [], Some, IfOk, IsSome, OnOk, length};
ghost use Rattle.frames.specs.Frames.{top_locals};
ghost use Rattle.ref_model.specs.Opening as spec;
ghost use Rattle.items.specs.First.{Each};
ghost use Rattle.step_soundness.specs.OpeningLaws.{IsMain};
ghost use Rattle.link_soundness.specs.Begins.{HasCode, HasLocals, MayBegin};
ghost use Rattle.startup.specs.FirstFrames.{HasFrame, IsFirst, count_with, frames_with, holding};

use crate::class_order::initializers;
use continuation::Mounted;
use instruction_rows::{Slot, Value};
use items::NoMemory;
use runtime_program::ReadyProgram;
use std::alloc::Global;

// Pushes the frame of a method, in which all local variables are unset. A frame too many counts as memory run out.
fn push_frame(program: &ReadyProgram, mounted: &mut Mounted, method: u32) -> Result<(), NoMemory>
    requires { HasCode program.now method }
    ensures frames { OnOk result (HasFrame program.now method mounted.old.stack.frames
        mounted.new.stack.frames) }
    ensures thread { mounted.new.thread ≡ mounted.old.thread }
{
    let Some(code) = program.code(method) else {
        unreachable!()
    };
    match mounted.push_frame(method, code.max_locals as u32, code.max_stack, 0) {
        Ok(()) => Ok(()),
        Err(_) => Err(NoMemory),
    }
}

// The number of a monitor goes into the last local variable of the top frame, where there is one.
fn hold_monitor(mounted: &mut Mounted, last: u16, monitor: Option<u32>)
    requires { IsSome monitor → last < length (top_locals mounted.old.stack.frames) }
    ensures frames { mounted.new.stack.frames
        ≡ holding last monitor mounted.old.stack.frames }
    ensures thread { mounted.new.thread ≡ mounted.old.thread }
{
    if let Some(o) = monitor {
        mounted.set_local(last, Slot::One(Value::Ref(o)));
    }
}

// How many local variables a frame has that may hold a monitor.
fn local_count(locals: u16, monitor: Option<u32>) -> u32
    ensures { result ≡ count_with locals monitor }
{
    match monitor {
        Some(_) => u32::from(locals) + 1,
        None => u32::from(locals),
    }
}

// Makes main's frame, with the array of words in its first local variable, and the monitor that it holds in one more.
fn push_main(
    program: &ReadyProgram,
    mounted: &mut Mounted,
    main: u32,
    words: u32,
    monitor: Option<u32>,
) -> Result<(), NoMemory>
    requires code { HasLocals program.now main }
    requires none { mounted.old.stack.frames ≡ [] }
    ensures frames { OnOk result (IsFirst program.now main words monitor
        mounted.new.stack.frames) }
    ensures thread { mounted.new.thread ≡ mounted.old.thread }
{
    let Some(code) = program.code(main) else {
        unreachable!()
    };
    let locals = local_count(code.max_locals, monitor);
    match mounted.push_frame(main, locals, code.max_stack, 0) {
        Ok(()) => {
            mounted.set_local(0, Slot::One(Value::Ref(words)));
            hold_monitor(mounted, code.max_locals, monitor);
            Ok(())
        }
        Err(_) => Err(NoMemory),
    }
}

// Pushes the frames of methods, from the last to the first.
fn push_frames(
    program: &ReadyProgram,
    mounted: &mut Mounted,
    methods: &[u32],
) -> Result<(), NoMemory>
    requires { Each (HasCode program.now) methods.now }
    ensures frames { OnOk result (spec.frames_of program.now methods.now mounted.old.stack.frames
        ≡ Some mounted.new.stack.frames) }
    ensures thread { mounted.new.thread ≡ mounted.old.thread }
{
    let mut i = methods.len();
    while i > 0 {
        i -= 1;
        push_frame(program, mounted, methods[i])?;
    }
    Ok(())
}

/// The frames with which a program begins, of thread 0. A frame too many counts as memory run out.
pub(crate) fn first_frames(
    alloc: Global,
    program: &ReadyProgram,
    main: u32,
    words: u32,
    monitor: Option<u32>,
) -> Result<Mounted, NoMemory>
    requires begins { MayBegin program.now }
    requires main { IsMain program.now main }
    ensures frames { IfOk result (λ m. frames_with program.now main words monitor
        ≡ Some m.stack.frames) }
    ensures thread { IfOk result (λ m. m.thread ≡ 0) }
{
    let mut mounted = Mounted::new(alloc, 0);
    push_main(program, &mut mounted, main, words, monitor)?;
    let methods = initializers(alloc, program.tables())?;
    push_frames(program, &mut mounted, &methods)?;
    Ok(mounted)
}

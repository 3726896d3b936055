//! What native methods answer to their arguments, by what they take.

ghost use Rattle.std.specs.Prelude.{◌≡◌, IfOk};
ghost use Rattle.opcodes.specs.declared.op.ValueKind.TheVariants as kinds;
ghost use Rattle.link_model.specs.World.{World};
ghost use Rattle.native_methods.specs.Arguments.{answer_to, answer_to_none, answer_to_two};
ghost use Rattle.native_methods.specs.NativeStates.{Answers, KeptIfThrownOrAsked};

use crate::answer::Answer;
use crate::builder_natives::{append, append_string, builder_length, builder_to_string};
use crate::object_natives::{described, identity_hash, object_equals};
use crate::printing::{print, print_string};
use crate::state::{NativeState, new_text};
use crate::string_natives::{
    string_char_at, string_concat, string_equals, string_hash_code, string_is_empty, string_length,
    string_to_string,
};
use crate::texts::{boolean_text, char_text, int_text, long_text};
use crate::thread_natives::{
    daemon_set, joined_for, monitor_asked, name_set, thread_asked, thread_created, thread_id,
    unpark, waited_for,
};
use crate::world::NativeWorld;
use items::NoMemory;
use lib_table::Native;
use ref_model::ThreadRequest;
use std::alloc::Global;
use vthread_state::ThreadKind;

/// The native methods that take nothing.
pub(crate) fn on_nothing(state: &NativeState, native: Native) -> Answer
    ensures { (w : World) → Answers (λ r. answer_to_none w r native) state.now state.now result }
{
    match native {
        Native::SystemNanoTime => Answer::Asks(ThreadRequest::TellsNanos),
        Native::SystemCurrentTimeMillis => Answer::Asks(ThreadRequest::TellsMillis),
        Native::ThreadCurrentThread => Answer::Asks(ThreadRequest::Current),
        Native::ThreadYield => Answer::Asks(ThreadRequest::Yields),
        Native::ThreadInterrupted => Answer::Asks(ThreadRequest::TakesInterrupt),
        Native::ThreadOnSpinWait => Answer::Returns,
        Native::LockSupportPark => Answer::Asks(ThreadRequest::Parks(None)),
        _ => Answer::Undefined,
    }
}

/// The native methods that take one reference.
pub(crate) fn on_reference<W: NativeWorld>(
    alloc: Global,
    world: &W,
    native: Native,
    state: &mut NativeState,
    this: Option<u32>,
) -> Result<Answer, NoMemory>
    ensures answer { IfOk result (λ a. Answers
        (λ r. answer_to (W.world world.now) r native kinds.Reference this) state.old state.new a) }
    ensures kept { IfOk result (λ a. KeptIfThrownOrAsked a state.old state.new) }
{
    match native {
        Native::ObjectInit | Native::StringBuilderInit => Ok(Answer::Returns),
        Native::ObjectHashCode => Ok(identity_hash(state, this)),
        Native::StringLength => Ok(string_length(state, this)),
        Native::StringIsEmpty => Ok(string_is_empty(state, this)),
        Native::StringHashCode => Ok(string_hash_code(state, this)),
        Native::StringToString => Ok(string_to_string(state, this)),
        Native::StringBuilderLength => Ok(builder_length(state, this)),
        Native::StringBuilderToString => builder_to_string(alloc, state, this),
        Native::PrintStreamPrintln => print(state, this, &[], true),
        Native::ObjectWait | Native::ObjectNotify | Native::ObjectNotifyAll => {
            Ok(monitor_asked(native, this))
        }
        Native::ThreadStart
        | Native::ThreadInterrupt
        | Native::ThreadIsInterrupted
        | Native::ThreadJoin
        | Native::ThreadIsAlive
        | Native::ThreadIsVirtual
        | Native::ThreadIsDaemon
        | Native::ThreadGetName
        | Native::ThreadGetState => Ok(thread_asked(state, native, this)),
        Native::ThreadId => Ok(thread_id(state, this)),
        Native::LockSupportParkBlocker => Ok(Answer::Asks(ThreadRequest::Parks(None))),
        Native::LockSupportUnpark => Ok(unpark(state, this)),
        _ => Ok(Answer::Undefined),
    }
}

/// The native methods that take two references.
pub(crate) fn on_two_references<W: NativeWorld>(
    alloc: Global,
    world: &W,
    native: Native,
    state: &mut NativeState,
    this: Option<u32>,
    other: Option<u32>,
) -> Result<Answer, NoMemory>
    ensures answer { IfOk result (λ a. Answers
        (λ r. answer_to_two (W.world world.now) r native kinds.Reference other this)
        state.old state.new a) }
    ensures kept { IfOk result (λ a. KeptIfThrownOrAsked a state.old state.new) }
{
    match native {
        Native::ObjectEquals => Ok(object_equals(state, this, other)),
        Native::StringEquals => Ok(string_equals(state, this, other)),
        Native::StringConcat => string_concat(alloc, state, this, other),
        Native::StringBuilderAppendString => append_string(alloc, state, this, other),
        Native::PrintStreamPrintlnString => print_string(alloc, state, this, other, true),
        Native::PrintStreamPrintString => print_string(alloc, state, this, other, false),
        Native::ThreadCreatePlatform => {
            Ok(thread_created(state, ThreadKind::Platform, this, other))
        }
        Native::ThreadCreateVirtual => Ok(thread_created(state, ThreadKind::Virtual, this, other)),
        Native::ThreadSetName => Ok(name_set(state, this, other)),
        _ => Ok(Answer::Undefined),
    }
}

/// Those that take an int and a reference.
pub(crate) fn on_int_and_reference<W: NativeWorld>(
    alloc: Global,
    world: &W,
    native: Native,
    state: &mut NativeState,
    this: Option<u32>,
    n: i32,
) -> Result<Answer, NoMemory>
    ensures answer { IfOk result (λ a. Answers
        (λ r. answer_to_two (W.world world.now) r native kinds.Int n this) state.old state.new a) }
    ensures kept { IfOk result (λ a. KeptIfThrownOrAsked a state.old state.new) }
{
    match native {
        Native::ObjectToString => described(alloc, world, state, this, n),
        Native::StringCharAt => Ok(string_char_at(state, this, n)),
        Native::StringBuilderAppendInt => {
            let text = int_text(alloc, n)?;
            append(alloc, state, this, text.as_slice())
        }
        Native::StringBuilderAppendChar => append(alloc, state, this, &char_text(n)),
        Native::StringBuilderAppendBoolean => append(alloc, state, this, boolean_text(n)),
        Native::PrintStreamPrintlnInt => {
            let text = int_text(alloc, n)?;
            print(state, this, text.as_slice(), true)
        }
        Native::PrintStreamPrintlnChar => print(state, this, &char_text(n), true),
        Native::PrintStreamPrintlnBoolean => print(state, this, boolean_text(n), true),
        Native::PrintStreamPrintInt => {
            let text = int_text(alloc, n)?;
            print(state, this, text.as_slice(), false)
        }
        Native::PrintStreamPrintChar => print(state, this, &char_text(n), false),
        Native::PrintStreamPrintBoolean => print(state, this, boolean_text(n), false),
        Native::ThreadSetDaemon => Ok(daemon_set(state, this, n)),
        _ => Ok(Answer::Undefined),
    }
}

/// Those that take a long and a reference.
pub(crate) fn on_long_and_reference<W: NativeWorld>(
    alloc: Global,
    world: &W,
    native: Native,
    state: &mut NativeState,
    this: Option<u32>,
    n: i64,
) -> Result<Answer, NoMemory>
    ensures answer { IfOk result (λ a. Answers
        (λ r. answer_to_two (W.world world.now) r native kinds.Long n this)
        state.old state.new a) }
    ensures kept { IfOk result (λ a. KeptIfThrownOrAsked a state.old state.new) }
{
    match native {
        Native::StringBuilderAppendLong => {
            let text = long_text(alloc, n)?;
            append(alloc, state, this, text.as_slice())
        }
        Native::PrintStreamPrintlnLong => {
            let text = long_text(alloc, n)?;
            print(state, this, text.as_slice(), true)
        }
        Native::PrintStreamPrintLong => {
            let text = long_text(alloc, n)?;
            print(state, this, text.as_slice(), false)
        }
        Native::ObjectWaitMillis => Ok(waited_for(this, n)),
        Native::ThreadJoinMillis => Ok(joined_for(state, this, n)),
        Native::LockSupportParkNanosBlocker => Ok(Answer::Asks(ThreadRequest::Parks(Some(n)))),
        _ => Ok(Answer::Undefined),
    }
}

/// Those that take an int.
pub(crate) fn on_int<W: NativeWorld>(
    alloc: Global,
    world: &W,
    native: Native,
    state: &mut NativeState,
    n: i32,
) -> Result<Answer, NoMemory>
    ensures answer { IfOk result (λ a. Answers
        (λ r. answer_to (W.world world.now) r native kinds.Int n) state.old state.new a) }
    ensures kept { IfOk result (λ a. KeptIfThrownOrAsked a state.old state.new) }
{
    match native {
        Native::StringValueOfInt => {
            let text = int_text(alloc, n)?;
            new_text(state, text.as_slice())
        }
        Native::StringValueOfChar => new_text(state, &char_text(n)),
        Native::StringValueOfBoolean => new_text(state, boolean_text(n)),
        Native::SystemExit => {
            state.exited = Some(n);
            Ok(Answer::Returns)
        }
        _ => Ok(Answer::Undefined),
    }
}

/// Those that take a long.
pub(crate) fn on_long<W: NativeWorld>(
    alloc: Global,
    world: &W,
    native: Native,
    state: &mut NativeState,
    n: i64,
) -> Result<Answer, NoMemory>
    ensures answer { IfOk result (λ a. Answers
        (λ r. answer_to (W.world world.now) r native kinds.Long n) state.old state.new a) }
    ensures kept { IfOk result (λ a. KeptIfThrownOrAsked a state.old state.new) }
{
    match native {
        Native::StringValueOfLong => {
            let text = long_text(alloc, n)?;
            new_text(state, text.as_slice())
        }
        Native::ThreadSleep => Ok(Answer::Asks(ThreadRequest::Sleeps(n))),
        Native::LockSupportParkNanos => Ok(Answer::Asks(ThreadRequest::Parks(Some(n)))),
        _ => Ok(Answer::Undefined),
    }
}

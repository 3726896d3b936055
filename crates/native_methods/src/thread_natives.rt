//! The native methods of java.lang.Thread and LockSupport, and those of Object that concern monitors: they test what they work on, and ask.

ghost use Rattle.std.specs.Prelude.{◌≡◌, Some, is_some, true};
ghost use Rattle.std.specs.Option.{option_map};
ghost use Rattle.opcodes.specs.declared.op.ValueKind.TheVariants as kinds;
ghost use Rattle.instruction_rows.specs.declared.value.Value.TheVariants as values;
ghost use Rattle.link_model.specs.World.{World};
ghost use Rattle.ref_model.specs.Requests.{request_of};
ghost use Rattle.ref_model.specs.ThreadNatives as spec;
ghost use Rattle.native_methods.specs.Arguments.{answer_to, to_one, to_two};
ghost use Rattle.native_methods.specs.Asked.{IsObject, IsThread, asked_of_monitor, asked_of_thread};
ghost use Rattle.native_methods.specs.NativeStates.{Answers, thread_in};
ghost use Rattle.native_methods.specs.declared.state.NativeState.{NativeState as StateSpec};

use crate::answer::Answer;
use crate::state::{NativeState, text_at};
use heap_instructions::value_in;
use instruction_rows::Value;
use lib_table::Native;
use ref_model::{Exception, ThreadRequest};
use vthread_state::ThreadKind;

/// Which field of a Thread object holds the number of its thread.
const NUMBER_FIELD: u32 = 1;

// An int as the number of a thread. `None`: it is negative.
fn number_in(n: i32) -> Option<u32>
    ensures { result ≡ spec.number_in (values.Int n) }
{
    match u32::try_from(n) {
        Ok(t) => Some(t),
        Err(_) => None,
    }
}

// The number of the thread of a Thread object. `None`: it isn't one.
fn thread_number(state: &NativeState, o: u32) -> Option<u32>
    ensures { result ≡ thread_in state.now.heap.objects o }
{
    match value_in(&state.heap, o, NUMBER_FIELD) {
        Some(Value::Int(n)) => number_in(n),
        _ => None,
    }
}

// The number of an object, or what is thrown for null.
fn object_of(this: Option<u32>) -> Result<u32, Exception>
    ensures { IsObject this result }
{
    match this {
        Some(o) => Ok(o),
        None => Err(Exception::NullPointerException),
    }
}

// The number of the thread of a Thread object, or what is thrown where there is none.
fn thread_of(state: &NativeState, this: Option<u32>) -> Result<u32, Exception>
    ensures { IsThread state.now this result }
{
    let Some(o) = this else {
        return Err(Exception::NullPointerException);
    };
    match thread_number(state, o) {
        Some(t) => Ok(t),
        None => Err(Exception::VerifyError),
    }
}

// What a native method that takes a Thread alone asks of its thread.
fn thread_request(native: Native, t: u32) -> ThreadRequest
    requires { is_some (asked_of_thread native) ≡ true }
    ensures { option_map (λ q. q t) (asked_of_thread native) ≡ Some (request_of result) }
{
    match native {
        Native::ThreadStart => ThreadRequest::Starts(t),
        Native::ThreadInterrupt => ThreadRequest::Interrupts(t),
        Native::ThreadIsInterrupted => ThreadRequest::TellsInterrupt(t),
        Native::ThreadJoin => ThreadRequest::Joins {
            thread: t,
            millis: None,
        },
        Native::ThreadIsAlive => ThreadRequest::TellsAlive(t),
        Native::ThreadIsVirtual => ThreadRequest::TellsVirtual(t),
        Native::ThreadIsDaemon => ThreadRequest::TellsDaemon(t),
        Native::ThreadGetName => ThreadRequest::TellsName(t),
        Native::ThreadGetState => ThreadRequest::TellsState(t),
        _ => unreachable!(),
    }
}

/// The native methods that take a Thread alone, and only ask something of its thread.
pub(crate) fn thread_asked(state: &NativeState, native: Native, this: Option<u32>) -> Answer
    requires { is_some (asked_of_thread native) ≡ true }
    ensures { (w : World) → Answers
        (λ r. answer_to w r native kinds.Reference this) state.now state.now result }
{
    match thread_of(state, this) {
        Ok(t) => Answer::Asks(thread_request(native, t)),
        Err(exception) => Answer::Throws(exception),
    }
}

/// join(long).
pub(crate) fn joined_for(state: &NativeState, this: Option<u32>, millis: i64) -> Answer
    ensures { Answers (λ r. to_two kinds.Long millis this (Some (spec.thread_join_millis r)))
        state.now state.now result }
{
    match thread_of(state, this) {
        Ok(thread) => Answer::Asks(ThreadRequest::Joins {
            thread,
            millis: Some(millis),
        }),
        Err(exception) => Answer::Throws(exception),
    }
}

/// setDaemon(boolean), which is true if it isn't 0.
pub(crate) fn daemon_set(state: &NativeState, this: Option<u32>, daemon: i32) -> Answer
    ensures { Answers (λ r. to_two kinds.Int daemon this (Some (spec.thread_set_daemon r)))
        state.now state.now result }
{
    match thread_of(state, this) {
        Ok(thread) => Answer::Asks(ThreadRequest::SetsDaemon {
            thread,
            daemon: daemon != 0,
        }),
        Err(exception) => Answer::Throws(exception),
    }
}

/// A constructor of Thread, whose name may be null.
pub(crate) fn thread_created(
    state: &NativeState,
    kind: ThreadKind,
    this: Option<u32>,
    name: Option<u32>,
) -> Answer
    ensures { Answers (λ r. to_two kinds.Reference name this (Some (spec.thread_created kind r)))
        state.now state.now result }
{
    let Some(object) = this else {
        return Answer::Throws(Exception::NullPointerException);
    };
    if thread_number(state, object).is_none() {
        return Answer::Throws(Exception::VerifyError);
    }
    if let Some(text) = name
        && text_at(state, text).is_none()
    {
        return Answer::Throws(Exception::VerifyError);
    }
    Answer::Asks(ThreadRequest::Creates { kind, object, name })
}

/// setName(String).
pub(crate) fn name_set(state: &NativeState, this: Option<u32>, name: Option<u32>) -> Answer
    ensures { Answers (λ r. to_two kinds.Reference name this (Some (spec.thread_set_name r)))
        state.now state.now result }
{
    let Some(o) = this else {
        return Answer::Throws(Exception::NullPointerException);
    };
    let Some(thread) = thread_number(state, o) else {
        return Answer::Throws(Exception::VerifyError);
    };
    let Some(name) = name else {
        return Answer::Throws(Exception::NullPointerException);
    };
    match text_at(state, name) {
        Some(_) => Answer::Asks(ThreadRequest::SetsName { thread, name }),
        None => Answer::Throws(Exception::VerifyError),
    }
}

/// threadId(): the number of the thread, and 1.
pub(crate) fn thread_id(state: &NativeState, this: Option<u32>) -> Answer
    ensures { Answers (λ r. to_one kinds.Reference this (Some (spec.thread_id r)))
        state.now state.now result }
{
    let Some(o) = this else {
        return Answer::Throws(Exception::NullPointerException);
    };
    match thread_number(state, o) {
        Some(t) => Answer::Gives(Value::Long(i64::from(t) + 1)),
        None => Answer::Throws(Exception::VerifyError),
    }
}

/// unpark(Thread), which does nothing for null.
pub(crate) fn unpark(state: &NativeState, thread: Option<u32>) -> Answer
    ensures { Answers (λ r. to_one kinds.Reference thread (Some (spec.unpark r)))
        state.now state.now result }
{
    let Some(o) = thread else {
        return Answer::Returns;
    };
    match thread_number(state, o) {
        Some(t) => Answer::Asks(ThreadRequest::Unparks(t)),
        None => Answer::Throws(Exception::VerifyError),
    }
}

// What a native method that takes an object alone asks of its monitor.
fn monitor_request(native: Native, monitor: u32) -> ThreadRequest
    requires { is_some (asked_of_monitor native) ≡ true }
    ensures { option_map (λ q. q monitor) (asked_of_monitor native) ≡ Some (request_of result) }
{
    match native {
        Native::ObjectWait => ThreadRequest::WaitsOn {
            monitor,
            millis: None,
        },
        Native::ObjectNotify => ThreadRequest::Notifies(monitor),
        Native::ObjectNotifyAll => ThreadRequest::NotifiesAll(monitor),
        _ => unreachable!(),
    }
}

/// The native methods that take an object alone, and ask something of its monitor.
pub(crate) fn monitor_asked(native: Native, this: Option<u32>) -> Answer
    requires { is_some (asked_of_monitor native) ≡ true }
    ensures { (w : World) (s : StateSpec) →
        Answers (λ r. answer_to w r native kinds.Reference this) s s result }
{
    match object_of(this) {
        Ok(o) => Answer::Asks(monitor_request(native, o)),
        Err(exception) => Answer::Throws(exception),
    }
}

/// wait(long).
pub(crate) fn waited_for(this: Option<u32>, millis: i64) -> Answer
    ensures { (s : StateSpec) →
        Answers (λ r. to_two kinds.Long millis this (Some spec.object_wait_millis)) s s result }
{
    match object_of(this) {
        Ok(monitor) => Answer::Asks(ThreadRequest::WaitsOn {
            monitor,
            millis: Some(millis),
        }),
        Err(exception) => Answer::Throws(exception),
    }
}

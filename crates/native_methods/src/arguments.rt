//! What native methods take.

ghost use Rattle.std.specs.Prelude.{◌≡◌, Some};
ghost use Rattle.ref_model.specs.Natives.{native_takes};
ghost use Rattle.native_methods.specs.Arguments as spec;

use lib_table::Native;
use opcodes::ValueKind;

/// What native methods take, from the topmost operand on, with the receiver below.
#[derive(Clone, Copy)]
pub enum Arguments {
    Nothing,
    Reference,
    TwoReferences,
    IntAndReference,
    LongAndReference,
    Int,
    Long,
}

impl Arguments {
    /// Their kinds, the topmost first.
    pub fn kinds(self) -> &'static [ValueKind]
        ensures { result.now ≡ spec.kinds_of self }
    {
        match self {
            Arguments::Nothing => &[],
            Arguments::Reference => &[ValueKind::Reference],
            Arguments::TwoReferences => &[ValueKind::Reference, ValueKind::Reference],
            Arguments::IntAndReference => &[ValueKind::Int, ValueKind::Reference],
            Arguments::LongAndReference => &[ValueKind::Long, ValueKind::Reference],
            Arguments::Int => &[ValueKind::Int],
            Arguments::Long => &[ValueKind::Long],
        }
    }

    /// How many slots they take: a long takes two.
    pub fn slots(self) -> u16
        ensures { result ≡ spec.slots_of self }
    {
        match self {
            Arguments::Nothing => 0,
            Arguments::Reference | Arguments::Int => 1,
            Arguments::TwoReferences | Arguments::IntAndReference | Arguments::Long => 2,
            Arguments::LongAndReference => 3,
        }
    }
}

/// What a native method takes.
pub fn takes(native: Native) -> Arguments
    ensures { Some (spec.kinds_of result) ≡ native_takes native }
{
    match native {
        Native::ObjectInit
        | Native::ObjectHashCode
        | Native::StringLength
        | Native::StringIsEmpty
        | Native::StringHashCode
        | Native::StringToString
        | Native::StringBuilderInit
        | Native::StringBuilderLength
        | Native::StringBuilderToString
        | Native::PrintStreamPrintln
        | Native::ObjectWait
        | Native::ObjectNotify
        | Native::ObjectNotifyAll
        | Native::ThreadStart
        | Native::ThreadInterrupt
        | Native::ThreadIsInterrupted
        | Native::ThreadJoin
        | Native::ThreadIsAlive
        | Native::ThreadIsVirtual
        | Native::ThreadIsDaemon
        | Native::ThreadGetName
        | Native::ThreadId
        | Native::ThreadGetState
        | Native::LockSupportParkBlocker
        | Native::LockSupportUnpark => Arguments::Reference,
        Native::ObjectEquals
        | Native::StringEquals
        | Native::StringConcat
        | Native::StringBuilderAppendString
        | Native::PrintStreamPrintlnString
        | Native::PrintStreamPrintString
        | Native::ThreadCreatePlatform
        | Native::ThreadCreateVirtual
        | Native::ThreadSetName => Arguments::TwoReferences,
        Native::ObjectToString
        | Native::StringCharAt
        | Native::StringBuilderAppendInt
        | Native::StringBuilderAppendChar
        | Native::StringBuilderAppendBoolean
        | Native::PrintStreamPrintlnInt
        | Native::PrintStreamPrintlnChar
        | Native::PrintStreamPrintlnBoolean
        | Native::PrintStreamPrintInt
        | Native::PrintStreamPrintChar
        | Native::PrintStreamPrintBoolean
        | Native::ThreadSetDaemon => Arguments::IntAndReference,
        Native::StringBuilderAppendLong
        | Native::PrintStreamPrintlnLong
        | Native::PrintStreamPrintLong
        | Native::ObjectWaitMillis
        | Native::ThreadJoinMillis
        | Native::LockSupportParkNanosBlocker => Arguments::LongAndReference,
        Native::StringValueOfInt
        | Native::StringValueOfChar
        | Native::StringValueOfBoolean
        | Native::SystemExit => Arguments::Int,
        Native::StringValueOfLong | Native::ThreadSleep | Native::LockSupportParkNanos => {
            Arguments::Long
        }
        Native::SystemNanoTime
        | Native::SystemCurrentTimeMillis
        | Native::ThreadCurrentThread
        | Native::ThreadYield
        | Native::ThreadOnSpinWait
        | Native::ThreadInterrupted
        | Native::LockSupportPark => Arguments::Nothing,
    }
}

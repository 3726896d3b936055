//! The built-in classes, written and read again, and their natives by name.

ghost use Rattle.std.specs.Prelude.{All};
ghost use Rattle.lib_table.specs.Spelled.{IsSpelled};

use crate::ascii::units_of;
use class_file::read;
use class_model::ClassFile;
use class_write::write;
use lib_table::{Native, classes, native_of};
use std::alloc::{AllocError, Global};
use std::test::Fail;

// Whether each class file that is written is read back.
fn are_read_back(alloc: Global, files: &[ClassFile]) -> Result<bool, Fail>
    requires { All IsSpelled files.now }
{
    for file in files {
        let bytes = write(alloc, file)?;
        if bytes.len() > 0xffff || read(alloc, &bytes)? != *file {
            return Ok(false);
        }
    }
    Ok(true)
}

#[test]
fn each_class_is_read_back(rt: HostRuntime) -> Result<(), Fail> {
    let files = classes(rt.alloc())?;
    assert_eq!(rt; files.len(), 46);
    assert!(rt; are_read_back(rt.alloc(), &files)?);
    Ok(())
}

// Each native method by its class, its name and its descriptor.
const NATIVES: [(&[u8], &[u8], &[u8], Native); 66] = [
    (b"java/lang/Object", b"<init>", b"()V", Native::ObjectInit),
    (
        b"java/lang/Object",
        b"equals",
        b"(Ljava/lang/Object;)Z",
        Native::ObjectEquals,
    ),
    (
        b"java/lang/Object",
        b"hashCode",
        b"()I",
        Native::ObjectHashCode,
    ),
    (
        b"java/lang/Object",
        b"0toString",
        b"(I)Ljava/lang/String;",
        Native::ObjectToString,
    ),
    (b"java/lang/Object", b"wait", b"()V", Native::ObjectWait),
    (
        b"java/lang/Object",
        b"wait",
        b"(J)V",
        Native::ObjectWaitMillis,
    ),
    (b"java/lang/Object", b"notify", b"()V", Native::ObjectNotify),
    (
        b"java/lang/Object",
        b"notifyAll",
        b"()V",
        Native::ObjectNotifyAll,
    ),
    (b"java/lang/String", b"length", b"()I", Native::StringLength),
    (
        b"java/lang/String",
        b"charAt",
        b"(I)C",
        Native::StringCharAt,
    ),
    (
        b"java/lang/String",
        b"isEmpty",
        b"()Z",
        Native::StringIsEmpty,
    ),
    (
        b"java/lang/String",
        b"equals",
        b"(Ljava/lang/Object;)Z",
        Native::StringEquals,
    ),
    (
        b"java/lang/String",
        b"hashCode",
        b"()I",
        Native::StringHashCode,
    ),
    (
        b"java/lang/String",
        b"concat",
        b"(Ljava/lang/String;)Ljava/lang/String;",
        Native::StringConcat,
    ),
    (
        b"java/lang/String",
        b"toString",
        b"()Ljava/lang/String;",
        Native::StringToString,
    ),
    (
        b"java/lang/String",
        b"valueOf",
        b"(I)Ljava/lang/String;",
        Native::StringValueOfInt,
    ),
    (
        b"java/lang/String",
        b"valueOf",
        b"(J)Ljava/lang/String;",
        Native::StringValueOfLong,
    ),
    (
        b"java/lang/String",
        b"valueOf",
        b"(C)Ljava/lang/String;",
        Native::StringValueOfChar,
    ),
    (
        b"java/lang/String",
        b"valueOf",
        b"(Z)Ljava/lang/String;",
        Native::StringValueOfBoolean,
    ),
    (
        b"java/lang/StringBuilder",
        b"<init>",
        b"()V",
        Native::StringBuilderInit,
    ),
    (
        b"java/lang/StringBuilder",
        b"append",
        b"(I)Ljava/lang/StringBuilder;",
        Native::StringBuilderAppendInt,
    ),
    (
        b"java/lang/StringBuilder",
        b"append",
        b"(J)Ljava/lang/StringBuilder;",
        Native::StringBuilderAppendLong,
    ),
    (
        b"java/lang/StringBuilder",
        b"append",
        b"(C)Ljava/lang/StringBuilder;",
        Native::StringBuilderAppendChar,
    ),
    (
        b"java/lang/StringBuilder",
        b"append",
        b"(Z)Ljava/lang/StringBuilder;",
        Native::StringBuilderAppendBoolean,
    ),
    (
        b"java/lang/StringBuilder",
        b"append",
        b"(Ljava/lang/String;)Ljava/lang/StringBuilder;",
        Native::StringBuilderAppendString,
    ),
    (
        b"java/lang/StringBuilder",
        b"length",
        b"()I",
        Native::StringBuilderLength,
    ),
    (
        b"java/lang/StringBuilder",
        b"toString",
        b"()Ljava/lang/String;",
        Native::StringBuilderToString,
    ),
    (b"java/lang/System", b"exit", b"(I)V", Native::SystemExit),
    (
        b"java/lang/System",
        b"nanoTime",
        b"()J",
        Native::SystemNanoTime,
    ),
    (
        b"java/lang/System",
        b"currentTimeMillis",
        b"()J",
        Native::SystemCurrentTimeMillis,
    ),
    (
        b"java/io/PrintStream",
        b"println",
        b"()V",
        Native::PrintStreamPrintln,
    ),
    (
        b"java/io/PrintStream",
        b"println",
        b"(I)V",
        Native::PrintStreamPrintlnInt,
    ),
    (
        b"java/io/PrintStream",
        b"println",
        b"(J)V",
        Native::PrintStreamPrintlnLong,
    ),
    (
        b"java/io/PrintStream",
        b"println",
        b"(C)V",
        Native::PrintStreamPrintlnChar,
    ),
    (
        b"java/io/PrintStream",
        b"println",
        b"(Z)V",
        Native::PrintStreamPrintlnBoolean,
    ),
    (
        b"java/io/PrintStream",
        b"println",
        b"(Ljava/lang/String;)V",
        Native::PrintStreamPrintlnString,
    ),
    (
        b"java/io/PrintStream",
        b"print",
        b"(I)V",
        Native::PrintStreamPrintInt,
    ),
    (
        b"java/io/PrintStream",
        b"print",
        b"(J)V",
        Native::PrintStreamPrintLong,
    ),
    (
        b"java/io/PrintStream",
        b"print",
        b"(C)V",
        Native::PrintStreamPrintChar,
    ),
    (
        b"java/io/PrintStream",
        b"print",
        b"(Z)V",
        Native::PrintStreamPrintBoolean,
    ),
    (
        b"java/io/PrintStream",
        b"print",
        b"(Ljava/lang/String;)V",
        Native::PrintStreamPrintString,
    ),
    (
        b"java/lang/Thread",
        b"0createPlatform",
        b"(Ljava/lang/String;)V",
        Native::ThreadCreatePlatform,
    ),
    (
        b"java/lang/Thread",
        b"0createVirtual",
        b"(Ljava/lang/String;)V",
        Native::ThreadCreateVirtual,
    ),
    (b"java/lang/Thread", b"start", b"()V", Native::ThreadStart),
    (
        b"java/lang/Thread",
        b"interrupt",
        b"()V",
        Native::ThreadInterrupt,
    ),
    (
        b"java/lang/Thread",
        b"isInterrupted",
        b"()Z",
        Native::ThreadIsInterrupted,
    ),
    (b"java/lang/Thread", b"join", b"()V", Native::ThreadJoin),
    (
        b"java/lang/Thread",
        b"join",
        b"(J)V",
        Native::ThreadJoinMillis,
    ),
    (
        b"java/lang/Thread",
        b"isAlive",
        b"()Z",
        Native::ThreadIsAlive,
    ),
    (
        b"java/lang/Thread",
        b"isVirtual",
        b"()Z",
        Native::ThreadIsVirtual,
    ),
    (
        b"java/lang/Thread",
        b"isDaemon",
        b"()Z",
        Native::ThreadIsDaemon,
    ),
    (
        b"java/lang/Thread",
        b"setDaemon",
        b"(Z)V",
        Native::ThreadSetDaemon,
    ),
    (
        b"java/lang/Thread",
        b"getName",
        b"()Ljava/lang/String;",
        Native::ThreadGetName,
    ),
    (
        b"java/lang/Thread",
        b"setName",
        b"(Ljava/lang/String;)V",
        Native::ThreadSetName,
    ),
    (b"java/lang/Thread", b"threadId", b"()J", Native::ThreadId),
    (
        b"java/lang/Thread",
        b"getState",
        b"()Ljava/lang/Thread$State;",
        Native::ThreadGetState,
    ),
    (
        b"java/lang/Thread",
        b"currentThread",
        b"()Ljava/lang/Thread;",
        Native::ThreadCurrentThread,
    ),
    (b"java/lang/Thread", b"yield", b"()V", Native::ThreadYield),
    (
        b"java/lang/Thread",
        b"onSpinWait",
        b"()V",
        Native::ThreadOnSpinWait,
    ),
    (b"java/lang/Thread", b"sleep", b"(J)V", Native::ThreadSleep),
    (
        b"java/lang/Thread",
        b"interrupted",
        b"()Z",
        Native::ThreadInterrupted,
    ),
    (
        b"java/util/concurrent/locks/LockSupport",
        b"park",
        b"()V",
        Native::LockSupportPark,
    ),
    (
        b"java/util/concurrent/locks/LockSupport",
        b"park",
        b"(Ljava/lang/Object;)V",
        Native::LockSupportParkBlocker,
    ),
    (
        b"java/util/concurrent/locks/LockSupport",
        b"parkNanos",
        b"(J)V",
        Native::LockSupportParkNanos,
    ),
    (
        b"java/util/concurrent/locks/LockSupport",
        b"parkNanos",
        b"(Ljava/lang/Object;J)V",
        Native::LockSupportParkNanosBlocker,
    ),
    (
        b"java/util/concurrent/locks/LockSupport",
        b"unpark",
        b"(Ljava/lang/Thread;)V",
        Native::LockSupportUnpark,
    ),
];

// Methods that have code, or none at all, and no method.
const NO_NATIVES: [(&[u8], &[u8], &[u8]); 5] = [
    (b"java/lang/Thread", b"run", b"()V"),
    (b"java/lang/Runnable", b"run", b"()V"),
    (b"java/lang/Thread", b"join", b"(I)V"),
    (b"java/lang/Thread", b"length", b"()I"),
    (b"A", b"length", b"()I"),
];

fn native_named(
    alloc: Global,
    class: &[u8],
    name: &[u8],
    descriptor: &[u8],
) -> Result<Option<Native>, AllocError> {
    let class = units_of(alloc, class)?;
    let name = units_of(alloc, name)?;
    let descriptor = units_of(alloc, descriptor)?;
    Ok(native_of(&class, &name, &descriptor))
}

#[test]
fn natives_are_found_by_their_names(rt: HostRuntime) -> Result<(), Fail> {
    for (class, name, descriptor, native) in NATIVES {
        let found = native_named(rt.alloc(), class, name, descriptor)?;
        assert_eq!(rt; found, Some(native));
    }
    for (class, name, descriptor) in NO_NATIVES {
        let found = native_named(rt.alloc(), class, name, descriptor)?;
        assert_eq!(rt; found, None);
    }
    Ok(())
}

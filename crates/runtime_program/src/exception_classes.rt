//! The classes of the exceptions that the machine itself throws.

ghost use Rattle.std.specs.Prelude.{◌≡◌, IfOk};
ghost use Rattle.runtime_program.specs.Exceptions as spec;

use crate::class_numbers::named;
use items::NoMemory;
use link_tables::Tables;
use ref_model::Exception;
use std::alloc::Global;

/// The numbers of these classes, `None` where no pool or descriptor has the name.
#[derive(Clone, Copy)]
pub(crate) struct ExceptionClasses {
    abstract_method: Option<u32>,
    arithmetic: Option<u32>,
    array_index: Option<u32>,
    array_store: Option<u32>,
    class_cast: Option<u32>,
    illegal_argument: Option<u32>,
    illegal_monitor_state: Option<u32>,
    illegal_thread_state: Option<u32>,
    class_change: Option<u32>,
    interrupted: Option<u32>,
    negative_size: Option<u32>,
    null_pointer: Option<u32>,
    out_of_memory: Option<u32>,
    stack_overflow: Option<u32>,
    string_index: Option<u32>,
    verify: Option<u32>,
}

/// The numbers of these classes in a program.
pub(crate) fn exception_classes(
    alloc: Global,
    tables: &Tables,
) -> Result<ExceptionClasses, NoMemory>
    ensures { IfOk result (λ e. e ≡ spec.exceptions_of tables.now) }
{
    Ok(ExceptionClasses {
        abstract_method: named(alloc, tables, b"java/lang/AbstractMethodError")?,
        arithmetic: named(alloc, tables, b"java/lang/ArithmeticException")?,
        array_index: named(alloc, tables, b"java/lang/ArrayIndexOutOfBoundsException")?,
        array_store: named(alloc, tables, b"java/lang/ArrayStoreException")?,
        class_cast: named(alloc, tables, b"java/lang/ClassCastException")?,
        illegal_argument: named(alloc, tables, b"java/lang/IllegalArgumentException")?,
        illegal_monitor_state: named(alloc, tables, b"java/lang/IllegalMonitorStateException")?,
        illegal_thread_state: named(alloc, tables, b"java/lang/IllegalThreadStateException")?,
        class_change: named(alloc, tables, b"java/lang/IncompatibleClassChangeError")?,
        interrupted: named(alloc, tables, b"java/lang/InterruptedException")?,
        negative_size: named(alloc, tables, b"java/lang/NegativeArraySizeException")?,
        null_pointer: named(alloc, tables, b"java/lang/NullPointerException")?,
        out_of_memory: named(alloc, tables, b"java/lang/OutOfMemoryError")?,
        stack_overflow: named(alloc, tables, b"java/lang/StackOverflowError")?,
        string_index: named(alloc, tables, b"java/lang/StringIndexOutOfBoundsException")?,
        verify: named(alloc, tables, b"java/lang/VerifyError")?,
    })
}

/// The number of the class of an exception.
pub(crate) fn exception_in(classes: &ExceptionClasses, exception: Exception) -> Option<u32>
    ensures { result ≡ spec.exception_in classes.now exception }
{
    match exception {
        Exception::AbstractMethodError => classes.abstract_method,
        Exception::ArithmeticException => classes.arithmetic,
        Exception::ArrayIndexOutOfBoundsException => classes.array_index,
        Exception::ArrayStoreException => classes.array_store,
        Exception::ClassCastException => classes.class_cast,
        Exception::IllegalArgumentException => classes.illegal_argument,
        Exception::IllegalMonitorStateException => classes.illegal_monitor_state,
        Exception::IllegalThreadStateException => classes.illegal_thread_state,
        Exception::IncompatibleClassChangeError => classes.class_change,
        Exception::InterruptedException => classes.interrupted,
        Exception::NegativeArraySizeException => classes.negative_size,
        Exception::NullPointerException => classes.null_pointer,
        Exception::OutOfMemoryError => classes.out_of_memory,
        Exception::StackOverflowError => classes.stack_overflow,
        Exception::StringIndexOutOfBoundsException => classes.string_index,
        Exception::VerifyError => classes.verify,
    }
}

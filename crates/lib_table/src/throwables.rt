//! What is thrown.

ghost use Rattle.std.specs.Prelude.{◌≡◌, map};
ghost use Rattle.lib_table.specs.Declarations.{class_of};
ghost use Rattle.lib_table.specs.Throwables.{classes};

use crate::declarations::ClassDeclaration;
use crate::words::{field, flags, method, throwable};

static CLASSES: [ClassDeclaration; 27] = [
    ClassDeclaration {
        flags: flags!(public),
        name: "java/lang/Throwable",
        parent: Some("java/lang/Object"),
        interfaces: &["java/io/Serializable"],
        fields: &[field!(private "0message" "Ljava/lang/String;")],
        methods: &[
            method!(public "<init>" "()V" stack 1 locals 1 {
                Aload0;
                Invokespecial("java/lang/Object", "<init>", "()V");
                Return;
            }),
            method!(public "<init>" "(Ljava/lang/String;)V" stack 2 locals 2 {
                Aload0;
                Invokespecial("java/lang/Object", "<init>", "()V");
                Aload0;
                Aload1;
                Putfield("java/lang/Throwable", "0message", "Ljava/lang/String;");
                Return;
            }),
            method!(public "getMessage" "()Ljava/lang/String;" stack 1 locals 1 {
                Aload0;
                Getfield("java/lang/Throwable", "0message", "Ljava/lang/String;");
                Areturn;
            }),
        ],
    },
    throwable!(public "java/lang/Exception" extends "java/lang/Throwable"),
    throwable!(public "java/lang/Error" extends "java/lang/Throwable"),
    throwable!(public "java/lang/RuntimeException" extends "java/lang/Exception"),
    throwable!(public "java/lang/InterruptedException" extends "java/lang/Exception"),
    throwable!(public "java/lang/ArithmeticException" extends "java/lang/RuntimeException"),
    throwable!(public "java/lang/ArrayStoreException" extends "java/lang/RuntimeException"),
    throwable!(public "java/lang/ClassCastException" extends "java/lang/RuntimeException"),
    throwable!(public "java/lang/IllegalArgumentException" extends "java/lang/RuntimeException"),
    throwable!(public "java/lang/IllegalMonitorStateException" extends "java/lang/RuntimeException"),
    throwable!(public "java/lang/IllegalStateException" extends "java/lang/RuntimeException"),
    throwable!(public "java/lang/IndexOutOfBoundsException" extends "java/lang/RuntimeException"),
    throwable!(public "java/lang/NegativeArraySizeException" extends "java/lang/RuntimeException"),
    throwable!(public "java/lang/NullPointerException" extends "java/lang/RuntimeException"),
    throwable!(public "java/lang/UnsupportedOperationException" extends "java/lang/RuntimeException"),
    throwable!(public "java/lang/IllegalThreadStateException" extends "java/lang/IllegalArgumentException"),
    throwable!(public "java/lang/ArrayIndexOutOfBoundsException" extends "java/lang/IndexOutOfBoundsException"),
    throwable!(public "java/lang/StringIndexOutOfBoundsException" extends "java/lang/IndexOutOfBoundsException"),
    throwable!(public "java/lang/LinkageError" extends "java/lang/Error"),
    throwable!(public abstract "java/lang/VirtualMachineError" extends "java/lang/Error"),
    throwable!(public "java/lang/IncompatibleClassChangeError" extends "java/lang/LinkageError"),
    throwable!(public "java/lang/VerifyError" extends "java/lang/LinkageError"),
    throwable!(public "java/lang/NoClassDefFoundError" extends "java/lang/LinkageError"),
    throwable!(public "java/lang/ExceptionInInitializerError" extends "java/lang/LinkageError"),
    throwable!(public "java/lang/AbstractMethodError" extends "java/lang/IncompatibleClassChangeError"),
    throwable!(public "java/lang/OutOfMemoryError" extends "java/lang/VirtualMachineError"),
    throwable!(public "java/lang/StackOverflowError" extends "java/lang/VirtualMachineError"),
];

/// The declarations of these classes.
pub fn throwable_classes() -> &'static [ClassDeclaration]
    ensures { map class_of result.now ≡ classes }
{
    &CLASSES
}

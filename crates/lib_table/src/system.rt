//! `java.lang.System` and its streams.

ghost use Rattle.std.specs.Prelude.{◌≡◌, map};
ghost use Rattle.lib_table.specs.Declarations.{class_of};
ghost use Rattle.lib_table.specs.System.{classes};

use crate::declarations::ClassDeclaration;
use crate::words::{field, flags, method};

static CLASSES: [ClassDeclaration; 2] = [
    ClassDeclaration {
        flags: flags!(public final),
        name: "java/lang/System",
        parent: Some("java/lang/Object"),
        interfaces: &[],
        fields: &[
            field!(public static final "out" "Ljava/io/PrintStream;"),
            field!(public static final "err" "Ljava/io/PrintStream;"),
        ],
        methods: &[
            method!(public static native "exit" "(I)V" = SystemExit),
            method!(public static native "nanoTime" "()J" = SystemNanoTime),
            method!(public static native "currentTimeMillis" "()J" = SystemCurrentTimeMillis),
        ],
    },
    // A program makes no stream, so there is no constructor.
    ClassDeclaration {
        flags: flags!(public),
        name: "java/io/PrintStream",
        parent: Some("java/lang/Object"),
        interfaces: &[],
        fields: &[],
        methods: &[
            method!(public native "println" "()V" = PrintStreamPrintln),
            method!(public native "println" "(I)V" = PrintStreamPrintlnInt),
            method!(public native "println" "(J)V" = PrintStreamPrintlnLong),
            method!(public native "println" "(C)V" = PrintStreamPrintlnChar),
            method!(public native "println" "(Z)V" = PrintStreamPrintlnBoolean),
            method!(public native "println" "(Ljava/lang/String;)V" = PrintStreamPrintlnString),
            method!(public "println" "(Ljava/lang/Object;)V" stack 2 locals 2 {
                Aload0;
                Aload1;
                Invokestatic("java/lang/String", "valueOf", "(Ljava/lang/Object;)Ljava/lang/String;");
                Invokevirtual("java/io/PrintStream", "println", "(Ljava/lang/String;)V");
                Return;
            }),
            method!(public native "print" "(I)V" = PrintStreamPrintInt),
            method!(public native "print" "(J)V" = PrintStreamPrintLong),
            method!(public native "print" "(C)V" = PrintStreamPrintChar),
            method!(public native "print" "(Z)V" = PrintStreamPrintBoolean),
            method!(public native "print" "(Ljava/lang/String;)V" = PrintStreamPrintString),
            method!(public "print" "(Ljava/lang/Object;)V" stack 2 locals 2 {
                Aload0;
                Aload1;
                Invokestatic("java/lang/String", "valueOf", "(Ljava/lang/Object;)Ljava/lang/String;");
                Invokevirtual("java/io/PrintStream", "print", "(Ljava/lang/String;)V");
                Return;
            }),
        ],
    },
];

/// The declarations of these classes.
pub fn system_classes() -> &'static [ClassDeclaration]
    ensures { map class_of result.now ≡ classes }
{
    &CLASSES
}

//! Strings.

ghost use Rattle.std.specs.Prelude.{◌≡◌, map};
ghost use Rattle.lib_table.specs.Declarations.{class_of};
ghost use Rattle.lib_table.specs.Texts.{classes};

use crate::declarations::ClassDeclaration;
use crate::words::{field, flags, method};

static CLASSES: [ClassDeclaration; 2] = [
    ClassDeclaration {
        flags: flags!(public final),
        name: "java/lang/String",
        parent: Some("java/lang/Object"),
        interfaces: &["java/io/Serializable"],
        fields: &[],
        methods: &[
            method!(public native "length" "()I" = StringLength),
            method!(public native "charAt" "(I)C" = StringCharAt),
            method!(public native "isEmpty" "()Z" = StringIsEmpty),
            method!(public native "equals" "(Ljava/lang/Object;)Z" = StringEquals),
            method!(public native "hashCode" "()I" = StringHashCode),
            method!(public native "concat" "(Ljava/lang/String;)Ljava/lang/String;" = StringConcat),
            method!(public native "toString" "()Ljava/lang/String;" = StringToString),
            method!(public static native "valueOf" "(I)Ljava/lang/String;" = StringValueOfInt),
            method!(public static native "valueOf" "(J)Ljava/lang/String;" = StringValueOfLong),
            method!(public static native "valueOf" "(C)Ljava/lang/String;" = StringValueOfChar),
            method!(public static native "valueOf" "(Z)Ljava/lang/String;" = StringValueOfBoolean),
            method!(public static "valueOf" "(Ljava/lang/Object;)Ljava/lang/String;" stack 1 locals 1 frame 8 {
                Aload0;
                Ifnonnull(8);
                LdcW("null");
                Areturn;
                Aload0;
                Invokevirtual("java/lang/Object", "toString", "()Ljava/lang/String;");
                Areturn;
            }),
        ],
    },
    // Its field is the text so far.
    ClassDeclaration {
        flags: flags!(public final),
        name: "java/lang/StringBuilder",
        parent: Some("java/lang/Object"),
        interfaces: &["java/io/Serializable"],
        fields: &[field!(private "0text" "Ljava/lang/String;")],
        methods: &[
            method!(public native "<init>" "()V" = StringBuilderInit),
            method!(public native "append" "(I)Ljava/lang/StringBuilder;" = StringBuilderAppendInt),
            method!(public native "append" "(J)Ljava/lang/StringBuilder;" = StringBuilderAppendLong),
            method!(public native "append" "(C)Ljava/lang/StringBuilder;" = StringBuilderAppendChar),
            method!(public native "append" "(Z)Ljava/lang/StringBuilder;" = StringBuilderAppendBoolean),
            method!(public native "append" "(Ljava/lang/String;)Ljava/lang/StringBuilder;" = StringBuilderAppendString),
            method!(public "append" "(Ljava/lang/Object;)Ljava/lang/StringBuilder;" stack 2 locals 2 {
                Aload0;
                Aload1;
                Invokestatic("java/lang/String", "valueOf", "(Ljava/lang/Object;)Ljava/lang/String;");
                Invokevirtual("java/lang/StringBuilder", "append", "(Ljava/lang/String;)Ljava/lang/StringBuilder;");
                Areturn;
            }),
            method!(public native "length" "()I" = StringBuilderLength),
            method!(public native "toString" "()Ljava/lang/String;" = StringBuilderToString),
        ],
    },
];

/// The declarations of these classes.
pub fn text_classes() -> &'static [ClassDeclaration]
    ensures { map class_of result.now ≡ classes }
{
    &CLASSES
}

//! `java.lang.Object`, and what every object may be.

ghost use Rattle.std.specs.Prelude.{◌≡◌, map};
ghost use Rattle.lib_table.specs.Declarations.{class_of};
ghost use Rattle.lib_table.specs.Objects.{classes};

use crate::declarations::ClassDeclaration;
use crate::words::{field, flags, method};

static CLASSES: [ClassDeclaration; 5] = [
    ClassDeclaration {
        flags: flags!(public),
        name: "java/lang/Object",
        parent: None,
        interfaces: &[],
        fields: &[],
        methods: &[
            method!(public native "<init>" "()V" = ObjectInit),
            method!(public native "equals" "(Ljava/lang/Object;)Z" = ObjectEquals),
            method!(public native "hashCode" "()I" = ObjectHashCode),
            method!(public "toString" "()Ljava/lang/String;" stack 2 locals 1 {
                Aload0;
                Aload0;
                Invokevirtual("java/lang/Object", "hashCode", "()I");
                Invokevirtual("java/lang/Object", "0toString", "(I)Ljava/lang/String;");
                Areturn;
            }),
            method!(private native "0toString" "(I)Ljava/lang/String;" = ObjectToString),
            method!(public final native "wait" "()V" = ObjectWait),
            method!(public final native "wait" "(J)V" = ObjectWaitMillis),
            method!(public final native "notify" "()V" = ObjectNotify),
            method!(public final native "notifyAll" "()V" = ObjectNotifyAll),
        ],
    },
    ClassDeclaration {
        flags: flags!(public final),
        name: "java/util/Objects",
        parent: Some("java/lang/Object"),
        interfaces: &[],
        fields: &[],
        methods: &[
            method!(public static "requireNonNull" "(Ljava/lang/Object;)Ljava/lang/Object;" stack 2 locals 1 frame 12 {
                Aload0;
                Ifnonnull(12);
                New("java/lang/NullPointerException");
                Dup;
                Invokespecial("java/lang/NullPointerException", "<init>", "()V");
                Athrow;
                Aload0;
                Areturn;
            }),
        ],
    },
    ClassDeclaration {
        flags: flags!(public interface abstract),
        name: "java/lang/Cloneable",
        parent: Some("java/lang/Object"),
        interfaces: &[],
        fields: &[],
        methods: &[],
    },
    ClassDeclaration {
        flags: flags!(public interface abstract),
        name: "java/io/Serializable",
        parent: Some("java/lang/Object"),
        interfaces: &[],
        fields: &[],
        methods: &[],
    },
    // A program declares no enum, so there is no constructor.
    ClassDeclaration {
        flags: flags!(public abstract),
        name: "java/lang/Enum",
        parent: Some("java/lang/Object"),
        interfaces: &["java/io/Serializable"],
        fields: &[
            field!(private "0name" "Ljava/lang/String;"),
            field!(private "0ordinal" "I"),
        ],
        methods: &[
            method!(public final "name" "()Ljava/lang/String;" stack 1 locals 1 {
                Aload0;
                Getfield("java/lang/Enum", "0name", "Ljava/lang/String;");
                Areturn;
            }),
            method!(public final "ordinal" "()I" stack 1 locals 1 {
                Aload0;
                Getfield("java/lang/Enum", "0ordinal", "I");
                Ireturn;
            }),
            method!(public "toString" "()Ljava/lang/String;" stack 1 locals 1 {
                Aload0;
                Getfield("java/lang/Enum", "0name", "Ljava/lang/String;");
                Areturn;
            }),
        ],
    },
];

/// The declarations of these classes.
pub fn object_classes() -> &'static [ClassDeclaration]
    ensures { map class_of result.now ≡ classes }
{
    &CLASSES
}

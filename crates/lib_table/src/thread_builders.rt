//! The builders of threads.

ghost use Rattle.std.specs.Prelude.{◌≡◌, map};
ghost use Rattle.lib_table.specs.Declarations.{class_of};
ghost use Rattle.lib_table.specs.ThreadBuilders.{classes};

use crate::declarations::ClassDeclaration;
use crate::words::{field, flags, method};

static CLASSES: [ClassDeclaration; 5] = [
    ClassDeclaration {
        flags: flags!(public interface abstract),
        name: "java/lang/Thread$Builder",
        parent: Some("java/lang/Object"),
        interfaces: &[],
        fields: &[],
        methods: &[
            method!(public abstract "name" "(Ljava/lang/String;)Ljava/lang/Thread$Builder;"),
            method!(public abstract "start" "(Ljava/lang/Runnable;)Ljava/lang/Thread;"),
            method!(public abstract "unstarted" "(Ljava/lang/Runnable;)Ljava/lang/Thread;"),
        ],
    },
    ClassDeclaration {
        flags: flags!(public interface abstract),
        name: "java/lang/Thread$Builder$OfVirtual",
        parent: Some("java/lang/Object"),
        interfaces: &["java/lang/Thread$Builder"],
        fields: &[],
        methods: &[
            method!(public abstract "name" "(Ljava/lang/String;)Ljava/lang/Thread$Builder$OfVirtual;"),
        ],
    },
    ClassDeclaration {
        flags: flags!(public interface abstract),
        name: "java/lang/Thread$Builder$OfPlatform",
        parent: Some("java/lang/Object"),
        interfaces: &["java/lang/Thread$Builder"],
        fields: &[],
        methods: &[
            method!(public abstract "name" "(Ljava/lang/String;)Ljava/lang/Thread$Builder$OfPlatform;"),
            method!(public abstract "daemon" "(Z)Ljava/lang/Thread$Builder$OfPlatform;"),
            method!(public "daemon" "()Ljava/lang/Thread$Builder$OfPlatform;" stack 2 locals 1 {
                Aload0;
                Iconst1;
                Invokeinterface("java/lang/Thread$Builder$OfPlatform", "daemon", "(Z)Ljava/lang/Thread$Builder$OfPlatform;", 2);
                Areturn;
            }),
        ],
    },
    // What `Thread.ofVirtual` gives. Where no name was given it is null.
    ClassDeclaration {
        flags: flags!(final),
        name: "java/lang/ThreadBuilders$VirtualThreadBuilder",
        parent: Some("java/lang/Object"),
        interfaces: &["java/lang/Thread$Builder$OfVirtual"],
        fields: &[field!(private "0name" "Ljava/lang/String;")],
        methods: &[
            method!("<init>" "()V" stack 1 locals 1 {
                Aload0;
                Invokespecial("java/lang/Object", "<init>", "()V");
                Return;
            }),
            method!(public "name" "(Ljava/lang/String;)Ljava/lang/Thread$Builder$OfVirtual;" stack 2 locals 2 {
                Aload1;
                Invokestatic("java/util/Objects", "requireNonNull", "(Ljava/lang/Object;)Ljava/lang/Object;");
                Pop;
                Aload0;
                Aload1;
                Putfield("java/lang/ThreadBuilders$VirtualThreadBuilder", "0name", "Ljava/lang/String;");
                Aload0;
                Areturn;
            }),
            method!(public "name" "(Ljava/lang/String;)Ljava/lang/Thread$Builder;" stack 2 locals 2 {
                Aload0;
                Aload1;
                Invokevirtual("java/lang/ThreadBuilders$VirtualThreadBuilder", "name", "(Ljava/lang/String;)Ljava/lang/Thread$Builder$OfVirtual;");
                Areturn;
            }),
            method!(public "unstarted" "(Ljava/lang/Runnable;)Ljava/lang/Thread;" stack 4 locals 2 {
                Aload1;
                Invokestatic("java/util/Objects", "requireNonNull", "(Ljava/lang/Object;)Ljava/lang/Object;");
                Pop;
                New("java/lang/Thread");
                Dup;
                Aload1;
                Aload0;
                Invokespecial("java/lang/Thread", "<init>", "(Ljava/lang/Runnable;Ljava/lang/ThreadBuilders$VirtualThreadBuilder;)V");
                Areturn;
            }),
            method!(public "start" "(Ljava/lang/Runnable;)Ljava/lang/Thread;" stack 2 locals 2 {
                Aload0;
                Aload1;
                Invokevirtual("java/lang/ThreadBuilders$VirtualThreadBuilder", "unstarted", "(Ljava/lang/Runnable;)Ljava/lang/Thread;");
                Dup;
                Invokevirtual("java/lang/Thread", "start", "()V");
                Areturn;
            }),
        ],
    },
    // What `Thread.ofPlatform` gives. Where no name was given it is null; its `0daemon` counts where `0setsDaemon` is true.
    ClassDeclaration {
        flags: flags!(final),
        name: "java/lang/ThreadBuilders$PlatformThreadBuilder",
        parent: Some("java/lang/Object"),
        interfaces: &["java/lang/Thread$Builder$OfPlatform"],
        fields: &[
            field!(private "0name" "Ljava/lang/String;"),
            field!(private "0setsDaemon" "Z"),
            field!(private "0daemon" "Z"),
        ],
        methods: &[
            method!("<init>" "()V" stack 1 locals 1 {
                Aload0;
                Invokespecial("java/lang/Object", "<init>", "()V");
                Return;
            }),
            method!(public "name" "(Ljava/lang/String;)Ljava/lang/Thread$Builder$OfPlatform;" stack 2 locals 2 {
                Aload1;
                Invokestatic("java/util/Objects", "requireNonNull", "(Ljava/lang/Object;)Ljava/lang/Object;");
                Pop;
                Aload0;
                Aload1;
                Putfield("java/lang/ThreadBuilders$PlatformThreadBuilder", "0name", "Ljava/lang/String;");
                Aload0;
                Areturn;
            }),
            method!(public "name" "(Ljava/lang/String;)Ljava/lang/Thread$Builder;" stack 2 locals 2 {
                Aload0;
                Aload1;
                Invokevirtual("java/lang/ThreadBuilders$PlatformThreadBuilder", "name", "(Ljava/lang/String;)Ljava/lang/Thread$Builder$OfPlatform;");
                Areturn;
            }),
            method!(public "daemon" "(Z)Ljava/lang/Thread$Builder$OfPlatform;" stack 2 locals 2 {
                Aload0;
                Iconst1;
                Putfield("java/lang/ThreadBuilders$PlatformThreadBuilder", "0setsDaemon", "Z");
                Aload0;
                Iload1;
                Putfield("java/lang/ThreadBuilders$PlatformThreadBuilder", "0daemon", "Z");
                Aload0;
                Areturn;
            }),
            method!(public "unstarted" "(Ljava/lang/Runnable;)Ljava/lang/Thread;" stack 4 locals 3 {
                Aload1;
                Invokestatic("java/util/Objects", "requireNonNull", "(Ljava/lang/Object;)Ljava/lang/Object;");
                Pop;
                New("java/lang/Thread");
                Dup;
                Aload1;
                Aload0;
                Invokespecial("java/lang/Thread", "<init>", "(Ljava/lang/Runnable;Ljava/lang/ThreadBuilders$PlatformThreadBuilder;)V");
                Astore2;
                Aload0;
                Aload2;
                Invokevirtual("java/lang/ThreadBuilders$PlatformThreadBuilder", "0setDaemon", "(Ljava/lang/Thread;)V");
                Aload2;
                Areturn;
            }),
            method!(private "0setDaemon" "(Ljava/lang/Thread;)V" stack 2 locals 2 frame 15 {
                Aload0;
                Getfield("java/lang/ThreadBuilders$PlatformThreadBuilder", "0setsDaemon", "Z");
                Ifeq(15);
                Aload1;
                Aload0;
                Getfield("java/lang/ThreadBuilders$PlatformThreadBuilder", "0daemon", "Z");
                Invokevirtual("java/lang/Thread", "setDaemon", "(Z)V");
                Return;
            }),
            method!(public "start" "(Ljava/lang/Runnable;)Ljava/lang/Thread;" stack 2 locals 2 {
                Aload0;
                Aload1;
                Invokevirtual("java/lang/ThreadBuilders$PlatformThreadBuilder", "unstarted", "(Ljava/lang/Runnable;)Ljava/lang/Thread;");
                Dup;
                Invokevirtual("java/lang/Thread", "start", "()V");
                Areturn;
            }),
        ],
    },
];

/// The declarations of these classes.
pub fn builder_classes() -> &'static [ClassDeclaration]
    ensures { map class_of result.now ≡ classes }
{
    &CLASSES
}

//! Threads.

ghost use Rattle.std.specs.Prelude.{◌≡◌, map};
ghost use Rattle.lib_table.specs.Declarations.{class_of};
ghost use Rattle.lib_table.specs.Threads.{classes};

use crate::declarations::ClassDeclaration;
use crate::words::{field, flags, method};

static CLASSES: [ClassDeclaration; 5] = [
    ClassDeclaration {
        flags: flags!(public interface abstract),
        name: "java/lang/Runnable",
        parent: Some("java/lang/Object"),
        interfaces: &[],
        fields: &[],
        methods: &[method!(public abstract "run" "()V")],
    },
    // Its fields are what `run` calls, and the number of its thread. The two private constructors are for the builders.
    ClassDeclaration {
        flags: flags!(public),
        name: "java/lang/Thread",
        parent: Some("java/lang/Object"),
        interfaces: &["java/lang/Runnable"],
        fields: &[
            field!(private "0target" "Ljava/lang/Runnable;"),
            field!(private "0number" "I"),
        ],
        methods: &[
            method!(public "<init>" "()V" stack 2 locals 1 {
                Aload0;
                Invokespecial("java/lang/Object", "<init>", "()V");
                Aload0;
                AconstNull;
                Invokevirtual("java/lang/Thread", "0createPlatform", "(Ljava/lang/String;)V");
                Return;
            }),
            method!(public "<init>" "(Ljava/lang/Runnable;)V" stack 2 locals 2 {
                Aload0;
                Invokespecial("java/lang/Object", "<init>", "()V");
                Aload0;
                Aload1;
                Putfield("java/lang/Thread", "0target", "Ljava/lang/Runnable;");
                Aload0;
                AconstNull;
                Invokevirtual("java/lang/Thread", "0createPlatform", "(Ljava/lang/String;)V");
                Return;
            }),
            method!(public "<init>" "(Ljava/lang/String;)V" stack 2 locals 2 {
                Aload0;
                Invokespecial("java/lang/Object", "<init>", "()V");
                Aload1;
                Invokestatic("java/util/Objects", "requireNonNull", "(Ljava/lang/Object;)Ljava/lang/Object;");
                Pop;
                Aload0;
                Aload1;
                Invokevirtual("java/lang/Thread", "0createPlatform", "(Ljava/lang/String;)V");
                Return;
            }),
            method!(public "<init>" "(Ljava/lang/Runnable;Ljava/lang/String;)V" stack 2 locals 3 {
                Aload0;
                Invokespecial("java/lang/Object", "<init>", "()V");
                Aload2;
                Invokestatic("java/util/Objects", "requireNonNull", "(Ljava/lang/Object;)Ljava/lang/Object;");
                Pop;
                Aload0;
                Aload1;
                Putfield("java/lang/Thread", "0target", "Ljava/lang/Runnable;");
                Aload0;
                Aload2;
                Invokevirtual("java/lang/Thread", "0createPlatform", "(Ljava/lang/String;)V");
                Return;
            }),
            method!(private "<init>" "(Ljava/lang/Runnable;Ljava/lang/ThreadBuilders$VirtualThreadBuilder;)V" stack 2 locals 3 {
                Aload0;
                Invokespecial("java/lang/Object", "<init>", "()V");
                Aload0;
                Aload1;
                Putfield("java/lang/Thread", "0target", "Ljava/lang/Runnable;");
                Aload0;
                Aload2;
                Getfield("java/lang/ThreadBuilders$VirtualThreadBuilder", "0name", "Ljava/lang/String;");
                Invokevirtual("java/lang/Thread", "0createVirtual", "(Ljava/lang/String;)V");
                Return;
            }),
            method!(private "<init>" "(Ljava/lang/Runnable;Ljava/lang/ThreadBuilders$PlatformThreadBuilder;)V" stack 2 locals 3 {
                Aload0;
                Invokespecial("java/lang/Object", "<init>", "()V");
                Aload0;
                Aload1;
                Putfield("java/lang/Thread", "0target", "Ljava/lang/Runnable;");
                Aload0;
                Aload2;
                Getfield("java/lang/ThreadBuilders$PlatformThreadBuilder", "0name", "Ljava/lang/String;");
                Invokevirtual("java/lang/Thread", "0createPlatform", "(Ljava/lang/String;)V");
                Return;
            }),
            method!(private native "0createPlatform" "(Ljava/lang/String;)V" = ThreadCreatePlatform),
            method!(private native "0createVirtual" "(Ljava/lang/String;)V" = ThreadCreateVirtual),
            method!(public "run" "()V" stack 1 locals 1 frame 16 {
                Aload0;
                Getfield("java/lang/Thread", "0target", "Ljava/lang/Runnable;");
                Ifnull(16);
                Aload0;
                Getfield("java/lang/Thread", "0target", "Ljava/lang/Runnable;");
                Invokeinterface("java/lang/Runnable", "run", "()V", 1);
                Return;
            }),
            method!(public native "start" "()V" = ThreadStart),
            method!(public native "interrupt" "()V" = ThreadInterrupt),
            method!(public native "isInterrupted" "()Z" = ThreadIsInterrupted),
            method!(public final native "join" "()V" = ThreadJoin),
            method!(public final native "join" "(J)V" = ThreadJoinMillis),
            method!(public final native "isAlive" "()Z" = ThreadIsAlive),
            method!(public final native "isVirtual" "()Z" = ThreadIsVirtual),
            method!(public final native "isDaemon" "()Z" = ThreadIsDaemon),
            method!(public final native "setDaemon" "(Z)V" = ThreadSetDaemon),
            method!(public final native "getName" "()Ljava/lang/String;" = ThreadGetName),
            method!(public final native "setName" "(Ljava/lang/String;)V" = ThreadSetName),
            method!(public final native "threadId" "()J" = ThreadId),
            method!(public native "getState" "()Ljava/lang/Thread$State;" = ThreadGetState),
            method!(public static native "currentThread" "()Ljava/lang/Thread;" = ThreadCurrentThread),
            method!(public static native "yield" "()V" = ThreadYield),
            method!(public static native "onSpinWait" "()V" = ThreadOnSpinWait),
            method!(public static native "sleep" "(J)V" = ThreadSleep),
            method!(public static native "interrupted" "()Z" = ThreadInterrupted),
            method!(public static "startVirtualThread" "(Ljava/lang/Runnable;)Ljava/lang/Thread;" stack 2 locals 1 {
                Invokestatic("java/lang/Thread", "ofVirtual", "()Ljava/lang/Thread$Builder$OfVirtual;");
                Aload0;
                Invokeinterface("java/lang/Thread$Builder$OfVirtual", "start", "(Ljava/lang/Runnable;)Ljava/lang/Thread;", 2);
                Areturn;
            }),
            method!(public static "ofVirtual" "()Ljava/lang/Thread$Builder$OfVirtual;" stack 2 locals 0 {
                New("java/lang/ThreadBuilders$VirtualThreadBuilder");
                Dup;
                Invokespecial("java/lang/ThreadBuilders$VirtualThreadBuilder", "<init>", "()V");
                Areturn;
            }),
            method!(public static "ofPlatform" "()Ljava/lang/Thread$Builder$OfPlatform;" stack 2 locals 0 {
                New("java/lang/ThreadBuilders$PlatformThreadBuilder");
                Dup;
                Invokespecial("java/lang/ThreadBuilders$PlatformThreadBuilder", "<init>", "()V");
                Areturn;
            }),
        ],
    },
    ClassDeclaration {
        flags: flags!(public final),
        name: "java/lang/Thread$State",
        parent: Some("java/lang/Enum"),
        interfaces: &[],
        fields: &[
            field!(public static final "NEW" "Ljava/lang/Thread$State;"),
            field!(public static final "RUNNABLE" "Ljava/lang/Thread$State;"),
            field!(public static final "BLOCKED" "Ljava/lang/Thread$State;"),
            field!(public static final "WAITING" "Ljava/lang/Thread$State;"),
            field!(public static final "TIMED_WAITING" "Ljava/lang/Thread$State;"),
            field!(public static final "TERMINATED" "Ljava/lang/Thread$State;"),
        ],
        methods: &[],
    },
    ClassDeclaration {
        flags: flags!(public final),
        name: "java/util/concurrent/locks/LockSupport",
        parent: Some("java/lang/Object"),
        interfaces: &[],
        fields: &[],
        methods: &[
            method!(public static native "park" "()V" = LockSupportPark),
            method!(public static native "park" "(Ljava/lang/Object;)V" = LockSupportParkBlocker),
            method!(public static native "parkNanos" "(J)V" = LockSupportParkNanos),
            method!(public static native "parkNanos" "(Ljava/lang/Object;J)V" = LockSupportParkNanosBlocker),
            method!(public static native "unpark" "(Ljava/lang/Thread;)V" = LockSupportUnpark),
        ],
    },
    // Its method runs under a native frame.
    ClassDeclaration {
        flags: flags!(public final),
        name: "jvt/Native",
        parent: Some("java/lang/Object"),
        interfaces: &[],
        fields: &[],
        methods: &[
            method!(public static "hold" "(Ljava/lang/Runnable;)V" stack 1 locals 1 {
                Aload0;
                Invokeinterface("java/lang/Runnable", "run", "()V", 1);
                Return;
            }),
        ],
    },
];

/// The declarations of these classes.
pub fn thread_classes() -> &'static [ClassDeclaration]
    ensures { map class_of result.now ≡ classes }
{
    &CLASSES
}

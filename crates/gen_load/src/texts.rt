//! The assembler text of the program's classes.

ghost use Rattle.std.specs.Prelude.{◌≡◌, ◌++◌, codes};
ghost use Rattle.gen_load.specs.Program as spec;
ghost use Rattle.gen_load.specs.Words.{text_of};

// The text of `Load` in front of the number of threads.
const LOAD_FRONT: &str = "class public super Load
super java/lang/Object
field static threads [Ljava/lang/Thread;
field static volatile turn I
field static total I
method public static main ([Ljava/lang/String;)V
stack 4 locals 4
ldc int ";

// The text of `Load` behind the number of threads.
const LOAD_BACK: &str = "
anewarray java/lang/Thread
astore_1
aload_1
putstatic Load threads [Ljava/lang/Thread;
iconst_0
istore_2
make:
frame ref [Ljava/lang/String; ref [Ljava/lang/Thread; int |
iload_2
aload_1
arraylength
if_icmpge made
invokestatic java/lang/Thread ofVirtual ()Ljava/lang/Thread$Builder$OfVirtual;
new Turn
dup
iload_2
invokespecial Turn <init> (I)V
invokeinterface java/lang/Thread$Builder$OfVirtual unstarted (Ljava/lang/Runnable;)Ljava/lang/Thread;
astore_3
aload_1
iload_2
aload_3
aastore
aload_3
invokevirtual java/lang/Thread start ()V
iinc 2 1
goto make
made:
frame ref [Ljava/lang/String; ref [Ljava/lang/Thread; int |
iconst_0
istore_2
join:
frame ref [Ljava/lang/String; ref [Ljava/lang/Thread; int |
iload_2
aload_1
arraylength
if_icmpge joined
aload_1
iload_2
aaload
invokevirtual java/lang/Thread join ()V
iinc 2 1
goto join
joined:
frame ref [Ljava/lang/String; ref [Ljava/lang/Thread; int |
getstatic java/lang/System out Ljava/io/PrintStream;
getstatic Load total I
invokevirtual java/io/PrintStream println (I)V
return
end
method static synchronized add (I)V
stack 2 locals 1
getstatic Load total I
iload_0
iadd
putstatic Load total I
return
end
";

// The text of `Turn`.
const TURN: &str = "class final super Turn
super java/lang/Object
implements java/lang/Runnable
field private final index I
method <init> (I)V
stack 2 locals 2
aload_0
invokespecial java/lang/Object <init> ()V
aload_0
iload_1
putfield Turn index I
return
end
method public run ()V
stack 2 locals 4
invokestatic java/lang/Thread yield ()V
aload_0
getfield Turn index I
istore_1
wait:
frame ref Turn int |
getstatic Load turn I
iload_1
if_icmpeq add
invokestatic java/util/concurrent/locks/LockSupport park ()V
goto wait
add:
frame ref Turn int |
iload_1
bipush 7
irem
invokestatic Load add (I)V
iload_1
iconst_1
iadd
istore_2
iload_2
putstatic Load turn I
getstatic Load threads [Ljava/lang/Thread;
astore_3
iload_2
aload_3
arraylength
if_icmpge done
aload_3
iload_2
aaload
invokestatic java/util/concurrent/locks/LockSupport unpark (Ljava/lang/Thread;)V
done:
frame ref Turn int int ref [Ljava/lang/Thread; |
return
end
";

/// The text of `Load` in front of the number of threads.
pub fn load_front() -> &'static str
    ensures { result.now ≡ text_of spec.load_front ++ codes "ldc int " }
{
    LOAD_FRONT
}

/// The text of `Load` behind the number of threads.
pub fn load_back() -> &'static str
    ensures { result.now ≡ codes "\n" ++ text_of spec.load_back }
{
    LOAD_BACK
}

/// The text of `Turn`.
pub fn turn_text() -> &'static str
    ensures { result.now ≡ text_of spec.turn }
{
    TURN
}

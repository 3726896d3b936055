//! What the help says, and what is wrong where clap isn't asked.

/// What the program does.
pub const ABOUT: &str =
    "Runs Java programs, with their many threads on a few operating-system threads";

/// What comes after the help of the program.
pub const AFTER_HELP: &str = "`jvt COMMAND --help` has what a command answers, and an example.";

/// What `run` does.
pub const RUN_ABOUT: &str = "Runs the main method of a class, from the program's class files";

/// What comes after the long help of `run`.
pub const AFTER_RUN: &str = "\
Exit status:
  0        the program ran to its end
  1        the same, and an exception that nothing caught ended main
  0..255   the program called System.exit: the low eight bits of its status
  64       the arguments are no command
  65       a file is no class file
  66       there is no such file
  67       a file could not be read
  68       the program does not link, or names what jvt doesn't have
  69       the code is not well typed
  70       no file has the class MAIN with public static void main(String[])
  71       a limit: 256 files, 4194304 bytes a file, 100000 threads, or --events
  72       no thread of the program can go on
  73       every carrier has a pinned thread that cannot go on
  74       standard output or standard error failed
  75       memory ran out
From 64 on, a line on standard error says which file, class or thread it is.

Example:
  javac --release 21 -XDstringConcat=inline -d out Hello.java
  jvt run --carriers 8 Hello out/*.class";

/// What `--carriers` is.
pub const CARRIERS: &str = "Operating-system threads to run on, from 1 to 64";

/// The same with more words.
pub const CARRIERS_LONG: &str = "\
Operating-system threads to run on, from 1 to 64: they carry all threads of the
program, virtual ones and platform ones. The JDK sets their number, for virtual
threads, by jdk.virtualThreadScheduler.parallelism.";

/// What `--events` is.
pub const EVENTS: &str = "The most entries of the history, from 1000 to 33554432";

/// The same with more words.
pub const EVENTS_LONG: &str = "\
The most entries of the history, from 1000 to 33554432. An access of a field or
an element, a new object and a line of output are one entry each, of 40 bytes at
most. A run that has no room for three more ends with status 71.";

/// What `--trace` is.
pub const TRACE: &str = "Print the history on standard error when the program has ended";

/// The same with more words.
pub const TRACE_LONG: &str = "\
Print the history on standard error when the program has ended: a line for each
entry, which says what a carrier did.";

/// What MAIN is.
pub const MAIN: &str = "The main class, with dots or slashes, as in com.example.Hello";

/// What the FILEs of `run` are.
pub const FILES: &str = "The class files of the program, MAIN's among them: at most 256";

/// The same with more words.
pub const FILES_LONG: &str = "\
The class files of the program, MAIN's among them: at most 256, of 4194304 bytes
each. There is no class path and no JAR file: a class that isn't the JDK's has
its file here.";

/// What `asm` does.
pub const ASM_ABOUT: &str = "Writes the class file that an assembler text makes";

/// The same with more words.
pub const ASM_LONG_ABOUT: &str = "\
Writes the class file that an assembler text makes to standard output: a class
file of version 61, which is that of javac --release 17.";

/// What comes after the long help of `asm`.
pub const AFTER_ASM: &str = "\
Exit status:
  0        the class file was written
  64       the arguments are no command
  66       there is no such file
  67       the file could not be read
  71       the file has more than 4194304 bytes
  74       standard output failed
  75       memory ran out
  76       the text is bad at the line that is named
From 64 on, a line on standard error says what went wrong. Nothing was written
to standard output then, unless it failed itself.

Example, with a text Answer.txt that makes a class which prints 42:
  class public super Answer
  super java/lang/Object
  method public static main ([Ljava/lang/String;)V
  stack 2 locals 1
  getstatic java/lang/System out Ljava/io/PrintStream;
  bipush 42
  invokevirtual java/io/PrintStream println (I)V
  return
  end

  jvt asm Answer.txt > Answer.class
  jvt run Answer Answer.class";

/// What the FILE of `asm` is.
pub const TEXT_FILE: &str = "The text, of at most 4194304 bytes";

/// What `list` does.
pub const LIST_ABOUT: &str = "Writes a class file as assembler text";

/// The same with more words.
pub const LIST_LONG_ABOUT: &str = "\
Writes a class file as assembler text to standard output, as javap -c does: its
fields and methods, with their instructions, handlers and stack map frames. From
the text that is written `jvt asm` makes the same class file.";

/// What comes after the long help of `list`.
pub const AFTER_LIST: &str = "\
Exit status:
  0        the text was written
  64       the arguments are no command
  65       the file is no class file
  66       there is no such file
  67       the file could not be read
  71       the file has more than 4194304 bytes
  74       standard output failed
  75       memory ran out
  79       the class file has no listing
From 64 on, a line on standard error says what went wrong. Nothing was written
to standard output then, unless it failed itself.

A class file has a listing only where `jvt asm` makes the same one from it. What
javac writes has line numbers, for which there is no line in the text, and its
constants in another order: it has none.

Example:
  jvt asm Answer.txt > Answer.class
  jvt list Answer.class";

/// What the FILE of `list` is.
pub const CLASS_FILE: &str = "The class file, of at most 4194304 bytes";

/// What `gen` does.
pub const GEN_ABOUT: &str = "Runs a generated program of COUNT virtual threads that take turns";

/// The same with more words.
pub const GEN_LONG_ABOUT: &str = "\
Runs a generated program, as `jvt run` runs one from its class files. COUNT
virtual threads hand a turn from one to the next: each yields, parks until the
turn is its own, adds to a sum in a synchronized block, hands the turn on, and
unparks the next. The thread of number i, from 0 on, adds i modulo 7. The main
method starts them all, joins them, and prints the sum.";

/// What comes after the long help of `gen`.
pub const AFTER_GEN: &str = "\
Exit status:
  0        the program ran to its end
  64       the arguments are no command
  71       a limit: 4194304 entries of history
  74       standard output or standard error failed
  75       memory ran out
Any other is that of a run: `jvt run --help` has them.

Example, which prints 5995:
  jvt gen --carriers 8 2000";

/// What COUNT is.
pub const COUNT: &str = "Virtual threads of the program, from 1 to 50000";

/// What is wrong with arguments of which one isn't UTF-8.
pub const NOT_TEXT: &str = "error: an argument is not UTF-8\n";

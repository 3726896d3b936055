/// What the machine itself does in place of code: one variant for each native method of the built-in classes, named by its class, its name
/// and, where there are several of that name, what it takes. A name that begins with a digit is private, and Java source can't spell it.
#[derive(Clone, Copy, Debug, PartialEq, Eq)]
pub enum Native {
    /// `java/lang/Object.<init>()V`
    ObjectInit,
    /// `java/lang/Object.equals(Ljava/lang/Object;)Z`
    ObjectEquals,
    /// `java/lang/Object.hashCode()I`
    ObjectHashCode,
    /// `java/lang/Object.0toString(I)Ljava/lang/String;`: the name of the receiver's class with dots, `@`, and the number as an unsigned one in
    /// lower-case hexadecimal without leading zeros.
    ObjectToString,
    /// `java/lang/Object.wait()V`
    ObjectWait,
    /// `java/lang/Object.wait(J)V`
    ObjectWaitMillis,
    /// `java/lang/Object.notify()V`
    ObjectNotify,
    /// `java/lang/Object.notifyAll()V`
    ObjectNotifyAll,
    /// `java/lang/String.length()I`
    StringLength,
    /// `java/lang/String.charAt(I)C`
    StringCharAt,
    /// `java/lang/String.isEmpty()Z`
    StringIsEmpty,
    /// `java/lang/String.equals(Ljava/lang/Object;)Z`
    StringEquals,
    /// `java/lang/String.hashCode()I`
    StringHashCode,
    /// `java/lang/String.concat(Ljava/lang/String;)Ljava/lang/String;`
    StringConcat,
    /// `java/lang/String.toString()Ljava/lang/String;`
    StringToString,
    /// `java/lang/String.valueOf(I)Ljava/lang/String;`
    StringValueOfInt,
    /// `java/lang/String.valueOf(J)Ljava/lang/String;`
    StringValueOfLong,
    /// `java/lang/String.valueOf(C)Ljava/lang/String;`
    StringValueOfChar,
    /// `java/lang/String.valueOf(Z)Ljava/lang/String;`
    StringValueOfBoolean,
    /// `java/lang/StringBuilder.<init>()V`
    StringBuilderInit,
    /// `java/lang/StringBuilder.append(I)Ljava/lang/StringBuilder;`
    StringBuilderAppendInt,
    /// `java/lang/StringBuilder.append(J)Ljava/lang/StringBuilder;`
    StringBuilderAppendLong,
    /// `java/lang/StringBuilder.append(C)Ljava/lang/StringBuilder;`
    StringBuilderAppendChar,
    /// `java/lang/StringBuilder.append(Z)Ljava/lang/StringBuilder;`
    StringBuilderAppendBoolean,
    /// `java/lang/StringBuilder.append(Ljava/lang/String;)Ljava/lang/StringBuilder;`
    StringBuilderAppendString,
    /// `java/lang/StringBuilder.length()I`
    StringBuilderLength,
    /// `java/lang/StringBuilder.toString()Ljava/lang/String;`
    StringBuilderToString,
    /// `java/lang/System.exit(I)V`
    SystemExit,
    /// `java/lang/System.nanoTime()J`
    SystemNanoTime,
    /// `java/lang/System.currentTimeMillis()J`
    SystemCurrentTimeMillis,
    /// `java/io/PrintStream.println()V`
    PrintStreamPrintln,
    /// `java/io/PrintStream.println(I)V`
    PrintStreamPrintlnInt,
    /// `java/io/PrintStream.println(J)V`
    PrintStreamPrintlnLong,
    /// `java/io/PrintStream.println(C)V`
    PrintStreamPrintlnChar,
    /// `java/io/PrintStream.println(Z)V`
    PrintStreamPrintlnBoolean,
    /// `java/io/PrintStream.println(Ljava/lang/String;)V`
    PrintStreamPrintlnString,
    /// `java/io/PrintStream.print(I)V`
    PrintStreamPrintInt,
    /// `java/io/PrintStream.print(J)V`
    PrintStreamPrintLong,
    /// `java/io/PrintStream.print(C)V`
    PrintStreamPrintChar,
    /// `java/io/PrintStream.print(Z)V`
    PrintStreamPrintBoolean,
    /// `java/io/PrintStream.print(Ljava/lang/String;)V`
    PrintStreamPrintString,
    /// `java/lang/Thread.0createPlatform(Ljava/lang/String;)V`: the receiver becomes a new platform thread, a daemon where the caller is one,
    /// with this name, or for null with the next `Thread-N`.
    ThreadCreatePlatform,
    /// `java/lang/Thread.0createVirtual(Ljava/lang/String;)V`: the receiver becomes a new virtual thread with this name, or for null with the
    /// empty one.
    ThreadCreateVirtual,
    /// `java/lang/Thread.start()V`
    ThreadStart,
    /// `java/lang/Thread.interrupt()V`
    ThreadInterrupt,
    /// `java/lang/Thread.isInterrupted()Z`
    ThreadIsInterrupted,
    /// `java/lang/Thread.join()V`
    ThreadJoin,
    /// `java/lang/Thread.join(J)V`
    ThreadJoinMillis,
    /// `java/lang/Thread.isAlive()Z`
    ThreadIsAlive,
    /// `java/lang/Thread.isVirtual()Z`
    ThreadIsVirtual,
    /// `java/lang/Thread.isDaemon()Z`
    ThreadIsDaemon,
    /// `java/lang/Thread.setDaemon(Z)V`
    ThreadSetDaemon,
    /// `java/lang/Thread.getName()Ljava/lang/String;`
    ThreadGetName,
    /// `java/lang/Thread.setName(Ljava/lang/String;)V`
    ThreadSetName,
    /// `java/lang/Thread.threadId()J`
    ThreadId,
    /// `java/lang/Thread.getState()Ljava/lang/Thread$State;`
    ThreadGetState,
    /// `java/lang/Thread.currentThread()Ljava/lang/Thread;`
    ThreadCurrentThread,
    /// `java/lang/Thread.yield()V`
    ThreadYield,
    /// `java/lang/Thread.onSpinWait()V`
    ThreadOnSpinWait,
    /// `java/lang/Thread.sleep(J)V`
    ThreadSleep,
    /// `java/lang/Thread.interrupted()Z`
    ThreadInterrupted,
    /// `java/util/concurrent/locks/LockSupport.park()V`
    LockSupportPark,
    /// `java/util/concurrent/locks/LockSupport.park(Ljava/lang/Object;)V`
    LockSupportParkBlocker,
    /// `java/util/concurrent/locks/LockSupport.parkNanos(J)V`
    LockSupportParkNanos,
    /// `java/util/concurrent/locks/LockSupport.parkNanos(Ljava/lang/Object;J)V`
    LockSupportParkNanosBlocker,
    /// `java/util/concurrent/locks/LockSupport.unpark(Ljava/lang/Thread;)V`
    LockSupportUnpark,
}

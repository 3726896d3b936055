use crate::{LookupSwitch, TableSwitch};
use items::Boxed;
use jvm_words::{IntOp, LongOp, Narrow, ShiftOp};

/// The kind of a value in a local variable or of a result, but for float and double (JVMS 2.11.1).
#[derive(Clone, Copy, PartialEq, Eq)]
pub enum ValueKind {
    Int,
    Long,
    Reference,
}

/// The type of the elements that an array instruction loads or stores (JVMS 6.5). `Byte` is for boolean too.
#[derive(Clone, Copy)]
pub enum Element {
    Int,
    Long,
    Reference,
    Byte,
    Char,
    Short,
}

/// The type of the elements of an array that `newarray` creates (JVMS 6.5).
#[derive(Clone, Copy)]
pub enum Primitive {
    Boolean,
    Char,
    Float,
    Double,
    Byte,
    Short,
    Int,
    Long,
}

/// How two ints compare (JVMS 6.5).
#[derive(Clone, Copy)]
pub enum Comparison {
    Equal,
    Unequal,
    Less,
    GreaterOrEqual,
    Greater,
    LessOrEqual,
}

/// How two references compare (JVMS 6.5).
#[derive(Clone, Copy)]
pub enum Sameness {
    Same,
    Different,
}

/// An instruction without operands (JVMS 6.5).
#[derive(Clone, Copy)]
pub enum Simple {
    /// nop.
    Nop,
    /// aconst_null.
    PushNull,
    /// iaload, laload, aaload, baload, caload and saload.
    ArrayLoad(Element),
    /// iastore, lastore, aastore, bastore, castore and sastore.
    ArrayStore(Element),
    Pop,
    Pop2,
    Dup,
    DupX1,
    DupX2,
    Dup2,
    Dup2X1,
    Dup2X2,
    Swap,
    /// iadd to irem, ishl to iushr, iand, ior and ixor.
    IntBinary(IntOp),
    /// ladd to lrem, land, lor and lxor.
    LongBinary(LongOp),
    /// lshl, lshr and lushr.
    LongShift(ShiftOp),
    /// ineg.
    IntNegate,
    /// lneg.
    LongNegate,
    /// i2l.
    IntToLong,
    /// l2i.
    LongToInt,
    /// i2b, i2c and i2s; no instruction narrows to a bool.
    IntNarrow(Narrow),
    /// lcmp.
    LongCompare,
    /// ireturn, lreturn and areturn.
    ReturnValue(ValueKind),
    Return,
    ArrayLength,
    /// athrow.
    Throw,
    MonitorEnter,
    MonitorExit,
}

/// What an instruction does (JVMS 6.5). Opcodes that differ only in how they encode an operand share a variant, as
/// iload_1, iload 1 and wide iload 1; so do those that differ only in the kind or the operation that the variant
/// names. A `u16` is the index of a local variable or of an entry of the constant pool. An `i64` is the pc that a branch
/// goes to, which may lie outside the code.
#[derive(Drop)]
pub enum Op {
    Simple(Simple),
    /// iconst_m1 to iconst_5, bipush and sipush, by what they push.
    PushInt(i16),
    /// lconst_0 and lconst_1.
    PushLong(i8),
    /// ldc and ldc_w.
    PushConstant(u16),
    /// ldc2_w.
    PushWideConstant(u16),
    /// iload, lload and aload, in each of their forms.
    Load(ValueKind, u16),
    /// istore, lstore and astore, in each of their forms.
    Store(ValueKind, u16),
    /// iinc: the local variable, and what is added to it.
    Increment(u16, i16),
    /// ifeq to ifle: an int against 0.
    IfZero(Comparison, i64),
    /// if_icmpeq to if_icmple.
    IfInts(Comparison, i64),
    /// if_acmpeq and if_acmpne.
    IfReferences(Sameness, i64),
    /// ifnull and ifnonnull: a reference against null.
    IfNull(Sameness, i64),
    /// goto and goto_w.
    Goto(i64),
    TableSwitch(Boxed<TableSwitch>),
    LookupSwitch(Boxed<LookupSwitch>),
    GetStatic(u16),
    PutStatic(u16),
    GetField(u16),
    PutField(u16),
    InvokeVirtual(u16),
    InvokeSpecial(u16),
    InvokeStatic(u16),
    /// invokeinterface: the index, and the number of argument slots with the receiver.
    InvokeInterface(u16, u8),
    InvokeDynamic(u16),
    New(u16),
    /// newarray.
    NewArray(Primitive),
    /// anewarray.
    ANewArray(u16),
    /// multianewarray: the index, and the number of dimensions.
    MultiANewArray(u16, u8),
    CheckCast(u16),
    InstanceOf(u16),
    /// jsr and jsr_w, which later layers refuse.
    Jsr(i64),
    /// ret, which later layers refuse.
    Ret(u16),
    /// An instruction of float or double, by its opcode. No layer executes it, so it has no operand here.
    Floating(u8),
}

/// An instruction, its pc and the pc of the instruction after it (JVMS 4.9).
#[derive(Drop)]
pub struct Instr {
    pub pc: u32,
    pub next: u32,
    pub op: Op,
}

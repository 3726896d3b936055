//! The operands that each opcode has, as a table.

ghost use Rattle.std.specs.Prelude.{◌≡◌, ◌<◌};
ghost use Rattle.opcodes.specs.Meaning.{meaning};
ghost use Rattle.opcodes.specs.Formats.{format};

use crate::op::{Comparison, Element, Sameness, Simple, ValueKind};
use jvm_words::{IntOp, LongOp, Narrow, ShiftOp};

/// What an instruction does with the local variable whose index is its operand.
#[derive(Clone, Copy)]
pub enum LocalFormat {
    Load(ValueKind),
    Store(ValueKind),
    Ret,
    Floating(u8),
}

/// What an instruction does with the entry of the constant pool whose index is its operand.
#[derive(Clone, Copy)]
pub enum IndexFormat {
    PushConstant,
    PushWideConstant,
    GetStatic,
    PutStatic,
    GetField,
    PutField,
    InvokeVirtual,
    InvokeSpecial,
    InvokeStatic,
    New,
    ANewArray,
    CheckCast,
    InstanceOf,
}

/// When a branch goes to its target.
#[derive(Clone, Copy)]
pub enum BranchFormat {
    IfZero(Comparison),
    IfInts(Comparison),
    IfReferences(Sameness),
    IfNull(Sameness),
    Goto,
    Jsr,
}

/// The operands of an opcode, and what its instruction does with them.
#[derive(Clone, Copy)]
pub enum Format {
    /// No instruction has the opcode.
    Undefined,
    /// No operand.
    Simple(Simple),
    /// No operand in the code: the opcode itself says what is pushed, or which local variable it is.
    PushInt(i16),
    PushLong(i8),
    LocalAt(LocalFormat, u16),
    /// No operand, for float or double.
    Floating(u8),
    /// A number with a sign in one byte, and in two.
    Byte,
    Short,
    /// The index of a constant in one byte.
    Ldc,
    /// The index of an entry of the constant pool in two bytes.
    Index(IndexFormat),
    /// The index of a local variable in one byte, or in two after wide.
    Local(LocalFormat),
    Increment,
    /// The offset of a target in two bytes, and in four.
    Branch(BranchFormat),
    FarBranch(BranchFormat),
    TableSwitch,
    LookupSwitch,
    InvokeInterface,
    InvokeDynamic,
    NewArray,
    MultiANewArray,
    Wide,
}

/// The format of each opcode that has an instruction (JVMS 6.5, 7).
static FORMATS: [Format; 202] = [
    Format::Simple(Simple::Nop), // 0 nop
    Format::Simple(Simple::PushNull), // 1 aconst_null
    Format::PushInt(-1), // 2 iconst_m1
    Format::PushInt(0), // 3 iconst_0
    Format::PushInt(1), // 4 iconst_1
    Format::PushInt(2), // 5 iconst_2
    Format::PushInt(3), // 6 iconst_3
    Format::PushInt(4), // 7 iconst_4
    Format::PushInt(5), // 8 iconst_5
    Format::PushLong(0), // 9 lconst_0
    Format::PushLong(1), // 10 lconst_1
    Format::Floating(11), // 11 fconst_0
    Format::Floating(12), // 12 fconst_1
    Format::Floating(13), // 13 fconst_2
    Format::Floating(14), // 14 dconst_0
    Format::Floating(15), // 15 dconst_1
    Format::Byte, // 16 bipush
    Format::Short, // 17 sipush
    Format::Ldc, // 18 ldc
    Format::Index(IndexFormat::PushConstant), // 19 ldc_w
    Format::Index(IndexFormat::PushWideConstant), // 20 ldc2_w
    Format::Local(LocalFormat::Load(ValueKind::Int)), // 21 iload
    Format::Local(LocalFormat::Load(ValueKind::Long)), // 22 lload
    Format::Local(LocalFormat::Floating(23)), // 23 fload
    Format::Local(LocalFormat::Floating(24)), // 24 dload
    Format::Local(LocalFormat::Load(ValueKind::Reference)), // 25 aload
    Format::LocalAt(LocalFormat::Load(ValueKind::Int), 0), // 26 iload_0
    Format::LocalAt(LocalFormat::Load(ValueKind::Int), 1), // 27 iload_1
    Format::LocalAt(LocalFormat::Load(ValueKind::Int), 2), // 28 iload_2
    Format::LocalAt(LocalFormat::Load(ValueKind::Int), 3), // 29 iload_3
    Format::LocalAt(LocalFormat::Load(ValueKind::Long), 0), // 30 lload_0
    Format::LocalAt(LocalFormat::Load(ValueKind::Long), 1), // 31 lload_1
    Format::LocalAt(LocalFormat::Load(ValueKind::Long), 2), // 32 lload_2
    Format::LocalAt(LocalFormat::Load(ValueKind::Long), 3), // 33 lload_3
    Format::Floating(34), // 34 fload_0
    Format::Floating(35), // 35 fload_1
    Format::Floating(36), // 36 fload_2
    Format::Floating(37), // 37 fload_3
    Format::Floating(38), // 38 dload_0
    Format::Floating(39), // 39 dload_1
    Format::Floating(40), // 40 dload_2
    Format::Floating(41), // 41 dload_3
    Format::LocalAt(LocalFormat::Load(ValueKind::Reference), 0), // 42 aload_0
    Format::LocalAt(LocalFormat::Load(ValueKind::Reference), 1), // 43 aload_1
    Format::LocalAt(LocalFormat::Load(ValueKind::Reference), 2), // 44 aload_2
    Format::LocalAt(LocalFormat::Load(ValueKind::Reference), 3), // 45 aload_3
    Format::Simple(Simple::ArrayLoad(Element::Int)), // 46 iaload
    Format::Simple(Simple::ArrayLoad(Element::Long)), // 47 laload
    Format::Floating(48), // 48 faload
    Format::Floating(49), // 49 daload
    Format::Simple(Simple::ArrayLoad(Element::Reference)), // 50 aaload
    Format::Simple(Simple::ArrayLoad(Element::Byte)), // 51 baload
    Format::Simple(Simple::ArrayLoad(Element::Char)), // 52 caload
    Format::Simple(Simple::ArrayLoad(Element::Short)), // 53 saload
    Format::Local(LocalFormat::Store(ValueKind::Int)), // 54 istore
    Format::Local(LocalFormat::Store(ValueKind::Long)), // 55 lstore
    Format::Local(LocalFormat::Floating(56)), // 56 fstore
    Format::Local(LocalFormat::Floating(57)), // 57 dstore
    Format::Local(LocalFormat::Store(ValueKind::Reference)), // 58 astore
    Format::LocalAt(LocalFormat::Store(ValueKind::Int), 0), // 59 istore_0
    Format::LocalAt(LocalFormat::Store(ValueKind::Int), 1), // 60 istore_1
    Format::LocalAt(LocalFormat::Store(ValueKind::Int), 2), // 61 istore_2
    Format::LocalAt(LocalFormat::Store(ValueKind::Int), 3), // 62 istore_3
    Format::LocalAt(LocalFormat::Store(ValueKind::Long), 0), // 63 lstore_0
    Format::LocalAt(LocalFormat::Store(ValueKind::Long), 1), // 64 lstore_1
    Format::LocalAt(LocalFormat::Store(ValueKind::Long), 2), // 65 lstore_2
    Format::LocalAt(LocalFormat::Store(ValueKind::Long), 3), // 66 lstore_3
    Format::Floating(67), // 67 fstore_0
    Format::Floating(68), // 68 fstore_1
    Format::Floating(69), // 69 fstore_2
    Format::Floating(70), // 70 fstore_3
    Format::Floating(71), // 71 dstore_0
    Format::Floating(72), // 72 dstore_1
    Format::Floating(73), // 73 dstore_2
    Format::Floating(74), // 74 dstore_3
    Format::LocalAt(LocalFormat::Store(ValueKind::Reference), 0), // 75 astore_0
    Format::LocalAt(LocalFormat::Store(ValueKind::Reference), 1), // 76 astore_1
    Format::LocalAt(LocalFormat::Store(ValueKind::Reference), 2), // 77 astore_2
    Format::LocalAt(LocalFormat::Store(ValueKind::Reference), 3), // 78 astore_3
    Format::Simple(Simple::ArrayStore(Element::Int)), // 79 iastore
    Format::Simple(Simple::ArrayStore(Element::Long)), // 80 lastore
    Format::Floating(81), // 81 fastore
    Format::Floating(82), // 82 dastore
    Format::Simple(Simple::ArrayStore(Element::Reference)), // 83 aastore
    Format::Simple(Simple::ArrayStore(Element::Byte)), // 84 bastore
    Format::Simple(Simple::ArrayStore(Element::Char)), // 85 castore
    Format::Simple(Simple::ArrayStore(Element::Short)), // 86 sastore
    Format::Simple(Simple::Pop), // 87 pop
    Format::Simple(Simple::Pop2), // 88 pop2
    Format::Simple(Simple::Dup), // 89 dup
    Format::Simple(Simple::DupX1), // 90 dup_x1
    Format::Simple(Simple::DupX2), // 91 dup_x2
    Format::Simple(Simple::Dup2), // 92 dup2
    Format::Simple(Simple::Dup2X1), // 93 dup2_x1
    Format::Simple(Simple::Dup2X2), // 94 dup2_x2
    Format::Simple(Simple::Swap), // 95 swap
    Format::Simple(Simple::IntBinary(IntOp::Add)), // 96 iadd
    Format::Simple(Simple::LongBinary(LongOp::Add)), // 97 ladd
    Format::Floating(98), // 98 fadd
    Format::Floating(99), // 99 dadd
    Format::Simple(Simple::IntBinary(IntOp::Sub)), // 100 isub
    Format::Simple(Simple::LongBinary(LongOp::Sub)), // 101 lsub
    Format::Floating(102), // 102 fsub
    Format::Floating(103), // 103 dsub
    Format::Simple(Simple::IntBinary(IntOp::Mul)), // 104 imul
    Format::Simple(Simple::LongBinary(LongOp::Mul)), // 105 lmul
    Format::Floating(106), // 106 fmul
    Format::Floating(107), // 107 dmul
    Format::Simple(Simple::IntBinary(IntOp::Div)), // 108 idiv
    Format::Simple(Simple::LongBinary(LongOp::Div)), // 109 ldiv
    Format::Floating(110), // 110 fdiv
    Format::Floating(111), // 111 ddiv
    Format::Simple(Simple::IntBinary(IntOp::Rem)), // 112 irem
    Format::Simple(Simple::LongBinary(LongOp::Rem)), // 113 lrem
    Format::Floating(114), // 114 frem
    Format::Floating(115), // 115 drem
    Format::Simple(Simple::IntNegate), // 116 ineg
    Format::Simple(Simple::LongNegate), // 117 lneg
    Format::Floating(118), // 118 fneg
    Format::Floating(119), // 119 dneg
    Format::Simple(Simple::IntBinary(IntOp::Shl)), // 120 ishl
    Format::Simple(Simple::LongShift(ShiftOp::Shl)), // 121 lshl
    Format::Simple(Simple::IntBinary(IntOp::Shr)), // 122 ishr
    Format::Simple(Simple::LongShift(ShiftOp::Shr)), // 123 lshr
    Format::Simple(Simple::IntBinary(IntOp::Ushr)), // 124 iushr
    Format::Simple(Simple::LongShift(ShiftOp::Ushr)), // 125 lushr
    Format::Simple(Simple::IntBinary(IntOp::And)), // 126 iand
    Format::Simple(Simple::LongBinary(LongOp::And)), // 127 land
    Format::Simple(Simple::IntBinary(IntOp::Or)), // 128 ior
    Format::Simple(Simple::LongBinary(LongOp::Or)), // 129 lor
    Format::Simple(Simple::IntBinary(IntOp::Xor)), // 130 ixor
    Format::Simple(Simple::LongBinary(LongOp::Xor)), // 131 lxor
    Format::Increment, // 132 iinc
    Format::Simple(Simple::IntToLong), // 133 i2l
    Format::Floating(134), // 134 i2f
    Format::Floating(135), // 135 i2d
    Format::Simple(Simple::LongToInt), // 136 l2i
    Format::Floating(137), // 137 l2f
    Format::Floating(138), // 138 l2d
    Format::Floating(139), // 139 f2i
    Format::Floating(140), // 140 f2l
    Format::Floating(141), // 141 f2d
    Format::Floating(142), // 142 d2i
    Format::Floating(143), // 143 d2l
    Format::Floating(144), // 144 d2f
    Format::Simple(Simple::IntNarrow(Narrow::Byte)), // 145 i2b
    Format::Simple(Simple::IntNarrow(Narrow::Char)), // 146 i2c
    Format::Simple(Simple::IntNarrow(Narrow::Short)), // 147 i2s
    Format::Simple(Simple::LongCompare), // 148 lcmp
    Format::Floating(149), // 149 fcmpl
    Format::Floating(150), // 150 fcmpg
    Format::Floating(151), // 151 dcmpl
    Format::Floating(152), // 152 dcmpg
    Format::Branch(BranchFormat::IfZero(Comparison::Equal)), // 153 ifeq
    Format::Branch(BranchFormat::IfZero(Comparison::Unequal)), // 154 ifne
    Format::Branch(BranchFormat::IfZero(Comparison::Less)), // 155 iflt
    Format::Branch(BranchFormat::IfZero(Comparison::GreaterOrEqual)), // 156 ifge
    Format::Branch(BranchFormat::IfZero(Comparison::Greater)), // 157 ifgt
    Format::Branch(BranchFormat::IfZero(Comparison::LessOrEqual)), // 158 ifle
    Format::Branch(BranchFormat::IfInts(Comparison::Equal)), // 159 if_icmpeq
    Format::Branch(BranchFormat::IfInts(Comparison::Unequal)), // 160 if_icmpne
    Format::Branch(BranchFormat::IfInts(Comparison::Less)), // 161 if_icmplt
    Format::Branch(BranchFormat::IfInts(Comparison::GreaterOrEqual)), // 162 if_icmpge
    Format::Branch(BranchFormat::IfInts(Comparison::Greater)), // 163 if_icmpgt
    Format::Branch(BranchFormat::IfInts(Comparison::LessOrEqual)), // 164 if_icmple
    Format::Branch(BranchFormat::IfReferences(Sameness::Same)), // 165 if_acmpeq
    Format::Branch(BranchFormat::IfReferences(Sameness::Different)), // 166 if_acmpne
    Format::Branch(BranchFormat::Goto), // 167 goto
    Format::Branch(BranchFormat::Jsr), // 168 jsr
    Format::Local(LocalFormat::Ret), // 169 ret
    Format::TableSwitch, // 170 tableswitch
    Format::LookupSwitch, // 171 lookupswitch
    Format::Simple(Simple::ReturnValue(ValueKind::Int)), // 172 ireturn
    Format::Simple(Simple::ReturnValue(ValueKind::Long)), // 173 lreturn
    Format::Floating(174), // 174 freturn
    Format::Floating(175), // 175 dreturn
    Format::Simple(Simple::ReturnValue(ValueKind::Reference)), // 176 areturn
    Format::Simple(Simple::Return), // 177 return
    Format::Index(IndexFormat::GetStatic), // 178 getstatic
    Format::Index(IndexFormat::PutStatic), // 179 putstatic
    Format::Index(IndexFormat::GetField), // 180 getfield
    Format::Index(IndexFormat::PutField), // 181 putfield
    Format::Index(IndexFormat::InvokeVirtual), // 182 invokevirtual
    Format::Index(IndexFormat::InvokeSpecial), // 183 invokespecial
    Format::Index(IndexFormat::InvokeStatic), // 184 invokestatic
    Format::InvokeInterface, // 185 invokeinterface
    Format::InvokeDynamic, // 186 invokedynamic
    Format::Index(IndexFormat::New), // 187 new
    Format::NewArray, // 188 newarray
    Format::Index(IndexFormat::ANewArray), // 189 anewarray
    Format::Simple(Simple::ArrayLength), // 190 arraylength
    Format::Simple(Simple::Throw), // 191 athrow
    Format::Index(IndexFormat::CheckCast), // 192 checkcast
    Format::Index(IndexFormat::InstanceOf), // 193 instanceof
    Format::Simple(Simple::MonitorEnter), // 194 monitorenter
    Format::Simple(Simple::MonitorExit), // 195 monitorexit
    Format::Wide, // 196 wide
    Format::MultiANewArray, // 197 multianewarray
    Format::Branch(BranchFormat::IfNull(Sameness::Same)), // 198 ifnull
    Format::Branch(BranchFormat::IfNull(Sameness::Different)), // 199 ifnonnull
    Format::FarBranch(BranchFormat::Goto), // 200 goto_w
    Format::FarBranch(BranchFormat::Jsr), // 201 jsr_w
];

/// The format of the opcode (JVMS 6.5).
pub fn format_of(opcode: u8) -> Format
    ensures { meaning result ≡ format opcode }
{
    let opcode = opcode as usize;
    if opcode < FORMATS.len() {
        FORMATS[opcode]
    } else {
        Format::Undefined
    }
}

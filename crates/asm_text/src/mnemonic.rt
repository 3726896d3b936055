//! The names of instructions (JVMS 6.5).

ghost use Rattle.std.specs.Prelude.{◌≡◌, map};
ghost use Rattle.std.specs.List.{position};
ghost use Rattle.asm_text.specs.Words.{same_word};
ghost use Rattle.asm_text.specs.Mnemonics.{Mnemonic, mnemonics, mnemonic_of, opcode_named};
ghost use Rattle.asm_text.specs.Meaning.{row_of};

use crate::instruction::OperandKind;

/// The name of each opcode's instruction, and which operands it has. An opcode without a name has an empty one: those
/// of float and double, wide, and those that later layers refuse.
static MNEMONICS: [(&str, OperandKind); 201] = [
    ("nop", OperandKind::Nothing), // 0
    ("aconst_null", OperandKind::Nothing), // 1
    ("iconst_m1", OperandKind::Nothing), // 2
    ("iconst_0", OperandKind::Nothing), // 3
    ("iconst_1", OperandKind::Nothing), // 4
    ("iconst_2", OperandKind::Nothing), // 5
    ("iconst_3", OperandKind::Nothing), // 6
    ("iconst_4", OperandKind::Nothing), // 7
    ("iconst_5", OperandKind::Nothing), // 8
    ("lconst_0", OperandKind::Nothing), // 9
    ("lconst_1", OperandKind::Nothing), // 10
    ("", OperandKind::Nothing), // 11
    ("", OperandKind::Nothing), // 12
    ("", OperandKind::Nothing), // 13
    ("", OperandKind::Nothing), // 14
    ("", OperandKind::Nothing), // 15
    ("bipush", OperandKind::Byte), // 16
    ("sipush", OperandKind::Short), // 17
    ("ldc", OperandKind::Constant), // 18
    ("ldc_w", OperandKind::Constant), // 19
    ("ldc2_w", OperandKind::Constant), // 20
    ("iload", OperandKind::Local), // 21
    ("lload", OperandKind::Local), // 22
    ("", OperandKind::Nothing), // 23
    ("", OperandKind::Nothing), // 24
    ("aload", OperandKind::Local), // 25
    ("iload_0", OperandKind::Nothing), // 26
    ("iload_1", OperandKind::Nothing), // 27
    ("iload_2", OperandKind::Nothing), // 28
    ("iload_3", OperandKind::Nothing), // 29
    ("lload_0", OperandKind::Nothing), // 30
    ("lload_1", OperandKind::Nothing), // 31
    ("lload_2", OperandKind::Nothing), // 32
    ("lload_3", OperandKind::Nothing), // 33
    ("", OperandKind::Nothing), // 34
    ("", OperandKind::Nothing), // 35
    ("", OperandKind::Nothing), // 36
    ("", OperandKind::Nothing), // 37
    ("", OperandKind::Nothing), // 38
    ("", OperandKind::Nothing), // 39
    ("", OperandKind::Nothing), // 40
    ("", OperandKind::Nothing), // 41
    ("aload_0", OperandKind::Nothing), // 42
    ("aload_1", OperandKind::Nothing), // 43
    ("aload_2", OperandKind::Nothing), // 44
    ("aload_3", OperandKind::Nothing), // 45
    ("iaload", OperandKind::Nothing), // 46
    ("laload", OperandKind::Nothing), // 47
    ("", OperandKind::Nothing), // 48
    ("", OperandKind::Nothing), // 49
    ("aaload", OperandKind::Nothing), // 50
    ("baload", OperandKind::Nothing), // 51
    ("caload", OperandKind::Nothing), // 52
    ("saload", OperandKind::Nothing), // 53
    ("istore", OperandKind::Local), // 54
    ("lstore", OperandKind::Local), // 55
    ("", OperandKind::Nothing), // 56
    ("", OperandKind::Nothing), // 57
    ("astore", OperandKind::Local), // 58
    ("istore_0", OperandKind::Nothing), // 59
    ("istore_1", OperandKind::Nothing), // 60
    ("istore_2", OperandKind::Nothing), // 61
    ("istore_3", OperandKind::Nothing), // 62
    ("lstore_0", OperandKind::Nothing), // 63
    ("lstore_1", OperandKind::Nothing), // 64
    ("lstore_2", OperandKind::Nothing), // 65
    ("lstore_3", OperandKind::Nothing), // 66
    ("", OperandKind::Nothing), // 67
    ("", OperandKind::Nothing), // 68
    ("", OperandKind::Nothing), // 69
    ("", OperandKind::Nothing), // 70
    ("", OperandKind::Nothing), // 71
    ("", OperandKind::Nothing), // 72
    ("", OperandKind::Nothing), // 73
    ("", OperandKind::Nothing), // 74
    ("astore_0", OperandKind::Nothing), // 75
    ("astore_1", OperandKind::Nothing), // 76
    ("astore_2", OperandKind::Nothing), // 77
    ("astore_3", OperandKind::Nothing), // 78
    ("iastore", OperandKind::Nothing), // 79
    ("lastore", OperandKind::Nothing), // 80
    ("", OperandKind::Nothing), // 81
    ("", OperandKind::Nothing), // 82
    ("aastore", OperandKind::Nothing), // 83
    ("bastore", OperandKind::Nothing), // 84
    ("castore", OperandKind::Nothing), // 85
    ("sastore", OperandKind::Nothing), // 86
    ("pop", OperandKind::Nothing), // 87
    ("pop2", OperandKind::Nothing), // 88
    ("dup", OperandKind::Nothing), // 89
    ("dup_x1", OperandKind::Nothing), // 90
    ("dup_x2", OperandKind::Nothing), // 91
    ("dup2", OperandKind::Nothing), // 92
    ("dup2_x1", OperandKind::Nothing), // 93
    ("dup2_x2", OperandKind::Nothing), // 94
    ("swap", OperandKind::Nothing), // 95
    ("iadd", OperandKind::Nothing), // 96
    ("ladd", OperandKind::Nothing), // 97
    ("", OperandKind::Nothing), // 98
    ("", OperandKind::Nothing), // 99
    ("isub", OperandKind::Nothing), // 100
    ("lsub", OperandKind::Nothing), // 101
    ("", OperandKind::Nothing), // 102
    ("", OperandKind::Nothing), // 103
    ("imul", OperandKind::Nothing), // 104
    ("lmul", OperandKind::Nothing), // 105
    ("", OperandKind::Nothing), // 106
    ("", OperandKind::Nothing), // 107
    ("idiv", OperandKind::Nothing), // 108
    ("ldiv", OperandKind::Nothing), // 109
    ("", OperandKind::Nothing), // 110
    ("", OperandKind::Nothing), // 111
    ("irem", OperandKind::Nothing), // 112
    ("lrem", OperandKind::Nothing), // 113
    ("", OperandKind::Nothing), // 114
    ("", OperandKind::Nothing), // 115
    ("ineg", OperandKind::Nothing), // 116
    ("lneg", OperandKind::Nothing), // 117
    ("", OperandKind::Nothing), // 118
    ("", OperandKind::Nothing), // 119
    ("ishl", OperandKind::Nothing), // 120
    ("lshl", OperandKind::Nothing), // 121
    ("ishr", OperandKind::Nothing), // 122
    ("lshr", OperandKind::Nothing), // 123
    ("iushr", OperandKind::Nothing), // 124
    ("lushr", OperandKind::Nothing), // 125
    ("iand", OperandKind::Nothing), // 126
    ("land", OperandKind::Nothing), // 127
    ("ior", OperandKind::Nothing), // 128
    ("lor", OperandKind::Nothing), // 129
    ("ixor", OperandKind::Nothing), // 130
    ("lxor", OperandKind::Nothing), // 131
    ("iinc", OperandKind::Increment), // 132
    ("i2l", OperandKind::Nothing), // 133
    ("", OperandKind::Nothing), // 134
    ("", OperandKind::Nothing), // 135
    ("l2i", OperandKind::Nothing), // 136
    ("", OperandKind::Nothing), // 137
    ("", OperandKind::Nothing), // 138
    ("", OperandKind::Nothing), // 139
    ("", OperandKind::Nothing), // 140
    ("", OperandKind::Nothing), // 141
    ("", OperandKind::Nothing), // 142
    ("", OperandKind::Nothing), // 143
    ("", OperandKind::Nothing), // 144
    ("i2b", OperandKind::Nothing), // 145
    ("i2c", OperandKind::Nothing), // 146
    ("i2s", OperandKind::Nothing), // 147
    ("lcmp", OperandKind::Nothing), // 148
    ("", OperandKind::Nothing), // 149
    ("", OperandKind::Nothing), // 150
    ("", OperandKind::Nothing), // 151
    ("", OperandKind::Nothing), // 152
    ("ifeq", OperandKind::Branch), // 153
    ("ifne", OperandKind::Branch), // 154
    ("iflt", OperandKind::Branch), // 155
    ("ifge", OperandKind::Branch), // 156
    ("ifgt", OperandKind::Branch), // 157
    ("ifle", OperandKind::Branch), // 158
    ("if_icmpeq", OperandKind::Branch), // 159
    ("if_icmpne", OperandKind::Branch), // 160
    ("if_icmplt", OperandKind::Branch), // 161
    ("if_icmpge", OperandKind::Branch), // 162
    ("if_icmpgt", OperandKind::Branch), // 163
    ("if_icmple", OperandKind::Branch), // 164
    ("if_acmpeq", OperandKind::Branch), // 165
    ("if_acmpne", OperandKind::Branch), // 166
    ("goto", OperandKind::Branch), // 167
    ("", OperandKind::Nothing), // 168
    ("", OperandKind::Nothing), // 169
    ("tableswitch", OperandKind::Table), // 170
    ("lookupswitch", OperandKind::Lookup), // 171
    ("ireturn", OperandKind::Nothing), // 172
    ("lreturn", OperandKind::Nothing), // 173
    ("", OperandKind::Nothing), // 174
    ("", OperandKind::Nothing), // 175
    ("areturn", OperandKind::Nothing), // 176
    ("return", OperandKind::Nothing), // 177
    ("getstatic", OperandKind::Member), // 178
    ("putstatic", OperandKind::Member), // 179
    ("getfield", OperandKind::Member), // 180
    ("putfield", OperandKind::Member), // 181
    ("invokevirtual", OperandKind::Member), // 182
    ("invokespecial", OperandKind::Member), // 183
    ("invokestatic", OperandKind::Member), // 184
    ("invokeinterface", OperandKind::Member), // 185
    ("", OperandKind::Nothing), // 186
    ("new", OperandKind::Class), // 187
    ("newarray", OperandKind::Element), // 188
    ("anewarray", OperandKind::Class), // 189
    ("arraylength", OperandKind::Nothing), // 190
    ("athrow", OperandKind::Nothing), // 191
    ("checkcast", OperandKind::Class), // 192
    ("instanceof", OperandKind::Class), // 193
    ("monitorenter", OperandKind::Nothing), // 194
    ("monitorexit", OperandKind::Nothing), // 195
    ("", OperandKind::Nothing), // 196
    ("multianewarray", OperandKind::Dimensions), // 197
    ("ifnull", OperandKind::Branch), // 198
    ("ifnonnull", OperandKind::Branch), // 199
    ("goto_w", OperandKind::Branch), // 200
];

fn mnemonics() -> &'static [(&'static str, OperandKind)]
    ensures { map row_of result.now ≡ mnemonics }
{
    &MNEMONICS
}

/// The name of the opcode's instruction, which is empty where the opcode has none.
pub fn name_of(opcode: u8) -> &'static [u8]
    ensures { result.now ≡ (mnemonic_of opcode).name }
{
    let rows = mnemonics();
    let opcode = opcode as usize;
    if opcode < rows.len() {
        rows[opcode].0.as_bytes()
    } else {
        b""
    }
}

/// Which operands the opcode's instruction has.
pub fn operands_of(opcode: u8) -> OperandKind
    ensures { result ≡ (mnemonic_of opcode).operands }
{
    let rows = mnemonics();
    let opcode = opcode as usize;
    if opcode < rows.len() {
        rows[opcode].1
    } else {
        OperandKind::Nothing
    }
}

/// The opcode of the instruction with this name.
pub fn opcode_named(name: &[u8]) -> Option<u8>
    ensures { result ≡ opcode_named name.now }
{
    let rows = mnemonics();
    if name.is_empty() {
        return None;
    }
    let opcode = index_of(rows, name)?;
    Some(opcode as u8)
}

fn index_of(rows: &[(&str, OperandKind)], name: &[u8]) -> Option<usize>
    ensures { result ≡ position (λ row. same_word row.0.now name.now) rows.now }
{
    rows.iter().position(|row| is_row(row, name))
}

fn is_row(row: &(&str, OperandKind), name: &[u8]) -> bool
    ensures { result ≡ same_word row.now.0.now name.now }
{
    row.0.as_bytes() == name
}

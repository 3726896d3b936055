//! The instructions of the built-in classes, as their declarations name them.

ghost use Rattle.std.specs.Prelude.{◌≡◌};
ghost use Rattle.lib_table.specs.Instructions.{meaning, operand_of};

/// An instruction by its mnemonic (JVMS 6.5). Fields and methods are given by class, name and descriptor, and branches by the pc that
/// they go to, which is after them.
#[derive(Clone, Copy)]
pub enum Instruction {
    AconstNull,
    Iconst1,
    LdcW(&'static str),
    Iload1,
    Aload0,
    Aload1,
    Aload2,
    Astore2,
    Pop,
    Dup,
    Ifeq(u16),
    Ifnull(u16),
    Ifnonnull(u16),
    Ireturn,
    Areturn,
    Return,
    Getfield(&'static str, &'static str, &'static str),
    Putfield(&'static str, &'static str, &'static str),
    Invokevirtual(&'static str, &'static str, &'static str),
    Invokespecial(&'static str, &'static str, &'static str),
    Invokestatic(&'static str, &'static str, &'static str),
    /// The last number is that of the argument slots with the receiver.
    Invokeinterface(&'static str, &'static str, &'static str, u8),
    New(&'static str),
    Athrow,
}

/// What comes after an opcode.
#[derive(Clone, Copy)]
pub enum Operand {
    Nothing,
    Text(&'static str),
    Class(&'static str),
    Field(&'static str, &'static str, &'static str),
    Method(&'static str, &'static str, &'static str),
    InterfaceMethod(&'static str, &'static str, &'static str, u8),
    /// The pc that a branch goes to.
    Target(u16),
}

/// The opcode of an instruction (JVMS 6.5).
pub fn opcode_of(instruction: &Instruction) -> u8
    ensures { result ≡ (meaning instruction.now).opcode }
{
    match instruction {
        Instruction::AconstNull => 1,
        Instruction::Iconst1 => 4,
        Instruction::LdcW(_) => 19,
        Instruction::Iload1 => 27,
        Instruction::Aload0 => 42,
        Instruction::Aload1 => 43,
        Instruction::Aload2 => 44,
        Instruction::Astore2 => 77,
        Instruction::Pop => 87,
        Instruction::Dup => 89,
        Instruction::Ifeq(_) => 153,
        Instruction::Ireturn => 172,
        Instruction::Areturn => 176,
        Instruction::Return => 177,
        Instruction::Getfield(..) => 180,
        Instruction::Putfield(..) => 181,
        Instruction::Invokevirtual(..) => 182,
        Instruction::Invokespecial(..) => 183,
        Instruction::Invokestatic(..) => 184,
        Instruction::Invokeinterface(..) => 185,
        Instruction::New(_) => 187,
        Instruction::Athrow => 191,
        Instruction::Ifnull(_) => 198,
        Instruction::Ifnonnull(_) => 199,
    }
}

/// What comes after its opcode.
pub fn operand_in(instruction: &Instruction) -> Operand
    ensures { operand_of result ≡ (meaning instruction.now).operand }
{
    match *instruction {
        Instruction::LdcW(text) => Operand::Text(text),
        Instruction::Ifeq(target) => Operand::Target(target),
        Instruction::Ifnull(target) => Operand::Target(target),
        Instruction::Ifnonnull(target) => Operand::Target(target),
        Instruction::Getfield(class, name, descriptor) => Operand::Field(class, name, descriptor),
        Instruction::Putfield(class, name, descriptor) => Operand::Field(class, name, descriptor),
        Instruction::Invokevirtual(class, name, descriptor) => {
            Operand::Method(class, name, descriptor)
        }
        Instruction::Invokespecial(class, name, descriptor) => {
            Operand::Method(class, name, descriptor)
        }
        Instruction::Invokestatic(class, name, descriptor) => {
            Operand::Method(class, name, descriptor)
        }
        Instruction::Invokeinterface(class, name, descriptor, count) => {
            Operand::InterfaceMethod(class, name, descriptor, count)
        }
        Instruction::New(name) => Operand::Class(name),
        _ => Operand::Nothing,
    }
}

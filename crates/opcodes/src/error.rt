//! Why code is refused.

ghost use Rattle.std.specs.Prelude.{◌≡◌};

use byte_reader::Reason;
use std::alloc::{AllocError, AllocFailed};
use thiserror::Error;

/// What is wrong with an instruction (JVMS 4.9.1, 6.5). Its fields are read from the first to the last, and the first
/// that is cut off (`Short`) or isn't allowed (`Opcode`, `Operand`) is the reason.
#[derive(Clone, Copy, Debug, PartialEq, Eq, Error)]
pub enum CodeWhy {
    /// No instruction has this opcode.
    #[error("unknown opcode")]
    Opcode,
    /// The code ends inside the instruction.
    #[error("the code ends inside the instruction")]
    Short,
    /// An operand isn't allowed.
    #[error("bad operand")]
    Operand,
}

impl Reason for CodeWhy {
    ghost use Rattle.opcodes.specs.declared.error.CodeWhy.TheVariants as reasons;

    ghost short = { reasons.Short };

    fn short() -> Self {
        CodeWhy::Short
    }
}

/// Why a code array was not decoded.
#[derive(Clone, Copy, Debug, PartialEq, Eq, Error)]
pub enum CodeError {
    /// The first bad instruction starts at `pc`, in bytes from the start of the code.
    #[error("bad instruction at {pc}: {why}")]
    Bad { pc: u32, why: CodeWhy },
    /// Memory ran out.
    #[error("out of memory")]
    NoMemory,
}

impl From<AllocError> for CodeError {
    ghost use Rattle.opcodes.specs.declared.error.CodeError.TheVariants as errors;

    ghost from_gives = { λ _ e. e ≡ errors.NoMemory };

    fn from(_: AllocError) -> Self {
        CodeError::NoMemory
    }
}

impl<T: Drop> From<AllocFailed<T>> for CodeError {
    ghost use Rattle.opcodes.specs.declared.error.CodeError.TheVariants as errors;

    ghost from_gives = { λ _ e. e ≡ errors.NoMemory };

    fn from(_: AllocFailed<T>) -> Self {
        CodeError::NoMemory
    }
}

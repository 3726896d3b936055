//! Why reading stops, and where.

ghost use Rattle.std.specs.Prelude.{◌≡◌, ◌<◌, ◌^◌, length};
ghost use Rattle.byte_reader.specs.Reader.{fault_at, offset_of};
ghost use Rattle.byte_reader.specs.declared.fault.Stop.TheVariants as stops;

use std::alloc::{AllocError, AllocFailed};

/// Why bytes are refused. One reason says that they end too soon.
pub trait Reason: Copy {
    /// The reason where the bytes end before the field does.
    ghost short: { Self };

    /// That reason.
    fn short() -> Self
        ensures { result ≡ short };
}

/// What is wrong, and how many bytes were left in front of it.
#[derive(Clone, Copy, Debug, PartialEq, Eq)]
pub struct Fault<W> {
    /// The bytes from the fault to the end of the input.
    pub left: usize,
    pub why: W,
}

impl<W: Copy> Fault<W> {
    /// The offset of the fault in the bytes that were read, in bytes from their start.
    pub fn offset(&self, bytes: &[u8]) -> u32
        requires { length bytes.now < 2 ^ 32 }
        ensures { result ≡ offset_of (length bytes.now) self.now }
    {
        bytes.len().saturating_sub(self.left) as u32
    }
}

/// Why reading stopped.
#[derive(Clone, Copy, Debug)]
pub enum Stop<W> {
    /// The bytes are refused.
    Fault(Fault<W>),
    /// Memory ran out.
    NoMemory,
}

impl<W: Copy> Stop<W> {
    /// A fault at the front of these bytes.
    pub fn at(bytes: &[u8], why: W) -> Self
        ensures { result ≡ stops.Fault (fault_at bytes.now why) }
    {
        Stop::Fault(Fault {
            left: bytes.len(),
            why,
        })
    }
}

impl<W> From<Fault<W>> for Stop<W> {
    ghost from_gives = { λ fault e. e ≡ stops.Fault fault };

    fn from(fault: Fault<W>) -> Self {
        Stop::Fault(fault)
    }
}

impl<W> From<AllocError> for Stop<W> {
    ghost from_gives = { λ _ e. e ≡ stops.NoMemory };

    fn from(_: AllocError) -> Self {
        Stop::NoMemory
    }
}

impl<W, T: Drop> From<AllocFailed<T>> for Stop<W> {
    ghost from_gives = { λ _ e. e ≡ stops.NoMemory };

    fn from(_: AllocFailed<T>) -> Self {
        Stop::NoMemory
    }
}

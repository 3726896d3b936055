//! The bits of flags (JVMS 4.1, 4.5, 4.6).

ghost use Rattle.std.specs.Prelude.{◌≡◌};
ghost use Rattle.class_grammar.specs.Checks as grammar;
ghost use Rattle.asm_class.specs.Flags as spec;

use asm_text::Flag;
use class_model::{ACC_ABSTRACT, ACC_NATIVE};

fn bit_of(flag: Flag) -> u16
    ensures { result ≡ spec.bit_of flag }
{
    match flag {
        Flag::Public => 0x0001,
        Flag::Private => 0x0002,
        Flag::Static => 0x0008,
        Flag::Final => 0x0010,
        Flag::Super | Flag::Synchronized => 0x0020,
        Flag::Volatile => 0x0040,
        Flag::Native => 0x0100,
        Flag::Interface => 0x0200,
        Flag::Abstract => 0x0400,
    }
}

/// The bits of all of these flags.
pub fn bits_of(flags: &[Flag]) -> u16
    ensures { result ≡ spec.bits_of flags.now }
{
    let mut bits = 0;
    for flag in flags {
        bits |= bit_of(*flag);
    }
    bits
}

/// Whether a method with these flags is abstract or native.
pub fn has_no_code(flags: u16) -> bool
    ensures { result ≡ grammar.has_no_code flags }
{
    flags & (ACC_NATIVE + ACC_ABSTRACT) != 0
}

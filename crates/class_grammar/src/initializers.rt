//! The names of initialization methods (JVMS 2.9).

ghost use Rattle.std.specs.Prelude.{◌≡◌};
ghost use Rattle.class_grammar.specs.Names as names;

use crate::text::is_same;

/// The name of an instance initialization method (JVMS 2.9.1).
pub const INIT_NAME: [u8; 6] = [b'<', b'i', b'n', b'i', b't', b'>'];

/// The name of a class or interface initialization method (JVMS 2.9.2).
pub const CLINIT_NAME: [u8; 8] = [b'<', b'c', b'l', b'i', b'n', b'i', b't', b'>'];

/// Whether the name is that of an instance initialization method (JVMS 2.9.1).
pub fn is_init(name: &[u16]) -> bool
    ensures { result ≡ names.is_init name.now }
{
    is_same(name, &INIT_NAME)
}

/// Whether the name is that of a class or interface initialization method (JVMS 2.9.2).
pub fn is_clinit(name: &[u16]) -> bool
    ensures { result ≡ names.is_clinit name.now }
{
    is_same(name, &CLINIT_NAME)
}

/// Whether the name is that of an initialization method (JVMS 2.9).
pub fn is_initializer(name: &[u16]) -> bool
    ensures { result ≡ names.is_initializer name.now }
{
    is_init(name) || is_clinit(name)
}

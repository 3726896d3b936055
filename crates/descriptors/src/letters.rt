//! The characters of descriptors (JVMS 4.3.2, 4.3.3), as units of UTF-16.

pub const BYTE_LETTER: u16 = b'B' as u16;

pub const CHAR_LETTER: u16 = b'C' as u16;

pub const DOUBLE_LETTER: u16 = b'D' as u16;

pub const FLOAT_LETTER: u16 = b'F' as u16;

pub const INT_LETTER: u16 = b'I' as u16;

pub const LONG_LETTER: u16 = b'J' as u16;

pub const SHORT_LETTER: u16 = b'S' as u16;

pub const BOOL_LETTER: u16 = b'Z' as u16;

/// In front of the name of a class.
pub const CLASS_LETTER: u16 = b'L' as u16;

/// In place of the type of a result, where there is none.
pub const VOID_LETTER: u16 = b'V' as u16;

/// In front of the type of an array's elements.
pub const BRACKET: u16 = b'[' as u16;

/// After the name of a class.
pub const SEMICOLON: u16 = b';' as u16;

/// Between the parts of a class's name.
pub const SLASH: u16 = b'/' as u16;

/// A unit that no name has.
pub const DOT: u16 = b'.' as u16;

pub const OPEN_PARENTHESIS: u16 = b'(' as u16;

pub const CLOSE_PARENTHESIS: u16 = b')' as u16;

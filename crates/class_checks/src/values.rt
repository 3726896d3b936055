//! The values of static fields (JVMS 4.7.2).

ghost use Rattle.std.specs.Prelude.{◌≡◌, ◌∷◌, [], pos};
ghost use Rattle.class_grammar.specs.Checks as checks;
ghost use Rattle.class_grammar.specs.Names.{string_descriptor};
ghost use Rattle.class_grammar.specs.Text.{same_text};

use class_model::Const;
use descriptors::{
    BOOL_LETTER, BYTE_LETTER, CHAR_LETTER, DOUBLE_LETTER, FLOAT_LETTER, INT_LETTER, LONG_LETTER,
    SHORT_LETTER,
};

/// Whether the constant is the value of a field of some type.
pub fn is_value(constant: &Const) -> bool
    ensures { result ≡ checks.is_value constant.now }
{
    matches!(
        constant,
        Const::Integer(_) | Const::Float(_) | Const::Long(_) | Const::Double(_) | Const::Text(_)
    )
}

/// Whether the constant is the value of a field of this type. `is_string` says that the type is String.
pub fn has_type(units: &[u16], is_string: bool, constant: &Const) -> bool
    requires { is_string ≡ same_text units.now string_descriptor }
    ensures { result ≡ checks.has_type units.now constant.now }
{
    match constant {
        Const::Integer(_) => is_int(units),
        Const::Float(_) => is_letter(units, FLOAT_LETTER),
        Const::Long(_) => is_letter(units, LONG_LETTER),
        Const::Double(_) => is_letter(units, DOUBLE_LETTER),
        Const::Text(_) => is_string,
        _ => false,
    }
}

// Whether the text is just this letter.
fn is_letter(units: &[u16], letter: u16) -> bool
    ensures { result ≡ same_text units.now (letter ∷ []) }
{
    match units {
        [unit] => *unit == letter,
        _ => false,
    }
}

// Whether the type is one whose constants are ints.
fn is_int(units: &[u16]) -> bool
    ensures { result ≡ checks.has_type units.now (Const.Integer (pos 0)) }
{
    is_letter(units, INT_LETTER)
        || is_letter(units, SHORT_LETTER)
        || is_letter(units, CHAR_LETTER)
        || is_letter(units, BYTE_LETTER)
        || is_letter(units, BOOL_LETTER)
}

//! Look-ups in a constant pool (JVMS 4.4).

ghost use Rattle.std.specs.Prelude.{◌≡◌};
ghost use Rattle.std.specs.Option.{option_map};
ghost use Rattle.class_grammar.specs.Pool as spec;

use crate::text::is_same;
use class_model::Const;

/// The text at an index. `None`: the pool has no text there.
pub fn text_at(pool: &[Const], index: u16) -> Option<&[u16]>
    ensures { option_map (λ text. text.now) result ≡ spec.text_at pool.now index }
{
    match pool.get(usize::from(index)) {
        Some(Const::Utf8(units)) => Some(units.as_slice()),
        _ => None,
    }
}

/// The name of the class at an index. `None`: the pool has no class there, or that class has no text for its name.
pub fn class_name_at(pool: &[Const], index: u16) -> Option<&[u16]>
    ensures { option_map (λ text. text.now) result ≡ spec.class_name_at pool.now index }
{
    match pool.get(usize::from(index)) {
        Some(Const::Class(name)) => text_at(pool, *name),
        _ => None,
    }
}

/// Whether the text at an index is these characters, each a unit by itself. Where there is no text it isn't.
pub fn has_text(pool: &[Const], index: u16, text: &[u8]) -> bool
    ensures { result ≡ spec.has_text (spec.is_text text.now) pool.now index }
{
    match text_at(pool, index) {
        Some(units) => is_same(units, text),
        None => false,
    }
}

/// Whether the class at an index has this name. Where there is no class it hasn't.
pub fn is_class_named(pool: &[Const], index: u16, name: &[u16]) -> bool
    ensures { result ≡ spec.is_class_named name.now pool.now index }
{
    match class_name_at(pool, index) {
        Some(units) => units == name,
        None => false,
    }
}

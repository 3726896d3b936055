//! Text from UTF-16 to UTF-8.

ghost use Rattle.std.specs.Prelude.{◌≡◌, ◌<◌, ◌≤◌, ◌∷◌, IfOk, length, drop, string_bytes};
ghost use Rattle.std.specs.Char.Utf16.{utf16_chars};
ghost use Rattle.command_line.specs.Answers.{utf8_of};

use std::alloc::{AllocError, Global};

/// Units of UTF-16 as UTF-8, with `?` for a surrogate without its partner.
pub fn utf8(alloc: Global, units: &[u16]) -> Result<String, AllocError>
    ensures { IfOk result (λ text. string_bytes text ≡ utf8_of units.now) }
{
    let mut text = String::with_capacity(alloc, units.len())?;
    let mut at = 0;
    while at < units.len() {
        let (found, next) = char_at(units, at);
        text.push(found.unwrap_or('?'))?;
        at = next;
    }
    Ok(text)
}

// The character whose units begin at the offset `at`, and the offset of the next one. `None`: that unit is a surrogate
// without its partner.
fn char_at(units: &[u16], at: usize) -> (Option<char>, usize)
    requires { at < length units.now }
    ensures bound { (at < result.1) × (result.1 ≤ length units.now) }
    ensures first { utf16_chars (drop at units.now) ≡
        result.0 ∷ utf16_chars (drop result.1 units.now) }
{
    let high = units[at] as u32;
    if high < 0xd800 || 0xe000 <= high {
        return (char::from_u32(high), at + 1);
    }
    if 0xdc00 <= high || units.len() - at < 2 {
        return (None, at + 1);
    }
    let low = units[at + 1] as u32;
    if low < 0xdc00 || 0xe000 <= low {
        return (None, at + 1);
    }
    let code = 0x1_0000 + (high - 0xd800) * 0x400 + (low - 0xdc00);
    (char::from_u32(code), at + 2)
}

//! Texts in UTF-8 (Unicode 3.9, D92).

ghost use Rattle.std.specs.Prelude.{◌≡◌, ◌++◌, ◌∷◌, ◌<◌, ◌≤◌, ℕ, List, true, false, encode_utf8, IfOk, IfSome, OnOk};
ghost use Rattle.ref_model.specs.Texts as spec;

use items::NoMemory;

// The first unit of a pair.
fn is_high(unit: u16) -> bool
    ensures { result ≡ spec.is_high unit }
{
    0xd800 <= unit && unit <= 0xdbff
}

// The second unit of a pair.
fn is_low(unit: u16) -> bool
    ensures { result ≡ spec.is_low unit }
{
    0xdc00 <= unit && unit <= 0xdfff
}

// The code of the character of a pair.
fn joined(high: u16, low: u16) -> u32
    requires high { spec.is_high high ≡ true }
    requires low { spec.is_low low ≡ true }
    ensures code { result ≡ spec.joined high low }
    ensures char { (0x10000 ≤ result) × (result < 0x110000) }
{
    0x1_0000 + (u32::from(high) - 0xd800) * 0x400 + (u32::from(low) - 0xdc00)
}

// Appends the bytes of a character.
fn push_char(out: &mut Vec<u8>, character: char) -> Result<(), NoMemory>
    ensures { OnOk result (out.new.items ≡ out.old.items ++ encode_utf8 character) }
{
    let mut bytes = [0; 4];
    out.extend_from_slice(character.encode_utf8(&mut bytes).as_bytes())?;
    Ok(())
}

// Appends the bytes of a unit that is no high surrogate.
fn push_unit(out: &mut Vec<u8>, unit: u16) -> Result<(), NoMemory>
    requires { spec.is_high unit ≡ false }
    ensures { OnOk result (out.new.items ≡ out.old.items ++ spec.unit_bytes unit) }
{
    if unit < 0x80 {
        out.push(unit as u8)?;
        return Ok(());
    }
    match char::from_u32(u32::from(unit)) {
        Some(character) => push_char(out, character),
        None => push_char(out, '?'),
    }
}

// Appends the bytes of a pair.
fn push_pair(out: &mut Vec<u8>, high: u16, low: u16) -> Result<(), NoMemory>
    requires high { spec.is_high high ≡ true }
    requires low { spec.is_low low ≡ true }
    ensures { OnOk result
        (out.new.items ≡ out.old.items ++ encode_utf8 (spec.joined high low)) }
{
    match char::from_u32(joined(high, low)) {
        Some(character) => push_char(out, character),
        None => unreachable!(),
    }
}

// Appends the bytes of a unit after a high surrogate that has no partner yet, if there is one: the high surrogate that has none now.
fn push_next(out: &mut Vec<u8>, before: Option<u16>, unit: u16) -> Result<Option<u16>, NoMemory>
    requires { IfSome before (λ high. spec.is_high high ≡ true) }
    ensures high { IfOk result (λ next. IfSome next (λ high. spec.is_high high ≡ true)) }
    ensures bytes { IfOk result (λ next. (us : List ℕ) →
        out.new.items ++ spec.bytes_behind next us
        ≡ out.old.items ++ spec.bytes_behind before (unit ∷ us)) }
{
    if let Some(high) = before {
        if is_low(unit) {
            push_pair(out, high, unit)?;
            return Ok(None);
        }
        push_char(out, '?')?;
    }
    if is_high(unit) {
        return Ok(Some(unit));
    }
    push_unit(out, unit)?;
    Ok(None)
}

/// Appends a text in UTF-8, with `?` for a surrogate without its partner.
pub fn push_text(out: &mut Vec<u8>, units: &[u16]) -> Result<(), NoMemory>
    ensures { OnOk result (out.new.items ≡ out.old.items ++ spec.text_bytes units.now) }
{
    let mut before = None;
    for unit in units {
        before = push_next(out, before, *unit)?;
    }
    if before.is_some() {
        push_char(out, '?')?;
    }
    Ok(())
}

//! The parts of a trace text, each at the front of the bytes. What is read is answered with the bytes after it.

ghost use Rattle.std.specs.Prelude.{◌≡◌, ◌≤◌, true, IfSome};
ghost use Rattle.std.specs.Option.{option_map};
ghost use Rattle.history.specs.Parsing as parsing;

use crate::entry::{Entry, What};

/// The bytes after these at the front.
pub fn after<'a>(front: &[u8], bytes: &'a [u8]) -> Option<&'a [u8]>
    ensures { option_map (λ rest. rest.now) result ≡ parsing.after front.now bytes.now }
{
    bytes.strip_prefix(front)
}

// A number in decimal without leading zeros, which is at most `most`.
fn number_at(most: u64, bytes: &[u8]) -> Option<(u64, &[u8])>
    ensures value { option_map (λ x. (x.0, x.1.now)) result ≡ parsing.number_at most bytes.now }
    ensures bound { IfSome result (λ x. x.0 ≤ most) }
{
    let (first, rest) = bytes.split_first()?;
    match *first {
        b'0' => Some((0, rest)),
        b'1'..=b'9' => digits_at(most, bytes),
        _ => None,
    }
}

// The number that the digits at the front spell, which is at most `most`.
fn digits_at(most: u64, bytes: &[u8]) -> Option<(u64, &[u8])>
    ensures value { option_map (λ x. (x.0, x.1.now)) result ≡ parsing.digits_from most 0 bytes.now }
    ensures bound { IfSome result (λ x. x.0 ≤ most) }
{
    let mut number = 0;
    let mut rest = bytes;
    while let Some((digit, behind)) = rest.split_first() {
        if !is_digit(*digit) {
            return Some((number, rest));
        }
        number = with_digit(most, number, *digit)?;
        rest = behind;
    }
    Some((number, rest))
}

fn is_digit(byte: u8) -> bool
    ensures { result ≡ parsing.is_digit byte }
{
    matches!(byte, b'0'..=b'9')
}

// The number with one more digit at its end.
fn with_digit(most: u64, number: u64, digit: u8) -> Option<u64>
    requires { parsing.is_digit digit ≡ true }
    ensures value { result ≡ parsing.with_digit most number digit }
    ensures bound { IfSome result (λ next. next ≤ most) }
{
    let next = number
        .checked_mul(10)?
        .checked_add(u64::from(digit - b'0'))?;
    if next > most {
        return None;
    }
    Some(next)
}

// A space and a number of 64 bits.
fn long_field_at(bytes: &[u8]) -> Option<(u64, &[u8])>
    ensures { option_map (λ x. (x.0, x.1.now)) result ≡ parsing.field_at parsing.most64 bytes.now }
{
    number_at(u64::MAX, after(b" ", bytes)?)
}

// A space and a number of 32 bits.
fn field_at(bytes: &[u8]) -> Option<(u32, &[u8])>
    ensures { option_map (λ x. (x.0, x.1.now)) result ≡ parsing.field_at parsing.most32 bytes.now }
{
    let (number, rest) = number_at(u64::from(u32::MAX), after(b" ", bytes)?)?;
    Some((number as u32, rest))
}

// A space, and the number of a thread or a minus sign for none.
fn pick_at(bytes: &[u8]) -> Option<(Option<u32>, &[u8])>
    ensures { option_map (λ x. (x.0, x.1.now)) result ≡ parsing.pick_at bytes.now }
{
    match after(b" -", bytes) {
        Some(rest) => Some((None, rest)),
        None => {
            let (thread, rest) = field_at(bytes)?;
            Some((Some(thread), rest))
        }
    }
}

// The fields of a step: the thread, the number of steps, and the pick.
fn step_at(bytes: &[u8]) -> Option<(What, &[u8])>
    ensures { option_map (λ x. (x.0, x.1.now)) result ≡ parsing.step_at bytes.now }
{
    let (thread, rest) = field_at(bytes)?;
    let (steps, rest) = field_at(rest)?;
    let (pick, rest) = pick_at(rest)?;
    if steps == 0 {
        return None;
    }
    let what = What::Step {
        thread,
        steps,
        pick,
    };
    Some((what, rest))
}

// The fields after the carrier, by the entry's letter.
fn what_at(letter: u8, bytes: &[u8]) -> Option<(What, &[u8])>
    ensures { option_map (λ x. (x.0, x.1.now)) result ≡ parsing.what_at letter bytes.now }
{
    match letter {
        b'M' => {
            let (thread, rest) = field_at(bytes)?;
            Some((What::Mount(thread), rest))
        }
        b'U' => {
            let (thread, rest) = field_at(bytes)?;
            Some((What::Unmount(thread), rest))
        }
        b'S' => step_at(bytes),
        b'C' => {
            let (now, rest) = long_field_at(bytes)?;
            Some((What::Clock(now), rest))
        }
        _ => None,
    }
}

/// An entry's line.
pub fn entry_at(bytes: &[u8]) -> Option<(Entry, &[u8])>
    ensures { option_map (λ x. (x.0, x.1.now)) result ≡ parsing.entry_at bytes.now }
{
    let (letter, rest) = bytes.split_first()?;
    let (carrier, rest) = field_at(rest)?;
    let (what, rest) = what_at(*letter, rest)?;
    let rest = after(b"\n", rest)?;
    Some((Entry { carrier, what }, rest))
}

/// The first line, with the number of carriers.
pub fn first_line_at(bytes: &[u8]) -> Option<(u32, &[u8])>
    ensures { option_map (λ x. (x.0, x.1.now)) result ≡ parsing.first_line_at bytes.now }
{
    let (carriers, rest) = field_at(after(b"jvt-trace carriers", bytes)?)?;
    let rest = after(b"\n", rest)?;
    Some((carriers, rest))
}

/// The last line, with this number of entries.
pub fn last_line_at(count: usize, bytes: &[u8]) -> Option<&[u8]>
    ensures { option_map (λ rest. rest.now) result ≡ parsing.last_line_at count bytes.now }
{
    let (number, rest) = long_field_at(after(b"end", bytes)?)?;
    if number as usize != count {
        return None;
    }
    after(b"\n", rest)
}

//! Numbers in decimal, without leading zeros.

ghost use Rattle.std.specs.Prelude.{◌≡◌, ◌+◌, ◌≤◌, ◌<◌, ◌^◌, ℤ, pos, negsuc, ◌≤ℤ◌, true, IfSome};
ghost use Rattle.asm_text.specs.Numbers as numbers;

/// The number that the digits spell, which is at most `most`.
pub fn number_of(most: u64, digits: &[u8]) -> Option<u64>
    ensures value { result ≡ numbers.number_of most digits.now }
    ensures bound { IfSome result (λ n. n ≤ most) }
{
    let (first, rest) = digits.split_first()?;
    if *first == b'0' && !rest.is_empty() {
        return None;
    }
    digits_of(most, digits)
}

fn digits_of(most: u64, digits: &[u8]) -> Option<u64>
    ensures value { result ≡ numbers.digits_from most 0 digits.now }
    ensures bound { IfSome result (λ n. n ≤ most) }
{
    let mut number = 0;
    for digit in digits {
        if !is_digit(*digit) {
            return None;
        }
        number = with_digit(most, number, *digit)?;
    }
    Some(number)
}

fn is_digit(byte: u8) -> bool
    ensures { result ≡ numbers.is_digit byte }
{
    matches!(byte, b'0'..=b'9')
}

// The number with one more digit at its end.
fn with_digit(most: u64, number: u64, digit: u8) -> Option<u64>
    requires { numbers.is_digit digit ≡ true }
    ensures value { result ≡ numbers.with_digit most number digit }
    ensures bound { IfSome result (λ next. next ≤ most) }
{
    let next = number
        .checked_mul(10)?
        .checked_add(u64::from(digit - b'0'))?;
    if next > most {
        return None;
    }
    Some(next)
}

/// The number from `-most - 1` to `most` that the word spells.
pub fn int_of(most: u64, word: &[u8]) -> Option<i64>
    requires { most < 2 ^ 63 }
    ensures value { result ≡ numbers.int_of most word.now }
    ensures low { IfSome result (λ n. negsuc most ≤ℤ n) }
    ensures high { IfSome result (λ n. n ≤ℤ pos most) }
{
    let (first, rest) = word.split_first()?;
    if *first == b'-' {
        return negative(number_of(most + 1, rest)?);
    }
    let number = number_of(most, word)?;
    Some(number as i64)
}

// The number with a minus sign, which zero doesn't have.
fn negative(number: u64) -> Option<i64>
    requires { number ≤ 2 ^ 63 }
    ensures value { result ≡ numbers.negative number }
    ensures low { IfSome result (λ n. negsuc number ≤ℤ n) }
{
    if number == 0 {
        return None;
    }
    Some(-1 - (number - 1) as i64)
}

// Numbers in hexadecimal.
ghost use Rattle.std.specs.Prelude.{◌≡◌, ◌<◌, IfSome, Some};
ghost use Rattle.panel.specs.Numbers.{at_most, digit_of, number_of, with_digit};

// The number of a word of digits, if it has one, and it has no more than sixteen bits. The library's `from_str_radix`
// also takes a sign before the digits, so it is not used.
pub(crate) fn number(word: &[u8]) -> Option<u16>
    ensures { result ≡ number_of word.now }
{
    if word.is_empty() {
        return None;
    }
    let mut value = 0u16;
    for digit in word {
        value = with_digit(value, digit_value(*digit)?)?;
    }
    Some(value)
}

// A number with one more digit after it, if that still has sixteen bits.
fn with_digit(value: u16, digit: u8) -> Option<u16>
    ensures { result ≡ with_digit value (Some digit) }
{
    u16::try_from(u32::from(value) * 16 + u32::from(digit)).ok()
}

// The number of a word of digits, if it is at most `most`.
pub(crate) fn number_to(word: &[u8], most: u8) -> Option<u8>
    ensures { result ≡ at_most most (number_of word.now) }
{
    u8::try_from(number(word)?)
        .ok()
        .filter(|value| *value <= most)
}

// What a digit, capital or small, is worth.
pub(crate) fn digit_value(digit: u8) -> Option<u8>
    ensures value { result ≡ digit_of digit }
    ensures below { IfSome result (λ v. v < 16) }
{
    // By comparisons, one by one: with the library's `to_digit`, or a match on ranges, a schedule takes longer to read.
    if digit >= b'0' && digit <= b'9' {
        Some(digit - b'0')
    } else if digit >= b'A' && digit <= b'F' {
        Some(digit - b'A' + 10)
    } else if digit >= b'a' && digit <= b'f' {
        Some(digit - b'a' + 10)
    } else {
        None
    }
}

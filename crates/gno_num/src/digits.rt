// Rows of decimal digits.
ghost use Rattle.std.specs.Prelude.{◌≡◌, ◌+◌, ◌-◌, ◌^◌, ◌≤◌, length, min};
ghost use Rattle.std.specs.Str.{all_ascii_digits};
ghost use Rattle.gno_num.specs.Digits.{digits_front, digits_back, number_onto, begins_with, without_front};

/// The digits that a text begins with, and what follows them.
pub fn split_digits(text: &[u8]) -> (&[u8], &[u8])
    ensures front { result.0.now ≡ digits_front text.now }
    ensures back { result.1.now ≡ digits_back text.now }
    ensures len { length result.0.now + length result.1.now ≡ length text.now }
{
    let mut count = 0;
    while count < text.len() && text[count].is_ascii_digit() {
        count += 1;
    }
    text.split_at(count)
}

/// The number that the digits of `number` and these digits spell, or 2^64 - 1 where it doesn't fit.
pub fn number_onto(number: u64, digits: &[u8]) -> u64
    ensures { result ≡ min (number_onto number digits.now) (2 ^ 64 - 1) }
{
    let mut total = number;
    for digit in digits {
        let value = u64::from(digit.saturating_sub(b'0'));
        total = total.saturating_mul(10).saturating_add(value);
    }
    total
}

/// Whether a text begins with this byte, and the text without it.
pub fn skip(byte: u8, text: &[u8]) -> (bool, &[u8])
    ensures found { result.0 ≡ begins_with byte text.now }
    ensures rest { result.1.now ≡ without_front byte text.now }
    ensures len { length result.1.now ≤ length text.now }
{
    match text {
        [first, rest @ ..] if *first == byte => (true, rest),
        _ => (false, text),
    }
}

#[tactic(auto, using(crate::proofs::RowLemmas::digits_are_digits))]
/// Whether a text has no byte but digits.
pub fn are_digits(text: &[u8]) -> bool
    ensures { result ≡ all_ascii_digits text.now }
{
    let (_, rest) = split_digits(text);
    rest.is_empty()
}

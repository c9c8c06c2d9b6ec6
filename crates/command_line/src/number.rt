// Numbers in words.
ghost use Rattle.std.specs.Prelude.{◌≡◌, ◌≤◌, IfSome};
ghost use Rattle.command_line.specs.Number.{is_decimal, number_within};

use gno_num::are_digits;

/// Whether the word is one digit, or digits of which the first isn't 0.
fn is_decimal(word: &[u8]) -> bool
    ensures { result ≡ is_decimal word.now }
{
    match word {
        [] => false,
        [digit] => digit.is_ascii_digit(),
        [first, ..] => *first != b'0' && are_digits(word),
    }
}

/// The number that the word spells, where it is one from `least` to `most`.
pub fn number_within(least: u64, most: u64, word: &str) -> Option<u64>
    ensures value { result ≡ number_within least most word.now }
    ensures limit { IfSome result (λ number. number ≤ most) }
{
    if !is_decimal(word.as_bytes()) {
        return None;
    }
    match word.parse::<u64>() {
        Ok(number) if least <= number && number <= most => Some(number),
        _ => None,
    }
}

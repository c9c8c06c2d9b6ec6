// Reading a value.
ghost use Rattle.std.specs.Prelude.{◌≡◌, ◌^◌, ◌<◌, ◌≤◌, ◌↔◌, nat_lt, length, if◌then◌else◌};
ghost use Rattle.gno_num.specs.Number.{Number as Pieces, IsNumber};
ghost use Rattle.gno_num.specs.Value.{signed, value_of, value_read};

use crate::Value;
use crate::number::{Number, read_number};

/// Why a text has no value.
#[derive(Clone, Copy, Debug, PartialEq, Eq)]
pub enum NumFault {
    /// It has over 64 bytes.
    TooLong,
    /// It isn't a `number` of RFC 8259.
    NotANumber,
    /// Its magnitude is over 10^12, once rounded.
    TooLarge,
}

/// The most bytes that a number token may have.
pub const LONGEST_TOKEN: usize = 64;

const LARGEST: u64 = 1_000_000_000_000_000_000;

/// The value of a number token (RFC 8259), rounded to the nearest unit with ties away from zero.
pub fn read_value(token: &[u8]) -> Result<Value, NumFault>
    ensures exact { result ≡ value_read token.now }

    // What the token's grammar says of it.
    ensures too_long { (result ≡ Err NumFault.TooLong) ↔ (64 < length token.now) }
    ensures number { (n : Pieces) → length token.now ≤ 64 → IsNumber token.now n → result ≡ value_of n }
    ensures not_a_number { length token.now ≤ 64 → ((n : Pieces) → ¬ IsNumber token.now n)
        → result ≡ Err NumFault.NotANumber }
{
    value_at(token)
}

#[tactic(auto, unfolding(crate::specs::Value::value_read))]
fn value_at(token: &[u8]) -> Result<Value, NumFault>
    ensures { result ≡ value_read token.now }
{
    if token.len() > LONGEST_TOKEN {
        return Err(NumFault::TooLong);
    }
    match read_number(token) {
        None => Err(NumFault::NotANumber),
        Some(number) => value_of(&number),
    }
}

fn value_of(number: &Number<'_>) -> Result<Value, NumFault>
    ensures { result ≡ value_of number.now }
{
    signed_value(number.is_negative(), number.scaled(6).rounded())
}

// The value with this magnitude, unless it is too large.
fn signed_value(negative: bool, magnitude: u64) -> Result<Value, NumFault>
    ensures { result ≡ (if nat_lt (10 ^ 18) magnitude then Err NumFault.TooLarge else Ok (signed negative magnitude)) }
{
    if magnitude > LARGEST {
        return Err(NumFault::TooLarge);
    }
    let units = magnitude as i64;
    let units = if negative { -units } else { units };
    Value::of_units(units).ok_or(NumFault::TooLarge)
}

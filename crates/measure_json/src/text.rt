// Strings.
ghost use Rattle.std.specs.Prelude.{◌≡◌, ◌∷◌, ◌++◌, ◌+◌, ◌*◌, ◌<◌, ◌≤◌, ◌%◌, IfOk, IfSome, OnOk, Ok};
ghost use Rattle.std.specs.Char.{encode_utf8};
ghost use Rattle.measure_json.specs.Fault.{Gives, with_front};
ghost use Rattle.measure_json.specs.Spelled.{spelled_text};
ghost use Rattle.measure_json.specs.Text.{byte_in, two_more, three_more, wide_end, hex_onto, unit_at, is_high, is_low, pair_of, high_at, paired, short_escape, escape_at, character_at, string_at, is_plain, plain_front, plain_back};

use crate::fault::{ReadError, syntax};
use crate::number::front_of;
use gno_num::skip;
use std::alloc::AllocError;

// Where the text of a string stands.
#[derive(Clone, Copy)]
pub enum Spelled<'a> {
    // In the body, byte for byte.
    InPlace(&'a [u8]),
    // In the vector for strings with escapes.
    Unescaped,
}

impl<'a> Spelled<'a> {
    // The text, where `unescaped` is the vector that the string was read with.
    pub fn bytes(self, unescaped: &'a [u8]) -> &'a [u8]
        ensures { result.now ≡ spelled_text self.entry unescaped.now }
    {
        match self {
            Spelled::InPlace(bytes) => bytes,
            Spelled::Unescaped => unescaped,
        }
    }
}

// The text of a string, behind its opening quote, and what follows the closing one. A string with
// escapes, or with other characters than those of ASCII, is written out into `unescaped`.
pub fn string_at<'a>(
    text: &'a [u8],
    unescaped: &mut Vec<u8>,
) -> Result<(Spelled<'a>, &'a [u8]), ReadError>
    ensures { Gives (λ found. (spelled_text found.0 unescaped.new.items, found.1.now)) result (string_at text.now) }
{
    if let Some((plain, rest)) = plain_string(text) {
        return Ok((Spelled::InPlace(plain), rest));
    }
    let rest = unescape(text, unescaped)?;
    Ok((Spelled::Unescaped, rest))
}

fn is_plain(byte: u8) -> bool
    ensures { result ≡ is_plain byte }
{
    (32 <= byte && byte < 128) && (byte != b'"' && byte != b'\\')
}

// The plain bytes that a text begins with, and what follows them.
fn split_plain(text: &[u8]) -> (&[u8], &[u8])
    ensures front { result.0.now ≡ plain_front text.now }
    ensures back { result.1.now ≡ plain_back text.now }
{
    let mut count = 0;
    while count < text.len() && is_plain(text[count]) {
        count += 1;
    }
    text.split_at(count)
}

// The string, if it has plain bytes alone.
#[tactic(auto, using(crate::proofs::TextLemmas::plain_then))]
fn plain_string(text: &[u8]) -> Option<(&[u8], &[u8])>
    ensures { IfSome result (λ found. string_at text.now ≡ Ok (found.0.now, found.1.now)) }
{
    let (plain, rest) = split_plain(text);
    let (closes, behind) = skip(b'"', rest);
    if closes { Some((plain, behind)) } else { None }
}

// Writes the text of a string over what was in the vector, and gives what follows the string.
fn unescape<'a>(text: &'a [u8], unescaped: &mut Vec<u8>) -> Result<&'a [u8], ReadError>
    ensures { Gives (λ rest. (unescaped.new.items, rest.now)) result (string_at text.now) }
{
    unescaped.clear();
    let len = text.len();
    let mut rest = text;
    for _ in 0..len {
        let (closes, behind) = skip(b'"', rest);
        if closes {
            return Ok(behind);
        }
        rest = push_character(rest, unescaped)?;
    }
    Err(syntax(&[]))
}

// Appends what the character stands for, and gives what follows it.
#[tactic(auto, unfolding(crate::specs::Text::character_at))]
fn push_character<'a>(text: &'a [u8], out: &mut Vec<u8>) -> Result<&'a [u8], ReadError>
    ensures { Gives (λ rest. (out.new.items, rest.now)) result (with_front out.old.items (character_at text.now)) }
{
    match text {
        [first, rest @ ..] if *first == b'\\' => {
            let (code, rest) = escape_at(rest)?;
            push_code(code, out)?;
            Ok(rest)
        }
        [first, rest @ ..] if 32 <= *first && *first < 128 => {
            out.push(*first)?;
            Ok(rest)
        }
        [first, ..] if 128 <= *first => {
            let rest = wide_end(text)?;
            out.extend_from_slice(front_of(text, rest))?;
            Ok(rest)
        }
        _ => Err(syntax(text)),
    }
}

// Appends the UTF-8 form of a code, also of a surrogate.
fn push_code(code: u32, out: &mut Vec<u8>) -> Result<(), AllocError>
    requires { code < 0x11_0000 }
    ensures { OnOk result (out.new.items ≡ out.old.items ++ encode_utf8 code) }
{
    if code < 0x80 {
        out.extend_from_slice(&[code as u8])
    } else if code < 0x800 {
        out.extend_from_slice(&[(192 + code / 64) as u8, following(code)])
    } else if code < 0x1_0000 {
        out.extend_from_slice(&[
            (224 + code / 4096) as u8,
            following(code / 64),
            following(code),
        ])
    } else {
        out.extend_from_slice(&[
            (240 + code / 262_144) as u8,
            following(code / 4096),
            following(code / 64),
            following(code),
        ])
    }
}

fn following(bits: u32) -> u8
    ensures { result ≡ 128 + bits % 64 }
{
    (128 + bits % 64) as u8
}

// What follows a byte of this range.
#[tactic(auto, unfolding(crate::specs::Text::byte_in))]
fn byte_in(low: u8, high: u8, text: &[u8]) -> Result<&[u8], ReadError>
    ensures { Gives (λ rest. rest.now) result (byte_in low high text.now) }
{
    match text {
        [first, rest @ ..] if low <= *first && *first <= high => Ok(rest),
        _ => Err(syntax(text)),
    }
}

#[tactic(auto, unfolding(crate::specs::Text::two_more))]
fn two_more(low: u8, high: u8, text: &[u8]) -> Result<&[u8], ReadError>
    ensures { Gives (λ rest. rest.now) result (two_more low high text.now) }
{
    let rest = byte_in(low, high, text)?;
    byte_in(128, 191, rest)
}

#[tactic(auto, unfolding(crate::specs::Text::three_more))]
fn three_more(low: u8, high: u8, text: &[u8]) -> Result<&[u8], ReadError>
    ensures { Gives (λ rest. rest.now) result (three_more low high text.now) }
{
    let rest = two_more(low, high, text)?;
    byte_in(128, 191, rest)
}

// What follows a character of two bytes or more.
#[tactic(auto, unfolding(crate::specs::Text::wide_end))]
fn wide_end(text: &[u8]) -> Result<&[u8], ReadError>
    ensures { Gives (λ rest. rest.now) result (wide_end text.now) }
{
    let [first, rest @ ..] = text else {
        return Err(syntax(text));
    };
    match *first {
        194..=223 => byte_in(128, 191, rest),
        224 => two_more(160, 191, rest),
        237 => two_more(128, 159, rest),
        225..=239 => two_more(128, 191, rest),
        240 => three_more(144, 191, rest),
        241..=243 => three_more(128, 191, rest),
        244 => three_more(128, 143, rest),
        _ => Err(syntax(text)),
    }
}

// The code of an escape, behind its backslash, and what follows it.
#[tactic(auto, unfolding(crate::specs::Text::escape_at))]
fn escape_at(text: &[u8]) -> Result<(u32, &[u8]), ReadError>
    ensures found { Gives (λ found. (found.0, found.1.now)) result (escape_at text.now) }
    ensures range { IfOk result (λ found. found.0 < 0x11_0000) }
{
    match text {
        [first, rest @ ..] if *first == b'u' => {
            let (unit, rest) = unit_at(rest)?;
            paired(unit, rest)
        }
        [first, rest @ ..] => match short_escape(*first) {
            Some(code) => Ok((code, rest)),
            None => Err(syntax(text)),
        },
        [] => Err(syntax(text)),
    }
}

fn short_escape(byte: u8) -> Option<u32>
    ensures code { result ≡ short_escape byte }
    ensures range { IfSome result (λ code. code < 256) }
{
    match byte {
        b'"' | b'\\' | b'/' => Some(u32::from(byte)),
        b'b' => Some(8),
        b'f' => Some(12),
        b'n' => Some(10),
        b'r' => Some(13),
        b't' => Some(9),
        _ => None,
    }
}

// The code unit of four hexadecimal digits, and what follows them.
#[tactic(auto, unfolding(crate::specs::Text::unit_at))]
fn unit_at(text: &[u8]) -> Result<(u32, &[u8]), ReadError>
    ensures found { Gives (λ found. (found.0, found.1.now)) result (unit_at text.now) }
    ensures range { IfOk result (λ found. found.0 < 0x1_0000) }
{
    let (a, rest) = hex_onto(0, text)?;
    let (b, rest) = hex_onto(a, rest)?;
    let (c, rest) = hex_onto(b, rest)?;
    hex_onto(c, rest)
}

#[tactic(auto, unfolding(crate::specs::Text::hex_onto))]
fn hex_onto(number: u32, text: &[u8]) -> Result<(u32, &[u8]), ReadError>
    requires { number < 0x1000 }
    ensures found { Gives (λ found. (found.0, found.1.now)) result (hex_onto number text.now) }
    ensures range { IfOk result (λ found. found.0 < 16 * number + 16) }
{
    let [first, rest @ ..] = text else {
        return Err(syntax(text));
    };
    match char::from(*first).to_digit(16) {
        Some(digit) => Ok((16 * number + digit, rest)),
        None => Err(syntax(text)),
    }
}

fn is_high(unit: u32) -> bool
    ensures { result ≡ is_high unit }
{
    0xd800 <= unit && unit < 0xdc00
}

fn is_low(unit: u32) -> bool
    ensures { result ≡ is_low unit }
{
    0xdc00 <= unit && unit < 0xe000
}

// The unit, or the pair that it is the first of.
fn paired(unit: u32, rest: &[u8]) -> Result<(u32, &[u8]), ReadError>
    requires { unit < 0x1_0000 }
    ensures found { Gives (λ found. (found.0, found.1.now)) result (paired (unit, rest.now)) }
    ensures range { IfOk result (λ found. found.0 < 0x11_0000) }
{
    if is_high(unit) {
        high_at(unit, rest)
    } else {
        Ok((unit, rest))
    }
}

#[tactic(auto, unfolding(crate::specs::Text::high_at))]
fn high_at(high: u32, rest: &[u8]) -> Result<(u32, &[u8]), ReadError>
    requires from { 0xd800 ≤ high }
    requires below { high < 0xdc00 }
    ensures found { Gives (λ found. (found.0, found.1.now)) result (high_at high rest.now) }
    ensures range { IfOk result (λ found. found.0 < 0x11_0000) }
{
    match rest {
        [first, second, behind @ ..] if *first == b'\\' && *second == b'u' => {
            let (low, behind) = unit_at(behind)?;
            if is_low(low) {
                Ok((pair_of(high, low), behind))
            } else {
                Ok((high, rest))
            }
        }
        _ => Ok((high, rest)),
    }
}

// The character of a surrogate pair.
fn pair_of(high: u32, low: u32) -> u32
    requires high_from { 0xd800 ≤ high }
    requires high_below { high < 0xdc00 }
    requires low_from { 0xdc00 ≤ low }
    requires low_below { low < 0xe000 }
    ensures code { result ≡ pair_of high low }
    ensures range { result < 0x11_0000 }
{
    0x1_0000 + (high - 0xd800) * 1024 + (low - 0xdc00)
}

// The header lines that a head's spans cover.
ghost use Rattle.std.specs.Prelude.{◌≡◌, ◌≤◌, List, length, map, All, IfSome, slice_range};
ghost use Rattle.std.specs.Option.{option_copied};
ghost use Rattle.httparse.specs.Grammar.{trim_ows, is_ows};
ghost use Rattle.httparse.specs.Spans.{header_bytes, IsHeaderWithin};
ghost use Rattle.http_conn.specs.Fields.{is_word, values_of, has_member, any_has_member, first_of, are_all};

use httparse::spans::HeaderSpan;

/// Whether the two are one word, but for the case of their letters.
fn is_word(text: &[u8], word: &[u8]) -> bool
    ensures { result ≡ is_word text.now word.now }
{
    text.eq_ignore_ascii_case(word)
}

fn is_blank(byte: u8) -> bool
    ensures { result ≡ is_ows byte }
{
    byte == b' ' || byte == b'\t'
}

/// A text without the blanks at its ends.
fn trim_blanks(text: &[u8]) -> &[u8]
    ensures { result.now ≡ trim_ows text.now }
{
    let mut start = 0;
    let mut end = text.len();
    while start < end && is_blank(text[start]) {
        start += 1;
    }
    while start < end && is_blank(text[end - 1]) {
        end -= 1;
    }
    &text[start..end]
}

/// Whether the word is one of the members of a value, which commas part.
fn has_member(value: &[u8], word: &[u8]) -> bool
    ensures { result ≡ has_member word.now value.now }
{
    value
        .split(|byte| *byte == b',')
        .any(|part| is_word(trim_blanks(part), word))
}

/// How many header lines have this name.
pub(crate) fn count_of(bytes: &[u8], headers: &[HeaderSpan], name: &[u8]) -> usize
    requires inside { All (IsHeaderWithin (length bytes.now)) headers.now }
    ensures { result ≡ length (values_of name.now (map (header_bytes bytes.now) headers.now)) }
{
    let mut count = 0;
    for header in headers {
        if is_word(header.name.of(bytes), name) {
            count += 1;
        }
    }
    count
}

/// The value of the first header line of this name.
pub(crate) fn first_value<'a>(
    bytes: &'a [u8],
    headers: &[HeaderSpan],
    name: &[u8],
) -> Option<&'a [u8]>
    requires inside { All (IsHeaderWithin (length bytes.now)) headers.now }
    ensures { option_copied result ≡ first_of (values_of name.now (map (header_bytes bytes.now) headers.now)) }
{
    for header in headers {
        if is_word(header.name.of(bytes), name) {
            return Some(header.value.of(bytes));
        }
    }
    None
}

/// Whether each header line of this name has this value.
pub(crate) fn all_have(bytes: &[u8], headers: &[HeaderSpan], name: &[u8], value: &[u8]) -> bool
    requires inside { All (IsHeaderWithin (length bytes.now)) headers.now }
    ensures { result ≡ are_all value.now (values_of name.now (map (header_bytes bytes.now) headers.now)) }
{
    for header in headers {
        if is_word(header.name.of(bytes), name) && header.value.of(bytes) != value {
            return false;
        }
    }
    true
}

/// Whether a header line of this name has the member.
pub(crate) fn any_has(bytes: &[u8], headers: &[HeaderSpan], name: &[u8], word: &[u8]) -> bool
    requires inside { All (IsHeaderWithin (length bytes.now)) headers.now }
    ensures { result ≡ any_has_member word.now (values_of name.now (map (header_bytes bytes.now) headers.now)) }
{
    for header in headers {
        if is_word(header.name.of(bytes), name) && has_member(header.value.of(bytes), word) {
            return true;
        }
    }
    false
}

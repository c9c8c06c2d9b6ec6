// What the values of a query read as.
ghost use Rattle.std.specs.Prelude.{◌≡◌};
ghost use Rattle.measure_query.specs.Form.{kind_of, span_of, switch_of, time_of};

use crate::key::is_word;
use archive_policy::Kind;
use gno_num::{Span, Stamp};
use gno_time::{read_span, read_stamp};

pub fn time_of(value: &[u8]) -> Option<Stamp>
    ensures { result ≡ time_of value.now }
{
    read_stamp(value).ok()
}

pub fn span_of(value: &[u8]) -> Option<Span>
    ensures { result ≡ span_of value.now }
{
    read_span(value).ok()
}

pub fn kind_of(name: &[u8]) -> Option<Kind>
    ensures { result ≡ kind_of name.now }
{
    Kind::of_name(name)
}

/// Yes or no.
pub fn switch_of(value: &[u8]) -> Option<bool>
    ensures { result ≡ switch_of value.now }
{
    if is_word(value, b"true") || is_word(value, b"1") {
        Some(true)
    } else if is_word(value, b"false") || is_word(value, b"0") {
        Some(false)
    } else {
        None
    }
}

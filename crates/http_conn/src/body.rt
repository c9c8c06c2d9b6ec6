// Bytes in a number that is known.
ghost use Rattle.std.specs.Prelude.{◌≡◌, ◌+◌, ◌<◌, ◌≤◌, length, take, drop, Some, IfSome, IfNone};
ghost use Rattle.std.specs.Io.KnownBytes.{Consumes, IsAtEnd};
ghost use Rattle.gno_num.specs.Faults.{Rose};
ghost use Rattle.http_conn.specs.Reading.{IsEndOf};

use crate::head::HeadEnd;
use gno_io::Source;

/// How many bytes came, and why not all of them.
#[derive(Clone, Copy)]
pub(crate) struct Reading {
    pub(crate) count: usize,
    pub(crate) end: Option<HeadEnd>,
}

/// Fills the room with the bytes held and those that the source gives, at most so many of these.
pub(crate) fn fill<S: Source>(source: &mut S, held: &[u8], out: &mut [u8], most: u64) -> Reading
    requires fits { length held.now ≤ length out.old }
    ensures front { take (length held.now) out.new ≡ held.now }
    ensures taken { Consumes (S.left source.old) (S.left source.new) (take result.count (drop (length held.now) out.new)) }
    ensures room { length held.now + result.count ≤ length out.new }
    ensures most { result.count ≤ most }
    ensures full { IfNone result.end (length held.now + result.count ≡ length out.new) }
    ensures short { IfSome result.end (λ end. length held.now + result.count < length out.new) }
    ensures end { IfSome result.end (λ end. IsEndOf end (IsAtEnd (S.left source.new)) (result.count ≡ most)
        (Rose (S.faults source.old) (S.faults source.new))) }
    ensures unread { length out.old ≡ length held.now → source.new ≡ source.old }
    ensures later { S.faults source.old ≤ S.faults source.new }
{
    let front = held.len();
    out[..front].copy_from_slice(held);
    read_full(source, &mut out[front..], most)
}

/// Takes bytes from the source until there is no more room, at most so many.
fn read_full<S: Source>(source: &mut S, out: &mut [u8], most: u64) -> Reading
    ensures taken { Consumes (S.left source.old) (S.left source.new) (take result.count out.new) }
    ensures room { result.count ≤ length out.new }
    ensures most { result.count ≤ most }
    ensures full { IfNone result.end (result.count ≡ length out.new) }
    ensures short { IfSome result.end (λ end. result.count < length out.new) }
    ensures end { IfSome result.end (λ end. IsEndOf end (IsAtEnd (S.left source.new)) (result.count ≡ most)
        (Rose (S.faults source.old) (S.faults source.new))) }
    ensures unread { length out.old ≡ 0 → source.new ≡ source.old }
    ensures later { S.faults source.old ≤ S.faults source.new }
{
    let mut count = 0;
    'pieces: while count < out.len() {
        let left = most - count as u64;
        if left == 0 {
            return ended(count, HeadEnd::TooMuch);
        }
        let stop = count + ((out.len() - count) as u64).min(left) as usize;
        match source.take(&mut out[count..stop]) {
            Ok(0) => return ended(count, HeadEnd::Cut),
            Ok(came) => count += came,
            Err(_) => return ended(count, HeadEnd::ReadFault),
        }
    }
    Reading { count, end: None }
}

fn ended(count: usize, end: HeadEnd) -> Reading
    ensures count { result.count ≡ count }
    ensures end { result.end ≡ Some end }
{
    Reading {
        count,
        end: Some(end),
    }
}

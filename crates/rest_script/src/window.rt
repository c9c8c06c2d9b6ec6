// The bytes that a script holds.
ghost use Rattle.std.specs.Prelude.{◌≡◌, ℕ, ◌<◌, ◌≤◌, List, [], ◌++◌, ◌+◌, ◌-◌, length, take, drop, slice_range, IfOk, OnErr};
ghost use Rattle.std.specs.Io.KnownBytes.{Consumes, Keeps, IsAtEnd};
ghost use Rattle.gno_num.specs.Faults.{Rose};

use gno_io::Source;
use gno_num::Failed;
use std::alloc::{AllocError, Global};
use std::marker::Model;

/// The longest line with its end, and the bytes that are held at most.
pub(crate) const ROOM: usize = 1_048_577;

/// Moves the part from `start` to `end` to the front.
fn pack(room: &mut [u8], start: usize, end: usize)
    requires ordered { start ≤ end }
    requires inside { end ≤ length room.old }
    ensures { take (end - start) room.new ≡ slice_range room.old start end }
{
    if start > 0 {
        room.copy_within(start..end, 0);
    }
}

/// Moves the part from `start` to `end` to the front, and takes bytes behind it, at most so many.
fn refill<S: Source>(
    source: &mut S,
    room: &mut [u8],
    start: usize,
    end: usize,
    most: usize,
) -> Result<usize, Failed>
    requires ordered { start ≤ end }
    requires inside { end ≤ length room.old }
    requires space { end - start < length room.old }
    requires some { 0 < most }
    ensures taken { IfOk result (λ n. (piece : List ℕ) × (length piece ≡ n)
        × Consumes (S.left source.old) (S.left source.new) piece
        × (take (end - start + n) room.new ≡ slice_range room.old start end ++ piece)) }
    ensures bound { IfOk result (λ n. n ≤ most) }
    ensures within { IfOk result (λ n. end - start + n ≤ length room.new) }
    ensures end { IfOk result (λ n. n ≡ 0 → IsAtEnd (S.left source.new)) }
    ensures unchanged { OnErr result (take (end - start) room.new ≡ slice_range room.old start end) }
    ensures kept { OnErr result (Keeps (S.left source.old) (S.left source.new)) }
    ensures cause { OnErr result (Rose (S.faults source.old) (S.faults source.new)) }
    ensures later { S.faults source.old ≤ S.faults source.new }
{
    pack(room, start, end);
    let held = end - start;
    let stop = held + (room.len() - held).min(most);
    source.take(&mut room[held..stop])
}

/// Bytes that came and weren't given out yet.
#[derive(Debug, Drop)]
pub(crate) struct Window {
    room: Vec<u8>,
    start: usize,
    end: usize,
}

impl Model for Window {
    ghost use Rattle.std.specs.Prelude.{◌≡◌, ◌≤◌, ℕ, List, length, slice_range};

    ghost Value = { List ℕ };

    ghost view = { λ w. slice_range w.room.items w.start w.end };

    ghost invariant = { λ w. (w.start ≤ w.end) × (w.end ≤ 1048577) × (length w.room.items ≡ 1048577) };
}

impl Window {
    /// An empty one. It takes its memory once.
    pub(crate) fn new(alloc: Global) -> Result<Window, AllocError>
        ensures { IfOk result (λ window. window ≡ []) }
    {
        let room = vec![in alloc; 0; ROOM]?;
        Ok(Window {
            room,
            start: 0,
            end: 0,
        })
    }

    /// How many bytes are held.
    pub(crate) fn len(&self) -> usize
        ensures len { result ≡ length self.now }
        ensures most { result ≤ 1048577 }
    {
        self.end - self.start
    }

    /// The bytes held.
    pub(crate) fn bytes(&self) -> &[u8]
        ensures bytes { result.now ≡ self.now }
        ensures most { length self.now ≤ 1048577 }
    {
        &self.room[self.start..self.end]
    }

    /// Gives the first bytes out.
    pub(crate) fn skip(&mut self, count: usize)
        requires { count ≤ length self.old }
        ensures { self.new ≡ drop count self.old }
    {
        self.start += count;
    }

    /// Takes the next bytes from a source, at most so many, and as many as there is room for.
    pub(crate) fn take_from<S: Source>(
        &mut self,
        source: &mut S,
        most: usize,
    ) -> Result<usize, Failed>
        requires room { length self.old < 1048577 }
        requires some { 0 < most }
        ensures taken { IfOk result (λ n. (piece : List ℕ) × (length piece ≡ n)
            × Consumes (S.left source.old) (S.left source.new) piece × (self.new ≡ self.old ++ piece)) }
        ensures bound { IfOk result (λ n. n ≤ most) }
        ensures within { length self.new ≤ 1048577 }
        ensures end { IfOk result (λ n. n ≡ 0 → IsAtEnd (S.left source.new)) }
        ensures unchanged { OnErr result (self.new ≡ self.old) }
        ensures kept { OnErr result (Keeps (S.left source.old) (S.left source.new)) }
        ensures cause { OnErr result (Rose (S.faults source.old) (S.faults source.new)) }
        ensures later { S.faults source.old ≤ S.faults source.new }
    {
        let came = refill(source, &mut self.room, self.start, self.end, most);
        self.end -= self.start;
        self.start = 0;
        match came {
            Ok(count) => {
                self.end += count;
                Ok(count)
            }
            Err(failed) => Err(failed),
        }
    }
}

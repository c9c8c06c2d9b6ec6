// The lines of a source, one after another.
ghost use Rattle.std.specs.Prelude.{◌≡◌, ◌≢◌, ◌+◌, ◌^◌, ◌<◌, ◌≤◌, [], ◌∷◌, ◌++◌, length, take, drop, All, MatchOption, Err, IfOk, OnOk, IfErr, OnErr};
ghost use Rattle.std.specs.Io.KnownBytes.{Keeps};
ghost use Rattle.gno_num.specs.Faults.{Rose};
ghost use Rattle.http_conn.specs.Bytes.{GivesOut};
ghost use Rattle.rest_script.specs.Lines.{BeginsWithLine, EndsBehind};

use crate::script_end::ScriptEnd;
use crate::window::{ROOM, Window};
use gno_io::Source;
use gno_num::Memory;
use memchr::memchr;
use std::alloc::Global;
use std::marker::Model;

/// The bytes that are taken at most.
const MOST_BYTES: u64 = 1 << 40;

/// The bytes of a script that came and weren't given out yet. It takes its memory once.
#[derive(Debug, Drop)]
pub(crate) struct LineReader {
    window: Window,
    given: u64,
}

impl Model for LineReader {
    ghost use Rattle.std.specs.Prelude.{◌+◌, ◌^◌, ◌≤◌, length};
    ghost use Rattle.http_conn.specs.Bytes.{Held};

    ghost Value = { Held };

    ghost view = { λ r. record { bytes = r.window; given = r.given } };

    ghost invariant = { λ r. r.given + length r.window ≤ 2 ^ 40 };
}

/// Where the first line feed is, which isn't among the first `searched` bytes.
fn line_end(bytes: &[u8], searched: usize) -> Option<usize>
    requires fits { searched ≤ length bytes.now }
    requires none_yet { All (λ b. b ≢ 10) (take searched bytes.now) }
    ensures { MatchOption result (All (λ b. b ≢ 10) bytes.now) (λ at. (at < length bytes.now)
        × All (λ b. b ≢ 10) (take at bytes.now) × (bytes.now ≡ take at bytes.now ++ 10 ∷ drop (at + 1) bytes.now)) }
{
    match memchr(b'\n', &bytes[searched..]) {
        Some(at) => Some(searched + at),
        None => None,
    }
}

impl LineReader {
    /// A script of which no byte came yet.
    pub(crate) fn new(alloc: Global) -> Result<LineReader, Memory>
        ensures bytes { IfOk result (λ lines. lines.bytes ≡ []) }
        ensures given { IfOk result (λ lines. lines.given ≡ 0) }
    {
        let window = Window::new(alloc)?;
        Ok(LineReader { window, given: 0 })
    }

    /// The first bytes of those held, in such a number.
    pub(crate) fn front(&self, count: usize) -> &[u8]
        requires { count ≤ length self.now.bytes }
        ensures { result.now ≡ take count self.now.bytes }
    {
        &self.window.bytes()[..count]
    }

    /// Gives the first bytes out.
    pub(crate) fn pass(&mut self, count: usize)
        requires { count ≤ length self.old.bytes }
        ensures bytes { self.new.bytes ≡ drop count self.old.bytes }
        ensures given { self.new.given ≡ self.old.given + count }
    {
        self.window.skip(count);
        self.given += count as u64;
    }

    /// Takes more bytes, since no line ends in those held.
    fn take_more<S: Source>(&mut self, source: &mut S) -> Result<(), ScriptEnd>
        requires open { All (λ b. b ≢ 10) self.old.bytes }
        ensures taken { OnOk result (GivesOut self.old self.new (S.left source.old) (S.left source.new) []) }
        ensures more { OnOk result (length self.old.bytes < length self.new.bytes) }
        ensures few { length self.new.bytes ≤ 1048577 }
        ensures unchanged { OnErr result (self.new ≡ self.old) }
        ensures kept { OnErr result (Keeps (S.left source.old) (S.left source.new)) }
        ensures end { IfErr result (λ end. EndsBehind end (self.new.given + length self.new.bytes) self.new.bytes (S.left source.new)) }
        ensures reads { IfErr result (λ end. end ≢ ScriptEnd.WriteFault) }
        ensures cause { result ≡ Err ScriptEnd.ReadFault → Rose (S.faults source.old) (S.faults source.new) }
        ensures later { S.faults source.old ≤ S.faults source.new }
    {
        let held = self.window.len();
        if held == ROOM {
            return Err(ScriptEnd::TooLong);
        }
        let most = (MOST_BYTES - self.given - held as u64).min(ROOM as u64) as usize;
        if most == 0 {
            return Err(ScriptEnd::TooMuch);
        }
        match self.window.take_from(source, most) {
            Ok(0) if held == 0 => Err(ScriptEnd::Ended),
            Ok(0) => Err(ScriptEnd::Cut),
            Ok(_) => Ok(()),
            Err(_) => Err(ScriptEnd::ReadFault),
        }
    }

    /// The length of the line at the front of the bytes held, once they have one.
    pub(crate) fn next_line<S: Source>(&mut self, source: &mut S) -> Result<usize, ScriptEnd>
        ensures line { IfOk result (λ len. BeginsWithLine self.new.bytes (take len self.new.bytes)) }
        ensures fits { IfOk result (λ len. len < length self.new.bytes) }
        ensures few { IfOk result (λ len. len ≤ 1048576) }
        ensures held { GivesOut self.old self.new (S.left source.old) (S.left source.new) [] }
        ensures end { IfErr result (λ end. EndsBehind end (self.new.given + length self.new.bytes) self.new.bytes (S.left source.new)) }
        ensures reads { IfErr result (λ end. end ≢ ScriptEnd.WriteFault) }
        ensures cause { result ≡ Err ScriptEnd.ReadFault → Rose (S.faults source.old) (S.faults source.new) }
        ensures later { S.faults source.old ≤ S.faults source.new }
    {
        let mut searched = 0;
        'pieces: loop {
            let held = self.window.bytes();
            match line_end(held, searched) {
                Some(at) => return Ok(at),
                None => searched = held.len(),
            }
            self.take_more(source)?;
        }
    }
}

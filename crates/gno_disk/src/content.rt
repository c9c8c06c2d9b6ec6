// What a disk in memory holds, and how it came to.
ghost use Rattle.std.specs.Prelude.{◌≡◌, ◌≢◌, ◌≤◌, ◌+◌, ◌^◌, ◌↔◌, [], ◌∷◌, ◌++◌, Bool, true, false, ◌<◌, length, take, slice_index, IsTrue, IfOk, OnOk, OnErr};
ghost use Rattle.gno_disk.specs.Disk.{Torn, LooseCut, Follows, NoMore, Only, Elapses};
ghost use Rattle.gno_disk.specs.Memory.{has_read, wrote, cut_to, synced};
ghost use Rattle.gno_disk.specs.Images.{bytes_after, MayLeave, LeftSince, is_loose};
ghost use Rattle.gno_disk.specs.Inside.{state_of};
ghost use Rattle.gno_disk.specs.Stop.{IsImageChosen};

use crate::call::{Call, cut_remembered, remember, remember_failed_write, write_remembered};
use crate::since::{Since, add_range};
use crate::stop::draw_image;
use std::alloc::{AllocError, Global};
use std::marker::Model;

const LIMIT: u64 = 1 << 60;

// Whether an image has a read's byte at a place, unless the place is loose.
fn is_kept(since: &Since, bytes: &[u8], image: &[u8], place: usize) -> bool
    requires least { since.now.least ≤ length bytes.now }
    requires inside { place < length image.now }
    ensures { IsTrue result ↔ (is_loose (state_of bytes.now since.now) place ≡ false
        → slice_index image.now place ≡ slice_index bytes.now place) }
{
    since.is_loose(place as u64) || image[place] == bytes[place]
}

/// The bytes of a disk in memory, and the calls that were made on it. A call that finds no memory
/// isn't made, and changes nothing.
#[derive(Drop)]
pub struct Content {
    alloc: Global,
    first: Option<Vec<u8>>,
    bytes: Vec<u8>,
    calls: Vec<Call>,
    since: Since,
}

impl Model for Content {
    ghost use Rattle.gno_disk.specs.Content.{ContentView};

    ghost Value = { ContentView };

    ghost use Rattle.gno_disk.specs.Inside.{first_of, steps_of};
    ghost use Rattle.gno_disk.specs.Kept.{IsKept};

    ghost view = { λ c. record {
      first = first_of c.first c.bytes.items;
      steps = steps_of c.calls.items;
    } };

    ghost invariant = { IsKept };
}

impl Content {
    /// These bytes, all of them synced.
    pub fn new(alloc: Global, bytes: Vec<u8>) -> Content
        requires { length bytes.items ≤ 2 ^ 60 }
        ensures { result ≡ record { first = bytes.items; steps = [] } }
    {
        let len = bytes.len() as u64;
        Content {
            alloc,
            first: None,
            bytes,
            calls: Vec::new(alloc),
            since: Since {
                least: len,
                greatest: len,
                ranges: Vec::new(alloc),
            },
        }
    }

    /// The bytes that a read gives.
    pub fn bytes(&self) -> &[u8]
        ensures bytes { result.now ≡ (bytes_after self.now.first self.now.steps) }
        ensures limit { length (bytes_after self.now.first self.now.steps) ≤ 2 ^ 60 }
    {
        &self.bytes
    }

    /// Whether a stop may leave this image.
    pub fn allows(&self, image: &[u8]) -> bool
        ensures { IsTrue result ↔ MayLeave self.now.first self.now.steps image.now }
    {
        let len = image.len() as u64;
        if len < self.since.least || len > self.since.greatest {
            return false;
        }
        for place in 0..image.len() {
            if !is_kept(&self.since, &self.bytes, image, place) {
                return false;
            }
        }
        true
    }

    /// An image that a stop may leave: by 0 the bytes that a read gives, else by draws.
    pub fn image(&self, alloc: Global, choice: u64) -> Result<Vec<u8>, AllocError>
        ensures image { IfOk result (λ image. MayLeave self.now.first self.now.steps image.items) }
        ensures limit { IfOk result (λ image. length image.items ≤ 2 ^ 60) }
        ensures reads { choice ≡ 0 → IfOk result (λ image. image.items ≡ (bytes_after self.now.first self.now.steps)) }
        ensures drawn { choice ≢ 0 → IfOk result (λ image. IsImageChosen self.now.first self.now.steps choice image.items) }
    {
        if choice == 0 {
            return Vec::from_slice(alloc, &self.bytes);
        }
        draw_image(alloc, &self.since, &self.bytes, choice)
    }

    // Whether so many bytes from this place on end within the limit of all disks.
    fn is_within_limit(&self, at: u64, len: usize) -> bool
        requires { at ≤ length (bytes_after self.now.first self.now.steps) }
        ensures within { IsTrue result ↔ (at + len ≤ 2 ^ 60) }
    {
        let place = self.bytes.len() as u64;
        at <= place && len as u64 <= LIMIT - at
    }

    /// Remembers a read.
    pub fn note_read(&mut self, failed: bool) -> Result<(), AllocError>
        ensures first { self.new.first ≡ self.old.first }
        ensures bytes { bytes_after self.new.first self.new.steps ≡ bytes_after self.old.first self.old.steps }
        ensures ok { OnOk result (self.new.steps ≡ self.old.steps ++ has_read failed ∷ []) }
        ensures err { OnErr result (self.new ≡ self.old) }
        ensures crash { NoMore (MayLeave self.old.first self.old.steps) (MayLeave self.new.first self.new.steps) }
        ensures time { Elapses (length self.old.steps) (length self.new.steps)
            (LeftSince self.old.first self.old.steps) (LeftSince self.new.first self.new.steps)
            (MayLeave self.new.first self.new.steps) }
    {
        remember(&mut self.calls, Call::Read { failed })?;
        Ok(())
    }

    /// Writes over what is there and past the end. For more than the limit there is no memory.
    pub fn write(&mut self, at: u64, bytes: &[u8]) -> Result<(), AllocError>
        requires { at ≤ length (bytes_after self.old.first self.old.steps) }
        ensures limit { OnOk result (at + length bytes.now ≤ 2 ^ 60) }
        ensures first { self.new.first ≡ self.old.first }
        ensures ok { OnOk result (self.new.steps ≡ self.old.steps ++ wrote at bytes.now false ∷ []) }
        ensures err { OnErr result (self.new ≡ self.old) }
        ensures crash { Follows (Torn at (length bytes.now))
            (MayLeave self.old.first self.old.steps) (MayLeave self.new.first self.new.steps) }
        ensures time { Elapses (length self.old.steps) (length self.new.steps)
            (LeftSince self.old.first self.old.steps) (LeftSince self.new.first self.new.steps)
            (MayLeave self.new.first self.new.steps) }
    {
        if !self.is_within_limit(at, bytes.len()) {
            return Err(AllocError);
        }
        self.since.ranges.reserve(1)?;
        write_remembered(
            self.alloc,
            &mut self.first,
            &mut self.bytes,
            &mut self.calls,
            at,
            bytes,
        )?;
        let len = bytes.len() as u64;
        add_range(&mut self.since.ranges, at, len);
        self.since.greatest = self.since.greatest.max(at + len);
        Ok(())
    }

    /// Remembers a write that fails and changes no byte.
    pub fn fail_write(&mut self, at: u64, bytes: &[u8]) -> Result<(), AllocError>
        requires { at ≤ length (bytes_after self.old.first self.old.steps) }
        ensures first { self.new.first ≡ self.old.first }
        ensures ok { OnOk result (self.new.steps ≡ self.old.steps ++ wrote at bytes.now true ∷ []) }
        ensures err { OnErr result (self.new ≡ self.old) }
        ensures crash { Follows (Torn at (length bytes.now))
            (MayLeave self.old.first self.old.steps) (MayLeave self.new.first self.new.steps) }
        ensures time { Elapses (length self.old.steps) (length self.new.steps)
            (LeftSince self.old.first self.old.steps) (LeftSince self.new.first self.new.steps)
            (MayLeave self.new.first self.new.steps) }
    {
        self.since.ranges.reserve(1)?;
        remember_failed_write(self.alloc, &mut self.calls, at, bytes)?;
        add_range(&mut self.since.ranges, at, bytes.len() as u64);
        Ok(())
    }

    /// Cuts to a length.
    pub fn cut(&mut self, to: u64) -> Result<(), AllocError>
        requires { to ≤ length (bytes_after self.old.first self.old.steps) }
        ensures first { self.new.first ≡ self.old.first }
        ensures ok { OnOk result (self.new.steps ≡ self.old.steps ++ cut_to to false ∷ []) }
        ensures err { OnErr result (self.new ≡ self.old) }
        ensures crash { Follows (LooseCut to)
            (MayLeave self.old.first self.old.steps) (MayLeave self.new.first self.new.steps) }
        ensures time { Elapses (length self.old.steps) (length self.new.steps)
            (LeftSince self.old.first self.old.steps) (LeftSince self.new.first self.new.steps)
            (MayLeave self.new.first self.new.steps) }
    {
        cut_remembered(
            self.alloc,
            &mut self.first,
            &mut self.bytes,
            &mut self.calls,
            to,
        )?;
        self.since.least = self.since.least.min(to);
        Ok(())
    }

    /// Remembers a cut that fails and changes no byte.
    pub fn fail_cut(&mut self, to: u64) -> Result<(), AllocError>
        ensures first { self.new.first ≡ self.old.first }
        ensures ok { OnOk result (self.new.steps ≡ self.old.steps ++ cut_to to true ∷ []) }
        ensures err { OnErr result (self.new ≡ self.old) }
        ensures crash { Follows (LooseCut to)
            (MayLeave self.old.first self.old.steps) (MayLeave self.new.first self.new.steps) }
        ensures time { Elapses (length self.old.steps) (length self.new.steps)
            (LeftSince self.old.first self.old.steps) (LeftSince self.new.first self.new.steps)
            (MayLeave self.new.first self.new.steps) }
    {
        remember(&mut self.calls, Call::Cut { to, failed: true })?;
        Ok(())
    }

    /// Syncs: nothing is loose.
    pub fn sync(&mut self) -> Result<(), AllocError>
        ensures first { self.new.first ≡ self.old.first }
        ensures ok { OnOk result (self.new.steps ≡ self.old.steps ++ synced false ∷ []) }
        ensures err { OnErr result (self.new ≡ self.old) }
        ensures durable { OnOk result (Only (bytes_after self.old.first self.old.steps) (MayLeave self.new.first self.new.steps)) }
        ensures crash { NoMore (MayLeave self.old.first self.old.steps) (MayLeave self.new.first self.new.steps) }
        ensures time { Elapses (length self.old.steps) (length self.new.steps)
            (LeftSince self.old.first self.old.steps) (LeftSince self.new.first self.new.steps)
            (MayLeave self.new.first self.new.steps) }
    {
        remember(&mut self.calls, Call::Sync { failed: false })?;
        let len = self.bytes.len() as u64;
        self.since.least = len;
        self.since.greatest = len;
        self.since.ranges.clear();
        Ok(())
    }

    /// Remembers a sync that fails.
    pub fn fail_sync(&mut self) -> Result<(), AllocError>
        ensures first { self.new.first ≡ self.old.first }
        ensures ok { OnOk result (self.new.steps ≡ self.old.steps ++ synced true ∷ []) }
        ensures err { OnErr result (self.new ≡ self.old) }
        ensures crash { NoMore (MayLeave self.old.first self.old.steps) (MayLeave self.new.first self.new.steps) }
        ensures time { Elapses (length self.old.steps) (length self.new.steps)
            (LeftSince self.old.first self.old.steps) (LeftSince self.new.first self.new.steps)
            (MayLeave self.new.first self.new.steps) }
    {
        remember(&mut self.calls, Call::Sync { failed: true })?;
        Ok(())
    }
}

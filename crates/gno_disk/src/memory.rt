// A disk in memory.
ghost use Rattle.std.specs.Prelude.{◌≡◌, ◌≢◌, ◌⊎◌, ◌≤◌, ◌<◌, ◌+◌, ◌^◌, ◌↔◌, [], Some, None, refl, is_err, length, take, drop, max, IsTrue, IsErr, IfOk, OnOk, OnErr, if◌then◌else◌};
ghost use Rattle.gno_num.specs.Faults.{Rose};
ghost use Rattle.gno_disk.specs.Disk.{Overwrites, Torn, PartCut, LooseCut, Follows, NoMore, Only, Elapses};
ghost use Rattle.gno_disk.specs.Comings.{reads_image, Came-none, Came-then, Came-more, Came-later, Came-goes_on, Came-fused, Came-unfused, Came-listed, Came-starved, Came-failed};
ghost use Rattle.gno_disk.specs.Memory.{Came, IsListed, IsPlanned, IsMade, LacksMemory, IsNumbered, burnt, has_read, wrote, cut_to, synced};
ghost use Rattle.gno_disk.specs.Images.{bytes_of, MayLeave, LeftSince, now_counts, now_only};
ghost use Rattle.gno_disk.specs.Stop.{IsImageChosen};

use crate::content::Content;
use crate::counts::Counts;
use crate::{Disk, Fusible};
use gno_num::{Failed, Memory};
use std::alloc::Global;
use std::marker::Model;

/// A disk in memory, which tells its bytes. Its calls fail where they are listed, once its fuse
/// lets nothing pass, or for want of memory, and it remembers each call that was made. A call that
/// fails changes no byte that a read gives, but the range of a failed write is loose all the same. For
/// a write whose end lies past 2^60 there is no memory.
#[derive(Drop)]
pub struct MemDisk {
    content: Content,
    fail: Vec<u64>,
    counts: Counts,
}

impl Model for MemDisk {
    ghost use Rattle.gno_disk.specs.Memory.{MemView};

    ghost Value = { MemView };

    ghost view = { λ d. record {
      first = d.content.first;
      steps = d.content.steps;
      number = d.counts.number;
      fail = d.fail.items;
      fuse = d.counts.fuse;
      faults = d.counts.faults;
      starved = d.counts.starved;
    } };
}

impl MemDisk {
    /// A disk with these bytes, all of them synced. The numbers of the calls that are to fail are
    /// counted from 0 over `read`, `write_at`, `cut` and `sync`.
    pub fn new(alloc: Global, bytes: Vec<u8>, fail: Vec<u64>) -> MemDisk
        requires { length bytes.items ≤ 2 ^ 60 }
        ensures { result ≡ record {
          first = bytes.items;
          steps = [];
          number = 0;
          fail = fail.items;
          fuse = None;
          faults = 0;
          starved = 0;
        } }
    {
        MemDisk {
            content: Content::new(alloc, bytes),
            fail,
            counts: Counts {
                number: 0,
                faults: 0,
                starved: 0,
                fuse: None,
            },
        }
    }

    /// The bytes that a read gives.
    pub fn bytes(&self) -> &[u8]
        ensures { result.now ≡ bytes_of self.now }
    {
        self.content.bytes()
    }

    /// Whether a stop now may leave this image.
    pub fn images_allow(&self, image: &[u8]) -> bool
        ensures { IsTrue result ↔ MayLeave self.now.first self.now.steps image.now }
    {
        self.content.allows(image)
    }

    /// A fresh disk with one image that a stop now may leave, and with no calls that are to fail.
    ///
    /// The number chooses the image. By 0 it is the bytes that a read gives. Any other number is
    /// where draws begin: with x for the state, a draw makes it x * 6364136223846793005 +
    /// 1442695040888963407 mod 2^64, and is x / 2^33. The first draw gives the length, from the
    /// least to the greatest since the last sync. Then each place that is loose, the first of them
    /// first, takes one draw: by its remainder over 4 the byte that a read gives (0 where it gives
    /// none), 0, 1, or the last byte of its quotient.
    pub fn stop(&self, alloc: Global, choice: u64) -> Result<MemDisk, Memory>
        ensures image { IfOk result (λ disk. MayLeave self.now.first self.now.steps disk.first) }
        ensures fresh { IfOk result (λ disk. disk ≡ record {
          first = disk.first;
          steps = [];
          number = 0;
          fail = [];
          fuse = None;
          faults = 0;
          starved = 0;
        }) }
        ensures reads { choice ≡ 0 → IfOk result (λ disk. disk.first ≡ bytes_of self.now) }
        ensures drawn { choice ≢ 0 → IfOk result (λ disk. IsImageChosen self.now.first self.now.steps choice disk.first) }
    {
        let image = self.content.image(alloc, choice)?;
        Ok(MemDisk::new(alloc, image, Vec::new(alloc)))
    }

    // Whether the next call is to fail.
    fn is_planned(&self) -> bool
        ensures { IsTrue result ↔ IsPlanned self.now }
    {
        self.fail.contains(&self.counts.number) || self.counts.fuse == Some(0)
    }
}

impl Fusible for MemDisk {
    ghost starved = { λ d. d.starved };

    ghost fused = { λ d. d.fuse };

    ghost listed = { IsListed };

    ghost came_fused = { Came-fused };

    ghost came_unfused = { Came-unfused };

    ghost came_listed = { Came-listed };

    ghost came_starved = { Came-starved };

    ghost came_failed = { Came-failed };

    fn fuse(&mut self, calls: u64)
        ensures { self.new ≡ record self.old { fuse = Some calls } }
    {
        self.counts.fuse = Some(calls);
    }

    fn starved(&self) -> u64 {
        self.counts.starved
    }
}

impl Disk for MemDisk {
    ghost told = { λ d. Some (bytes_of d) };

    ghost size = { λ d. length (bytes_of d) };

    ghost faults = { λ d. d.faults };

    ghost may_leave = { λ d. MayLeave d.first d.steps };

    ghost moment = { λ d. length d.steps };

    ghost left_since = { λ d. LeftSince d.first d.steps };

    ghost whole = { λ _. refl };

    ghost reads = { reads_image };

    ghost counts_now = { λ d. now_counts d.first d.steps };

    ghost only_now = { λ d. now_only d.first d.steps };

    ghost came = { Came };

    ghost came_none = { Came-none };

    ghost came_then = { Came-then };

    ghost came_more = { Came-more };

    ghost came_later = { Came-later };

    ghost came_goes_on = { Came-goes_on };

    ghost came_tells = { λ n old new came. refl };

    fn len(&self) -> u64 {
        self.content.bytes().len() as u64
    }

    fn faults(&self) -> u64 {
        self.counts.faults
    }

    fn read(&mut self, at: u64, out: &mut [u8]) -> Result<(), Failed>
        requires { at + length out.old ≤ length (bytes_of self.old) }
        ensures bytes { OnOk result (out.new ≡ take (length out.old) (drop at (bytes_of self.old))) }
        ensures told { bytes_of self.new ≡ bytes_of self.old }
        ensures size { length (bytes_of self.new) ≡ length (bytes_of self.old) }
        ensures crash { NoMore (MayLeave self.old.first self.old.steps) (MayLeave self.new.first self.new.steps) }
        ensures time { Elapses (length self.old.steps) (length self.new.steps)
            (LeftSince self.old.first self.old.steps) (LeftSince self.new.first self.new.steps)
            (MayLeave self.new.first self.new.steps) }
        ensures later { self.old.faults ≤ self.new.faults }
        ensures cause { OnErr result (Rose self.old.faults self.new.faults) }
        ensures came { Came 0 self.old self.new }
        ensures starved { self.old.starved ≤ self.new.starved }

        ensures listed { IsPlanned self.old → IsErr result }
        ensures unlisted { OnErr result (IsPlanned self.old ⊎ LacksMemory self.old self.new) }
        ensures made { IsMade self.old self.new (has_read (is_err result))
            ⊎ (IsErr result × LacksMemory self.old self.new) }
        ensures counted { IsNumbered self.old self.new (is_err result) }
        ensures fuse { self.new.fuse ≡ self.old.fuse }
    {
        let failed = self.is_planned();
        let made = self.content.note_read(failed);
        self.counts.answer(made, failed)?;
        let start = at as usize;
        out.copy_from_slice(&self.content.bytes()[start..start + out.len()]);
        Ok(())
    }

    fn write_at(&mut self, at: u64, bytes: &[u8]) -> Result<(), Failed>
        requires { at ≤ length (bytes_of self.old) }
        ensures written { OnOk result (Overwrites at bytes.now (bytes_of self.old) (bytes_of self.new)) }
        ensures size { OnOk result
            (length (bytes_of self.new) ≡ max (length (bytes_of self.old)) (at + length bytes.now)) }
        ensures limit { OnOk result (at + length bytes.now ≤ 2 ^ 60) }
        ensures torn { OnErr result (Torn at (length bytes.now) (bytes_of self.old) (bytes_of self.new)) }
        ensures crash { Follows (Torn at (length bytes.now))
            (MayLeave self.old.first self.old.steps) (MayLeave self.new.first self.new.steps) }
        ensures time { Elapses (length self.old.steps) (length self.new.steps)
            (LeftSince self.old.first self.old.steps) (LeftSince self.new.first self.new.steps)
            (MayLeave self.new.first self.new.steps) }
        ensures later { self.old.faults ≤ self.new.faults }
        ensures cause { OnErr result (Rose self.old.faults self.new.faults) }
        ensures came { Came 1 self.old self.new }
        ensures starved { self.old.starved ≤ self.new.starved }

        ensures unchanged { OnErr result (bytes_of self.new ≡ bytes_of self.old) }
        ensures listed { IsPlanned self.old → IsErr result }
        ensures unlisted { OnErr result (IsPlanned self.old ⊎ LacksMemory self.old self.new) }
        ensures made { IsMade self.old self.new (wrote at bytes.now (is_err result))
            ⊎ (IsErr result × LacksMemory self.old self.new) }
        ensures counted { IsNumbered self.old self.new (is_err result) }
        ensures fuse { self.new.fuse ≡ (if is_err result then self.old.fuse else burnt self.old.fuse) }
    {
        let failed = self.is_planned();
        let made = if failed {
            self.content.fail_write(at, bytes)
        } else {
            self.content.write(at, bytes)
        };
        self.counts.answer_change(made, failed)
    }

    fn cut(&mut self, to: u64) -> Result<(), Failed>
        requires { to ≤ length (bytes_of self.old) }
        ensures cut { OnOk result (bytes_of self.new ≡ take to (bytes_of self.old)) }
        ensures size { OnOk result (length (bytes_of self.new) ≡ to) }
        ensures part { OnErr result (PartCut to (bytes_of self.old) (bytes_of self.new)) }
        ensures crash { Follows (LooseCut to)
            (MayLeave self.old.first self.old.steps) (MayLeave self.new.first self.new.steps) }
        ensures time { Elapses (length self.old.steps) (length self.new.steps)
            (LeftSince self.old.first self.old.steps) (LeftSince self.new.first self.new.steps)
            (MayLeave self.new.first self.new.steps) }
        ensures later { self.old.faults ≤ self.new.faults }
        ensures cause { OnErr result (Rose self.old.faults self.new.faults) }
        ensures came { Came 1 self.old self.new }
        ensures starved { self.old.starved ≤ self.new.starved }

        ensures unchanged { OnErr result (bytes_of self.new ≡ bytes_of self.old) }
        ensures listed { IsPlanned self.old → IsErr result }
        ensures unlisted { OnErr result (IsPlanned self.old ⊎ LacksMemory self.old self.new) }
        ensures made { IsMade self.old self.new (cut_to to (is_err result))
            ⊎ (IsErr result × LacksMemory self.old self.new) }
        ensures counted { IsNumbered self.old self.new (is_err result) }
        ensures fuse { self.new.fuse ≡ (if is_err result then self.old.fuse else burnt self.old.fuse) }
    {
        let failed = self.is_planned();
        let made = if failed {
            self.content.fail_cut(to)
        } else {
            self.content.cut(to)
        };
        self.counts.answer_change(made, failed)
    }

    fn sync(&mut self) -> Result<(), Failed>
        ensures told { bytes_of self.new ≡ bytes_of self.old }
        ensures size { length (bytes_of self.new) ≡ length (bytes_of self.old) }
        ensures durable { OnOk result (Only (bytes_of self.old) (MayLeave self.new.first self.new.steps)) }
        ensures crash { NoMore (MayLeave self.old.first self.old.steps) (MayLeave self.new.first self.new.steps) }
        ensures time { Elapses (length self.old.steps) (length self.new.steps)
            (LeftSince self.old.first self.old.steps) (LeftSince self.new.first self.new.steps)
            (MayLeave self.new.first self.new.steps) }
        ensures later { self.old.faults ≤ self.new.faults }
        ensures cause { OnErr result (Rose self.old.faults self.new.faults) }
        ensures came { Came 1 self.old self.new }
        ensures starved { self.old.starved ≤ self.new.starved }

        ensures listed { IsPlanned self.old → IsErr result }
        ensures unlisted { OnErr result (IsPlanned self.old ⊎ LacksMemory self.old self.new) }
        ensures made { IsMade self.old self.new (synced (is_err result))
            ⊎ (IsErr result × LacksMemory self.old self.new) }
        ensures counted { IsNumbered self.old self.new (is_err result) }
        ensures fuse { self.new.fuse ≡ (if is_err result then self.old.fuse else burnt self.old.fuse) }
    {
        let failed = self.is_planned();
        let made = if failed {
            self.content.fail_sync()
        } else {
            self.content.sync()
        };
        self.counts.answer_change(made, failed)
    }
}

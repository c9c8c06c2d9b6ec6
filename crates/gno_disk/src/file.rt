// A disk over a file.
ghost use Rattle.std.specs.Prelude.{◌≡◌, ◌≤◌, ◌^◌, None, is_ok, OnOk, OnErr, IfOk, true, false};
ghost use Rattle.gno_num.specs.Faults.{Rose};

use crate::Disk;
use gno_num::Failed;
use std::fs::File;
use std::marker::Model;
use std::os::unix::fs::FileExt;

const LIMIT: u64 = 1 << 60;

/// A disk over a file. It tells nothing of its bytes. No contract says what a file does; the length
/// is the one that the file told last, and that of the calls since. Once a sync has failed, each
/// call but `len` and `faults` fails: the system may have dropped what it couldn't write, and then
/// answers the next sync with Ok.
#[derive(Drop)]
pub struct FileDisk {
    file: File,
    len: u64,
    faults: u64,
    failed: bool,
}

impl Model for FileDisk {
    ghost use Rattle.std.specs.Prelude.{◌≤◌, ◌^◌};
    ghost use Rattle.gno_disk.specs.File.{FileView};

    ghost Value = { FileView };

    ghost view = { λ d. record { len = d.len; faults = d.faults; failed = d.failed } };

    ghost invariant = { λ d. d.len ≤ 2 ^ 60 };
}

impl FileDisk {
    /// A disk over an open file, unless its length can't be had or is over 2^60.
    pub fn new(file: File) -> Result<FileDisk, Failed>
        ensures faults { IfOk result (λ disk. disk.faults ≡ 0) }
        ensures failed { IfOk result (λ disk. disk.failed ≡ false) }
    {
        let len = len_of(&file)?;
        Ok(FileDisk {
            file,
            len,
            faults: 0,
            failed: false,
        })
    }

    // Ends a call that may change the length: one that failed may have done any part, so the file
    // is asked again. Where it doesn't tell, the disk fails from then on.
    fn answer_change(&mut self, done: bool, len: u64) -> Result<(), Failed>
        requires { len ≤ 2 ^ 60 }
        ensures done { is_ok result ≡ done }
        ensures len { OnOk result (self.new.len ≡ len) }
        ensures failed { OnOk result (self.new.failed ≡ self.old.failed) }
        ensures later { self.old.faults ≤ self.new.faults }
        ensures cause { OnErr result (Rose self.old.faults self.new.faults) }
    {
        if done {
            self.len = len;
            return Ok(());
        }
        match len_of(&self.file) {
            Ok(len) => self.len = len,
            Err(_) => self.failed = true,
        }
        answer(&mut self.faults, false)
    }
}

// The length of a file, unless it can't be had or is over 2^60.
fn len_of(file: &File) -> Result<u64, Failed>
    ensures { IfOk result (λ len. len ≤ 2 ^ 60) }
{
    match file.metadata() {
        Ok(metadata) if metadata.len() <= LIMIT => Ok(metadata.len()),
        _ => Err(Failed),
    }
}

// Counts a call that failed.
fn answer(faults: &mut u64, done: bool) -> Result<(), Failed>
    ensures done { is_ok result ≡ done }
    ensures later { faults.old ≤ faults.new }
    ensures cause { OnErr result (Rose faults.old faults.new) }
{
    if done {
        return Ok(());
    }
    *faults = faults.saturating_add(1);
    Err(Failed)
}

impl Disk for FileDisk {
    ghost use Rattle.gno_disk.specs.File.{no_bytes, no_image, no_past, nothing_whole, nothing_reads, nothing_counts, nothing_only, AnyCame, came_none, came_then, came_more, came_later, came_goes_on, came_tells};

    ghost told = { no_bytes };

    ghost size = { λ d. d.len };

    ghost faults = { λ d. d.faults };

    ghost may_leave = { no_image };

    ghost moment = { λ _. 0 };

    ghost left_since = { no_past };

    ghost whole = { nothing_whole };

    ghost reads = { nothing_reads };

    ghost counts_now = { nothing_counts };

    ghost only_now = { nothing_only };

    ghost came = { AnyCame };

    ghost came_none = { came_none };

    ghost came_then = { came_then };

    ghost came_more = { came_more };

    ghost came_later = { came_later };

    ghost came_goes_on = { came_goes_on };

    ghost came_tells = { came_tells };

    fn len(&self) -> u64 {
        self.len
    }

    fn faults(&self) -> u64 {
        self.faults
    }

    fn read(&mut self, at: u64, out: &mut [u8]) -> Result<(), Failed> {
        let done = !self.failed && self.file.read_exact_at(out, at).is_ok();
        answer(&mut self.faults, done)
    }

    fn write_at(&mut self, at: u64, bytes: &[u8]) -> Result<(), Failed> {
        let old_len = self.len;
        let len = bytes.len() as u64;
        if len > LIMIT - at {
            return answer(&mut self.faults, false);
        }
        let done = !self.failed && self.file.write_all_at(bytes, at).is_ok();
        self.answer_change(done, old_len.max(at + len))
    }

    fn cut(&mut self, to: u64) -> Result<(), Failed> {
        let done = !self.failed && self.file.set_len(to).is_ok();
        self.answer_change(done, to)
    }

    // The system's sync of data writes the length too where it has changed.
    fn sync(&mut self) -> Result<(), Failed> {
        let done = !self.failed && self.file.sync_data().is_ok();
        self.failed = !done;
        answer(&mut self.faults, done)
    }
}

// How a run ends.
ghost use Rattle.std.specs.Prelude.{◌≡◌, ◌++◌, IfOk, OnOk, OnErr, codes, string_bytes};
ghost use Rattle.std.specs.Fmt.{decimal};
ghost use Rattle.command_line.specs.Status.{line_of, status_line, status_number};

use gno_num::{Counter, Memory};
use std::alloc::{AllocError, Global};

/// How a run ended. `Done` is status 0.
#[derive(Clone, Copy, Debug, PartialEq, Eq)]
pub enum Status {
    /// The input was read to its end, and everything defined was written.
    Done,
    /// The words are no command, or the number of disks isn't the plan's, or the call doesn't do this
    /// command.
    Usage,
    /// A script line is too long, the input ends inside a line or message, or a message was refused so
    /// that the connection closes.
    Input,
    /// The source failed.
    Read,
    /// The sink failed.
    Write,
    /// A disk failed.
    Disk,
    /// Bytes of a disk are none that a store writes there.
    Damaged { disk: u16, at: u64 },
    /// There was no memory.
    Memory,
    /// A thread can't be started.
    Thread,
    /// The listener failed.
    Listen,
    /// The disks have a store already.
    Exists,
    /// 2^40 bytes were taken, and the input hadn't ended.
    TooMuch,
    /// A counter stands at its last value.
    Spent { counter: Counter, at: u64 },
}

impl Status {
    /// The number that the program ends with.
    pub fn number(self) -> u8
        ensures { result ≡ status_number self }
    {
        match self {
            Status::Done => 0,
            Status::Usage => 2,
            Status::Input => 3,
            Status::Read => 4,
            Status::Write => 5,
            Status::Disk => 6,
            Status::Damaged { .. } => 7,
            Status::Memory => 8,
            Status::Thread => 9,
            Status::Listen => 10,
            Status::Exists => 11,
            Status::TooMuch => 12,
            Status::Spent { .. } => 13,
        }
    }

    /// Writes what standard error shows: one line, or nothing where the run is done.
    pub fn write_line(self, out: &mut Vec<u8>) -> Result<(), Memory>
        ensures ok { OnOk result (out.new.items ≡ out.old.items ++ status_line self) }
        ensures err { OnErr result (out.new.items ≡ out.old.items) }
    {
        let line = self.line(*out.allocator())?;
        out.extend_from_slice(line.as_bytes())?;
        Ok(())
    }

    fn line(self, alloc: Global) -> Result<String, AllocError>
        ensures { IfOk result (λ line. string_bytes line ≡ status_line self) }
    {
        match self {
            Status::Done => Ok(String::new(alloc)),
            Status::Usage => line_of(alloc, "usage"),
            Status::Input => line_of(alloc, "input"),
            Status::Read => line_of(alloc, "read fault"),
            Status::Write => line_of(alloc, "write fault"),
            Status::Disk => line_of(alloc, "disk fault"),
            Status::Damaged { disk, at } => damaged_line(alloc, disk, at),
            Status::Memory => line_of(alloc, "memory"),
            Status::Thread => line_of(alloc, "no thread"),
            Status::Listen => line_of(alloc, "listener fault"),
            Status::Exists => line_of(alloc, "store exists"),
            Status::TooMuch => line_of(alloc, "too much input"),
            Status::Spent { .. } => line_of(alloc, "spent"),
        }
    }
}

/// The line with this text.
fn line_of(alloc: Global, text: &str) -> Result<String, AllocError>
    ensures { IfOk result (λ line. string_bytes line ≡ line_of text.now) }
{
    format!(in alloc; "gnocchi: {text}\n")
}

/// The line of damage on this disk at this place.
fn damaged_line(alloc: Global, disk: u16, at: u64) -> Result<String, AllocError>
    ensures { IfOk result (λ line. string_bytes line
        ≡ line_of (codes "damaged " ++ (decimal disk ++ (codes " at " ++ decimal at)))) }
{
    let text = format!(in alloc; "damaged {disk} at {at}")?;
    line_of(alloc, &text)
}

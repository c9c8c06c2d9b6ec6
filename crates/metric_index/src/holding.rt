// How the index keeps its disks between calls.
ghost use Rattle.std.specs.Prelude.{◌≡◌, None, OnOk, Some, IfOk, IfErr, IfSome, IsSome, true};
ghost use Rattle.metric_index.specs.Holding.{IsMountedFrom, IsOfSacks, StaysApart, TakesBook};

use crate::book::Book;
use gno_disk::Disk;
use log_pair::MountFault;
use std::alloc::Global;
use std::mem;

/// The book, or the disks where mounting failed.
#[derive(Drop)]
pub enum Held<D: Disk> {
    Mounted(Book<D>),
    Apart(D, D),
}

/// Puts back what is held.
pub fn put_back<D: Disk>(held: &mut Option<Held<D>>, new: Held<D>)
    requires { held.old ≡ None }
    ensures { held.new ≡ Some new }
{
    match mem::replace(held, Some(new)) {
        None => {}
        Some(_old) => unreachable!(),
    }
}

/// Mounts the book, or keeps the disks apart.
fn mount_into<D: Disk>(
    alloc: Global,
    held: &mut Option<Held<D>>,
    a: D,
    b: D,
    sacks: u16,
) -> Result<(Book<D>, bool), MountFault>
    requires { held.old ≡ None }
    ensures taken { OnOk result (held.new ≡ None) }
    ensures ok { IfOk result (λ taken. IsMountedFrom D.Disk sacks a b taken.0 × (taken.1 ≡ true)) }
    ensures err { IfErr result (λ e. StaysApart D.Disk sacks (Some (Held.Apart a b)) held.new e) }
{
    match Book::mount(alloc, a, b, sacks) {
        Ok(book) => Ok((book, true)),
        Err((a, b, fault)) => {
            put_back(held, Held::Apart(a, b));
            Err(fault)
        }
    }
}

/// Takes the book out, which is mounted again where it is broken, and whether it was. Where mounting fails the
/// disks stay.
pub fn take_book<D: Disk>(
    alloc: Global,
    held: &mut Option<Held<D>>,
    sacks: u16,
) -> Result<(Book<D>, bool), MountFault>
    requires some { IsSome held.old }
    requires of_sacks { IfSome held.old (IsOfSacks sacks) }
    ensures taken { OnOk result (held.new ≡ None) }
    ensures ok { IfOk result (λ taken. TakesBook D.Disk sacks held.old taken.0 taken.1) }
    ensures of_sacks { IfOk result (λ taken. taken.0.sacks ≡ sacks) }
    ensures err { IfErr result (StaysApart D.Disk sacks held.old held.new) }
{
    match held.take() {
        Some(Held::Mounted(book)) => {
            if !book.is_broken() {
                return Ok((book, false));
            }
            let (a, b) = book.into_disks();
            mount_into(alloc, held, a, b, sacks)
        }
        Some(Held::Apart(a, b)) => mount_into(alloc, held, a, b, sacks),
        None => unreachable!(),
    }
}

// How a sack keeps its disks between calls.
ghost use Rattle.std.specs.Prelude.{◌≡◌, None, OnOk, Some, IfOk, IfErr, IfSome, IsSome, true, map};
ghost use Rattle.sack_state.specs.Books.{AreMountedFrom, AreOfPlace};
ghost use Rattle.sack_state.specs.Holding.{IsOfPlace, StaysApart, StaysBroken, TakesBooks};

use crate::books::{Books, mount_books};
use crate::disks::SackDisks;
use gno_disk::Disk;
use gno_num::Memory;
use log_pair::{MountFault, Place};
use series_model::MetricId;
use std::alloc::Global;
use std::mem;
use std::snapshot::Snapshot;

/// What is left of a sack whose mounting failed: its disks, and what its books knew as they broke.
#[derive(Drop)]
pub struct Remains<D: Disk> {
    pub disks: SackDisks<D>,
    pub metrics: Vec<MetricId>,
    pub pending: u64,
    pub books: Snapshot<Books<D>>,
}

/// The books, or what is left of them where mounting failed.
#[derive(Drop)]
pub enum Keeping<D: Disk> {
    Mounted(Books<D>),
    Apart(Remains<D>),
}

/// Puts back what is held.
pub fn put_back<D: Disk>(held: &mut Option<Keeping<D>>, new: Keeping<D>)
    requires { held.old ≡ None }
    ensures { held.new ≡ Some new }
{
    match mem::replace(held, Some(new)) {
        None => {}
        Some(_old) => unreachable!(),
    }
}

/// Mounts the books, or keeps what is left of them.
fn mount_into<D: Disk>(
    alloc: Global,
    held: &mut Option<Keeping<D>>,
    remains: Remains<D>,
    place: Place,
) -> Result<(Books<D>, bool), MountFault>
    requires { held.old ≡ None }
    ensures taken { OnOk result (held.new ≡ None) }
    ensures ok { IfOk result (λ taken. AreMountedFrom D.Disk place remains.disks taken.0 × (taken.1 ≡ true)) }
    ensures err { IfErr result (λ e. StaysApart D.Disk place remains held.new e) }
{
    let Remains {
        disks,
        metrics,
        pending,
        books,
    } = remains;
    match mount_books(alloc, disks, place) {
        Ok(mounted) => Ok((mounted, true)),
        Err((disks, fault)) => {
            put_back(
                held,
                Keeping::Apart(Remains {
                    disks,
                    metrics,
                    pending,
                    books,
                }),
            );
            Err(fault)
        }
    }
}

/// Takes the books out, which are mounted again where they are broken, and whether they were. Where mounting fails,
/// what was held stays, or what is left of it.
pub fn take_books<D: Disk>(
    alloc: Global,
    held: &mut Option<Keeping<D>>,
    place: Place,
) -> Result<(Books<D>, bool), MountFault>
    requires some { IsSome held.old }
    requires of_place { IfSome held.old (IsOfPlace place) }
    ensures taken { OnOk result (held.new ≡ None) }
    ensures ok { IfOk result (λ taken. TakesBooks D.Disk place held.old taken.0 taken.1) }
    ensures of_place { IfOk result (λ taken. AreOfPlace place taken.0) }
    ensures err { IfErr result (StaysBroken D.Disk place held.old held.new) }
{
    match held.take() {
        Some(Keeping::Mounted(books)) => {
            if !books.is_broken() {
                return Ok((books, false));
            }
            match Vec::from_slice(alloc, books.shelf.metrics()) {
                Ok(metrics) => {
                    let known = Snapshot::of(&books);
                    let pending = books.pending();
                    let remains = Remains {
                        disks: books.into_disks(),
                        metrics,
                        pending,
                        books: known,
                    };
                    mount_into(alloc, held, remains, place)
                }
                Err(_) => {
                    put_back(held, Keeping::Mounted(books));
                    Err(MountFault::Memory)
                }
            }
        }
        Some(Keeping::Apart(remains)) => mount_into(alloc, held, remains, place),
        None => unreachable!(),
    }
}

// What the records of a log make.
ghost use Rattle.std.specs.Prelude.{◌≡◌, ◌<◌, ◌≤◌, ◌+◌, ◌^◌, ⊤, [], All, IfOk, IfErr, IfSome, OnOk, take, false, true};
ghost use Rattle.gate_log.specs.LogView.{IsFault, MatchMountFault};
ghost use Rattle.log_pair.specs.PairView.{both_faults};
ghost use Rattle.pair_reading.specs.Reading.{IsOddOf, IsOnlyRead};
ghost use Rattle.shelf_records.specs.Shelved.{AreBlocks};
ghost use Rattle.split_store.specs.Loading.{AreRecordsOf, IsOddBehind, IsSound};

use gno_codec::{ReadFault, read_shelf};
use gno_disk::Disk;
use log_pair::{LogPair, MountFault};
use pair_reading::{read_body, since};
use shelf_records::{Book, FollowFault};
use std::alloc::Global;

/// The book of the live metrics that the records of a pair make, each of them read once, whose blocks stand on
/// a disk of so many bytes.
pub fn load<D: Disk>(alloc: Global, pair: &mut LogPair<D>, size: u64) -> Result<Book, MountFault>
    requires whole { pair.old.broken ≡ false }
    requires size { size ≤ 2 ^ 60 }
    ensures taken { IfOk result (λ book. book.taken ≡ []) }
    ensures blocks { IfOk result (λ book. AreBlocks size book.metrics) }
    ensures sound { IfOk result (λ book. All IsSound book.metrics) }
    ensures are { IfOk result (λ book. IfSome pair.old.records (AreRecordsOf size book.metrics)) }
    ensures reads { IsOnlyRead D.Disk pair.old pair.new }
    ensures whole { OnOk result (pair.new.broken ≡ false) }
    ensures cause { IfErr result (λ e. MatchMountFault e
        (λ f. IsFault (both_faults D.Disk pair.old.first pair.old.second) (both_faults D.Disk pair.new.first pair.new.second) f
        × (pair.new.broken ≡ true))
        (λ d. IfSome pair.old.records (λ records. IsOddOf (IsOddBehind size) pair.old records d)) ⊤) }
{
    let before = pair.faults();
    let count = pair.count();
    let mut book = Book::new(alloc);
    for index in 0..count {
        book = match load_one(alloc, pair, index, book, size) {
            Ok(book) => book,
            Err(fault) => return Err(since(fault, before)),
        };
    }
    Ok(book)
}

/// The book with the record at an index, behind those that it has.
fn load_one<D: Disk>(
    alloc: Global,
    pair: &mut LogPair<D>,
    index: u64,
    book: Book,
    size: u64,
) -> Result<Book, MountFault>
    requires known { index < pair.old.count }
    requires whole { pair.old.broken ≡ false }
    requires size { size ≤ 2 ^ 60 }
    requires none { book.taken ≡ [] }
    requires blocks { AreBlocks size book.metrics }
    requires sound { All IsSound book.metrics }
    requires are { IfSome pair.old.records (λ records. AreRecordsOf size book.metrics (take index records)) }
    ensures taken { IfOk result (λ new. new.taken ≡ []) }
    ensures blocks { IfOk result (λ new. AreBlocks size new.metrics) }
    ensures sound { IfOk result (λ new. All IsSound new.metrics) }
    ensures are { IfOk result (λ new. IfSome pair.old.records (λ records. AreRecordsOf size new.metrics (take (index + 1) records))) }
    ensures reads { IsOnlyRead D.Disk pair.old pair.new }
    ensures whole { OnOk result (pair.new.broken ≡ false) }
    ensures cause { IfErr result (λ e. MatchMountFault e
        (λ f. IsFault (both_faults D.Disk pair.old.first pair.old.second) (both_faults D.Disk pair.new.first pair.new.second) f
        × (pair.new.broken ≡ true))
        (λ d. IfSome pair.old.records (λ records. IsOddOf (IsOddBehind size) pair.old records d)) ⊤) }
{
    let body = match read_body(alloc, pair, index) {
        Ok(body) => body,
        Err(fault) => return Err(fault),
    };
    match read_shelf(alloc, &body) {
        Ok(item) => {
            // the identifiers rise
            let _ids = book.metrics();
            match book.follow(alloc, item, size) {
                Ok(book) => Ok(book),
                Err(FollowFault::Damaged) => Err(MountFault::Damaged(pair.place_of(index))),
                Err(FollowFault::Memory) => Err(MountFault::Memory),
            }
        }
        Err(ReadFault::Bad { at: _ }) => Err(MountFault::Damaged(pair.place_of(index))),
        Err(ReadFault::Memory) => Err(MountFault::Memory),
    }
}

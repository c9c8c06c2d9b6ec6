// What the records of a log make.
ghost use Rattle.std.specs.Prelude.{◌≡◌, ◌⊎◌, ◌<◌, ◌+◌, ⊤, ℕ, List, [], ◌∷◌, ◌++◌, IfOk, IfErr, IfSome, IfNone, OnOk, Some, take, false, true};
ghost use Rattle.gate_log.specs.LogView.{IsFault, MatchMountFault};
ghost use Rattle.gno_codec.specs.Index.{IsIndex, index_bytes};
ghost use Rattle.log_pair.specs.PairView.{both_faults};
ghost use Rattle.metric_index.specs.Catalog.{IsKept, maps_in};
ghost use Rattle.metric_index.specs.IndexDamage.{IsNoStore, IsOddIndex};
ghost use Rattle.metric_index.specs.IndexLog.{IsIndexLog};
ghost use Rattle.metric_index.specs.Reading.{IsOddOf, IsOnlyRead, IsReadAs};

use crate::catalog::Catalog;
use crate::reading::{read_item, since};
use gno_codec::IndexItem;
use gno_disk::Disk;
use gno_num::{Damaged, Memory};
use log_pair::{LogPair, MountFault};
use std::alloc::Global;

/// The number and the counter of `Store`, if the record is it.
fn store_of(item: &Option<IndexItem>) -> Option<(u32, u64)>
    ensures found { IfSome result (λ s. item.now ≡ Some (IndexItem.Store s.0 s.1)) }
    ensures none { IfNone result (IfSome item.now IsNoStore) }
{
    match item {
        Some(IndexItem::Store { number, counter }) => Some((*number, *counter)),
        _ => None,
    }
}

impl Catalog {
    /// Takes in what a record was read as, behind those taken in, and answers whether it may stand there.
    fn take_in(&mut self, item: Option<IndexItem>) -> Result<bool, Memory>
        requires kept { IsKept self.old }
        requires fits { IfSome item IsIndex }
        ensures kept { IsKept self.new }
        ensures taken { IfOk result (λ may. may ≡ true → (records : List (List ℕ)) (body : List ℕ) → IsReadAs item body
            → IsIndexLog records (maps_in self.old) → IsIndexLog (records ++ body ∷ []) (maps_in self.new)) }
        ensures odd { IfOk result (λ may. may ≡ false → (records : List (List ℕ)) (body : List ℕ) → IsReadAs item body
            → IsIndexLog records (maps_in self.old) → IsOddIndex records body) }
    {
        match item {
            None => Ok(false),
            Some(item) => self.take_item(item),
        }
    }

    /// Takes in a record, if it may stand there.
    fn take_item(&mut self, item: IndexItem) -> Result<bool, Memory>
        requires kept { IsKept self.old }
        requires fits { IsIndex item }
        ensures kept { IsKept self.new }
        ensures taken { IfOk result (λ may. may ≡ true → (records : List (List ℕ))
            → IsIndexLog records (maps_in self.old) → IsIndexLog (records ++ index_bytes item ∷ []) (maps_in self.new)) }
        ensures odd { IfOk result (λ may. may ≡ false → (records : List (List ℕ))
            → IsIndexLog records (maps_in self.old) → IsOddIndex records (index_bytes item)) }
    {
        if !self.may(&item) {
            return Ok(false);
        }
        self.reserve()?;
        self.take(item);
        Ok(true)
    }
}

/// What the first record makes, which must be `Store`.
fn load_store<D: Disk>(alloc: Global, pair: &mut LogPair<D>) -> Result<Catalog, MountFault>
    requires known { 0 < pair.old.count }
    requires whole { pair.old.broken ≡ false }
    ensures kept { IfOk result IsKept }
    ensures are { IfOk result (λ catalog. IfSome pair.old.records (λ records. IsIndexLog (take 1 records) (maps_in catalog))) }
    ensures reads { IsOnlyRead D.Disk pair.old pair.new }
    ensures whole { OnOk result (pair.new.broken ≡ false) }
    ensures cause { IfErr result (λ e. MatchMountFault e
        (IsFault (both_faults D.Disk pair.old.first pair.old.second) (both_faults D.Disk pair.new.first pair.new.second))
        (λ d. IfSome pair.old.records (λ records. IsOddOf pair.old records d)) ⊤) }
{
    let item = read_item(alloc, pair, 0)?;
    match store_of(&item) {
        Some((number, counter)) => Ok(Catalog::new(alloc, number, counter)),
        None => Err(MountFault::Damaged(pair.place_of(0))),
    }
}

/// Takes in the record at an index, behind those taken in.
fn load_one<D: Disk>(
    alloc: Global,
    pair: &mut LogPair<D>,
    index: u64,
    catalog: &mut Catalog,
) -> Result<(), MountFault>
    requires known { index < pair.old.count }
    requires whole { pair.old.broken ≡ false }
    requires kept { IsKept catalog.old }
    requires are { IfSome pair.old.records (λ records. IsIndexLog (take index records) (maps_in catalog.old)) }
    ensures kept { IsKept catalog.new }
    ensures are { OnOk result (IfSome pair.old.records (λ records. IsIndexLog (take (index + 1) records) (maps_in catalog.new))) }
    ensures reads { IsOnlyRead D.Disk pair.old pair.new }
    ensures whole { OnOk result (pair.new.broken ≡ false) }
    ensures cause { IfErr result (λ e. MatchMountFault e
        (IsFault (both_faults D.Disk pair.old.first pair.old.second) (both_faults D.Disk pair.new.first pair.new.second))
        (λ d. IfSome pair.old.records (λ records. IsOddOf pair.old records d)) ⊤) }
{
    let item = read_item(alloc, pair, index)?;
    match catalog.take_in(item) {
        Ok(true) => Ok(()),
        Ok(false) => Err(MountFault::Damaged(pair.place_of(index))),
        Err(_) => Err(MountFault::Memory),
    }
}

/// What the records of a pair make, each of them read once.
pub fn load<D: Disk>(alloc: Global, pair: &mut LogPair<D>) -> Result<Catalog, MountFault>
    requires { pair.old.broken ≡ false }
    ensures kept { IfOk result IsKept }
    ensures are { IfOk result (λ catalog. IfSome pair.old.records (λ records. IsIndexLog records (maps_in catalog))) }
    ensures reads { IsOnlyRead D.Disk pair.old pair.new }
    ensures whole { OnOk result (pair.new.broken ≡ false) }
    ensures cause { IfErr result (λ e. MatchMountFault e
        (IsFault (both_faults D.Disk pair.old.first pair.old.second) (both_faults D.Disk pair.new.first pair.new.second))
        (λ d. IfSome pair.old.records (λ records. ((records ≡ []) × (d.disk ≡ 0) × (d.at ≡ 0)) ⊎ IsOddOf pair.old records d)) ⊤) }
{
    let before = pair.faults();
    let count = pair.count();
    if count == 0 {
        return Err(MountFault::Damaged(Damaged { disk: 0, at: 0 }));
    }
    let mut catalog = match load_store(alloc, pair) {
        Ok(catalog) => catalog,
        Err(fault) => return Err(since(fault, before)),
    };
    for index in 1..count {
        match load_one(alloc, pair, index, &mut catalog) {
            Ok(()) => {}
            Err(fault) => return Err(since(fault, before)),
        }
    }
    Ok(catalog)
}

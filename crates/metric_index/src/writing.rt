// What a record needs before it is written.
ghost use Rattle.std.specs.Prelude.{◌≡◌, ◌∷◌, [], IfOk, OnOk, false};
ghost use Rattle.gate_log.specs.Records.{bodies_of};
ghost use Rattle.gno_codec.specs.Index.{IsIndex, IsUsable, index_bytes};
ghost use Rattle.metric_index.specs.Catalog.{HasRoom, maps_in};

use crate::catalog::Catalog;
use gno_codec::{IndexItem, write_index};
use gno_disk::Disk;
use gno_num::Memory;
use log_pair::LogPair;
use std::alloc::Global;

/// Makes the bytes of a record, and takes the memory for it in the log and in the maps.
pub fn prepare<D: Disk>(
    alloc: Global,
    pair: &mut LogPair<D>,
    catalog: &mut Catalog,
    item: &IndexItem,
) -> Result<Vec<u8>, Memory>
    requires { pair.old.broken ≡ false }
    ensures bytes { IfOk result (λ body. body.items ≡ index_bytes item.now) }
    ensures fits { OnOk result (IsUsable item.now → IsIndex item.now) }
    ensures room { OnOk result (HasRoom catalog.new) }
    ensures maps { maps_in catalog.new ≡ maps_in catalog.old }
    ensures pair { pair.new ≡ record pair.old { spare = pair.new.spare } }
{
    let body = write_index(alloc, item)?;
    catalog.reserve()?;
    pair.reserve(body.len() as u64)?;
    Ok(body)
}

/// The records of a new index: `Store` alone.
pub fn store_records(alloc: Global, number: u32) -> Result<Vec<Vec<u8>>, Memory>
    ensures bytes { IfOk result (λ records. bodies_of records.items ≡ index_bytes (IndexItem.Store number 0) ∷ []) }
    ensures fits { OnOk result (IsIndex (IndexItem.Store number 0)) }
{
    let item = IndexItem::Store { number, counter: 0 };
    let body = write_index(alloc, &item)?;
    let mut records = Vec::new(alloc);
    records.push(body)?;
    Ok(records)
}

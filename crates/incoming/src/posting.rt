// What a post needs before it is written.
ghost use Rattle.std.specs.Prelude.{◌≡◌, ◌<◌, ◌≤◌, ◌^◌, ℕ, IfOk, OnOk, false};
ghost use Rattle.gno_codec.specs.Incoming.{IsPost, post_bytes};
ghost use Rattle.incoming.specs.Contents.{HasRoom};
ghost use Rattle.incoming.specs.Lists.{list_of};

use crate::contents::Contents;
use gno_codec::write_post;
use gno_disk::Disk;
use gno_num::Memory;
use log_pair::LogPair;
use series_model::{Batch, MetricId};

/// Makes the record of a post, and takes the memory for it in the log and for its mark.
pub fn prepare<D: Disk>(
    pair: &mut LogPair<D>,
    contents: &mut Contents,
    metric: MetricId,
    batch: &Batch,
) -> Result<Vec<u8>, Memory>
    requires whole { pair.old.broken ≡ false }
    requires first { 1 ≤ contents.old.next }
    requires limit { contents.old.next < 2 ^ 63 }
    ensures bytes { IfOk result (λ body. body.items ≡ post_bytes contents.old.next metric.0 batch.now) }
    ensures fits { OnOk result (IsPost contents.old.next metric.0 batch.now) }
    ensures room { OnOk result (HasRoom contents.new metric.0) }
    ensures marks { contents.new.marks.items ≡ contents.old.marks.items }
    ensures numbers { (contents.new.first ≡ contents.old.first) × (contents.new.next ≡ contents.old.next) }
    ensures lists { (m : ℕ) → list_of contents.new.lists m ≡ list_of contents.old.lists m }
    ensures pair { pair.new ≡ record pair.old { spare = pair.new.spare } }
{
    let alloc = *contents.marks.allocator();
    let body = write_post(alloc, contents.next, metric, batch)?;
    contents.reserve(metric)?;
    pair.reserve(body.len() as u64)?;
    Ok(body)
}

// Posts.
ghost use Rattle.std.specs.Prelude.{◌≡◌, ◌≤◌, length};
ghost use Rattle.incoming.specs.IncomingView.{MatchPostFault};
ghost use Rattle.sack_state.specs.Books.{AreWhole};
ghost use Rattle.sack_state.specs.Posting.{PostsTo, knows};

use crate::books::Books;
use gno_disk::Disk;
use gno_num::DiskFault;
use incoming::PostFault;
use sack_history::SackFault;
use series_model::{Batch, MetricId};

/// A fault of a post on books whose disks had failed so often before and after it.
fn refusal_of(fault: PostFault, before: u64, after: u64) -> SackFault
    ensures { MatchPostFault fault (λ s. result ≡ SackFault.Spent s) (result ≡ SackFault.Memory)
        (λ f. result ≡ SackFault.DiskFault (record { before = before; after = after })) }
{
    match fault {
        PostFault::Spent(spent) => SackFault::Spent(spent),
        PostFault::Memory => SackFault::Memory,
        PostFault::DiskFault(_) => SackFault::DiskFault(DiskFault { before, after }),
    }
}

impl<D: Disk> Books<D> {
    /// Whether a metric is live.
    pub fn knows(&self, metric: MetricId) -> bool
        ensures { result ≡ knows metric self.now }
    {
        self.shelf.done_of(metric).is_some()
    }

    /// Adds a batch to the posts of a live metric, and answers its number.
    pub fn post(&mut self, metric: MetricId, batch: &Batch) -> Result<u64, SackFault>
        requires { AreWhole self.old }
        ensures outcome { PostsTo D.Disk metric batch.now self.old self.new result }
        ensures shelf { self.new.shelf ≡ self.old.shelf }
        ensures place { self.new.incoming.place ≡ self.old.incoming.place }
        ensures few { length batch.now ≤ 50000 }
    {
        // A batch is short: this says so.
        let _measures = batch.measures();
        if !self.knows(metric) {
            return Err(SackFault::Unknown);
        }
        let before = self.faults();
        match self.incoming.post(metric, batch) {
            Ok(number) => Ok(number),
            Err(fault) => Err(refusal_of(fault, before, self.faults())),
        }
    }
}

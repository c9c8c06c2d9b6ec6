// Posts that wait.
ghost use Rattle.std.specs.Prelude.{◌≡◌, length};
ghost use Rattle.sack_state.specs.SackView.{marks_waiting};
ghost use Rattle.sack_state.specs.Waiting.{numbers_waiting};

use crate::books::Books;
use gno_disk::Disk;
use series_model::MetricId;

impl<D: Disk> Books<D> {
    /// How many posts of a metric wait: none where it isn't live.
    pub fn waiting_of(&self, metric: MetricId) -> u64
        ensures { result ≡ length (numbers_waiting self.now metric) }
    {
        match self.shelf.done_of(metric) {
            Some(done) => self.incoming.count_above(metric, done),
            None => 0,
        }
    }

    /// How many posts wait, of all live metrics.
    pub fn pending(&self) -> u64
        ensures { result ≡ length (marks_waiting self.now) }
    {
        // The numbers of posts rise below 2^63: this says so.
        let _next = self.incoming.next();
        let ids = self.shelf.metrics();
        let mut pending = 0_u64;
        for metric in ids {
            pending = pending.saturating_add(self.waiting_of(*metric));
        }
        pending
    }
}

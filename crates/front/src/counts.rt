// What the sacks of a store have together.
ghost use Rattle.std.specs.Prelude.{◌≡◌, List};
ghost use Rattle.sack_history.specs.declared.entry.Counted.{Counted};
ghost use Rattle.front_api.specs.Seen.{SackBook, SeenBooks, capped};
ghost use Rattle.front.specs.Counting.{AreCountedIn, counts_of, live_metrics, waiting_posts};
ghost use Rattle.front.specs.SoloView.{AreSackBooks, StandsForBooks};

use crate::solo::Solo;
use gno_disk::Disk;
use sack_state::Sack;

/// How many metrics are live in a store, and how many of their posts wait. Each number ends at its last value.
#[derive(Clone, Copy, Debug, PartialEq, Eq)]
pub struct Counts {
    pub metrics: u64,
    pub pending: u64,
}

/// How many metrics are live in these sacks.
fn live_in<D: Disk>(sacks: &[Sack<D>]) -> u64
    ensures { (books : List SackBook) (lists : List (List Counted)) → AreSackBooks D.Disk 0 sacks.now books → AreCountedIn books lists → result ≡ capped (live_metrics lists) }
{
    let mut total: u64 = 0;
    for sack in sacks {
        total = total.saturating_add(sack.live());
    }
    total
}

/// How many posts wait in them.
fn waiting_in<D: Disk>(sacks: &[Sack<D>]) -> u64
    ensures { (books : List SackBook) (lists : List (List Counted)) → AreSackBooks D.Disk 0 sacks.now books → AreCountedIn books lists → result ≡ capped (waiting_posts lists) }
{
    let mut total: u64 = 0;
    for sack in sacks {
        total = total.saturating_add(sack.pending());
    }
    total
}

impl<D: Disk> Solo<D> {
    /// How many metrics are live in the store, and how many of their posts wait. It takes no memory.
    pub fn counts(&self) -> Counts
        ensures { (books : SeenBooks) (lists : List (List Counted)) → StandsForBooks D.Disk self.now books → AreCountedIn books.sacks lists → result ≡ counts_of lists }
    {
        Counts {
            metrics: live_in(&self.sacks),
            pending: waiting_in(&self.sacks),
        }
    }
}

// The claim that is held, and whether a book is broken.
ghost use Rattle.std.specs.Prelude.{◌≡◌};
ghost use Rattle.sack_history.specs.Holding.{broken_after, held_after, held_claim, held_through, is_broken, same_ticket};

use crate::{Counted, Entry};
use series_model::{MetricId, Ticket};

/// A claim: its ticket, its metric, and the number of the last post that it is on.
#[derive(Clone, Copy, Debug, PartialEq, Eq)]
pub struct HeldClaim {
    pub ticket: Ticket,
    pub metric: MetricId,
    pub upto: u64,
}

/// The claim that is held after these entries.
pub fn held_claim(entries: &[Entry]) -> Option<HeldClaim>
    ensures { result ≡ held_claim entries.now }
{
    let mut held = None;
    for entry in entries {
        held = held_after(held, entry);
    }
    held
}

/// The claim that is held after an entry.
fn held_after(held: Option<HeldClaim>, entry: &Entry) -> Option<HeldClaim>
    ensures { result ≡ held_after held entry.now }
{
    match entry {
        Entry::Claim {
            ticket,
            metric,
            upto,
        } => Some(HeldClaim {
            ticket: *ticket,
            metric: *metric,
            upto: *upto,
        }),
        Entry::Fault { .. } => None,
        Entry::Release { ticket } => match held {
            Some(claim) if same_ticket(*ticket, claim.ticket) => None,
            Some(claim) => Some(claim),
            None => None,
        },
        Entry::Counted(c) => match held {
            Some(claim) => held_through(claim, c),
            None => None,
        },
        Entry::Look { .. } | Entry::Reopened { .. } => held,
    }
}

/// Whether two tickets are one.
fn same_ticket(t: Ticket, u: Ticket) -> bool
    ensures { result ≡ same_ticket t u }
{
    t.sack == u.sack && t.number == u.number
}

/// A claim after what counts.
fn held_through(claim: HeldClaim, c: &Counted) -> Option<HeldClaim>
    ensures { result ≡ held_through claim c.now }
{
    match c {
        Counted::Done { metric, .. } | Counted::Drop { metric } => {
            if metric.0 == claim.metric.0 {
                None
            } else {
                Some(claim)
            }
        }
        Counted::Create { .. } | Counted::Post { .. } => Some(claim),
    }
}

/// Whether a book is broken after these entries.
pub fn is_broken(entries: &[Entry]) -> bool
    ensures { result ≡ is_broken entries.now }
{
    let mut broken = false;
    for entry in entries {
        broken = broken_after(broken, entry);
    }
    broken
}

/// Whether a book is broken after an entry.
fn broken_after(broken: bool, entry: &Entry) -> bool
    ensures { result ≡ broken_after broken entry.now }
{
    match entry {
        Entry::Fault { .. } => true,
        Entry::Reopened { .. } => false,
        Entry::Counted(_) | Entry::Claim { .. } | Entry::Release { .. } | Entry::Look { .. } =>
            broken,
    }
}

// Tickets of claims.

/// What a worker holds while it works on a metric: the number of its claim on a sack.
#[derive(Clone, Copy, Debug, PartialEq, Eq)]
pub struct Ticket {
    pub sack: u16,
    pub number: u64,
}

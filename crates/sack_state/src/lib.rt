//! The sack: numbered posts over an incoming log, and live metrics on a shelf. It stands for the history of its calls.
#![tactic(auto)]

mod answering;
mod books;
mod changing;
mod claiming;
mod committing;
mod disks;
mod holding;
mod posting;
mod sack;
#[cfg(test)]
mod tests;
mod waiting;

pub use disks::SackDisks;
pub use log_pair::{LogFault, MountFault, Place};
pub use sack::Sack;
pub use sack_history::{
    AnswerFault, Claim, CommitFault, CreateFault, HeldClaim, ReleaseFault, SackFault,
};

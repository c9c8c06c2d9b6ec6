//! What the store is asked about policies, rules, metrics and resources, and what its index stands for: a
//! history of accepted commands, drawn identifiers and added metrics, and the plain maps that it amounts
//! to. Each reply and each refusal is a function of these maps and the command.
#![tactic(auto)]

mod bench;
mod command;
mod duty;
mod fault;
mod front;
mod history;
mod laws;
mod seen;
mod seen_laws;

pub use bench::{Bench, BenchFault, Claimed, FreeFault};
pub use command::{Command, MetricDoc, Reply, ResourceDoc};
pub use duty::{LastClaim, Refusals};
pub use fault::ControlFault;
pub use front::Front;
pub use history::{IndexCounted, IndexEntry};
pub use laws::{
    calls_are_legal, legal_history_counts, maps_are_sorted, one_key_changes, one_policy_given,
    refused_changes_nothing, what_is_drawn_is_new,
};
pub use sack_history::{AnswerFault, SackFault};
pub use seen::{Histories, sack_of};
pub use seen_laws::{
    acknowledged_work_is_done, bench_histories_go_on, one_caller_sees_its_own,
    own_entries_come_last, seen_histories_go_on, turns_are_done_entries, what_failed_is_seen,
};

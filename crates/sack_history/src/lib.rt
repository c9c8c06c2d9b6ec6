//! The history of a sack: the entries that its calls have added, and what they amount to.
#![tactic(auto)]

mod entry;
mod fault;
mod holding;
mod laws;
mod plain;

pub use entry::{Counted, Entry};
pub use fault::{AnswerFault, Claim, CommitFault, CreateFault, ReleaseFault, SackFault};
pub use holding::{HeldClaim, held_claim, is_broken};
pub use laws::{
    calls_keep_histories_legal, claimed_commit_is_from_scratch, claimed_work_stays,
    claims_are_held, commit_is_from_scratch, drain_leaves_none, durable_state_grows,
    legal_histories_grow, life_is_what_followed, live_metrics_rise, lives_begin_and_end,
    next_turn_takes_64, ok_calls_have_done_their_work, post_waits, posts_are_numbered,
    refresh_leaves_none, tickets_are_numbered, tried_is_known, turn_moves_first,
    waiting_posts_rise, what_counts_is_kept,
};
pub use plain::{
    done_number, kept, last_post, live_ids, longest_waiting, pending_numbers, turn_end,
};

#[cfg(test)]
mod tests;

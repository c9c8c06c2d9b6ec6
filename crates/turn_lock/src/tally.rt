//! An object behind the lock, as an example: a total that threads share. Each reply is the sum of the numbers added up to the call's own, on top of what the total was at first.
ghost use Rattle.std.specs.Prelude.{◌≡◌, ◌≢◌, ◌+◌, ◌*◌, ◌^◌, ◌≤◌, ◌⊎◌, ℕ, List, [], ◌∷◌, ◌++◌, sum, replicate, length, IfSome, IfNone};
ghost use mathlib.Core.List.{IsPrefix};
ghost use Rattle.turn_lock.specs.History.{entries_in, HasJust};
ghost use Rattle.turn_lock.specs.Knowledge.{BelongsTo, callers, with_entries, root_of};
ghost use Rattle.turn_lock.specs.Totals.{HasNoPlace};

use crate::book::{Book, take_turn};
use crate::pass::Pass;
use crate::stands::{Says, Stands};
use crate::turns::Turns;
use std::sync::Wait;
use std::thread;
use std::thread::Threads;

#[derive(Drop)]
pub struct Tally {
    pub opening: u64,
    pub total: u64,
}

impl Stands<u64, u64> for Tally {
    ghost use Rattle.std.specs.Prelude.{◌≡◌, ◌+◌, sum};

    ghost stands = { λ tally numbers. tally.total ≡ tally.opening + sum numbers };

    ghost origin = { λ tally. tally.opening };
}

/// A call adds its own number, and its reply is the total with it. Where that is too large it adds none.
impl Says<u64, u64, u64, Option<u64>> for Tally {
    ghost use Rattle.turn_lock.specs.Totals.{AddsNumber};

    ghost says = { AddsNumber };
}

impl Book<u64, u64, u64, Option<u64>> for Tally {
    ghost most = { λ _. 1 };

    fn most_entries(&self) -> u64 {
        1
    }

    fn call(&mut self, request: &u64) -> (Option<u64>, u64) {
        let Some(total) = self.total.checked_add(*request) else {
            return (None, 0);
        };
        self.total = total;
        (Some(total), 1)
    }
}

/// Adds a number. The reply is the sum of the list that the pass has then seen, whose last entry is the number.
pub fn add<R: Wait>(
    rt: &R,
    turns: &Turns<Tally, u64, u64>,
    pass: Pass<Tally, u64>,
    number: u64,
) -> (Pass<Tally, u64>, Option<u64>)
    requires lock { BelongsTo turns.now pass }
    ensures added { IfSome result.1 (λ total. (before : List (ℕ × ℕ)) × IsPrefix pass.seen before
        × (result.0 ≡ with_entries (record pass { seen = before }) (number ∷ [])) × (total ≡ turns.now.origin + sum (entries_in result.0.seen))) }
    ensures refused { IfNone result.1 ((result.0 ≡ record pass { seen = result.0.seen }) × IsPrefix pass.seen result.0.seen × HasNoPlace turns.now.origin number (entries_in result.0.seen)) }
    ensures own { HasJust result.0.seen (callers result.0) }
{
    let (pass, reply) = take_turn::<Tally, u64, u64, u64, Option<u64>, R>(rt, turns, pass, &number);
    match reply {
        Ok(total) => (pass, total),
        Err(_) => (pass, None),
    }
}

/// Adds a number so many times, or as long as there is a place for it, and says how often it was added.
pub fn add_times<R: Wait>(
    rt: &R,
    turns: &Turns<Tally, u64, u64>,
    mut pass: Pass<Tally, u64>,
    number: u64,
    times: u64,
) -> (Pass<Tally, u64>, u64)
    requires lock { BelongsTo turns.now pass }
    requires own { HasJust pass.seen (callers pass) }
    ensures pass { result.0 ≡ record pass { seen = result.0.seen; own = pass.own ++ replicate result.1 number } }
    ensures times { (result.1 ≡ times) ⊎ HasNoPlace turns.now.origin number (entries_in result.0.seen) }
    ensures own { HasJust result.0.seen (callers result.0) }
{
    for added in 0..times {
        let (next, total) = add(rt, turns, pass, number);
        pass = next;
        if total.is_none() {
            return (pass, added);
        }
    }
    (pass, times)
}

/// Two threads add a number each, so many times. Of each caller the history that the pass has then seen has just what it added.
pub fn add_by_turns<R: Threads + Wait + Sync>(
    rt: &R,
    turns: &Turns<Tally, u64, u64>,
    mut pass: Pass<Tally, u64>,
    first: u64,
    second: u64,
    times: u64,
) -> (Pass<Tally, u64>, u64, u64)
    requires root { pass ≡ root_of turns.now.id }
    ensures lock { BelongsTo turns.now result.0 }
    ensures last { (result.0.number ≡ 0) × (length result.0.joined ≡ result.0.splits) }
    ensures callers { callers result.0 ≡ (0, replicate result.1 first) ∷ (1, replicate result.2 second) ∷ [] }
    ensures once { HasJust result.0.seen ((0, replicate result.1 first) ∷ (1, replicate result.2 second) ∷ []) }
    ensures first_times { (result.1 ≡ times) ⊎ HasNoPlace turns.now.origin first (entries_in result.0.seen) }
    ensures second_times { (result.2 ≡ times) ⊎ HasNoPlace turns.now.origin second (entries_in result.0.seen) }
{
    let other = turns.split_pass(&mut pass);
    let ((mut pass, a), (other, b)) = thread::join(
        rt,
        move ||
            requires { BelongsTo turns.now pass × HasJust pass.seen (callers pass) }
            ensures { (result.0 ≡ record pass { seen = result.0.seen; own = pass.own ++ replicate result.1 first }) × HasJust result.0.seen (callers result.0)
                × ((result.1 ≡ times) ⊎ HasNoPlace turns.entry.now.origin first (entries_in result.0.seen)) }
        { add_times(rt, turns, pass, first, times) },
        move ||
            requires { BelongsTo turns.now other × HasJust other.seen (callers other) }
            ensures { (result.0 ≡ record other { seen = result.0.seen; own = other.own ++ replicate result.1 second }) × HasJust result.0.seen (callers result.0)
                × ((result.1 ≡ times) ⊎ HasNoPlace turns.entry.now.origin second (entries_in result.0.seen)) }
        { add_times(rt, turns, other, second, times) },
    );
    turns.join_pass(&mut pass, other);
    (pass, a, b)
}

/// The same, and then the lock is closed. The total is what it was at first, and what the two threads added.
pub fn total_by_turns<R: Threads + Wait + Sync>(
    rt: &R,
    turns: Turns<Tally, u64, u64>,
    pass: Pass<Tally, u64>,
    first: u64,
    second: u64,
    times: u64,
) -> (Tally, u64, u64)
    requires root { pass ≡ root_of turns.id }
    ensures total { result.0.total ≡ turns.origin + (result.1 * first + result.2 * second) }
    ensures origin { result.0.opening ≡ turns.origin }
    ensures first_times { (result.1 ≡ times) ⊎ (2 ^ 64 ≤ result.0.total + first) ⊎ (2 ^ 63 ≤ result.1 + result.2) }
    ensures second_times { (result.2 ≡ times) ⊎ (2 ^ 64 ≤ result.0.total + second) ⊎ (2 ^ 63 ≤ result.1 + result.2) }
{
    let (pass, first_added, second_added) = add_by_turns(rt, &turns, pass, first, second, times);
    (turns.close(pass), first_added, second_added)
}

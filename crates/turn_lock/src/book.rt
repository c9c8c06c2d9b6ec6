//! An object whose calls add entries, behind the lock. Each call keeps the object's own contract, with the entries of others in front of its own.
ghost use Rattle.std.specs.Prelude.{◌≡◌, ◌+◌, ◌<◌, ◌≤◌, ◌^◌, ℕ, List, length, IfOk, IfErr};
ghost use mathlib.Core.List.{IsPrefix};
ghost use Rattle.gno_num.specs.declared.faults.Counter.TheVariants.{Word};
ghost use Rattle.turn_lock.specs.History.{entries_in, HasJust};
ghost use Rattle.turn_lock.specs.Knowledge.{BelongsTo, callers, with_entries, StandsFrom};

use crate::pass::Pass;
use crate::stands::{Says, Stands};
use crate::turns::Turns;
use gno_num::{Counter, Spent};
use std::sync::Wait;

/// An object that stands for a list of entries, with one kind of its calls: a request of the type `Q` and a reply of the type `A`.
pub trait Book<E, O, Q, A>: Stands<E, O> + Says<E, O, Q, A> {
    ghost use Rattle.std.specs.Prelude.{◌≡◌, ◌≤◌, ℕ, List, ◌++◌, length};

    /// How many entries the next call adds at most.
    ghost most: { Self → ℕ };

    fn most_entries(&self) -> u64
        ensures { result ≡ most self.now };

    /// The reply, and how many entries there are more.
    fn call(&mut self, request: &Q) -> (A, u64)
        ensures origin { Self.origin self.new ≡ Self.origin self.old }
        ensures few { result.1 ≤ most self.old }
        ensures added { (before : List E) → Self.stands self.old before → (es : List E) × (length es ≡ result.1) × Self.says (Self.origin self.old) request.now result.0 before es × Self.stands self.new (before ++ es) };
}

/// One call, as a turn at the lock. It is refused, with no entries, where there is no room for the most entries that it may add.
pub fn take_turn<B: Book<E, O, Q, A>, E, O, Q, A, R: Wait>(
    rt: &R,
    turns: &Turns<B, E, O>,
    pass: Pass<B, E>,
    request: &Q,
) -> (Pass<B, E>, Result<A, Spent>)
    requires lock { BelongsTo turns.now pass }
    ensures replied { IfOk result.1 (λ reply. (before : List (ℕ × E)) × (es : List E) × IsPrefix pass.seen before
        × (result.0 ≡ with_entries (record pass { seen = before }) es) × B.says turns.now.origin request.now reply (entries_in before) es
        × ((value : B) × StandsFrom B.stands B.origin turns.now.origin value (entries_in before) × (length before + B.most value ≤ 2 ^ 63))) }
    ensures spent { IfErr result.1 (λ spent. (spent.counter ≡ Word) × (spent.at ≡ length result.0.seen)
        × (result.0 ≡ record pass { seen = result.0.seen }) × IsPrefix pass.seen result.0.seen
        × ((value : B) × StandsFrom B.stands B.origin turns.now.origin value (entries_in result.0.seen) × (2 ^ 63 < length result.0.seen + B.most value))) }
    ensures own { HasJust result.0.seen (callers result.0) }
{
    let mut held = turns.enter(rt, pass);
    let room = held.room();
    if held.value().most_entries() > room {
        let spent = Spent {
            counter: Counter::Word,
            at: (1 << 63) - room,
        };
        return (held.leave(turns), Err(spent));
    }
    let (reply, entries) = held.value().call(request);
    let Ok(()) = held.raise::<B, O, Q, A>(turns, request, &reply, entries) else {
        unreachable!()
    };
    (held.leave(turns), Ok(reply))
}

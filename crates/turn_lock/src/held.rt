//! The value while a pass holds it.
ghost use Rattle.std.specs.Prelude.{◌≡◌, ◌+◌, ◌<◌, ◌≤◌, ◌^◌, ◌↔◌, List, ◌++◌, length, IfOk, IfErr, IsErr, OnOk};
ghost use Rattle.std.specs.Borrow.{sem};
ghost use Rattle.turn_lock.specs.History.{entries_in, HasJust};
ghost use Rattle.gno_num.specs.declared.faults.Counter.TheVariants.{Word};
ghost use Rattle.turn_lock.specs.Knowledge.{BelongsTo, callers, with_entries, Adds};

use crate::pass::Pass;
use crate::rule::{Give, Raise, Told, View};
use crate::stands::{Says, Stands};
use crate::turns::Turns;
use atomic_table::Seat;
use gno_num::{Counter, Spent};
use std::marker::{Brand, Model};

/// How many entries a history may have.
const MOST: u64 = 1 << 63;

/// The value, while a pass holds it. It has to be given back by `leave`.
pub struct Held<T, E> {
    pub(crate) value: T,
    pub(crate) count: u64,
    pub(crate) seat: Seat<Option<T>, View<E>>,
}

impl<T, E> Model for Held<T, E> {
    ghost use Rattle.turn_lock.specs.Knowledge.{Holding};

    ghost Value = { Holding T E };

    ghost use Rattle.turn_lock.specs.Rules.{known, IsHolder};

    ghost view = { λ h. record { value = h.value; pass = known h.seat.table_id h.seat.me.0 } };

    ghost invariant = { λ h. IsHolder h.count h.seat.me };
}

impl<T, E> Held<T, E> {
    ghost use Rattle.turn_lock.specs.Lends.{LendsValue};

    /// How many entries may still be added.
    pub fn room(&self) -> u64
        ensures { result + length self.now.pass.seen ≡ 2 ^ 63 }
    {
        MOST - self.count
    }

    /// The value, to be changed. What the call adds to its list is told by `raise`.
    pub fn value(&mut self) -> &mut T
        ensures* writes_back { sem 𝓛 (LendsValue T.row E.row self.entry result) }
        ensures value { result.now ≡ self.old.value }
    {
        &mut self.value
    }

    /// Puts the entries last that the value has more now. `W` says of them what the call knows. Refused where the history would be too long.
    pub fn raise<W: Says<E, O, Q, A>, O, Q, A>(
        &mut self,
        turns: &Turns<T, E, O>,
        request: &Q,
        reply: &A,
        entries: u64,
    ) -> Result<(), Spent>
    where
        T: Stands<E, O>,
        requires lock { BelongsTo turns.now self.old.pass }
        requires added { (es : List E) × (length es ≡ entries) × Adds T.stands (W.says turns.now.origin) request.now reply.now self.old.value (entries_in self.old.pass.seen) es }
        ensures raised { IfOk result (λ _. (es : List E) × (length es ≡ entries) × (self.new ≡ record self.old { pass = with_entries self.old.pass es })
            × W.says turns.now.origin request.now reply.now (entries_in self.old.pass.seen) es) }
        ensures stands { OnOk result (T.stands self.new.value (entries_in self.new.pass.seen)) }
        ensures room { IsErr result ↔ (2 ^ 63 < length self.old.pass.seen + entries) }
        ensures spent { IfErr result (λ spent. (spent.counter ≡ Word) × (spent.at ≡ length self.old.pass.seen) × (self.new ≡ self.old)) }
        ensures own { HasJust self.new.pass.seen (callers self.new.pass) }
    {
        if entries > self.room() {
            return Err(Spent {
                counter: Counter::Word,
                at: self.count,
            });
        }
        self.tell::<Brand, O, Q, A>(turns, request, reply, entries);
        Ok(())
    }

    // `M` is what this one call says.
    fn tell<M: Told<E>, O, Q, A>(
        &mut self,
        turns: &Turns<T, E, O>,
        _request: &Q,
        _reply: &A,
        entries: u64,
    )
    where
        T: Stands<E, O>,
        requires lock { BelongsTo turns.now self.old.pass }
        requires room { length self.old.pass.seen + entries ≤ 2 ^ 63 }
        requires told { (es : List E) × (length es ≡ entries) × M.told (entries_in self.old.pass.seen) es }
        ensures raised { (es : List E) × (length es ≡ entries) × (self.new ≡ record self.old { pass = with_entries self.old.pass es }) × M.told (entries_in self.old.pass.seen) es }
        ensures own { HasJust self.new.pass.seen (callers self.new.pass) }
    {
        turns
            .table
            .shared
            .fetch_add::<Raise<M>>(&mut self.seat, 0, entries);
        self.count += entries;
    }

    /// Gives the value back. It stands for the list, and has the origin of the value that the lock was made with.
    pub fn leave<O>(self, turns: &Turns<T, E, O>) -> Pass<T, E>
    where
        T: Stands<E, O>,
        requires lock { BelongsTo turns.now self.pass }
        requires stands { T.stands self.value (entries_in self.pass.seen) }
        requires origin { T.origin self.value ≡ turns.now.origin }
        ensures pass { result ≡ self.pass }
        ensures own { HasJust result.seen (callers result) }
    {
        let Held {
            value,
            count: _,
            mut seat,
        } = self;
        let shared = &turns.table.shared;
        let nothing = shared.exchange(&mut seat, 0, Some(value));
        let None = nothing else { unreachable!() };
        shared.store::<Give>(&mut seat, 1, 0);
        Pass { seat }
    }
}

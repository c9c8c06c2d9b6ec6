//! The lock.
ghost use Rattle.std.specs.Prelude.{◌≡◌, ◌≢◌, ◌+◌, ℕ, List, [], ◌∷◌, ◌++◌, length, sum_by, true, false, Some, IsSome, IfOk, IfErr};
ghost use mathlib.Core.List.{IsPrefix};
ghost use Rattle.turn_lock.specs.History.{entries_in, HasJust};
ghost use Rattle.turn_lock.specs.Knowledge.{BelongsTo, callers, root_of, split_off, IsLongerOf};
ghost use Rattle.turn_lock.specs.Rules.{known, callers_of, split_once, next_pass, TakesValue, Continues, HasLearnt};

use crate::held::Held;
use crate::pass::Pass;
use crate::rule::{Count, Find, Found, Learn, Look, OneHistory, Part, Take, View};
use crate::stands::Stands;
use atomic_table::{Refused, Seat, Table};
use gno_num::Memory;
use std::alloc::{AllocFailed, Global};
use std::marker::{Brand, Model};
use std::snapshot::Snapshot;
use std::sync::Wait;
use std::thread;

/// A lock whose value stands for a list of entries, of which there is one history.
pub struct Turns<T: Stands<E, O>, E, O> {
    pub(crate) table: Table<Option<T>, View<E>, Snapshot<T>, OneHistory<O>, Global>,
}

impl<T: Stands<E, O>, E, O> Model for Turns<T, E, O> {
    ghost use Rattle.std.specs.Prelude.{◌≡◌};
    ghost use Rattle.turn_lock.specs.Knowledge.{Lock};

    ghost Value = { Lock O };

    ghost view = { λ t. record { id = t.table.shared.table_id; origin = T.origin t.table.shared.key.value } };

    ghost invariant = { λ t. (t.table.shared.table_id.words ≡ 2) × (t.table.shared.table_id.slots ≡ 1) };
}

impl<T: Stands<E, O> + Drop, E, O> Drop for Turns<T, E, O> {
    fn drop(self) {
        let Turns { table: _ } = self;
    }
}

impl<T: Stands<E, O>, E, O> Turns<T, E, O> {
    /// A lock with its root pass. The value stands for no entries. Where memory is short it comes back.
    pub fn new(alloc: Global, value: T) -> Result<(Turns<T, E, O>, Pass<T, E>), (T, Memory)>
        requires { T.stands value [] }
        ensures pass { IfOk result (λ made. made.1 ≡ root_of made.0.id) }
        ensures origin { IfOk result (λ made. made.0.origin ≡ T.origin value) }
        ensures memory { IfErr result (λ refused. refused.0 ≡ value) }
    {
        let made = Snapshot::of(&value);
        let mut slots = Vec::new(alloc);
        if let Err(AllocFailed { value: slot }) = slots.push(Some(value)) {
            slots.destroy_empty();
            return Err((filled(slot), Memory));
        }
        match Table::new(alloc, &[0, 0], slots, &made) {
            Ok((table, seat)) => Ok((Turns { table }, Pass { seat })),
            Err(Refused { slots }) => Err((only_value(slots), Memory)),
        }
    }
}

fn filled<T>(slot: Option<T>) -> T
    requires { IsSome slot }
    ensures { slot ≡ Some result }
{
    let Some(value) = slot else { unreachable!() };
    value
}

fn only_value<T>(mut slots: Vec<Option<T>, Global>) -> T
    requires { (value : T) × (slots.items ≡ Some value ∷ []) }
    ensures { slots.items ≡ Some result ∷ [] }
{
    let Some(slot) = slots.pop() else {
        unreachable!()
    };
    slots.destroy_empty();
    filled(slot)
}

impl<T: Stands<E, O>, E, O> Turns<T, E, O> {
    /// Waits for the value. It stands for a list that begins with what the pass had seen, and has the origin of the value that the lock was made with.
    pub fn enter<R: Wait>(&self, rt: &R, pass: Pass<T, E>) -> Held<T, E>
        requires lock { BelongsTo self.now pass }
        ensures pass { result.pass ≡ record pass { seen = result.pass.seen } }
        ensures seen { IsPrefix pass.seen result.pass.seen }
        ensures stands { T.stands result.value (entries_in result.pass.seen) }
        ensures origin { T.origin result.value ≡ self.now.origin }
        ensures own { HasJust result.pass.seen (callers result.pass) }
    {
        let mut seat = pass.into_seat();
        for _ in rt.forever() {
            if self.try_take::<Brand>(&mut seat) == 0 {
                return self.taken(seat);
            }
            thread::yield_now();
        }
        unreachable!()
    }

    // At 0 the slot is out with the seat. `M` is what is then known of its value.
    fn try_take<M: Found<T, E>>(&self, seat: &mut Seat<Option<T>, View<E>>) -> u64
        requires lock { seat.old.table_id ≡ self.now.id }
        requires live { seat.old.me.0.live ≡ true }
        requires found { (value : T) (list : List E) → T.stands value list → T.origin value ≡ self.now.origin → M.found value list }
        ensures lock { seat.new.table_id ≡ seat.old.table_id }
        ensures taken { TakesValue M.found seat.old.me result seat.new.me }
    {
        self.table.shared.compare_exchange::<Take<M>>(seat, 1, 0, 1)
    }

    // The value of the slot that the seat has just taken.
    fn taken(&self, mut seat: Seat<Option<T>, View<E>>) -> Held<T, E>
        requires lock { seat.table_id ≡ self.now.id }
        requires live { (seat.me.0.live ≡ true) × (seat.me.0.holds ≡ true) × (seat.me.0.told ≡ []) }
        requires own { HasJust seat.me.0.seen (callers_of seat.me.0) }
        requires place { (value : T) × (seat.me.1 ≡ (0, Some value) ∷ []) }
        ensures value { seat.me.1 ≡ (0, Some result.value) ∷ [] }
        ensures pass { result.pass ≡ known seat.table_id seat.me.0 }
    {
        let shared = &self.table.shared;
        let Some(value) = shared.exchange(&mut seat, 0, None) else {
            unreachable!()
        };
        let count = shared.load::<Count>(&mut seat, 0);
        Held { value, count, seat }
    }

    // Another seat, which has seen as much, and of which the history has no entries.
    fn part(&self, seat: &mut Seat<Option<T>, View<E>>) -> Seat<Option<T>, View<E>>
        requires lock { seat.old.table_id ≡ self.now.id }
        requires root { (seat.old.me.0.live ≡ true) × (seat.old.me.0.number ≡ 0) }
        ensures lock { (seat.new.table_id ≡ seat.old.table_id) × (result.table_id ≡ seat.old.table_id) }
        ensures left { seat.new.me ≡ (split_once seat.old.me.0, seat.old.me.1) }
        ensures right { result.me ≡ (next_pass seat.old.me.0, []) }
        ensures none { Continues seat.old.me.0.seen (callers_of (next_pass seat.old.me.0)) }
    {
        let shared = &self.table.shared;
        let mut new = shared.split_seat::<Part>(seat);
        shared.load::<Find>(&mut new, 0);
        new
    }

    // Of what the seat has seen and what it was told of, it has then seen the longer.
    fn learn(&self, seat: &mut Seat<Option<T>, View<E>>)
        requires lock { seat.old.table_id ≡ self.now.id }
        requires idle { (seat.old.me.0.live ≡ true) × (seat.old.me.0.holds ≡ false) }
        ensures lock { seat.new.table_id ≡ seat.old.table_id }
        ensures learnt { HasLearnt seat.old.me seat.new.me }
    {
        self.table.shared.load::<Learn>(seat, 0);
    }

    /// The history as it is, and how many entries it has.
    pub fn look(&self, pass: &mut Pass<T, E>) -> u64
        requires lock { BelongsTo self.now pass.old }
        ensures pass { pass.new ≡ record pass.old { seen = pass.new.seen } }
        ensures seen { IsPrefix pass.old.seen pass.new.seen }
        ensures count { result ≡ length pass.new.seen }
        ensures own { HasJust pass.new.seen (callers pass.new) }
    {
        self.table.shared.load::<Look>(&mut pass.seat, 0)
    }

    /// Another pass, which has seen as much and has made nothing. Only the root makes passes.
    pub fn split_pass(&self, pass: &mut Pass<T, E>) -> Pass<T, E>
        requires lock { BelongsTo self.now pass.old }
        requires root { pass.old.number ≡ 0 }
        ensures pass { pass.new ≡ record pass.old { splits = pass.old.splits + 1 } }
        ensures new { result ≡ split_off pass.new }
        ensures own { HasJust result.seen (callers result) }
    {
        let seat = self.part(&mut pass.seat);
        Pass { seat }
    }

    /// Ends the other pass. This one has then seen the longer of their two lists, and knows the other's entries.
    pub fn join_pass(&self, pass: &mut Pass<T, E>, other: Pass<T, E>)
        requires lock { BelongsTo self.now pass.old × BelongsTo self.now other }
        requires other { other.number ≢ 0 }
        ensures pass { pass.new ≡ record pass.old { joined = pass.old.joined ++ callers other; seen = pass.new.seen } }
        ensures seen { IsLongerOf pass.old.seen other.seen pass.new.seen }
        ensures own { HasJust pass.new.seen (callers pass.new) }
    {
        let seat = other.into_seat();
        self.table.shared.join_seat::<Part>(&mut pass.seat, seat);
        self.learn(&mut pass.seat);
    }

    /// The value. Every other pass was joined, so the root has seen the whole history, and the value stands for that.
    pub fn close(self, pass: Pass<T, E>) -> T
        requires lock { BelongsTo self pass }
        requires root { pass.number ≡ 0 }
        requires last { length pass.joined ≡ pass.splits }
        ensures stands { T.stands result (entries_in pass.seen) }
        ensures origin { T.origin result ≡ self.origin }
        ensures own { HasJust pass.seen (callers pass) }
        ensures each_once { (weight : E → ℕ) → sum_by weight (entries_in pass.seen) ≡ sum_by (λ c. sum_by weight c.1) (callers pass) }
    {
        let seat = pass.into_seat();
        let Turns { table } = self;
        let mut closed = table.close_with(seat);
        let value = closed.take(0);
        closed.free();
        let Some(value) = value else { unreachable!() };
        value
    }
}

//! The rule of the lock, and what each step on its table tells.
use crate::stands::Stands;
use atomic_table::{Join, Play, Split, TableRule};
use std::collections::LinkedList;
use std::marker::{Brand, PhantomData};
use std::snapshot::Snapshot;

/// What a value says of a list. Each call that enters names its own.
pub trait Found<T, E> {
    ghost use Rattle.std.specs.Prelude.{List};

    ghost found: { T → List E → Type 0 };
}

impl<T, E> Found<T, E> for Brand {
    ghost found = { λ value list. Unit {0} };
}

/// What is said of the entries before a call and of those that it adds. Each raise names its own.
pub trait Told<E> {
    ghost use Rattle.std.specs.Prelude.{List};

    ghost told: { List E → List E → Type 0 };
}

impl<E> Told<E> for Brand {
    ghost told = { λ before more. Unit {0} };
}

/// What a pass knows. No value of it is made.
pub struct View<E> {
    /// Its entries stand under this number in the history.
    pub number: u64,
    /// How many passes were split off it.
    pub splits: u64,
    /// The callers that were joined into it or into those, each with its entries.
    pub joined: LinkedList<(u64, LinkedList<E>)>,
    pub live: bool,
    /// It has the value.
    pub holds: bool,
    pub seen: LinkedList<(u64, E)>,
    /// What a pass had seen that was joined.
    pub told: LinkedList<(u64, E)>,
    /// Its own entries.
    pub own: LinkedList<E>,
}

pub struct OneHistory<O> {
    origin: PhantomData<O>,
}

impl<T: Stands<E, O>, E, O> TableRule<Option<T>, View<E>, Snapshot<T>> for OneHistory<O> {
    ghost use Rattle.std.specs.Prelude.{[]};
    ghost use Rattle.turn_lock.specs.Knowledge.{StandsFrom};
    ghost use Rattle.turn_lock.specs.Rules.{Kept, newcomer};

    ghost holds = { λ made. Kept (StandsFrom T.stands T.origin (T.origin made.value)) };

    ghost first = { λ _. newcomer 0 [] };
}

pub struct Take<M> {
    found: PhantomData<M>,
}

impl<T, E, M: Found<T, E>> Play<Option<T>, View<E>> for Take<M> {
    ghost use Rattle.turn_lock.specs.Rules.{Takes};

    ghost then = { Takes M.found };
}

pub struct Count;

impl<T, E> Play<Option<T>, View<E>> for Count {
    ghost use Rattle.turn_lock.specs.Rules.{Counts};

    ghost then = { Counts };
}

pub struct Raise<M> {
    told: PhantomData<M>,
}

impl<T, E, M: Told<E>> Play<Option<T>, View<E>> for Raise<M> {
    ghost use Rattle.turn_lock.specs.Rules.{Raises};

    ghost then = { Raises M.told };
}

pub struct Give;

impl<T, E> Play<Option<T>, View<E>> for Give {
    ghost use Rattle.turn_lock.specs.Rules.{Gives};

    ghost then = { Gives };
}

pub struct Look;

impl<T, E> Play<Option<T>, View<E>> for Look {
    ghost use Rattle.turn_lock.specs.Rules.{Looks};

    ghost then = { Looks };
}

pub struct Find;

impl<T, E> Play<Option<T>, View<E>> for Find {
    ghost use Rattle.turn_lock.specs.Rules.{Finds};

    ghost then = { Finds };
}

pub struct Learn;

impl<T, E> Play<Option<T>, View<E>> for Learn {
    ghost use Rattle.turn_lock.specs.Rules.{Learns};

    ghost then = { Learns };
}

pub struct Part;

impl<E> Split<View<E>> for Part {
    ghost use Rattle.turn_lock.specs.Rules.{split_once, next_pass};

    ghost left = { split_once };

    ghost right = { next_pass };
}

impl<E> Join<View<E>> for Part {
    ghost use Rattle.turn_lock.specs.Rules.{informed, ended};

    ghost both = { informed };

    ghost spent = { ended };
}

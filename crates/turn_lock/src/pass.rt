//! The right to take turns.
ghost use Rattle.std.specs.Prelude.{◌≡◌};
ghost use Rattle.turn_lock.specs.Rules.{known, IsIdle};

use crate::rule::View;
use atomic_table::Seat;
use std::marker::Model;

/// The right to take turns at one lock. Contracts see what its owner knows.
pub struct Pass<T, E> {
    pub(crate) seat: Seat<Option<T>, View<E>>,
}

impl<T, E> Model for Pass<T, E> {
    ghost use Rattle.turn_lock.specs.Knowledge.{Knowledge};

    ghost Value = { Knowledge E };

    ghost use Rattle.turn_lock.specs.Rules.{known, IsIdle};

    ghost view = { λ p. known p.seat.table_id p.seat.me.0 };

    ghost invariant = { λ p. IsIdle p.seat.me };
}

impl<T, E> Pass<T, E> {
    pub(crate) fn into_seat(self) -> Seat<Option<T>, View<E>>
        ensures known { self ≡ known result.table_id result.me.0 }
        ensures idle { IsIdle result.me }
    {
        let Pass { seat } = self;
        seat
    }
}

impl<T, E> Drop for Pass<T, E> {
    fn drop(self) {
        let Pass { seat: _ } = self;
    }
}

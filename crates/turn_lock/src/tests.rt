ghost use Rattle.std.specs.Prelude.{◌≡◌, length, IfOk};
ghost use Rattle.turn_lock.specs.History.{HasJust};
ghost use Rattle.turn_lock.specs.Knowledge.{BelongsTo, callers, root_of};

use crate::tally::{Tally, add_times, total_by_turns};
use crate::{Book, Pass, Turns, take_turn};
use gno_num::Spent;
use std::alloc::{AllocError, Global};
use std::sync::Wait;
use std::test::*;
use std::thread;
use std::thread::Threads;

fn opened(
    alloc: Global,
    opening: u64,
) -> Result<(Turns<Tally, u64, u64>, Pass<Tally, u64>), AllocError>
    ensures root { IfOk result (λ made. made.1 ≡ root_of made.0.id) }
    ensures origin { IfOk result (λ made. made.0.origin ≡ opening) }
{
    let tally = Tally {
        opening,
        total: opening,
    };
    match Turns::new(alloc, tally) {
        Ok(made) => Ok(made),
        Err(_) => Err(AllocError),
    }
}

#[test]
fn a_split_an_enter_and_a_look(rt: HostRuntime) -> Result<(), Fail> {
    let (turns, mut first) = opened(rt.alloc(), 10)?;
    let mut second = turns.split_pass(&mut first);
    let mut held = turns.enter(&rt, first);
    assert!(rt; held.room() >= 1);
    let (reply, entries) = held.value().call(&5);
    assert_eq!(rt; reply, Some(15));
    let Ok(()) = held.raise::<Tally, u64, u64, Option<u64>>(&turns, &5, &reply, entries) else {
        unreachable!()
    };
    let mut first = held.leave(&turns);
    assert_eq!(rt; turns.look(&mut second), 1);
    let held = turns.enter(&rt, second);
    assert_eq!(rt; held.room(), (1 << 63) - 1);
    turns.join_pass(&mut first, held.leave(&turns));
    assert_eq!(rt; turns.look(&mut first), 1);
    assert_eq!(rt; turns.close(first).total, 15);
    Ok(())
}

#[test]
fn two_threads_that_add_by_turns(rt: HostRuntime) -> Result<(), Fail> {
    let (turns, pass) = opened(rt.alloc(), 1000)?;
    let (tally, ones, tens) = total_by_turns(&rt, turns, pass, 1, 10, 100);
    assert_eq!(rt; (ones, tens), (100, 100));
    assert_eq!(rt; tally.total, 2100);
    Ok(())
}

#[test]
fn four_threads(rt: HostRuntime) -> Result<(), Fail> {
    let (turns, pass) = opened(rt.alloc(), 0)?;
    let mut pass = add_by_four(&rt, &turns, pass, 50);
    assert_eq!(rt; turns.look(&mut pass), 200);
    assert_eq!(rt; turns.close(pass).total, 50 * 1111);
    Ok(())
}

#[test]
fn two_calls_of_any_object(rt: HostRuntime) -> Result<(), Fail> {
    let (turns, mut pass) = opened(rt.alloc(), 0)?;
    let other = turns.split_pass(&mut pass);
    let ((mut pass, one), (other, two)) = call_side_by_side(&rt, &turns, pass, other, &3);
    let in_order = one == Ok(Some(3)) && two == Ok(Some(6));
    let other_way = one == Ok(Some(6)) && two == Ok(Some(3));
    assert!(rt; in_order || other_way);
    turns.join_pass(&mut pass, other);
    assert_eq!(rt; turns.close(pass).total, 6);
    Ok(())
}

// Two threads add a number each.
fn add_side_by_side<R: Threads + Wait + Sync>(
    rt: &R,
    turns: &Turns<Tally, u64, u64>,
    left: (Pass<Tally, u64>, u64),
    right: (Pass<Tally, u64>, u64),
    times: u64,
) -> (Pass<Tally, u64>, Pass<Tally, u64>)
    requires left { BelongsTo turns.now left.0 × HasJust left.0.seen (callers left.0) }
    requires right { BelongsTo turns.now right.0 × HasJust right.0.seen (callers right.0) }
    ensures left { result.0 ≡ record left.0 { seen = result.0.seen; own = result.0.own } }
    ensures right { result.1 ≡ record right.0 { seen = result.1.seen; own = result.1.own } }
{
    let (left, left_number) = left;
    let (right, right_number) = right;
    thread::join(
        rt,
        move ||
            requires { BelongsTo turns.now left × HasJust left.seen (callers left) }
            ensures { result ≡ record left { seen = result.seen; own = result.own } }
        { add_times(rt, turns, left, left_number, times).0 },
        move ||
            requires { BelongsTo turns.now right × HasJust right.seen (callers right) }
            ensures { result ≡ record right { seen = result.seen; own = result.own } }
        { add_times(rt, turns, right, right_number, times).0 },
    )
}

/// Four threads add 1, 10, 100 and 1000, each so many times.
fn add_by_four<R: Threads + Wait + Sync>(
    rt: &R,
    turns: &Turns<Tally, u64, u64>,
    mut pass: Pass<Tally, u64>,
    times: u64,
) -> Pass<Tally, u64>
    requires root { pass ≡ root_of turns.now.id }
    ensures lock { BelongsTo turns.now result }
    ensures last { (result.number ≡ 0) × (length result.joined ≡ result.splits) }
{
    let one = turns.split_pass(&mut pass);
    let two = turns.split_pass(&mut pass);
    let three = turns.split_pass(&mut pass);
    let ((mut pass, one), (two, three)) = thread::join(
        rt,
        move ||
            requires { BelongsTo turns.now pass × HasJust pass.seen (callers pass) × BelongsTo turns.now one × HasJust one.seen (callers one) }
            ensures { (result.0 ≡ record pass { seen = result.0.seen; own = result.0.own }) × (result.1 ≡ record one { seen = result.1.seen; own = result.1.own }) }
        { add_side_by_side(rt, turns, (pass, 1), (one, 10), times) },
        move ||
            requires { BelongsTo turns.now two × HasJust two.seen (callers two) × BelongsTo turns.now three × HasJust three.seen (callers three) }
            ensures { (result.0 ≡ record two { seen = result.0.seen; own = result.0.own }) × (result.1 ≡ record three { seen = result.1.seen; own = result.1.own }) }
        { add_side_by_side(rt, turns, (two, 100), (three, 1000), times) },
    );
    turns.join_pass(&mut pass, one);
    turns.join_pass(&mut pass, two);
    turns.join_pass(&mut pass, three);
    pass
}

// Two calls of any object at once.
fn call_side_by_side<B: Book<E, O, Q, A> + Send, E, O, Q: Sync, A: Send, R: Threads + Wait + Sync>(
    rt: &R,
    turns: &Turns<B, E, O>,
    left: Pass<B, E>,
    right: Pass<B, E>,
    request: &Q,
) -> (
    (Pass<B, E>, Result<A, Spent>),
    (Pass<B, E>, Result<A, Spent>),
)
    requires lock { BelongsTo turns.now left × BelongsTo turns.now right }
    ensures left { result.0.0 ≡ record left { seen = result.0.0.seen; own = result.0.0.own } }
    ensures right { result.1.0 ≡ record right { seen = result.1.0.seen; own = result.1.0.own } }
{
    thread::join(
        rt,
        move ||
            requires { BelongsTo turns.now left }
            ensures { result.0 ≡ record left { seen = result.0.seen; own = result.0.own } }
        { take_turn::<B, E, O, Q, A, R>(rt, turns, left, request) },
        move ||
            requires { BelongsTo turns.now right }
            ensures { result.0 ≡ record right { seen = result.0.seen; own = result.0.own } }
        { take_turn::<B, E, O, Q, A, R>(rt, turns, right, request) },
    )
}

// Histories worked by hand.
use crate::{
    Counted, Entry, HeldClaim, done_number, held_claim, is_broken, kept, last_post, live_ids,
    longest_waiting, pending_numbers, turn_end,
};
use archive_policy::{Kind, Name, Policy, Wanted};
use gno_num::Span;
use series_model::{Batch, MetricId, Ticket};
use std::alloc::Global;
use std::test::Fail;

const M: MetricId = MetricId(7);

const N: MetricId = MetricId(3);

const TICKET: Ticket = Ticket { sack: 0, number: 1 };

fn create(alloc: Global, history: &mut Vec<Entry>, metric: MetricId) -> Result<(), Fail> {
    let wanted = [Wanted {
        granularity: Span::of_nanos(60_000_000_000),
        points: Some(10),
        timespan: None,
    }];
    let policy = Policy::make(alloc, Name::of(alloc, b"p")?, 0, &wanted, &[Kind::Mean])?;
    history.push(Entry::Counted(Counted::Create { metric, policy }))?;
    Ok(())
}

fn batch_of(alloc: Global, number: u64, metric: MetricId) -> Result<Counted, Fail> {
    Ok(Counted::Post {
        number,
        metric,
        measures: Batch::make(Vec::new(alloc))?,
    })
}

fn post(
    alloc: Global,
    history: &mut Vec<Entry>,
    number: u64,
    metric: MetricId,
) -> Result<(), Fail> {
    history.push(Entry::Counted(batch_of(alloc, number, metric)?))?;
    Ok(())
}

fn done(history: &mut Vec<Entry>, metric: MetricId, upto: u64) -> Result<(), Fail> {
    history.push(Entry::Counted(Counted::Done { metric, upto }))?;
    Ok(())
}

fn claim(history: &mut Vec<Entry>, metric: MetricId, upto: u64) -> Result<(), Fail> {
    history.push(Entry::Claim {
        ticket: TICKET,
        metric,
        upto,
    })?;
    Ok(())
}

/// The next turn: its metric and the number of its last post.
fn next_turn(alloc: Global, history: &[Entry]) -> Result<Option<(MetricId, u64)>, Fail> {
    let counts = kept(alloc, history)?;
    match longest_waiting(&counts) {
        Some(metric) => Ok(Some((metric, turn_end(alloc, &counts, metric)?))),
        None => Ok(None),
    }
}

/// The done number of a metric, and how many of its posts wait.
fn progress(
    alloc: Global,
    history: &[Entry],
    metric: MetricId,
) -> Result<(Option<u64>, usize), Fail> {
    let counts = kept(alloc, history)?;
    let pending = pending_numbers(alloc, &counts, metric)?;
    Ok((done_number(&counts, metric), pending.len()))
}

#[test]
fn the_post_that_waited_longest_is_next(rt: HostRuntime) -> Result<(), Fail> {
    let alloc = rt.alloc();
    let mut history = Vec::new(alloc);
    create(alloc, &mut history, M)?;
    create(alloc, &mut history, N)?;
    post(alloc, &mut history, 1, N)?;
    post(alloc, &mut history, 2, M)?;
    post(alloc, &mut history, 3, N)?;
    assert_eq!(rt; next_turn(alloc, &history)?, Some((N, 3)));
    claim(&mut history, N, 3)?;
    done(&mut history, N, 3)?;
    assert_eq!(rt; next_turn(alloc, &history)?, Some((M, 2)));
    post(alloc, &mut history, 4, M)?;
    done(&mut history, M, 4)?;
    assert_eq!(rt; next_turn(alloc, &history)?, None);
    assert_eq!(rt; progress(alloc, &history, M)?, (Some(4), 0));
    let ids = live_ids(alloc, &kept(alloc, &history)?)?;
    let wanted = [N, M];
    assert_eq!(rt; ids.as_slice(), wanted.as_slice());
    Ok(())
}

#[test]
fn a_turn_takes_64_posts(rt: HostRuntime) -> Result<(), Fail> {
    let alloc = rt.alloc();
    let mut history = Vec::new(alloc);
    create(alloc, &mut history, M)?;
    for number in 1..66 {
        post(alloc, &mut history, number, M)?;
    }
    assert_eq!(rt; next_turn(alloc, &history)?, Some((M, 64)));
    done(&mut history, M, 64)?;
    assert_eq!(rt; progress(alloc, &history, M)?, (Some(64), 1));
    assert_eq!(rt; next_turn(alloc, &history)?, Some((M, 65)));
    Ok(())
}

#[test]
fn a_claim_ends(rt: HostRuntime) -> Result<(), Fail> {
    let alloc = rt.alloc();
    let mut history = Vec::new(alloc);
    create(alloc, &mut history, M)?;
    post(alloc, &mut history, 1, M)?;
    claim(&mut history, M, 1)?;
    post(alloc, &mut history, 2, M)?;
    let held = HeldClaim {
        ticket: TICKET,
        metric: M,
        upto: 1,
    };
    assert_eq!(rt; held_claim(&history), Some(held));
    done(&mut history, M, 1)?;
    assert_eq!(rt; held_claim(&history), None);
    assert_eq!(rt; progress(alloc, &history, M)?, (Some(1), 1));
    claim(&mut history, M, 2)?;
    history.push(Entry::Counted(Counted::Drop { metric: M }))?;
    assert_eq!(rt; held_claim(&history), None);
    create(alloc, &mut history, M)?;
    assert_eq!(rt; progress(alloc, &history, M)?, (Some(2), 0));
    Ok(())
}

#[test]
fn what_was_tried_counts_once_it_is_found(rt: HostRuntime) -> Result<(), Fail> {
    let alloc = rt.alloc();
    for found in [false, true] {
        let mut history = Vec::new(alloc);
        create(alloc, &mut history, M)?;
        history.push(Entry::Fault {
            tried: Some(batch_of(alloc, 1, M)?),
            before: 0,
            after: 1,
        })?;
        assert!(rt; is_broken(&history));
        assert_eq!(rt; progress(alloc, &history, M)?, (Some(0), 0));
        history.push(Entry::Reopened { kept: found })?;
        assert!(rt; !is_broken(&history));
        let number = if found { 1 } else { 0 };
        assert_eq!(rt; last_post(&kept(alloc, &history)?), number);
    }
    Ok(())
}

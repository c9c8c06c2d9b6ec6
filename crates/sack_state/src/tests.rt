// Sacks on disks in memory. Each call stands in a function of its own: the contracts are long.
use crate::{Claim, CommitFault, CreateFault, Place, Sack, SackDisks, SackFault};
use archive_policy::{Kind, Name, Policy, Wanted};
use bound_series::{Job, Prepared};
use gno_disk::{Fusible, MemDisk};
use gno_num::{Span, Stamp, Value};
use regroup::prepare;
use series_model::{Batch, Measure, MetricId, Query};
use std::alloc::Global;
use std::test::Fail;

const PLACE: Place = Place {
    role: 1,
    sack: 0,
    sacks: 1,
};

const METRIC: MetricId = MetricId(0x0000_0001_0000_8000_8000_0000_0000_0001);

const OTHER: MetricId = MetricId(7);

fn empty(alloc: Global) -> MemDisk {
    MemDisk::new(alloc, Vec::new(alloc), Vec::new(alloc))
}

fn fresh(alloc: Global) -> Option<Sack<MemDisk>> {
    let disks = SackDisks {
        incoming_a: empty(alloc),
        incoming_b: empty(alloc),
        shelf_a: empty(alloc),
        shelf_b: empty(alloc),
        blocks: empty(alloc),
    };
    Sack::create(alloc, disks, PLACE).ok()
}

fn mounted(alloc: Global, disks: SackDisks<MemDisk>) -> Option<Sack<MemDisk>> {
    Sack::mount(alloc, disks, PLACE).ok()
}

fn policy(alloc: Global) -> Result<Policy, Fail> {
    let wanted = [Wanted {
        granularity: Span::of_nanos(60_000_000_000),
        points: Some(10),
        timespan: None,
    }];
    let name = Name::of(alloc, "p".as_bytes())?;
    Ok(Policy::make(alloc, name, 0, &wanted, &[Kind::Mean])?)
}

fn batch(alloc: Global) -> Result<Batch, Fail> {
    let measure = Measure {
        at: Stamp::of_nanos(100_000_000_000).ok_or("a stamp")?,
        value: Value::of_units(10_000_000).ok_or("a value")?,
    };
    Ok(Batch::make(vec![in alloc; measure]?)?)
}

fn create(sack: &mut Sack<MemDisk>, policy: &Policy) -> Option<bool> {
    match sack.create_metric(METRIC, policy) {
        Ok(()) => Some(true),
        Err(CreateFault::Exists) => Some(false),
        Err(_) => None,
    }
}

fn remove(sack: &mut Sack<MemDisk>) -> bool {
    sack.drop_metric(METRIC).is_ok()
}

fn post(sack: &mut Sack<MemDisk>, batch: &Batch) -> Option<u64> {
    sack.post(METRIC, batch).ok()
}

fn is_unknown(sack: &mut Sack<MemDisk>, batch: &Batch) -> bool {
    matches!(sack.post(OTHER, batch), Err(SackFault::Unknown))
}

fn fails(sack: &mut Sack<MemDisk>, batch: &Batch) -> bool {
    matches!(sack.post(METRIC, batch), Err(SackFault::DiskFault(_)))
}

// How many entries there are, live metrics, and posts that wait.
fn counts(sack: &Sack<MemDisk>) -> (u64, u64, u64) {
    (sack.entries(), sack.live(), sack.pending())
}

fn disks_of(sack: Sack<MemDisk>) -> SackDisks<MemDisk> {
    sack.into_disks()
}

fn lives(
    sack: &mut Sack<MemDisk>,
    policy: &Policy,
    batch: &Batch,
) -> (Option<bool>, Option<bool>, Option<u64>, bool, Option<bool>) {
    (
        create(sack, policy),
        create(sack, policy),
        post(sack, batch),
        remove(sack),
        create(sack, policy),
    )
}

fn lives_of_new(
    alloc: Global,
    policy: &Policy,
    batch: &Batch,
) -> Option<
    (
        (Option<bool>, Option<bool>, Option<u64>, bool, Option<bool>),
        (u64, u64, u64),
    ),
> {
    let mut sack = fresh(alloc)?;
    let lives = lives(&mut sack, policy, batch);
    Some((lives, counts(&sack)))
}

// A metric is created once, and again after it was dropped; then its earlier post waits no longer.
#[test]
fn metrics_come_and_go(rt: HostRuntime) -> Result<(), Fail> {
    let alloc = rt.alloc();
    let policy = policy(alloc)?;
    let batch = batch(alloc)?;
    let lives = (Some(true), Some(false), Some(1), true, Some(true));
    assert_eq!(rt;
        lives_of_new(alloc, &policy, &batch),
        Some((lives, (5, 1, 0)))
    );
    Ok(())
}

fn with_post(alloc: Global, policy: &Policy, batch: &Batch) -> Option<SackDisks<MemDisk>> {
    let mut sack = fresh(alloc)?;
    create(&mut sack, policy);
    post(&mut sack, batch);
    Some(disks_of(sack))
}

fn posts_of_mounted(
    alloc: Global,
    disks: SackDisks<MemDisk>,
    batch: &Batch,
) -> Option<((u64, u64, u64), bool, Option<u64>)> {
    let mut sack = mounted(alloc, disks)?;
    let found = counts(&sack);
    let unknown = is_unknown(&mut sack, batch);
    Some((found, unknown, post(&mut sack, batch)))
}

// Posts and metrics are found again, and numbers go on.
#[test]
fn batches_are_posted_to_live_metrics(rt: HostRuntime) -> Result<(), Fail> {
    let alloc = rt.alloc();
    let policy = policy(alloc)?;
    let batch = batch(alloc)?;
    let disks = with_post(alloc, &policy, &batch).ok_or("a post")?;
    assert_eq!(rt;
        posts_of_mounted(alloc, disks, &batch),
        Some(((0, 1, 1), true, Some(2)))
    );
    Ok(())
}

fn fails_twice(
    alloc: Global,
    disks: SackDisks<MemDisk>,
    batch: &Batch,
) -> Option<(bool, bool, (u64, u64, u64))> {
    let mut sack = mounted(alloc, disks)?;
    Some((
        fails(&mut sack, batch),
        fails(&mut sack, batch),
        counts(&sack),
    ))
}

// While its first disk fails, a sack still tells its live metrics and the posts that wait.
#[test]
fn a_broken_sack_tells_what_it_knew(rt: HostRuntime) -> Result<(), Fail> {
    let alloc = rt.alloc();
    let policy = policy(alloc)?;
    let batch = batch(alloc)?;
    let mut disks = with_post(alloc, &policy, &batch).ok_or("a post")?;
    disks.incoming_a.fuse(3);
    assert_eq!(rt;
        fails_twice(alloc, disks, &batch),
        Some((true, true, (2, 1, 1)))
    );
    Ok(())
}

fn create_other(sack: &mut Sack<MemDisk>, policy: &Policy) -> bool {
    sack.create_metric(OTHER, policy).is_ok()
}

fn post_other(sack: &mut Sack<MemDisk>, batch: &Batch) -> Option<u64> {
    sack.post(OTHER, batch).ok()
}

fn claim(sack: &mut Sack<MemDisk>) -> Option<Job> {
    match sack.claim() {
        Ok(Claim::Job(job)) => Some(job),
        _ => None,
    }
}

fn commit(sack: &mut Sack<MemDisk>, prepared: Prepared) -> Option<u64> {
    sack.commit(prepared).ok()
}

fn is_stale(sack: &mut Sack<MemDisk>, prepared: Prepared) -> bool {
    matches!(
        sack.commit(prepared),
        Err(CommitFault::NotHolder {
            given: _,
            holder: None
        })
    )
}

fn drop_other(sack: &mut Sack<MemDisk>) -> bool {
    sack.drop_metric(OTHER).is_ok()
}

fn done_by_refresh(sack: &mut Sack<MemDisk>) -> Option<u64> {
    sack.refresh(METRIC).ok()
}

fn turns_by_drain(sack: &mut Sack<MemDisk>) -> Option<u64> {
    sack.drain().ok()
}

fn rows(sack: &mut Sack<MemDisk>) -> Option<usize> {
    let query = Query {
        start: None,
        stop: None,
        kind: Some(Kind::Mean),
        granularity: None,
    };
    match sack.answer(METRIC, &query) {
        Ok(answer) => Some(answer.rows().len()),
        Err(_) => None,
    }
}

fn work(alloc: Global, sack: &mut Sack<MemDisk>) -> Option<Prepared> {
    match claim(sack) {
        Some(job) => prepare(alloc, job).ok(),
        None => None,
    }
}

// The metric and the last number of a claimed job, and the done number after its commit.
fn turn(alloc: Global, sack: &mut Sack<MemDisk>) -> Option<(MetricId, u64, Option<u64>)> {
    match work(alloc, sack) {
        Some(prepared) => {
            let metric = prepared.job().metric();
            let upto = prepared.job().upto();
            Some((metric, upto, commit(sack, prepared)))
        }
        None => None,
    }
}

fn with_posts(alloc: Global, policy: &Policy, batch: &Batch) -> Option<Sack<MemDisk>> {
    let mut sack = fresh(alloc)?;
    create(&mut sack, policy);
    create_other(&mut sack, policy);
    post_other(&mut sack, batch);
    post(&mut sack, batch);
    post_other(&mut sack, batch);
    Some(sack)
}

fn two_turns(
    alloc: Global,
    sack: Option<Sack<MemDisk>>,
) -> Option<
    (
        Option<(MetricId, u64, Option<u64>)>,
        Option<(MetricId, u64, Option<u64>)>,
    ),
> {
    let mut sack = sack?;
    Some((turn(alloc, &mut sack), turn(alloc, &mut sack)))
}

// The metric whose post has waited longest is claimed, with all its posts that wait.
#[test]
fn who_has_waited_longest_is_first(rt: HostRuntime) -> Result<(), Fail> {
    let alloc = rt.alloc();
    let policy = policy(alloc)?;
    let batch = batch(alloc)?;
    assert_eq!(rt;
        two_turns(alloc, with_posts(alloc, &policy, &batch)),
        Some((Some((OTHER, 3, Some(3))), Some((METRIC, 2, Some(2)))))
    );
    Ok(())
}

fn drops_claimed(alloc: Global, sack: Option<Sack<MemDisk>>) -> Option<(bool, bool)> {
    let mut sack = sack?;
    match work(alloc, &mut sack) {
        Some(prepared) => Some((drop_other(&mut sack), is_stale(&mut sack, prepared))),
        None => None,
    }
}

// A drop of its metric ends a claim.
#[test]
fn a_drop_ends_a_claim(rt: HostRuntime) -> Result<(), Fail> {
    let alloc = rt.alloc();
    let policy = policy(alloc)?;
    let batch = batch(alloc)?;
    assert_eq!(rt;
        drops_claimed(alloc, with_posts(alloc, &policy, &batch)),
        Some((true, true))
    );
    Ok(())
}

fn refreshed(
    sack: Option<Sack<MemDisk>>,
) -> Option<(Option<usize>, Option<u64>, Option<usize>, Option<u64>, u64)> {
    let mut sack = sack?;
    Some((
        rows(&mut sack),
        done_by_refresh(&mut sack),
        rows(&mut sack),
        turns_by_drain(&mut sack),
        sack.pending(),
    ))
}

// A query sees what was processed, and no more; a drain leaves no post waiting.
#[test]
fn what_was_processed_is_answered(rt: HostRuntime) -> Result<(), Fail> {
    let alloc = rt.alloc();
    let policy = policy(alloc)?;
    let batch = batch(alloc)?;
    assert_eq!(rt;
        refreshed(with_posts(alloc, &policy, &batch)),
        Some((Some(0), Some(2), Some(1), Some(1), 0))
    );
    Ok(())
}

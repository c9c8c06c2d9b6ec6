// The front of one thread, on disks in memory.
use crate::{Counts, Solo, Starved, StoreFault};
use archive_policy::{Kind, Name, Policy, Wanted};
use front_api::{Bench, Claimed, Command, ControlFault, FreeFault, Front, Reply};
use gno_disk::MemDisk;
use gno_num::{Span, Stamp, Value};
use sack_history::SackFault;
use series_model::{Batch, Measure, MetricId, Query, Ticket};
use std::alloc::Global;
use std::test::Fail;

// Disks that hold nothing.
fn fresh(alloc: Global, count: usize) -> Result<Vec<MemDisk>, Fail> {
    let mut disks = Vec::with_capacity(alloc, count)?;
    for _ in 0..count {
        let disk = MemDisk::new(alloc, Vec::new(alloc), Vec::new(alloc));
        disks.push(disk)?;
    }
    Ok(disks)
}

// Disks of which one fails its call of this number.
fn failing(alloc: Global, count: usize, at: usize, call: u64) -> Result<Vec<MemDisk>, Fail> {
    let mut disks = fresh(alloc, count)?;
    let disk = MemDisk::new(alloc, Vec::new(alloc), vec![in alloc; call]?);
    put(&mut disks, at, disk)?;
    Ok(disks)
}

// Puts a disk in the place of another one.
fn put(disks: &mut Vec<MemDisk>, at: usize, disk: MemDisk) -> Result<(), Fail> {
    match disks.get_mut(at) {
        Some(place) => {
            *place = disk;
            Ok(())
        }
        None => Err(Fail::from("no such disk")),
    }
}

type Opened = Result<Solo<MemDisk>, (Vec<MemDisk>, StoreFault)>;

// Makes a store on these disks, which are those of the plan.
fn make(alloc: Global, disks: Vec<MemDisk>, sacks: u16) -> Result<Opened, Fail> {
    if 1 <= sacks && sacks <= 64 && disks.len() == 2 + 5 * usize::from(sacks) {
        Ok(Solo::create(alloc, disks, sacks, 1))
    } else {
        Err(Fail::from("other disks"))
    }
}

// Mounts the store on them.
fn mount(alloc: Global, disks: Vec<MemDisk>, sacks: u16) -> Result<Opened, Fail> {
    if 1 <= sacks && sacks <= 64 && disks.len() == 2 + 5 * usize::from(sacks) {
        Ok(Solo::mount(alloc, disks, sacks))
    } else {
        Err(Fail::from("other disks"))
    }
}

fn lengths(disks: &[MemDisk], alloc: Global) -> Result<Vec<u64>, Fail> {
    let mut lengths = Vec::new(alloc);
    for disk in disks {
        lengths.push(gno_disk::Disk::len(disk))?;
    }
    Ok(lengths)
}

// A store that was made is found, mounted again, and gives its disks back in their order.
#[test]
fn a_store_is_made_once(rt: HostRuntime) -> Result<(), Fail> {
    let alloc = rt.alloc();
    let Ok(solo) = make(alloc, fresh(alloc, 12)?, 2)? else {
        return Err(Fail::from("create"));
    };
    let disks = solo.into_disks();
    let before = lengths(&disks, alloc)?;
    assert_eq!(rt; disks.len(), 12);
    assert!(rt; before.starts_with(&[50]) && before.ends_with(&[0]));
    let Err((disks, fault)) = make(alloc, disks, 2)? else {
        return Err(Fail::from("made twice"));
    };
    assert_eq!(rt; fault, StoreFault::Exists);
    let Ok(solo) = mount(alloc, disks, 2)? else {
        return Err(Fail::from("mount"));
    };
    let disks = solo.into_disks();
    assert_eq!(rt; lengths(&disks, alloc)?, before);
    let Err((_, fault)) = mount(alloc, fresh(alloc, 12)?, 2)? else {
        return Err(Fail::from("mounted nothing"));
    };
    assert!(rt; matches!(fault, StoreFault::Damaged(_)));
    Ok(())
}

// A store is made on these disks, or there is one that can be mounted.
fn made_or_there(alloc: Global, disks: Vec<MemDisk>) -> Result<bool, Fail> {
    let Err((disks, fault)) = make(alloc, disks, 1)? else {
        return Ok(true);
    };
    Ok(fault == StoreFault::Exists && mount(alloc, disks, 1)?.is_ok())
}

// Whichever call of the index's first disk, or of a sack's, fails while a store is made, there is none then or the whole
// one, and making it again ends well.
#[test]
fn a_failed_making_is_made_again(rt: HostRuntime) -> Result<(), Fail> {
    let alloc = rt.alloc();
    for disk in [0, 1, 2, 5, 6] {
        for call in 0..6_u64 {
            let Err((disks, fault)) = make(alloc, failing(alloc, 7, disk, call)?, 1)? else {
                continue;
            };
            assert!(rt; matches!(fault, StoreFault::DiskFault(_)));
            assert!(rt; made_or_there(alloc, disks)?);
        }
    }
    Ok(())
}

// A record that is no header gives way; a header stays.
#[test]
fn what_is_no_store_gives_way(rt: HostRuntime) -> Result<(), Fail> {
    let alloc = rt.alloc();
    let mut disks = fresh(alloc, 7)?;
    let other = vec![in alloc; 1, 0, 0, 0, 0, 0, 0, 0, 1, 7, 0]?;
    put(&mut disks, 1, MemDisk::new(alloc, other, Vec::new(alloc)))?;
    let Ok(solo) = make(alloc, disks, 1)? else {
        return Err(Fail::from("create"));
    };
    assert!(rt; mount(alloc, solo.into_disks(), 1)?.is_ok());
    Ok(())
}

// Commands are done in the index, and a post of a metric that isn't live is refused by its sack.
#[test]
fn calls_enter_their_books(rt: HostRuntime) -> Result<(), Fail> {
    let alloc = rt.alloc();
    let Ok(mut solo) = make(alloc, fresh(alloc, 12)?, 2)? else {
        return Err(Fail::from("create"));
    };
    assert!(rt;
        matches!(
            solo.ask_index(&Command::AddResource(7)),
            Ok(Reply::Resources(_))
        )
    );
    let again = solo.ask_index(&Command::AddResource(7));
    assert!(rt; matches!(again, Err(ControlFault::ResourceExists)));
    let Ok(batch) = Batch::make(Vec::new(alloc)) else {
        return Err(Fail::from("batch"));
    };
    assert!(rt; matches!(solo.post_to(MetricId(3), &batch), Err(SackFault::Unknown)));
    Ok(())
}

// `p`: means of 60 seconds.
fn policy(alloc: Global) -> Result<Policy, Fail> {
    let wanted = [Wanted {
        granularity: Span::of_nanos(60_000_000_000),
        points: Some(10),
        timespan: None,
    }];
    Ok(Policy::make(alloc, Name::of(alloc, b"p")?, 0, &wanted, &[Kind::Mean])?)
}

// Adds a metric with the policy, and gives its identifier.
fn added(alloc: Global, solo: &mut Solo<MemDisk>) -> Result<MetricId, Fail> {
    let command = Command::AddMetric {
        policy: Some(Name::of(alloc, b"p")?),
        name: None,
        unit: None,
        resource: None,
    };
    match solo.do_command(alloc, &command) {
        Ok(Reply::Metrics(docs)) => match docs.items() {
            [doc] => Ok(doc.id),
            _ => Err(Fail::from("not one metric")),
        },
        _ => Err(Fail::from("add a metric")),
    }
}

// Whether no claim is held on this sack.
fn is_free(solo: &mut Solo<MemDisk>, sack: u16) -> bool {
    let ticket = Ticket { sack, number: 1 };
    sack < solo.sack_count()
        && matches!(
            solo.release_work(Starved { ticket }),
            Err(FreeFault::Stale { holder: None, .. })
        )
}

// A new store with the policy.
fn with_policy(alloc: Global) -> Result<Solo<MemDisk>, Fail> {
    let Ok(mut solo) = make(alloc, fresh(alloc, 12)?, 2)? else {
        return Err(Fail::from("create"));
    };
    match solo.do_command(alloc, &Command::AddPolicy(policy(alloc)?)) {
        Ok(_) => Ok(solo),
        Err(_) => Err(Fail::from("add a policy")),
    }
}

// Posts no measures.
fn posted(alloc: Global, solo: &mut Solo<MemDisk>, metric: MetricId) -> Result<bool, Fail> {
    let Ok(batch) = Batch::make(Vec::new(alloc)) else {
        return Err(Fail::from("batch"));
    };
    Ok(solo.post_to(metric, &batch).is_ok())
}

// Whether a metric is dropped.
fn dropped(alloc: Global, solo: &mut Solo<MemDisk>, metric: MetricId) -> bool {
    solo.do_command(alloc, &Command::DropMetric(metric)).is_ok()
}

fn counts(metrics: u64, pending: u64) -> Counts {
    Counts { metrics, pending }
}

// Metrics come with the identifiers of store 1, are counted with the posts that wait, and are dropped.
#[test]
fn metrics_come_and_go(rt: HostRuntime) -> Result<(), Fail> {
    let alloc = rt.alloc();
    let mut solo = with_policy(alloc)?;
    let first = added(alloc, &mut solo)?;
    let second = added(alloc, &mut solo)?;
    assert_eq!(rt; first, MetricId(0x0000_0001_0000_8000_8000_0000_0000_0001));
    assert_eq!(rt; second, MetricId(0x0000_0001_0000_8000_8000_0000_0000_0002));
    assert!(rt; posted(alloc, &mut solo, first)?);
    assert_eq!(rt; solo.counts(), counts(2, 1));
    assert!(rt; dropped(alloc, &mut solo, first) && !dropped(alloc, &mut solo, first));
    assert_eq!(rt; solo.counts(), counts(1, 0));
    assert!(rt; is_free(&mut solo, 1));
    Ok(())
}

// Posts a measure of so many seconds and of 1.
fn measured(
    alloc: Global,
    solo: &mut Solo<MemDisk>,
    metric: MetricId,
    secs: u32,
) -> Result<bool, Fail> {
    let measure = Measure {
        at: Stamp::of_nanos(u64::from(secs) * 1_000_000_000).ok_or("a stamp")?,
        value: Value::of_units(1_000_000).ok_or("a value")?,
    };
    let Ok(batch) = Batch::make(vec![in alloc; measure]?) else {
        return Err(Fail::from("batch"));
    };
    Ok(solo.post(alloc, metric, &batch).is_ok())
}

// Claims, prepares and commits work on a sack, and gives the done number.
fn worked(alloc: Global, solo: &mut Solo<MemDisk>, sack: u16) -> Result<u64, Fail> {
    if solo.sacks() <= sack {
        return Err(Fail::from("no such sack"));
    }
    let Ok(Claimed::Job(job)) = solo.claim(alloc, sack) else {
        return Err(Fail::from("claim"));
    };
    let Ok(prepared) = Solo::<MemDisk>::prepare(alloc, job) else {
        return Err(Fail::from("prepare"));
    };
    match solo.commit(alloc, prepared) {
        Ok(done) => Ok(done),
        Err(_) => Err(Fail::from("commit")),
    }
}

// How many rows a metric has.
fn rows(alloc: Global, solo: &mut Solo<MemDisk>, metric: MetricId) -> Option<usize> {
    let query = Query {
        start: None,
        stop: None,
        kind: Some(Kind::Mean),
        granularity: None,
    };
    match solo.answer(alloc, metric, &query) {
        Ok(answer) => Some(answer.rows().len()),
        Err(_) => None,
    }
}

// What is posted is answered once a worker has committed it, or a refresh or a drain has processed it.
#[test]
fn posts_are_processed(rt: HostRuntime) -> Result<(), Fail> {
    let alloc = rt.alloc();
    let mut solo = with_policy(alloc)?;
    let metric = added(alloc, &mut solo)?;
    assert!(rt; measured(alloc, &mut solo, metric, 0)?);
    assert_eq!(rt; rows(alloc, &mut solo, metric), Some(0));
    assert_eq!(rt; worked(alloc, &mut solo, 1)?, 1);
    assert_eq!(rt; rows(alloc, &mut solo, metric), Some(1));
    assert!(rt; measured(alloc, &mut solo, metric, 60)?);
    assert_eq!(rt; solo.refresh(alloc, metric), Ok(2));
    assert_eq!(rt; rows(alloc, &mut solo, metric), Some(2));
    assert!(rt; measured(alloc, &mut solo, metric, 120)?);
    assert_eq!(rt; solo.drain(alloc), Ok(1));
    assert_eq!(rt; rows(alloc, &mut solo, metric), Some(3));
    assert_eq!(rt; solo.counts(), counts(1, 0));
    Ok(())
}

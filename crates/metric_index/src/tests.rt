// The index on disks in memory.
use crate::Index;
use archive_policy::{Kind, Name, Policy, Wanted};
use front_api::{Command, ControlFault, MetricDoc, Reply};
use gno_disk::MemDisk;
use gno_num::Span;
use policy_rules::Rule;
use series_model::MetricId;
use std::alloc::Global;
use std::test::Fail;

const FIRST: MetricId = MetricId(0x0000_0001_0000_8000_8000_0000_0000_0001);

const SECOND: MetricId = MetricId(0x0000_0001_0000_8000_8000_0000_0000_0002);

fn disk(alloc: Global) -> MemDisk {
    MemDisk::new(alloc, Vec::new(alloc), Vec::new(alloc))
}

fn fresh(alloc: Global) -> Result<Index<MemDisk>, Fail> {
    match Index::create(alloc, disk(alloc), disk(alloc), 1, 1) {
        Ok(index) => Ok(index),
        Err(_) => Err(Fail::from("create")),
    }
}

fn mounted(alloc: Global, a: MemDisk, b: MemDisk) -> Result<Index<MemDisk>, Fail> {
    match Index::mount(alloc, a, b, 1) {
        Ok(index) => Ok(index),
        Err(_) => Err(Fail::from("mount")),
    }
}

fn name(alloc: Global, text: &str) -> Result<Name, Fail> {
    Ok(Name::of(alloc, text.as_bytes())?)
}

fn policy(alloc: Global, text: &str) -> Result<Policy, Fail> {
    let wanted = [Wanted {
        granularity: Span::of_nanos(60_000_000_000),
        points: Some(10),
        timespan: None,
    }];
    Ok(Policy::make(alloc, name(alloc, text)?, 0, &wanted, &[Kind::Mean])?)
}

// Begins a metric of these words.
fn begun(
    index: &mut Index<MemDisk>,
    policy: Option<Name>,
    name: Option<Name>,
) -> Result<(MetricId, Policy), ControlFault> {
    index.begin_metric(&Command::AddMetric {
        policy,
        name,
        unit: None,
        resource: None,
    })
}

// The document of `disk.io.rate` in resource 7, by policy `p`.
fn doc(alloc: Global, id: MetricId) -> Result<MetricDoc, Fail> {
    Ok(MetricDoc {
        id,
        policy: name(alloc, "p")?,
        name: Some(name(alloc, "disk.io.rate")?),
        unit: None,
        resource: Some(7),
    })
}

fn add_policy(alloc: Global, index: &mut Index<MemDisk>, text: &str) -> Result<(), Fail> {
    match apply(index, &Command::AddPolicy(policy(alloc, text)?)) {
        Ok(_) => Ok(()),
        Err(_) => Err(Fail::from("a policy")),
    }
}

fn add_rule(
    alloc: Global,
    index: &mut Index<MemDisk>,
    text: &str,
    pattern: &str,
    policy: &str,
) -> Result<(), Fail> {
    let rule = Rule {
        name: name(alloc, text)?,
        pattern: name(alloc, pattern)?,
        policy: name(alloc, policy)?,
    };
    match apply(index, &Command::AddRule(rule)) {
        Ok(_) => Ok(()),
        Err(_) => Err(Fail::from("a rule")),
    }
}

fn apply(index: &mut Index<MemDisk>, command: &Command) -> Result<Reply, ControlFault> {
    index.apply(command)
}

// Whether a command is answered that it was done.
fn is_done(index: &mut Index<MemDisk>, command: &Command) -> bool {
    matches!(apply(index, command), Ok(Reply::Done))
}

// What a command is refused with.
fn refused(index: &mut Index<MemDisk>, command: &Command) -> Option<ControlFault> {
    apply(index, command).err()
}

// Whether a metric's document is added.
fn add_metric(index: &mut Index<MemDisk>, doc: &MetricDoc) -> Result<bool, Fail> {
    if doc.name.is_none() {
        return Err(Fail::from("no name"));
    }
    Ok(index.add_metric(doc).is_ok())
}

// The index on the same disks.
fn mounted_again(alloc: Global, index: Index<MemDisk>) -> Result<Index<MemDisk>, Fail> {
    let (a, b) = index.into_disks();
    mounted(alloc, a, b)
}

#[test]
fn policies_are_kept(rt: HostRuntime) -> Result<(), Fail> {
    let alloc = rt.alloc();
    let mut index = fresh(alloc)?;
    let wanted = Command::AddPolicy(policy(alloc, "p")?);
    assert!(rt; matches!(apply(&mut index, &wanted), Ok(Reply::Policies(_))));
    assert!(rt;
        matches!(
            refused(&mut index, &wanted),
            Some(ControlFault::PolicyExists)
        )
    );
    let mut index = mounted_again(alloc, index)?;
    assert!(rt; is_done(&mut index, &Command::DropPolicy(name(alloc, "p")?)));
    assert_eq!(rt; (index.entries(), index.starved()), (1, 0));
    Ok(())
}

// An identifier is given once, also after a mounting.
#[test]
fn identifiers_are_new(rt: HostRuntime) -> Result<(), Fail> {
    let alloc = rt.alloc();
    let mut index = fresh(alloc)?;
    add_policy(alloc, &mut index, "p")?;
    let Ok((id, _)) = begun(&mut index, Some(name(alloc, "p")?), None) else {
        return Err(Fail::from("begin"));
    };
    assert_eq!(rt; id, FIRST);
    let mut index = mounted_again(alloc, index)?;
    let Ok((id, _)) = begun(&mut index, Some(name(alloc, "p")?), None) else {
        return Err(Fail::from("begin again"));
    };
    assert_eq!(rt; id, SECOND);
    assert!(rt; matches!(begun(&mut index, None, None), Err(ControlFault::NoRule)));
    Ok(())
}

// A resource is dropped once it has no metric.
#[test]
fn resources_in_use_stay(rt: HostRuntime) -> Result<(), Fail> {
    let alloc = rt.alloc();
    let mut index = fresh(alloc)?;
    add_policy(alloc, &mut index, "p")?;
    assert!(rt; apply(&mut index, &Command::AddResource(7)).is_ok());
    assert!(rt; matches!(begun(&mut index, Some(name(alloc, "p")?), None), Ok(_)));
    assert!(rt; add_metric(&mut index, &doc(alloc, FIRST)?)?);
    let in_use = refused(&mut index, &Command::DropResource(7));
    assert!(rt; matches!(in_use, Some(ControlFault::ResourceInUse)));
    assert!(rt; is_done(&mut index, &Command::DropMetric(FIRST)));
    assert!(rt; is_done(&mut index, &Command::DropResource(7)));
    Ok(())
}

// A policy in use stays, and of two rules the one whose pattern has more letters before its first star.
#[test]
fn policies_in_use_stay(rt: HostRuntime) -> Result<(), Fail> {
    let alloc = rt.alloc();
    let mut index = fresh(alloc)?;
    add_policy(alloc, &mut index, "p")?;
    add_policy(alloc, &mut index, "q")?;
    add_rule(alloc, &mut index, "a", "disk.*", "q")?;
    add_rule(alloc, &mut index, "b", "disk.io.*", "p")?;
    let Ok((_, got)) = begun(&mut index, None, Some(name(alloc, "disk.io.rate")?)) else {
        return Err(Fail::from("begin"));
    };
    assert!(rt; got.name().equals(&name(alloc, "p")?));
    let in_use = refused(&mut index, &Command::DropPolicy(name(alloc, "p")?));
    assert!(rt; matches!(in_use, Some(ControlFault::PolicyInUse)));
    assert!(rt; is_done(&mut index, &Command::DropRule(name(alloc, "b")?)));
    assert!(rt; is_done(&mut index, &Command::DropPolicy(name(alloc, "p")?)));
    Ok(())
}

// Whichever call of the first disk fails, the next command mounts again, and finds the policy or adds it.
#[test]
fn a_failed_call_is_mended(rt: HostRuntime) -> Result<(), Fail> {
    let alloc = rt.alloc();
    let mut failed = false;
    for at in 0..16_u64 {
        let failing = MemDisk::new(alloc, Vec::new(alloc), vec![in alloc; at]?);
        let Ok(mut index) = Index::create(alloc, failing, disk(alloc), 1, 1) else {
            continue;
        };
        let wanted = Command::AddPolicy(policy(alloc, "p")?);
        let tried = apply(&mut index, &wanted);
        assert!(rt; matches!(tried, Ok(_) | Err(ControlFault::DiskFault(_))));
        assert_eq!(rt; index.is_broken(), tried.is_err());
        failed = failed || tried.is_err();
        let again = apply(&mut index, &wanted);
        assert!(rt; matches!(again, Ok(_) | Err(ControlFault::PolicyExists)));
        assert!(rt; !index.is_broken());
    }
    assert!(rt; failed);
    Ok(())
}

// A disk that fails every call keeps the index broken until it works again.
#[test]
fn a_broken_index_is_mounted_once_its_disk_works(rt: HostRuntime) -> Result<(), Fail> {
    let alloc = rt.alloc();
    let mut index = fresh(alloc)?;
    index.fuse(0, 0);
    let wanted = Command::AddPolicy(policy(alloc, "p")?);
    assert!(rt;
        matches!(
            refused(&mut index, &wanted),
            Some(ControlFault::DiskFault(_))
        )
    );
    assert!(rt;
        matches!(
            refused(&mut index, &wanted),
            Some(ControlFault::DiskFault(_))
        )
    );
    assert!(rt; index.is_broken());
    index.fuse(0, 100);
    assert!(rt; apply(&mut index, &wanted).is_ok());
    assert_eq!(rt; (index.is_broken(), index.entries()), (false, 4));
    Ok(())
}

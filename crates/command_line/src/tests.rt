// Words and statuses worked by hand.
use crate::{Status, disk_plan};
use std::alloc::Global;
use std::test::Fail;

/// The words of a line, between its spaces.
fn words_of(alloc: Global, line: &str) -> Result<Vec<String>, Fail> {
    let mut words = Vec::new(alloc);
    for word in line.split(' ') {
        words.push(String::from_str(alloc, word)?)?;
    }
    Ok(words)
}

#[test]
fn plans_have_their_disks(rt: HostRuntime) -> Result<(), Fail> {
    let cases = [
        ("replay --memory --sacks=1", true, 7),
        ("replay --sacks 1 --memory", true, 7),
        ("replay-http --store d", false, 22),
        (
            "create --number 4294967295 --store d --sacks=64",
            false,
            322,
        ),
        ("check --sacks=2 --store=d", false, 12),
        ("load --seed 7 --count 1000 --sacks 4", true, 22),
        ("drill --count=20000 --seed 18446744073709551615", true, 0),
        (
            "serve --memory --conns 64 --listen a:1 --workers=16",
            true,
            22,
        ),
    ];
    for (line, memory, disks) in cases {
        let words = words_of(rt.alloc(), line)?;
        let plan = disk_plan(rt.alloc(), &words).ok().ok_or("a plan")?;
        assert_eq!(rt; plan.memory, memory, "{line}");
        assert_eq!(rt; plan.names.items().len(), disks, "{line}");
    }
    Ok(())
}

#[test]
fn a_sack_has_named_disks(rt: HostRuntime) -> Result<(), Fail> {
    let names = [
        "a/b/index.a",
        "a/b/index.b",
        "a/b/sack-0.in.a",
        "a/b/sack-0.in.b",
        "a/b/sack-0.shelf.a",
        "a/b/sack-0.shelf.b",
        "a/b/sack-0.blocks",
    ];
    let words = words_of(rt.alloc(), "check --store a/b --sacks=1")?;
    let plan = disk_plan(rt.alloc(), &words).ok().ok_or("a plan")?;
    for (name, expected) in plan.names.items().iter().zip(names) {
        assert_eq!(rt; name.as_str(), expected);
    }
    Ok(())
}

#[test]
fn statuses_have_their_lines(rt: HostRuntime) -> Result<(), Fail> {
    let mut out = Vec::new(rt.alloc());
    let damaged = Status::Damaged { disk: 3, at: 41 };
    damaged.write_line(&mut out)?;
    Status::Done.write_line(&mut out)?;
    Status::TooMuch.write_line(&mut out)?;
    let lines = b"gnocchi: damaged 3 at 41\ngnocchi: too much input\n";
    assert_eq!(rt; out.as_slice(), lines.as_slice());
    Ok(())
}

// Runs over disks in memory.
use crate::run;
use command_line::Status;
use gno_disk::MemDisk;
use gno_io::{MemSink, MemSource};
use std::alloc::Global;
use std::test::Fail;

// Disks that hold nothing.
fn fresh(alloc: Global, count: usize) -> Result<Vec<MemDisk>, Fail> {
    let mut disks = Vec::with_capacity(alloc, count)?;
    for _ in 0..count {
        disks.push(MemDisk::new(alloc, Vec::new(alloc), Vec::new(alloc)))?;
    }
    Ok(disks)
}

// The status of a run, and what was written.
fn over(
    alloc: Global,
    texts: &[&str],
    input: &str,
    disks: &mut Vec<MemDisk>,
) -> Result<(Status, String), Fail> {
    let mut words = Vec::new(alloc);
    for text in texts {
        words.push(text.to_string(alloc)?)?;
    }
    let mut source = MemSource::new(input.as_bytes().to_vec(alloc)?, Vec::new(alloc));
    let mut sink = MemSink::new(alloc, Vec::new(alloc));
    let status = run(alloc, &words, &mut source, &mut sink, disks);
    Ok((status, String::from_utf8(sink.bytes().to_vec(alloc)?)?))
}

#[test]
fn a_store_is_made_once_and_counted(rt: HostRuntime) -> Result<(), Fail> {
    let alloc = rt.alloc();
    let mut disks = fresh(alloc, 22)?;
    let (status, written) = over(alloc, &["create", "--store", "d"], "", &mut disks)?;
    assert_eq!(rt; status, Status::Done);
    assert_eq!(rt; written.as_str(), "created\n");
    let (status, written) = over(alloc, &["create", "--store=d"], "", &mut disks)?;
    assert_eq!(rt; status, Status::Exists);
    assert_eq!(rt; written.as_str(), "");
    let (status, written) = over(alloc, &["check", "--store", "d"], "", &mut disks)?;
    assert_eq!(rt; status, Status::Done);
    assert_eq!(rt; written.as_str(), "sacks 4 metrics 0 pending 0\n");
    disks.truncate(12);
    let (status, _) = over(
        alloc,
        &["check", "--store", "d", "--sacks", "2"],
        "",
        &mut disks,
    )?;
    assert_eq!(rt; status, Status::Damaged { disk: 0, at: 0 });
    Ok(())
}

#[test]
fn other_words_are_faulty_use(rt: HostRuntime) -> Result<(), Fail> {
    let alloc = rt.alloc();
    let rows: [(&[&str], usize); 6] = [
        (&["create", "--store", "d", "--sacks", "1"], 8),
        (&["check", "--memory", "--sacks", "1"], 7),
        (&["load", "--seed", "7", "--count", "9", "--sacks", "1"], 7),
        (&["serve", "--memory", "--sacks", "1"], 7),
        (&["replay", "--"], 7),
        (&[], 7),
    ];
    for (texts, count) in rows {
        let mut disks = fresh(alloc, count)?;
        let (status, written) = over(alloc, texts, "WORK\n", &mut disks)?;
        assert_eq!(rt; status, Status::Usage);
        assert_eq!(rt; written.as_str(), "");
        assert_eq!(rt; disks.len(), count);
    }
    Ok(())
}

#[test]
fn an_input_is_answered(rt: HostRuntime) -> Result<(), Fail> {
    let alloc = rt.alloc();
    let script: &[&str] = &["replay", "--memory", "--sacks=1"];
    let turned: &[&str] = &["replay", "--sacks", "1", "--memory"];
    let connection: &[&str] = &["replay-http", "--memory", "--sacks", "1"];
    let rows = [
        (script, "WORK\n", Status::Done, "200 {\"jobs\":0}\n"),
        (turned, "WORK", Status::Input, ""),
        (
            connection,
            "GET /v1/metric HTTP/1.1\r\nHost: localhost:8041\r\n\r\n",
            Status::Done,
            "HTTP/1.1 200 OK\r\nContent-Type: application/json\r\nContent-Length: 2\r\n\r\n[]",
        ),
        (connection, "GET /v1", Status::Input, ""),
    ];
    for (texts, input, wanted, output) in rows {
        let mut disks = fresh(alloc, 7)?;
        let (status, written) = over(alloc, texts, input, &mut disks)?;
        assert_eq!(rt; status, wanted);
        assert_eq!(rt; written.as_str(), output);
        assert_eq!(rt; disks.len(), 7);
    }
    Ok(())
}

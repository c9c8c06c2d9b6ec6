//! The command of the store: reads its words, and runs them over the disks of their plan.
#![tactic(auto)]

mod folder;

use crate::folder::open_all;
use command_line::{Plan, PlanFault, Status, disk_plan};
use gno_disk::{Disk, MemDisk};
use gno_io::{StdSink, StdSource};
use gnocchi_run::run;
use std::alloc::{AllocError, Global};
use std::process::ExitCode;
use std::{env, io};

/// So many empty disks in memory.
fn in_memory(alloc: Global, count: usize) -> Result<Vec<MemDisk>, AllocError> {
    let mut disks = Vec::with_capacity(alloc, count)?;
    for _ in 0..count {
        let disk = MemDisk::new(alloc, Vec::new(alloc), Vec::new(alloc));
        if disks.push(disk).is_err() {
            return Err(AllocError);
        }
    }
    Ok(disks)
}

/// Runs the words over standard input and output and these disks.
fn run_over<D: Disk + Drop>(
    rt: &HostRuntime,
    alloc: Global,
    words: &[String],
    disks: Vec<D>,
) -> Status {
    let mut disks = disks;
    let mut source = StdSource::new(rt.reader());
    let mut sink = StdSink::new(io::writer(rt));
    run(alloc, words, &mut source, &mut sink, &mut disks)
}

/// Runs the words over the disks of their plan.
fn run_on(rt: &HostRuntime, alloc: Global, words: &[String], plan: &Plan) -> Status {
    if plan.memory {
        match in_memory(alloc, plan.names.items().len()) {
            Ok(disks) => run_over(rt, alloc, words, disks),
            Err(_) => Status::Memory,
        }
    } else {
        let is_new = words.first().is_some_and(|word| word.as_str() == "create");
        match open_all(rt, alloc, plan.names.items(), is_new) {
            Ok(disks) => run_over(rt, alloc, words, disks),
            Err(_) => Status::Disk,
        }
    }
}

/// Does what the words of the command ask.
fn start(rt: &HostRuntime) -> Status {
    let alloc = rt.alloc();
    let Ok(words) = env::args(rt) else {
        return Status::Usage;
    };
    let Ok(words) = words.skip(1).collect::<Vec<String>>(alloc) else {
        return Status::Memory;
    };
    match disk_plan(alloc, &words) {
        Ok(plan) => run_on(rt, alloc, &words, &plan),
        Err(PlanFault::Usage) => Status::Usage,
        Err(PlanFault::Memory) => Status::Memory,
    }
}

fn main(rt: HostRuntime) -> ExitCode {
    let status = start(&rt);
    let mut line = Vec::new(rt.alloc());
    if status.write_line(&mut line).is_ok() {
        if let Ok(text) = String::from_utf8(line) {
            let _ = eprint!(rt; "{text}");
        }
    }
    ExitCode::from(status.number())
}

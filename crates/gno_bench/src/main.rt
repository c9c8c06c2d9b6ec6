//! Measures what layers of the store cost. It prints what was computed, and on standard error how
//! long it took.
#![tactic(auto)]

ghost use Rattle.std.specs.Prelude.{◌≡◌, ◌≤◌, true, length};

mod batches;
mod blocks;
mod bodies;
mod draw;
mod line;
mod outcome;
mod policies;
mod records;
mod rows;
mod series;
mod stamps;
mod stop;
mod timing;
mod values;
mod words;

use crate::line::Line;
use crate::stop::Stop;
use crate::words::{Job, Part, job_of};
use std::process::ExitCode;
use std::{env, io};

/// Measures a part.
fn measure(rt: &HostRuntime, job: Job, words: &[String]) -> Result<Vec<Line>, Stop>
    requires size { job.size ≤ 50000 }
    requires folder { job.in_folder ≡ true → length words.now ≡ 4 }
{
    match job.part {
        Part::Values => values::run(rt, job.size, job.rounds),
        Part::Stamps => stamps::run(rt, job.size, job.rounds),
        Part::Print => rows::run(rt, job.size, job.rounds),
        Part::Policies => policies::run(rt, job.size, job.rounds),
        Part::Log if job.in_folder => records::run_in_folder(rt, &words[3], job.size, job.rounds),
        Part::Log => records::run_in_memory(rt, job.size, job.rounds),
        Part::Aggregate => series::run(rt, job.size, job.rounds),
        Part::Json => bodies::run(rt, job.size, job.rounds),
        Part::Codec => blocks::run(rt, job.size, job.rounds),
        Part::All => measure_all(rt, job.size, job.rounds),
    }
}

/// Measures all parts, the log in memory.
fn measure_all(rt: &HostRuntime, size: u64, rounds: u64) -> Result<Vec<Line>, Stop>
    requires { size ≤ 50000 }
{
    let mut lines = values::run(rt, size, rounds)?;
    let runs = [
        stamps::run(rt, size, rounds)?,
        rows::run(rt, size, rounds)?,
        policies::run(rt, size, rounds)?,
        series::run(rt, size, rounds)?,
        bodies::run(rt, size, rounds)?,
        records::run_in_memory(rt, size, rounds)?,
        blocks::run(rt, size, rounds)?,
    ];
    for more in &runs {
        lines.extend_from_slice(more.as_slice())?;
    }
    Ok(lines)
}

/// The words of this run.
fn words_of(rt: &HostRuntime) -> Option<Vec<String>> {
    let words = env::args(rt).ok()?;
    words.skip(1).collect::<Vec<String>>(rt.alloc()).ok()
}

fn main(rt: HostRuntime) -> ExitCode {
    let Some(words) = words_of(&rt) else {
        return ended(&rt, "memory", 1);
    };
    let Some(job) = job_of(&words) else {
        return ended(&rt, "usage", 2);
    };
    match measure(&rt, job, &words) {
        Ok(lines) => shown(print_all(&rt, lines.as_slice())),
        Err(stop) => ended(&rt, stop.text(), 1),
    }
}

/// Tells on standard error why there is nothing to print.
fn ended(rt: &HostRuntime, why: &str, status: u8) -> ExitCode {
    let _ = eprintln!(rt; "gno_bench: {why}");
    ExitCode::from(status)
}

fn shown(done: io::Result<()>) -> ExitCode {
    match done {
        Ok(()) => ExitCode::from(0),
        Err(_) => ExitCode::from(1),
    }
}

/// Prints lines: what was computed, and on standard error how long it took.
fn print_all(rt: &HostRuntime, lines: &[Line]) -> io::Result<()> {
    for line in lines {
        print_outcome(rt, line)?;
        print_times(rt, line)?;
    }
    Ok(())
}

fn print_outcome(rt: &HostRuntime, line: &Line) -> io::Result<()> {
    let name = line.name;
    let count = line.outcome.count;
    let sum = line.outcome.sum;
    println!(rt; "{name} count {count} sum {sum}")
}

/// Nanoseconds for each thing and for each byte, with a copy of as many bytes beside it.
fn print_times(rt: &HostRuntime, line: &Line) -> io::Result<()> {
    let name = line.name;
    let units = line.units;
    let bytes = line.bytes;
    let nanos = line.nanos;
    let copy = line.copy;
    eprint!(rt; "{name} units {units} bytes {bytes} nanos {nanos}")?;
    print_rate(rt, "per_unit", nanos, units)?;
    print_rate(rt, "per_byte", nanos, bytes)?;
    print_rate(rt, "copy_per_byte", copy, bytes)?;
    eprintln!(rt; "")
}

/// Nanoseconds for each of so many, with three decimals.
fn print_rate(rt: &HostRuntime, name: &str, nanos: u64, of: u64) -> io::Result<()> {
    let thousandths = nanos.saturating_mul(1_000) / of.max(1);
    let whole = thousandths / 1_000;
    let rest = thousandths % 1_000;
    eprint!(rt; " {name} {whole}.{rest:03}")
}

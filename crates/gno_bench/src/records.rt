// Making, mounting and appending to a log.
ghost use Rattle.std.specs.Prelude.{◌≡◌, ◌≤◌, ◌+◌, ℕ, [], ◌∷◌, false, All, IfOk, length};
ghost use Rattle.gno_bench.specs.declared.outcome.Outcome.{Outcome};
ghost use Rattle.gno_bench.specs.Rounds.{IsRoundOf};
ghost use Rattle.gno_bench.specs.Told.{outcomes_of};

use crate::draw::Draws;
use crate::line::{Line, line_of};
use crate::outcome::Outcome;
use crate::stop::Stop;
use crate::timing::{middle, now, since};
use gate_log::Log;
use gno_disk::{Disk, FileDisk, MemDisk};
use std::alloc::Global;
use std::fs::OpenOptions;

const SEED: u64 = 7;

const APPENDS: u64 = 64;

/// What one round gave, and the nanoseconds that its three steps took.
#[derive(Clone, Copy)]
pub struct Round {
    pub made: Outcome,
    pub mounted: Outcome,
    pub appended: Outcome,
    pub make: u64,
    pub mount: u64,
    pub append: u64,
}

/// The part `log` over disks in memory.
pub fn run_in_memory(rt: &HostRuntime, size: u64, rounds: u64) -> Result<Vec<Line>, Stop>
    requires { size ≤ 50000 }
    ensures { IfOk result (λ lines. (made : Outcome) × (mounted : Outcome) × (appended : Outcome)
        × (made.count ≡ size) × (mounted.count ≡ size) × (appended.count ≡ size + 64)
        × (outcomes_of lines.items ≡ made ∷ mounted ∷ appended ∷ [])) }
{
    let alloc = rt.alloc();
    let bodies = bodies_of(alloc, size)?;
    let mut rows = Vec::new(alloc);
    for _ in 0..rounds {
        let disk = MemDisk::new(alloc, Vec::new(alloc), Vec::new(alloc));
        rows.push(go_round(rt, disk, bodies.as_slice())?)?;
    }
    lines_of(rt, size, rounds, rows.as_slice())
}

/// The part `log` over the file `log` of a folder: in each round a log of so many records is made,
/// mounted, and 64 records are appended.
pub fn run_in_folder(
    rt: &HostRuntime,
    folder: &str,
    size: u64,
    rounds: u64,
) -> Result<Vec<Line>, Stop>
    requires { size ≤ 50000 }
    ensures { IfOk result (λ lines. (made : Outcome) × (mounted : Outcome) × (appended : Outcome)
        × (made.count ≡ size) × (mounted.count ≡ size) × (appended.count ≡ size + 64)
        × (outcomes_of lines.items ≡ made ∷ mounted ∷ appended ∷ [])) }
{
    let alloc = rt.alloc();
    let bodies = bodies_of(alloc, size)?;
    let mut rows = Vec::new(alloc);
    for _ in 0..rounds {
        let disk = file_in(rt, folder)?;
        rows.push(go_round(rt, disk, bodies.as_slice())?)?;
    }
    lines_of(rt, size, rounds, rows.as_slice())
}

fn file_in(rt: &HostRuntime, folder: &str) -> Result<FileDisk, Stop> {
    let path = format!(in rt.alloc(); "{folder}/log")?;
    let opened = OpenOptions::new()
        .read(true)
        .write(true)
        .create(true)
        .open(rt, path.as_str());
    match opened {
        Ok(file) => FileDisk::new(file).map_err(|_| Stop::Disk),
        Err(_) => Err(Stop::Disk),
    }
}

/// So many records of 64 to 191 bytes.
fn bodies_of(alloc: Global, size: u64) -> Result<Vec<Vec<u8>>, Stop>
    ensures { IfOk result (λ bodies. length bodies.items ≡ size) }
{
    let mut draws = Draws::new(SEED);
    let mut bodies = Vec::new(alloc);
    for _ in 0..size {
        let drawn = draws.next();
        let byte = (drawn % 251) as u8;
        let len = 64 + (drawn / 256 % 128) as usize;
        bodies.push(vec![in alloc; byte; len]?)?;
    }
    Ok(bodies)
}

/// Makes a log of these records, mounts it, and appends more. Each step has to leave as many records
/// as it should.
fn go_round<D: Disk + Drop>(rt: &HostRuntime, disk: D, bodies: &[Vec<u8>]) -> Result<Round, Stop>
    ensures { IfOk result (IsRoundOf (length bodies.now)) }
{
    let (disk, made, make) = make(rt, disk, bodies)?;
    let (log, mounted, mount) = mount(rt, disk)?;
    if mounted.count != made.count {
        return Err(Stop::Refused);
    }
    let (appended, append) = append(rt, log, bodies)?;
    Ok(Round {
        made,
        mounted,
        appended,
        make,
        mount,
        append,
    })
}

fn make<D: Disk + Drop>(
    rt: &HostRuntime,
    disk: D,
    bodies: &[Vec<u8>],
) -> Result<(D, Outcome, u64), Stop>
    ensures { IfOk result (λ made. made.1.count ≡ length bodies.now) }
{
    let Some((first, rest)) = bodies.split_first() else {
        return Err(Stop::Refused);
    };
    let start = now(rt)?;
    let made = Log::create_with(rt.alloc(), disk, first, rest);
    let nanos = since(rt, start)?;
    match made {
        Ok(log) => {
            let count = log.count();
            let disk = log.into_disk();
            let sum = disk.len();
            Ok((disk, Outcome { count, sum }, nanos))
        }
        Err(_) => Err(Stop::Disk),
    }
}

fn mount<D: Disk + Drop>(rt: &HostRuntime, disk: D) -> Result<(Log<D>, Outcome, u64), Stop>
    ensures whole { IfOk result (λ mounted. mounted.0.broken ≡ false) }
    ensures count { IfOk result (λ mounted. mounted.1.count ≡ mounted.0.count) }
{
    let sum = disk.len();
    let start = now(rt)?;
    let mounted = Log::mount(rt.alloc(), disk);
    let nanos = since(rt, start)?;
    match mounted {
        Ok(log) => {
            let count = log.count();
            Ok((log, Outcome { count, sum }, nanos))
        }
        Err(_) => Err(Stop::Disk),
    }
}

fn append<D: Disk + Drop>(
    rt: &HostRuntime,
    log: Log<D>,
    bodies: &[Vec<u8>],
) -> Result<(Outcome, u64), Stop>
    requires { log.broken ≡ false }
    ensures { IfOk result (λ appended. appended.0.count ≡ log.count + 64) }
{
    let Some(body) = bodies.first() else {
        return Err(Stop::Refused);
    };
    let mut log = log;
    let start = now(rt)?;
    for _ in 0..APPENDS {
        if log.append(body).is_err() {
            return Err(Stop::Disk);
        }
    }
    let nanos = since(rt, start)?;
    let count = log.count();
    let sum = log.into_disk().len();
    Ok((Outcome { count, sum }, nanos))
}

/// The lines of rounds over so many records.
fn lines_of(rt: &HostRuntime, size: u64, rounds: u64, rows: &[Round]) -> Result<Vec<Line>, Stop>
    requires { All (IsRoundOf size) rows.now }
    ensures { IfOk result (λ lines. (made : Outcome) × (mounted : Outcome) × (appended : Outcome)
        × (made.count ≡ size) × (mounted.count ≡ size) × (appended.count ≡ size + 64)
        × (outcomes_of lines.items ≡ made ∷ mounted ∷ appended ∷ [])) }
{
    let alloc = rt.alloc();
    let Some(row) = rows.first() else {
        return Err(Stop::Refused);
    };
    let make = median(alloc, rows, |row| row.make)?;
    let mount = median(alloc, rows, |row| row.mount)?;
    let append = median(alloc, rows, |row| row.append)?;
    let made = row.made;
    let grown = row.appended.sum.saturating_sub(row.mounted.sum);
    let mut lines = Vec::new(alloc);
    lines.push(line_of(rt, rounds, "log_make", made, made.count, made.sum, make)?)?;
    let mounted = row.mounted;
    lines.push(line_of(
        rt,
        rounds,
        "log_mount",
        mounted,
        mounted.count,
        mounted.sum,
        mount,
    )?)?;
    lines.push(line_of(
        rt,
        rounds,
        "log_append",
        row.appended,
        APPENDS,
        grown,
        append,
    )?)?;
    Ok(lines)
}

/// The one in the middle of a column.
fn median<F: Fn(&Round) -> u64>(alloc: Global, rows: &[Round], column: F) -> Result<u64, Stop>
    requires { F.IsAlwaysCallable column }
{
    let mut taken = Vec::new(alloc);
    for row in rows {
        taken.push(column(row))?;
    }
    taken.sort_unstable();
    Ok(middle(taken.as_slice()))
}

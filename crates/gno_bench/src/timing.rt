// How long something takes. No clause says that.
ghost use Rattle.std.specs.Prelude.{◌<◌, IfOk, Ok, length};

use crate::stop::Stop;
use std::time::Instant;

/// What a piece of work gave the last time, and the median of how long it took, in nanoseconds.
#[derive(Drop)]
pub struct Measured<T> {
    pub value: T,
    pub nanos: u64,
}

/// Does a piece of work so many times, at least once.
pub fn timed<T: Drop, F: Fn() -> Result<T, Stop>>(
    rt: &HostRuntime,
    rounds: u64,
    work: F,
) -> Result<Measured<T>, Stop>
    requires { F.IsAlwaysCallable work }
    ensures { IfOk result (λ done. F.post work (Ok done.value)) }
{
    let mut taken = Vec::new(rt.alloc());
    let first = once(rt, &work)?;
    taken.push(first.nanos)?;
    let mut value = first.value;
    for _ in 1..rounds {
        let again = once(rt, &work)?;
        taken.push(again.nanos)?;
        value = again.value;
    }
    taken.sort_unstable();
    let nanos = middle(taken.as_slice());
    Ok(Measured { value, nanos })
}

/// Does a piece of work once.
fn once<T: Drop, F: Fn() -> Result<T, Stop>>(
    rt: &HostRuntime,
    work: &F,
) -> Result<Measured<T>, Stop>
    requires { F.IsAlwaysCallable work.now }
    ensures { IfOk result (λ done. F.post work.now (Ok done.value)) }
{
    let start = now(rt)?;
    let value = work()?;
    let nanos = since(rt, start)?;
    Ok(Measured { value, nanos })
}

/// The time now.
pub fn now(rt: &HostRuntime) -> Result<Instant, Stop> {
    Instant::now(rt).map_err(|_| Stop::Clock)
}

/// The nanoseconds since a time, at most 2^64 - 1.
pub fn since(rt: &HostRuntime, start: Instant) -> Result<u64, Stop> {
    match start.elapsed(rt) {
        Ok(taken) => Ok(u64::try_from(taken.as_nanos()).unwrap_or(u64::MAX)),
        Err(_) => Err(Stop::Clock),
    }
}

/// The one in the middle, 0 where there is none.
pub fn middle(sorted: &[u64]) -> u64 {
    sorted.get(sorted.len() / 2).copied().unwrap_or(0)
}

/// How long it takes to copy so many bytes.
pub fn copying(rt: &HostRuntime, rounds: u64, bytes: u64) -> Result<u64, Stop> {
    let source = vec![in rt.alloc(); 7u8; bytes as usize]?;
    let mut target = vec![in rt.alloc(); 0u8; bytes as usize]?;
    let mut taken = Vec::new(rt.alloc());
    for _ in 0..rounds {
        let start = now(rt)?;
        copy(source.as_slice(), &mut target);
        taken.push(since(rt, start)?)?;
    }
    if target.as_slice() != source.as_slice() {
        return Err(Stop::Refused);
    }
    taken.sort_unstable();
    Ok(middle(taken.as_slice()))
}

#[inline(never)]
fn copy(source: &[u8], target: &mut Vec<u8>) {
    target.clear();
    let _ = target.extend_from_slice(source);
}

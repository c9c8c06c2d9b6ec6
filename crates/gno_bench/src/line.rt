// What is told of one kind of work.
ghost use Rattle.std.specs.Prelude.{◌≡◌, IfOk};

use crate::outcome::Outcome;
use crate::stop::Stop;
use crate::timing::copying;

/// What one kind of work gave, over how many things and bytes, and the nanoseconds that it took.
/// `copy` is how long a copy of as many bytes took.
#[derive(Clone, Copy, Debug)]
pub struct Line {
    pub name: &'static str,
    pub outcome: Outcome,
    pub units: u64,
    pub bytes: u64,
    pub nanos: u64,
    pub copy: u64,
}

/// The line of some work.
pub fn line_of(
    rt: &HostRuntime,
    rounds: u64,
    name: &'static str,
    outcome: Outcome,
    units: u64,
    bytes: u64,
    nanos: u64,
) -> Result<Line, Stop>
    ensures { IfOk result (λ line. line.outcome ≡ outcome) }
{
    let copy = copying(rt, rounds, bytes)?;
    Ok(Line {
        name,
        outcome,
        units,
        bytes,
        nanos,
        copy,
    })
}

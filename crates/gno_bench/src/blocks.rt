// Splits are read from blocks, and written to them again.
ghost use Rattle.std.specs.Prelude.{◌≡◌, ◌≤◌, ◌<◌, ◌+◌, ◌*◌, ◌^◌, IfOk};
ghost use Rattle.gno_codec.specs.Blocks.{IsSplit};

use crate::draw::Draws;
use crate::line::{Line, line_of};
use crate::outcome::Outcome;
use crate::stop::Stop;
use crate::timing::timed;
use gno_codec::{ReadFault, read_split, write_split};
use gno_num::{Memory, Span, Stamp};
use series_model::{Point, Split};
use std::alloc::Global;
use std::marker::Model;

const SEED: u64 = 6;

const MINUTE: u64 = 60_000_000_000;

const PER_SPLIT: u64 = 3_600;

const MOST_VALUES: u64 = 12;

const WORD: u128 = 1 << 64;

/// Splits that were read.
#[derive(Drop)]
struct Splits {
    items: Vec<Split>,
}

impl Model for Splits {
    ghost use Rattle.std.specs.Prelude.{All, List, ◌*◌, ◌^◌};
    ghost use Rattle.series_model.specs.declared.point.Split.{Split};
    ghost use Rattle.gno_codec.specs.Blocks.{IsSplit};

    ghost Value = { List Split };

    ghost view = { λ s. s.items.items };

    ghost invariant = { λ s. All (IsSplit (60 * 10 ^ 9)) s.items.items };
}

/// The part `codec`: splits of 3,600 points each, so many points together, are read from their blocks
/// and written to them again.
pub fn run(rt: &HostRuntime, size: u64, rounds: u64) -> Result<Vec<Line>, Stop>
    requires { size ≤ 50000 }
{
    let alloc = rt.alloc();
    let blocks = make(alloc, size)?;
    let read = timed(rt, rounds, || read_all(alloc, blocks.as_slice()))?;
    let written = timed(rt, rounds, || Ok(write_all(alloc, &read.value)?))?;
    if written.value.as_slice() != blocks.as_slice() {
        return Err(Stop::Refused);
    }
    let points = points_told(&read.value);
    let text = blocks_told(written.value.as_slice());
    let bytes = text.count;
    let mut lines = Vec::new(alloc);
    lines.push(line_of(rt, rounds, "read_split", points, size, bytes, read.nanos)?)?;
    lines.push(line_of(rt, rounds, "write_split", text, size, bytes, written.nanos)?)?;
    Ok(lines)
}

/// The blocks of so many points, one in each minute from the epoch on.
fn make(alloc: Global, size: u64) -> Result<Vec<Vec<u8>>, Memory>
    requires { size ≤ 50000 }
{
    let mut draws = Draws::new(SEED);
    let mut blocks = Vec::new(alloc);
    for first in (0..size).step_by(PER_SPLIT as usize) {
        let count = (size - first).min(PER_SPLIT);
        blocks.push(block(alloc, &mut draws, count as u16)?)?;
    }
    Ok(blocks)
}

/// A block of so many points, one in each bucket.
fn block(alloc: Global, draws: &mut Draws, count: u16) -> Result<Vec<u8>, Memory> {
    let mut bytes = Vec::new(alloc);
    bytes.extend_from_slice(&count.to_be_bytes())?;
    for position in 0..count {
        let sum = draws.next();
        let values = 1 + draws.next() % MOST_VALUES;
        bytes.extend_from_slice(&position.to_be_bytes())?;
        bytes.extend_from_slice(&(u128::from(sum) * 1_000).to_be_bytes())?;
        bytes.extend_from_slice(&values.to_be_bytes())?;
    }
    Ok(bytes)
}

/// The splits of blocks, the first of them at the epoch.
fn read_all(alloc: Global, blocks: &[Vec<u8>]) -> Result<Splits, Stop> {
    let minute = Span::of_nanos(MINUTE).unwrap();
    let mut items = Vec::new(alloc);
    let mut key = 0u64;
    for block in blocks {
        let at = Stamp::of_nanos(key).ok_or(Stop::Refused)?;
        items.push(read_block(alloc, block.as_slice(), at, minute)?)?;
        key = key.saturating_add(PER_SPLIT * MINUTE);
    }
    Ok(Splits { items })
}

/// The split of a block.
fn read_block(alloc: Global, block: &[u8], key: Stamp, minute: Span) -> Result<Split, Stop>
    ensures { IfOk result (IsSplit minute) }
{
    match read_split(alloc, block, key, minute) {
        Ok(split) => Ok(split),
        Err(ReadFault::Memory) => Err(Stop::Memory),
        Err(ReadFault::Bad { at: _ }) => Err(Stop::Refused),
    }
}

/// The blocks of splits.
fn write_all(alloc: Global, splits: &Splits) -> Result<Vec<Vec<u8>>, Memory> {
    let minute = Span::of_nanos(MINUTE).unwrap();
    let mut blocks = Vec::new(alloc);
    for split in &splits.items {
        blocks.push(write_split(alloc, split, minute)?)?;
    }
    Ok(blocks)
}

/// How many points there are, and the sum of their times and numerators.
fn points_told(splits: &Splits) -> Outcome {
    let mut count = 0u64;
    let mut sum = 0u64;
    for split in &splits.items {
        for point in split.points() {
            count = count.saturating_add(1);
            sum = sum.wrapping_add(number_of(point));
        }
    }
    Outcome { count, sum }
}

/// The number that a point tells, modulo 2^64.
fn number_of(point: &Point) -> u64 {
    let num = point.value.num().unsigned_abs() % WORD;
    point.at.nanos().wrapping_add(num as u64)
}

/// How many bytes there are in blocks, and their sum.
fn blocks_told(blocks: &[Vec<u8>]) -> Outcome {
    let mut count = 0u64;
    let mut sum = 0u64;
    for block in blocks {
        let told = Outcome::of_text(block.as_slice());
        count = count.saturating_add(told.count);
        sum = sum.wrapping_add(told.sum);
    }
    Outcome { count, sum }
}

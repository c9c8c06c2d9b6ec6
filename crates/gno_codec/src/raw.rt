// Chunks of the raw series in blocks.
ghost use Rattle.std.specs.Prelude.{◌≡◌, ◌≢◌, ◌++◌, ℕ, List, All, IfOk, OnOk, None, Ok, Err};
ghost use Rattle.std.specs.List.{flat_map};
ghost use Rattle.series_model.specs.declared.measure.Measure.{Measure};
ghost use Rattle.gno_codec.specs.Incoming.{measure_bytes, IsMeasure};
ghost use Rattle.gno_codec.specs.Blocks.{raw_bytes, IsRising, IsChunk};
ghost use Rattle.gno_codec.specs.Reading.{AnswersAs, Gives, is_above, items_at, last_of};
ghost use Rattle.gno_codec.specs.BlocksReading.{later_time, measure_after, raw_at, raw_of};

use crate::ReadFault;
use crate::incoming::{MEASURE_BYTES, put_measures};
use crate::reading::Reader;
use crate::writing::put_u16;
use gno_num::{Memory, Stamp};
use series_model::Measure;
use std::alloc::Global;

/// The block of a chunk of the raw series.
pub fn write_raw(alloc: Global, points: &[Measure]) -> Result<Vec<u8>, Memory>
    requires { IsRising points.now }
    ensures bytes { IfOk result (λ bytes. bytes.items ≡ raw_bytes points.now) }
    // What was written is a block of a chunk, so it is read again.
    ensures has { OnOk result (IsChunk points.now) }
{
    let mut out = Vec::with_capacity(alloc, 2 + MEASURE_BYTES * points.len())?;
    put_u16(&mut out, points.len() as u16)?;
    put_measures(&mut out, points)?;
    Ok(out)
}

/// The chunk that the bytes of a block spell, all of them. `Bad` comes exactly where they spell
/// none, and gives the place, counted from 0, of the first field that is cut off or out of its
/// range (a time also where it isn't above that of the measure before), or of the first byte behind
/// the chunk.
pub fn read_raw(alloc: Global, bytes: &[u8]) -> Result<Vec<Measure>, ReadFault>
    // What is read is spelled so.
    ensures found { IfOk result (λ points. IsChunk points.items × (bytes.now ≡ raw_bytes points.items)) }
    // What is spelled so is read, unless memory runs out.
    ensures only { (points : List Measure) → IsChunk points → bytes.now ≡ raw_bytes points
        → AnswersAs (λ read. read.items) result (Ok points) }
    // What is refused is spelled by no chunk.
    ensures bad { (at : ℕ) → result ≡ Err (ReadFault.Bad at) → (points : List Measure) → IsChunk points
        → bytes.now ≢ raw_bytes points }
    // Which fault it is.
    ensures exact { AnswersAs (λ read. read.items) result (raw_of bytes.now) }
{
    read_all(alloc, bytes)
}

#[tactic(auto, unfolding(crate::specs::BlocksReading::raw_of, crate::specs::Reading::whole))]
fn read_all(alloc: Global, bytes: &[u8]) -> Result<Vec<Measure>, ReadFault>
    ensures { AnswersAs (λ read. read.items) result (raw_of bytes.now) }
{
    let mut reader = Reader::new(bytes);
    let points = read_points(alloc, &mut reader)?;
    if reader.is_at_end() {
        Ok(points)
    } else {
        Err(ReadFault::Bad { at: reader.at() })
    }
}

#[tactic(auto, unfolding(crate::specs::BlocksReading::raw_at, crate::specs::Reading::then_at))]
fn read_points(alloc: Global, reader: &mut Reader<'_>) -> Result<Vec<Measure>, ReadFault>
    ensures { Gives (λ points. points.items) result reader.new (raw_at reader.old) }
{
    let count = reader.count()?;
    read_so_many_points(alloc, count, reader)
}

fn read_so_many_points(
    alloc: Global,
    count: u16,
    reader: &mut Reader<'_>,
) -> Result<Vec<Measure>, ReadFault>
    ensures { Gives (λ points. points.items) result reader.new (items_at measure_after None count reader.old) }
{
    let mut points = Vec::with_capacity(alloc, reader.room_for(u64::from(count), MEASURE_BYTES))?;
    for _ in 0..count {
        let point = read_point(points.as_slice(), reader)?;
        points.push(point)?;
    }
    Ok(points)
}

#[tactic(auto, unfolding(crate::specs::BlocksReading::measure_after, crate::specs::Reading::then_at, crate::specs::Reading::done))]
fn read_point(before: &[Measure], reader: &mut Reader<'_>) -> Result<Measure, ReadFault>
    ensures { Gives (λ point. point) result reader.new (measure_after (last_of before.now) reader.old) }
{
    let at = read_time(before, reader)?;
    let value = reader.value()?;
    Ok(Measure { at, value })
}

#[tactic(auto, unfolding(crate::specs::BlocksReading::later_time, crate::specs::Reading::tested))]
fn read_time(before: &[Measure], reader: &mut Reader<'_>) -> Result<Stamp, ReadFault>
    ensures { Gives (λ time. time) result reader.new (later_time (last_of before.now) reader.old) }
{
    let at = reader.at();
    let nanos = reader.u64()?;
    match Stamp::of_nanos(nanos) {
        Some(time) if is_later(before, nanos) => Ok(time),
        _ => Err(ReadFault::Bad { at }),
    }
}

// Whether a time is above that of the measure before.
fn is_later(before: &[Measure], nanos: u64) -> bool
    ensures { result ≡ is_above (λ point. point.at) (last_of before.now) nanos }
{
    match before {
        [] => true,
        [.., last] => last.at.nanos() < nanos,
    }
}

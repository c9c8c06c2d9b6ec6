// The records of the incoming log.
ghost use Rattle.std.specs.Prelude.{◌≡◌, ◌≢◌, ◌≤◌, ℕ, ◌-◌, ◌^◌, ◌++◌, length, All, None, IfOk, OnOk, Ok};
ghost use Rattle.std.specs.List.{flat_map};
ghost use Rattle.byteorder.specs.Endian.{big_bytes};
ghost use Rattle.gno_codec.specs.declared.item.IncomingItem.{IncomingItem};
ghost use Rattle.gno_codec.specs.Incoming.{measure_bytes, post_bytes, next_bytes, incoming_bytes, IsMeasure, IsPost, IsIncoming};
ghost use Rattle.gno_codec.specs.Reading.{Answers, Gives, by_kind, items_at};
ghost use Rattle.gno_codec.specs.IncomingReading.{measure_at, post_at, next_at, incoming_kinds, incoming_of};

use crate::reading::Reader;
use crate::writing::{put_u8, put_u32, put_u64, put_u128};
use crate::{IncomingItem, ReadFault};
use byteorder::{BigEndian, ByteOrder};
use gno_num::Memory;
use series_model::{Batch, Measure, MetricId};
use std::alloc::Global;

const POST: u8 = 1;

const NEXT: u8 = 2;

const LAST_POST: u64 = 0x7fff_ffff_ffff_ffff;

const LAST_NEXT: u64 = 0x8000_0000_0000_0000;

// What a post has in front of its measures.
const POST_BYTES: usize = 29;

pub(crate) const MEASURE_BYTES: usize = 16;

const MOST_MEASURES: u32 = 50_000;

/// The record of a post: its number, from 1 to 2^63 - 1, its metric and its measures.
pub fn write_post(
    alloc: Global,
    number: u64,
    metric: MetricId,
    batch: &Batch,
) -> Result<Vec<u8>, Memory>
    ensures bytes { IfOk result (λ bytes. bytes.items ≡ post_bytes number metric.0 batch.now) }
    // What was written of a number in its range is a record, so it is read again.
    ensures has { OnOk result (1 ≤ number → number ≤ 2 ^ 63 - 1 → IsPost number metric.0 batch.now) }
{
    let measures = batch.measures();
    let mut out = Vec::with_capacity(alloc, POST_BYTES + MEASURE_BYTES * measures.len())?;
    put_u8(&mut out, POST)?;
    put_u64(&mut out, number)?;
    put_u128(&mut out, metric.0)?;
    put_u32(&mut out, measures.len() as u32)?;
    put_measures(&mut out, measures)?;
    Ok(out)
}

pub(crate) fn put_measures(out: &mut Vec<u8>, measures: &[Measure]) -> Result<(), Memory>
    ensures bytes { OnOk result (out.new.items ≡ out.old.items ++ flat_map measure_bytes measures.now) }
    ensures is { OnOk result (All IsMeasure measures.now) }
{
    for measure in measures {
        put_measure(out, measure)?;
    }
    Ok(())
}

#[inline(always)]
pub(crate) fn put_measure(out: &mut Vec<u8>, measure: &Measure) -> Result<(), Memory>
    ensures bytes { OnOk result (out.new.items ≡ out.old.items ++ measure_bytes measure.now) }
    ensures is { OnOk result (IsMeasure measure.now) }
{
    let mut bytes = [0; MEASURE_BYTES];
    fill(
        &mut bytes,
        measure.at.nanos(),
        measure.value.units().cast_unsigned(),
    );
    out.extend_from_slice(&bytes)?;
    Ok(())
}

#[inline(always)]
fn fill(bytes: &mut [u8], at: u64, units: u64)
    requires { length bytes.old ≡ 16 }
    ensures { bytes.new ≡ big_bytes 8 at ++ big_bytes 8 units }
{
    BigEndian::write_u64(bytes, at);
    BigEndian::write_u64(&mut bytes[8..], units);
}

/// The record of a next number, from 1 to 2^63.
pub fn write_next(alloc: Global, number: u64) -> Result<Vec<u8>, Memory>
    ensures { IfOk result (λ bytes. bytes.items ≡ next_bytes number) }
{
    let mut out = Vec::new(alloc);
    out.push(NEXT)?;
    put_u64(&mut out, number)?;
    Ok(out)
}

/// The record that the bytes spell, all of them. `Bad` comes exactly where they spell none, and
/// gives the place of the first field that is cut off or out of its range, or of the first byte
/// behind a whole record.
pub fn read_incoming(alloc: Global, bytes: &[u8]) -> Result<IncomingItem, ReadFault>
    // What is read is spelled so.
    ensures found { IfOk result (λ item. IsIncoming item × (bytes.now ≡ incoming_bytes item)) }
    // What is spelled so is read, unless memory runs out.
    ensures only { (item : IncomingItem) → IsIncoming item → bytes.now ≡ incoming_bytes item
        → Answers result (Ok item) }
    // What is refused is spelled by no record.
    ensures bad { (at : ℕ) → result ≡ Err (ReadFault.Bad at) → (item : IncomingItem) → IsIncoming item
        → bytes.now ≢ incoming_bytes item }
    // Which fault it is.
    ensures exact { Answers result (incoming_of bytes.now) }
{
    read_all(alloc, bytes)
}

#[tactic(auto, unfolding(crate::specs::IncomingReading::incoming_of, crate::specs::Reading::whole))]
fn read_all(alloc: Global, bytes: &[u8]) -> Result<IncomingItem, ReadFault>
    ensures { Answers result (incoming_of bytes.now) }
{
    let mut reader = Reader::new(bytes);
    let item = read_item(alloc, &mut reader)?;
    if reader.is_at_end() {
        Ok(item)
    } else {
        Err(ReadFault::Bad { at: reader.at() })
    }
}

#[tactic(auto, unfolding(crate::specs::Reading::by_kind, crate::specs::Reading::standing_for, crate::specs::Reading::then_at, crate::specs::IncomingReading::incoming_kinds))]
fn read_item(alloc: Global, reader: &mut Reader<'_>) -> Result<IncomingItem, ReadFault>
    ensures { Gives (λ item. item) result reader.new (by_kind incoming_kinds reader.old) }
{
    let at = reader.at();
    match reader.u8()? {
        POST => read_post(alloc, reader),
        NEXT => read_next(reader),
        _ => Err(ReadFault::Bad { at }),
    }
}

#[tactic(auto, unfolding(crate::specs::IncomingReading::post_at, crate::specs::Reading::then_at, crate::specs::Reading::done))]
fn read_post(alloc: Global, reader: &mut Reader<'_>) -> Result<IncomingItem, ReadFault>
    ensures { Gives (λ item. item) result reader.new (post_at reader.old) }
{
    let number = reader.u64_within(1, LAST_POST)?;
    let metric = MetricId(reader.u128()?);
    let count = reader.u32_to(MOST_MEASURES)?;
    let measures = read_measures(alloc, count, reader)?;
    let Ok(batch) = Batch::make(measures) else {
        unreachable!();
    };
    Ok(IncomingItem::Post {
        number,
        metric,
        batch,
    })
}

#[tactic(auto, unfolding(crate::specs::IncomingReading::next_at, crate::specs::Reading::then_at, crate::specs::Reading::done))]
fn read_next(reader: &mut Reader<'_>) -> Result<IncomingItem, ReadFault>
    ensures { Gives (λ item. item) result reader.new (next_at reader.old) }
{
    let number = reader.u64_within(1, LAST_NEXT)?;
    Ok(IncomingItem::Next { number })
}

fn read_measures(
    alloc: Global,
    count: u32,
    reader: &mut Reader<'_>,
) -> Result<Vec<Measure>, ReadFault>
    ensures read { Gives (λ measures. measures.items) result reader.new
        (items_at (λ _. measure_at) None count reader.old) }
    ensures count { IfOk result (λ measures. length measures.items ≡ count) }
{
    let room = reader.room_for(u64::from(count), MEASURE_BYTES);
    let mut measures = Vec::with_capacity(alloc, room)?;
    for _ in 0..count {
        let measure = read_measure(reader)?;
        measures.push(measure)?;
    }
    Ok(measures)
}

#[tactic(auto, unfolding(crate::specs::IncomingReading::measure_at, crate::specs::Reading::then_at, crate::specs::Reading::done))]
#[inline(always)]
pub(crate) fn read_measure(reader: &mut Reader<'_>) -> Result<Measure, ReadFault>
    ensures { Gives (λ measure. measure) result reader.new (measure_at reader.old) }
{
    let at = reader.stamp()?;
    let value = reader.value()?;
    Ok(Measure { at, value })
}

// Splits in blocks.
ghost use Rattle.std.specs.Prelude.{◌≡◌, ◌≢◌, ◌<◌, ◌*◌, ◌/◌, ◌%◌, ◌^◌, ◌++◌, ℕ, length, All, IfOk, OnOk, None, Ok, Err};
ghost use Rattle.std.specs.List.{flat_map};
ghost use Rattle.byteorder.specs.Endian.{big_bytes};
ghost use Rattle.series_model.specs.declared.point.Split.{Split};
ghost use Rattle.gno_codec.specs.Blocks.{position_of, point_bytes, split_bytes, IsPlaced, IsPointOf, IsFilled, IsSplit};
ghost use Rattle.gno_codec.specs.Reading.{Answers, Gives, is_above, items_at, last_of};
ghost use Rattle.gno_codec.specs.BlocksReading.{bucket_time, time_after, fraction_at, point_after, split_at, split_of};

use crate::ReadFault;
use crate::reading::Reader;
use crate::writing::put_u16;
use byteorder::{BigEndian, ByteOrder};
use gno_num::{Frac, GROUPS_PER_SPLIT, Memory, Span, Stamp};
use series_model::{Point, Split};
use std::alloc::Global;

const POINT_BYTES: usize = 26;

// ---- written

/// The block of a split whose points begin buckets of this granularity.
pub fn write_split(alloc: Global, split: &Split, granularity: Span) -> Result<Vec<u8>, Memory>
    requires { IsFilled granularity split.now }
    ensures bytes { IfOk result (λ bytes. bytes.items ≡ split_bytes granularity split.now) }
    // What was written is a block of a split, so it is read again.
    ensures has { OnOk result (IsSplit granularity split.now) }
{
    let points = split.points();
    let mut out = Vec::with_capacity(alloc, 2 + POINT_BYTES * points.len())?;
    put_u16(&mut out, points.len() as u16)?;
    put_points(&mut out, split.key, granularity, points)?;
    Ok(out)
}

fn put_points(
    out: &mut Vec<u8>,
    key: Stamp,
    granularity: Span,
    points: &[Point],
) -> Result<(), Memory>
    requires { All (IsPlaced granularity key) points.now }
    ensures bytes { OnOk result (out.new.items ≡ out.old.items ++ flat_map (point_bytes granularity key) points.now) }
    ensures is { OnOk result (All (IsPointOf granularity key) points.now) }
{
    let mut next = 0;
    for point in points {
        next = put_point(out, key, granularity, point, next)?;
    }
    Ok(())
}

// The position behind the point's. `guess` is a position that is likely: where it is the point's,
// there is nothing to divide.
#[inline(always)]
fn put_point(
    out: &mut Vec<u8>,
    key: Stamp,
    granularity: Span,
    point: &Point,
    guess: u16,
) -> Result<u16, Memory>
    requires { IsPlaced granularity key point.now }
    ensures bytes { OnOk result (out.new.items ≡ out.old.items ++ point_bytes granularity key point.now) }
    ensures is { OnOk result (IsPointOf granularity key point.now) }
{
    let position = position_of(key, granularity, point, guess);
    let num = point.value.num().cast_unsigned();
    let mut bytes = [0; POINT_BYTES];
    fill(
        &mut bytes,
        position,
        high_half(num),
        low_half(num),
        point.value.den(),
    );
    out.extend_from_slice(&bytes)?;
    Ok(position + 1)
}

// A numerator goes by its halves: so it is turned round by two instructions.
#[inline(always)]
fn fill(bytes: &mut [u8], position: u16, high: u64, low: u64, den: u64)
    requires { length bytes.old ≡ 26 }
    ensures { bytes.new ≡ big_bytes 2 position ++ big_bytes 8 high ++ big_bytes 8 low ++ big_bytes 8 den }
{
    BigEndian::write_u16(bytes, position);
    BigEndian::write_u64(&mut bytes[2..], high);
    BigEndian::write_u64(&mut bytes[10..], low);
    BigEndian::write_u64(&mut bytes[18..], den);
}

#[inline(always)]
fn high_half(num: u128) -> u64
    ensures { result ≡ num / 2 ^ 64 }
{
    (num >> 64) as u64
}

#[inline(always)]
fn low_half(num: u128) -> u64
    ensures { result ≡ num % 2 ^ 64 }
{
    (num % (1 << 64)) as u64
}

// The number of the point's bucket within its split.
#[inline(always)]
fn position_of(key: Stamp, granularity: Span, point: &Point, guess: u16) -> u16
    requires { IsPlaced granularity key point.now }
    ensures value { result ≡ position_of granularity key point.now }
    ensures within { result < 3600 }
    ensures time { point.now.at < 9 * 10 ^ 18 }
{
    let nanos = point.at.nanos() - key.nanos();
    if u64::from(guess).saturating_mul(granularity.nanos()) == nanos {
        guess
    } else {
        (nanos / granularity.nanos()) as u16
    }
}

// ---- read

/// The split with this key that the bytes of a block spell, all of them. `Bad` comes exactly where
/// they spell none, and gives the place, counted from 0, of the first field that is cut off or out
/// of its range (a position also where its time isn't above that of the point before, or is no
/// time), or of the first byte behind the split.
pub fn read_split(
    alloc: Global,
    bytes: &[u8],
    key: Stamp,
    granularity: Span,
) -> Result<Split, ReadFault>
    ensures key { IfOk result (λ split. split.key ≡ key) }
    // What is read is spelled so.
    ensures found { IfOk result (λ split. IsSplit granularity split
        × (bytes.now ≡ split_bytes granularity split)) }
    // What is spelled so is read, unless memory runs out.
    ensures only { (split : Split) → IsSplit granularity split → split.key ≡ key
        → bytes.now ≡ split_bytes granularity split → Answers result (Ok split) }
    // What is refused is spelled by no split with this key.
    ensures bad { (at : ℕ) → result ≡ Err (ReadFault.Bad at) → (split : Split)
        → IsSplit granularity split → split.key ≡ key → bytes.now ≢ split_bytes granularity split }
    // Which fault it is.
    ensures exact { Answers result (split_of granularity key bytes.now) }
{
    read_all(alloc, bytes, key, granularity.nanos())
}

#[tactic(auto, unfolding(crate::specs::BlocksReading::split_of, crate::specs::Reading::whole))]
fn read_all(alloc: Global, bytes: &[u8], key: Stamp, granularity: u64) -> Result<Split, ReadFault>
    ensures { Answers result (split_of granularity key bytes.now) }
{
    let mut reader = Reader::new(bytes);
    let split = read_points(alloc, key, granularity, &mut reader)?;
    if reader.is_at_end() {
        Ok(split)
    } else {
        Err(ReadFault::Bad { at: reader.at() })
    }
}

#[tactic(auto, unfolding(crate::specs::BlocksReading::split_at, crate::specs::Reading::then_at, crate::specs::Reading::done))]
fn read_points(
    alloc: Global,
    key: Stamp,
    granularity: u64,
    reader: &mut Reader<'_>,
) -> Result<Split, ReadFault>
    ensures { Gives (λ split. split) result reader.new (split_at granularity key reader.old) }
{
    let count = reader.count()?;
    let points = read_so_many_points(alloc, count, key, granularity, reader)?;
    Ok(Split::make(key, points))
}

fn read_so_many_points(
    alloc: Global,
    count: u16,
    key: Stamp,
    granularity: u64,
    reader: &mut Reader<'_>,
) -> Result<Vec<Point>, ReadFault>
    ensures { Gives (λ points. points.items) result reader.new
        (items_at (point_after granularity key) None count reader.old) }
{
    let mut points = Vec::with_capacity(alloc, reader.room_for(u64::from(count), POINT_BYTES))?;
    for _ in 0..count {
        let point = read_point(points.as_slice(), key, granularity, reader)?;
        points.push(point)?;
    }
    Ok(points)
}

#[tactic(auto, unfolding(crate::specs::BlocksReading::point_after, crate::specs::Reading::then_at, crate::specs::Reading::done))]
#[inline(always)]
fn read_point(
    before: &[Point],
    key: Stamp,
    granularity: u64,
    reader: &mut Reader<'_>,
) -> Result<Point, ReadFault>
    ensures { Gives (λ point. point) result reader.new
        (point_after granularity key (last_of before.now) reader.old) }
{
    let at = read_time(before, key, granularity, reader)?;
    let value = read_fraction(reader)?;
    Ok(Point { at, value })
}

#[tactic(auto, unfolding(crate::specs::BlocksReading::time_after, crate::specs::Reading::standing_for))]
#[inline(always)]
fn read_time(
    before: &[Point],
    key: Stamp,
    granularity: u64,
    reader: &mut Reader<'_>,
) -> Result<Stamp, ReadFault>
    ensures { Gives (λ time. time) result reader.new
        (time_after granularity key (last_of before.now) reader.old) }
{
    let at = reader.at();
    let position = reader.u16()?;
    bucket_time(key, granularity, before, position).ok_or(ReadFault::Bad { at })
}

// When the bucket at a position begins, where it may stand behind the points before it.
#[inline(always)]
fn bucket_time(key: Stamp, granularity: u64, before: &[Point], position: u16) -> Option<Stamp>
    ensures { result ≡ bucket_time granularity key (last_of before.now) position }
{
    let position = u64::from(position);
    if position >= GROUPS_PER_SPLIT {
        return None;
    }
    let nanos = position
        .saturating_mul(granularity)
        .saturating_add(key.nanos());
    let time = Stamp::of_nanos(nanos)?;
    if is_later(before, nanos) {
        Some(time)
    } else {
        None
    }
}

// Whether a time is above that of the point before.
#[inline(always)]
fn is_later(before: &[Point], nanos: u64) -> bool
    ensures { result ≡ is_above (λ point. point.at) (last_of before.now) nanos }
{
    match before {
        [] => true,
        [.., last] => last.at.nanos() < nanos,
    }
}

#[tactic(auto, unfolding(crate::specs::BlocksReading::fraction_at, crate::specs::Reading::then_at, crate::specs::Reading::done, crate::specs::Reading::tested))]
#[inline(always)]
fn read_fraction(reader: &mut Reader<'_>) -> Result<Frac, ReadFault>
    ensures { Gives (λ value. value) result reader.new (fraction_at reader.old) }
{
    let num = reader.numerator()?;
    let at = reader.at();
    let den = reader.u64()?;
    Frac::of(num, den).ok_or(ReadFault::Bad { at })
}

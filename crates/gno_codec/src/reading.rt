// The fields of records, read from left to right.
ghost use Rattle.std.specs.Prelude.{◌≡◌, ◌<◌, ◌≤◌, ◌*◌, ◌^◌, ◌==◌, nat_lt, nat_le, ◌&&◌, unsigned_abs, length, IfOk};
ghost use Rattle.std.specs.Int.{w64, w128};
ghost use Rattle.gno_codec.specs.Reading.{Unread, Gives, bytes_at, number_at, signed_at, tested};
ghost use Rattle.gno_codec.specs.IncomingReading.{stamp_at, value_at};
ghost use Rattle.gno_codec.specs.BlocksReading.{count_at, num_at};

use crate::ReadFault;
use byteorder::{BigEndian, ByteOrder};
use gno_num::{Stamp, Value};
use std::marker::Model;

const MOST_POINTS: u16 = 3_600;

const LARGEST: u128 = 100_000_000_000_000_000_000_000_000_000_000_000_000;

// Bytes that are still to read, and the place of the first of them.
#[derive(Drop)]
pub(crate) struct Reader<'a> {
    rest: &'a [u8],
    at: usize,
}

impl<'a> Model for Reader<'a> {
    ghost use Rattle.std.specs.Prelude.{◌+◌, ◌<◌, ◌^◌, length};
    ghost use Rattle.gno_codec.specs.Reading.{Unread};

    ghost Value = { Unread };

    ghost view = { λ r. record { at = r.at; rest = r.rest.now } };

    ghost invariant = { λ r. r.at + length r.rest.now < 2 ^ 64 };
}

impl<'a> Reader<'a> {
    pub(crate) fn new(bytes: &'a [u8]) -> Reader<'a>
        ensures { result ≡ record { at = 0; rest = bytes.now } }
    {
        Reader { rest: bytes, at: 0 }
    }

    // The place of the first byte that is still to read.
    #[inline(always)]
    pub(crate) fn at(&self) -> u64
        ensures { result ≡ self.now.at }
    {
        self.at as u64
    }

    pub(crate) fn is_at_end(&self) -> bool
        ensures { result ≡ (length self.now.rest == 0) }
    {
        self.rest.is_empty()
    }

    // For how many items of so many bytes there is room: `count`, or fewer where the bytes end.
    pub(crate) fn room_for(&self, count: u64, size: usize) -> usize
        requires { 0 < size }
    {
        let most = self.rest.len() / size;
        if count < most as u64 {
            count as usize
        } else {
            most
        }
    }

    #[tactic(auto, unfolding(crate::specs::Reading::bytes_at))]
    #[inline(always)]
    pub(crate) fn bytes(&mut self, n: usize) -> Result<&'a [u8], ReadFault>
        ensures read { Gives (λ bytes. bytes.now) result self.new (bytes_at n self.old) }
        ensures len { IfOk result (λ bytes. length bytes.now ≡ n) }
    {
        if self.rest.len() < n {
            return Err(ReadFault::Bad { at: self.at() });
        }
        let (front, rest) = self.rest.split_at(n);
        self.rest = rest;
        self.at += n;
        Ok(front)
    }

    #[tactic(auto, unfolding(crate::specs::Reading::number_at, crate::specs::Reading::then_at, crate::specs::Reading::done))]
    #[inline(always)]
    pub(crate) fn u8(&mut self) -> Result<u8, ReadFault>
        ensures { Gives (λ n. n) result self.new (number_at 1 self.old) }
    {
        Ok(self.bytes(1)?[0])
    }

    #[tactic(auto, unfolding(crate::specs::Reading::number_at, crate::specs::Reading::then_at, crate::specs::Reading::done))]
    #[inline(always)]
    pub(crate) fn u16(&mut self) -> Result<u16, ReadFault>
        ensures { Gives (λ n. n) result self.new (number_at 2 self.old) }
    {
        Ok(BigEndian::read_u16(self.bytes(2)?))
    }

    #[tactic(auto, unfolding(crate::specs::Reading::number_at, crate::specs::Reading::then_at, crate::specs::Reading::done))]
    #[inline(always)]
    pub(crate) fn u32(&mut self) -> Result<u32, ReadFault>
        ensures { Gives (λ n. n) result self.new (number_at 4 self.old) }
    {
        Ok(BigEndian::read_u32(self.bytes(4)?))
    }

    #[tactic(auto, unfolding(crate::specs::Reading::number_at, crate::specs::Reading::then_at, crate::specs::Reading::done))]
    #[inline(always)]
    pub(crate) fn u64(&mut self) -> Result<u64, ReadFault>
        ensures { Gives (λ n. n) result self.new (number_at 8 self.old) }
    {
        Ok(BigEndian::read_u64(self.bytes(8)?))
    }

    #[tactic(auto, unfolding(crate::specs::Reading::number_at, crate::specs::Reading::then_at, crate::specs::Reading::done))]
    #[inline(always)]
    pub(crate) fn u128(&mut self) -> Result<u128, ReadFault>
        ensures { Gives (λ n. n) result self.new (number_at 16 self.old) }
    {
        Ok(BigEndian::read_u128(self.bytes(16)?))
    }

    #[tactic(auto, unfolding(crate::specs::Reading::signed_at, crate::specs::Reading::then_at, crate::specs::Reading::done))]
    #[inline(always)]
    fn i64(&mut self) -> Result<i64, ReadFault>
        ensures { Gives (λ n. n) result self.new (signed_at w64 self.old) }
    {
        Ok(self.u64()?.cast_signed())
    }

    // A number from `least` to `most`.
    #[tactic(auto, unfolding(crate::specs::Reading::tested))]
    pub(crate) fn u64_within(&mut self, least: u64, most: u64) -> Result<u64, ReadFault>
        ensures { Gives (λ n. n) result self.new
            (tested (λ n. nat_le least n && nat_le n most) (number_at 8) self.old) }
    {
        let at = self.at();
        let number = self.u64()?;
        if least <= number && number <= most {
            Ok(number)
        } else {
            Err(ReadFault::Bad { at })
        }
    }

    // A number from `least` on.
    #[tactic(auto, unfolding(crate::specs::Reading::tested))]
    pub(crate) fn u8_from(&mut self, least: u8) -> Result<u8, ReadFault>
        ensures read { Gives (λ n. n) result self.new
            (tested (λ n. nat_le least n) (number_at 1) self.old) }
        ensures least { IfOk result (λ n. least ≤ n) }
    {
        let at = self.at();
        let number = self.u8()?;
        if least <= number {
            Ok(number)
        } else {
            Err(ReadFault::Bad { at })
        }
    }

    // How many points or measures a block has.
    #[tactic(auto, unfolding(crate::specs::Reading::tested, crate::specs::BlocksReading::count_at))]
    pub(crate) fn count(&mut self) -> Result<u16, ReadFault>
        ensures { Gives (λ n. n) result self.new (count_at self.old) }
    {
        let at = self.at();
        let count = self.u16()?;
        if 1 <= count && count <= MOST_POINTS {
            Ok(count)
        } else {
            Err(ReadFault::Bad { at })
        }
    }

    // A signed number of sixteen bytes.
    #[tactic(auto, unfolding(crate::specs::Reading::signed_at, crate::specs::Reading::then_at, crate::specs::Reading::done))]
    #[inline(always)]
    fn i128(&mut self) -> Result<i128, ReadFault>
        ensures { Gives (λ n. n) result self.new (signed_at w128 self.old) }
    {
        Ok(self.u128()?.cast_signed())
    }

    // The numerator of a fraction.
    #[tactic(auto, unfolding(crate::specs::Reading::tested, crate::specs::BlocksReading::num_at))]
    #[inline(always)]
    pub(crate) fn numerator(&mut self) -> Result<i128, ReadFault>
        ensures read { Gives (λ n. n) result self.new (num_at self.old) }
        ensures small { IfOk result (λ n. unsigned_abs n ≤ 10 ^ 38) }
    {
        let at = self.at();
        let num = self.i128()?;
        if num.unsigned_abs() <= LARGEST {
            Ok(num)
        } else {
            Err(ReadFault::Bad { at })
        }
    }

    // A number up to `most`.
    #[tactic(auto, unfolding(crate::specs::Reading::tested))]
    pub(crate) fn u8_to(&mut self, most: u8) -> Result<u8, ReadFault>
        ensures { Gives (λ n. n) result self.new
            (tested (λ n. nat_le n most) (number_at 1) self.old) }
    {
        let at = self.at();
        let number = self.u8()?;
        if number <= most {
            Ok(number)
        } else {
            Err(ReadFault::Bad { at })
        }
    }

    // A number from `least` on.
    #[tactic(auto, unfolding(crate::specs::Reading::tested))]
    pub(crate) fn u32_from(&mut self, least: u32) -> Result<u32, ReadFault>
        ensures { Gives (λ n. n) result self.new
            (tested (λ n. nat_le least n) (number_at 4) self.old) }
    {
        let at = self.at();
        let number = self.u32()?;
        if least <= number {
            Ok(number)
        } else {
            Err(ReadFault::Bad { at })
        }
    }

    // A number up to `most`.
    #[tactic(auto, unfolding(crate::specs::Reading::tested))]
    pub(crate) fn u64_to(&mut self, most: u64) -> Result<u64, ReadFault>
        ensures { Gives (λ n. n) result self.new
            (tested (λ n. nat_le n most) (number_at 8) self.old) }
    {
        let at = self.at();
        let number = self.u64()?;
        if number <= most {
            Ok(number)
        } else {
            Err(ReadFault::Bad { at })
        }
    }

    // A number up to `most`.
    #[tactic(auto, unfolding(crate::specs::Reading::tested))]
    pub(crate) fn u32_to(&mut self, most: u32) -> Result<u32, ReadFault>
        ensures read { Gives (λ n. n) result self.new
            (tested (λ n. nat_le n most) (number_at 4) self.old) }
        ensures most { IfOk result (λ n. n ≤ most) }
    {
        let at = self.at();
        let number = self.u32()?;
        if number <= most {
            Ok(number)
        } else {
            Err(ReadFault::Bad { at })
        }
    }

    #[tactic(auto, unfolding(crate::specs::Reading::tested, crate::specs::IncomingReading::stamp_at))]
    #[inline(always)]
    pub(crate) fn stamp(&mut self) -> Result<Stamp, ReadFault>
        ensures { Gives (λ stamp. stamp) result self.new
            (stamp_at self.old) }
    {
        let at = self.at();
        let nanos = self.u64()?;
        Stamp::of_nanos(nanos).ok_or(ReadFault::Bad { at })
    }

    #[tactic(auto, unfolding(crate::specs::Reading::tested, crate::specs::IncomingReading::value_at))]
    #[inline(always)]
    pub(crate) fn value(&mut self) -> Result<Value, ReadFault>
        ensures { Gives (λ value. value) result self.new
            (value_at self.old) }
    {
        let at = self.at();
        let units = self.i64()?;
        Value::of_units(units).ok_or(ReadFault::Bad { at })
    }
}

// The fields of records, written.
ghost use Rattle.std.specs.Prelude.{◌≡◌, ◌++◌, OnOk, OnErr};
ghost use Rattle.byteorder.specs.Endian.{big_bytes};

use byteorder::{BigEndian, ByteOrder};
use gno_num::Memory;

#[inline(always)]
pub(crate) fn put_u8(out: &mut Vec<u8>, number: u8) -> Result<(), Memory>
    ensures ok { OnOk result (out.new.items ≡ out.old.items ++ big_bytes 1 number) }
    ensures err { OnErr result (out.new.items ≡ out.old.items) }
{
    out.push(number)?;
    Ok(())
}

#[inline(always)]
pub(crate) fn put_u16(out: &mut Vec<u8>, number: u16) -> Result<(), Memory>
    ensures ok { OnOk result (out.new.items ≡ out.old.items ++ big_bytes 2 number) }
    ensures err { OnErr result (out.new.items ≡ out.old.items) }
{
    let mut bytes = [0; 2];
    BigEndian::write_u16(&mut bytes, number);
    out.extend_from_slice(&bytes)?;
    Ok(())
}

#[inline(always)]
pub(crate) fn put_u32(out: &mut Vec<u8>, number: u32) -> Result<(), Memory>
    ensures ok { OnOk result (out.new.items ≡ out.old.items ++ big_bytes 4 number) }
    ensures err { OnErr result (out.new.items ≡ out.old.items) }
{
    let mut bytes = [0; 4];
    BigEndian::write_u32(&mut bytes, number);
    out.extend_from_slice(&bytes)?;
    Ok(())
}

#[inline(always)]
pub(crate) fn put_u64(out: &mut Vec<u8>, number: u64) -> Result<(), Memory>
    ensures ok { OnOk result (out.new.items ≡ out.old.items ++ big_bytes 8 number) }
    ensures err { OnErr result (out.new.items ≡ out.old.items) }
{
    let mut bytes = [0; 8];
    BigEndian::write_u64(&mut bytes, number);
    out.extend_from_slice(&bytes)?;
    Ok(())
}

#[inline(always)]
pub(crate) fn put_u128(out: &mut Vec<u8>, number: u128) -> Result<(), Memory>
    ensures ok { OnOk result (out.new.items ≡ out.old.items ++ big_bytes 16 number) }
    ensures err { OnErr result (out.new.items ≡ out.old.items) }
{
    let mut bytes = [0; 16];
    BigEndian::write_u128(&mut bytes, number);
    out.extend_from_slice(&bytes)?;
    Ok(())
}

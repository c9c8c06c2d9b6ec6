// The bytes behind a gate.
ghost use Rattle.std.specs.Prelude.{◌≡◌, ◌+◌, ◌≤◌, ◌++◌, ◌∷◌, [], length, vec_len, vec_capacity, IsOk, OnOk};
ghost use Rattle.byteorder.specs.Endian.{big_bytes, big_number};
ghost use Rattle.gate_log.specs.Records.{log_bytes, bodies_of};

use byteorder::{BigEndian, ByteOrder};
use std::alloc::AllocError;

/// A gate that ends the log, as every byte other than 1 does.
pub const CLOSED: u8 = 0;

/// A gate with a record behind it.
pub const OPEN: u8 = 1;

/// How many bytes stand before a body: its gate and its length.
pub const HEAD: u64 = 9;

/// Fills the frame with what stands behind the gate of a body: its length, the body itself and the
/// next gate, closed. It needs room for the body and nine bytes.
pub fn fill_frame(frame: &mut Vec<u8>, body: &[u8]) -> Result<(), AllocError>
    ensures bytes { OnOk result
        (frame.new.items ≡ big_bytes 8 (length body.now) ++ body.now ++ 0 ∷ []) }
    ensures len { OnOk result (length frame.new.items ≡ length body.now + 9) }
    ensures capacity { vec_capacity frame.old ≤ vec_capacity frame.new }
    ensures room { length body.now + 9 ≤ vec_capacity frame.old → IsOk result }
{
    frame.clear();
    push_body(frame, body)?;
    frame.push(CLOSED)?;
    Ok(())
}

/// Fills the frame with what stands behind the first gate of a log of these records: the first
/// body's length and the body itself, the others behind open gates, and a closed gate.
pub fn fill_frames(frame: &mut Vec<u8>, first: &[u8], rest: &[Vec<u8>]) -> Result<(), AllocError>
    ensures bytes { OnOk result
        (1 ∷ frame.new.items ≡ log_bytes (first.now ∷ bodies_of rest.now) ++ 0 ∷ []) }
    ensures capacity { vec_capacity frame.old ≤ vec_capacity frame.new }
    ensures room { length (log_bytes (first.now ∷ bodies_of rest.now)) ≤ vec_capacity frame.old → IsOk result }
{
    frame.clear();
    push_body(frame, first)?;
    'records: for body in rest {
        frame.push(OPEN)?;
        push_body(frame, body)?;
    }
    frame.push(CLOSED)?;
    Ok(())
}

// Adds the length of a body and the body itself.
fn push_body(frame: &mut Vec<u8>, body: &[u8]) -> Result<(), AllocError>
    ensures bytes { OnOk result
        (frame.new.items ≡ frame.old.items ++ (big_bytes 8 (length body.now) ++ body.now)) }
    ensures capacity { vec_capacity frame.old ≤ vec_capacity frame.new }
    ensures room { vec_len frame.old + 8 + length body.now ≤ vec_capacity frame.old → IsOk result }
{
    let mut len = [0u8; 8];
    BigEndian::write_u64(&mut len, body.len() as u64);
    frame.extend_from_slice(&len)?;
    frame.extend_from_slice(body)?;
    Ok(())
}

/// The length that eight bytes spell.
pub fn length_of(bytes: &[u8]) -> u64
    requires { length bytes.now ≡ 8 }
    ensures value { result ≡ big_number 8 bytes.now }
    ensures back { big_bytes 8 result ≡ bytes.now }
{
    BigEndian::read_u64(bytes)
}

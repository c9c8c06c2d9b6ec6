// What a disk in memory remembers of the calls on it.
ghost use Rattle.std.specs.Prelude.{◌≡◌, ◌^◌, ◌++◌, ◌∷◌, [], ◌+◌, ◌≤◌, true, false, OnOk, OnErr, IsSome, IsOk, ◌<◌, vec_len, vec_capacity, length, take, drop};
ghost use Rattle.gno_disk.specs.Disk.{Overwrites};
ghost use Rattle.gno_disk.specs.Memory.{wrote, cut_to};
ghost use Rattle.gno_disk.specs.Inside.{steps_of, step_of, first_of};

use std::alloc::{AllocError, Global};

/// A call that was made, with what it was given and whether it failed.
#[derive(Debug, Drop)]
pub enum Call {
    Read {
        failed: bool,
    },
    Write {
        at: u64,
        bytes: Vec<u8>,
        failed: bool,
    },
    Cut {
        to: u64,
        failed: bool,
    },
    Sync {
        failed: bool,
    },
}

/// Remembers a call, or leaves those that are remembered.
pub fn remember(calls: &mut Vec<Call>, call: Call) -> Result<(), AllocError>
    ensures ok { OnOk result (steps_of calls.new.items ≡ steps_of calls.old.items ++ step_of call ∷ []) }
    ensures err { OnErr result (calls.new.items ≡ calls.old.items) }
    ensures sure { vec_len calls.old < vec_capacity calls.old → IsOk result }
{
    calls.push(call)?;
    Ok(())
}

/// Keeps what the disk holds, unless it kept that at first.
pub fn keep_first(
    alloc: Global,
    first: &mut Option<Vec<u8>>,
    bytes: &[u8],
) -> Result<(), AllocError>
    ensures same { first_of first.new bytes.now ≡ first_of first.old bytes.now }
    ensures kept { OnOk result (IsSome first.new) }
{
    if first.is_none() {
        *first = Some(Vec::from_slice(alloc, bytes)?);
    }
    Ok(())
}

/// Writes over what is there and past the end, or changes nothing.
pub fn overwrite(bytes: &mut Vec<u8>, at: usize, new: &[u8]) -> Result<(), AllocError>
    requires { at ≤ length bytes.old.items }
    ensures ok { OnOk result (Overwrites at new.now bytes.old.items bytes.new.items) }
    ensures err { OnErr result (bytes.new.items ≡ bytes.old.items) }
{
    let within = new.len().min(bytes.len() - at);
    bytes.extend_from_slice(&new[within..])?;
    bytes[at..at + within].copy_from_slice(&new[..within]);
    Ok(())
}

/// Writes and remembers it, or changes nothing.
pub fn write_remembered(
    alloc: Global,
    first: &mut Option<Vec<u8>>,
    bytes: &mut Vec<u8>,
    calls: &mut Vec<Call>,
    at: u64,
    new: &[u8],
) -> Result<(), AllocError>
    requires { at ≤ length bytes.old.items }
    ensures first { first_of first.new bytes.new.items ≡ first_of first.old bytes.old.items }
    ensures written { OnOk result (Overwrites at new.now bytes.old.items bytes.new.items) }
    ensures remembered { OnOk result
        (steps_of calls.new.items ≡ steps_of calls.old.items ++ wrote at new.now false ∷ []) }
    ensures bytes { OnErr result (bytes.new.items ≡ bytes.old.items) }
    ensures calls { OnErr result (calls.new.items ≡ calls.old.items) }
{
    keep_first(alloc, first, bytes)?;
    let copy = Vec::from_slice(alloc, new)?;
    calls.reserve(1)?;
    overwrite(bytes, at as usize, new)?;
    remember(
        calls,
        Call::Write {
            at,
            bytes: copy,
            failed: false,
        },
    )
}

/// Cuts and remembers it, or changes nothing.
pub fn cut_remembered(
    alloc: Global,
    first: &mut Option<Vec<u8>>,
    bytes: &mut Vec<u8>,
    calls: &mut Vec<Call>,
    to: u64,
) -> Result<(), AllocError>
    ensures first { first_of first.new bytes.new.items ≡ first_of first.old bytes.old.items }
    ensures cut { OnOk result (bytes.new.items ≡ take to bytes.old.items) }
    ensures remembered { OnOk result
        (steps_of calls.new.items ≡ steps_of calls.old.items ++ cut_to to false ∷ []) }
    ensures bytes { OnErr result (bytes.new.items ≡ bytes.old.items) }
    ensures calls { OnErr result (calls.new.items ≡ calls.old.items) }
{
    keep_first(alloc, first, bytes)?;
    remember(calls, Call::Cut { to, failed: false })?;
    bytes.truncate(to as usize);
    Ok(())
}

/// Remembers a write that fails, or leaves those that are remembered.
pub fn remember_failed_write(
    alloc: Global,
    calls: &mut Vec<Call>,
    at: u64,
    new: &[u8],
) -> Result<(), AllocError>
    ensures remembered { OnOk result
        (steps_of calls.new.items ≡ steps_of calls.old.items ++ wrote at new.now true ∷ []) }
    ensures calls { OnErr result (calls.new.items ≡ calls.old.items) }
{
    let bytes = Vec::from_slice(alloc, new)?;
    remember(
        calls,
        Call::Write {
            at,
            bytes,
            failed: true,
        },
    )
}

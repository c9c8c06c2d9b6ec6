// The device calls of a log.
ghost use Rattle.std.specs.Prelude.{ℕ, List, ◌≡◌, ◌⊎◌, ◌<◌, ◌≤◌, ◌+◌, ◌^◌, ◌∷◌, [], max, length, vec_len, take, drop, slice_index, ⊤, true, false, IfOk, IfSome, OnOk, OnErr};
ghost use Rattle.gno_num.specs.Faults.{Rose};
ghost use Rattle.gno_disk.specs.Disk.{Overwrites, Torn, LooseCut, Told};
ghost use Rattle.gno_disk.specs.Moments.{LeavesOnly};
ghost use Rattle.gate_log.specs.Steps.{KeepsBefore, IsReady, IsShut, IsSynced, PartOf, OldOrNone, OldOrNoneOr, StandsFirst, Leaves, IsUntouched, IsRemade, IsRemadeOrStill};

use crate::frame::{CLOSED, OPEN};
use gno_disk::Disk;
use gno_num::Failed;

/// Writes and syncs. Until the end a stop leaves what was there with any part of the write.
fn write_through<D: Disk>(disk: &mut D, at: u64, bytes: &[u8]) -> Result<(), Failed>
    requires inside { at ≤ D.size disk.old }
    requires durable { IsSynced (D.told disk.old) (D.may_leave disk.old) }
    ensures written { OnOk result (Told (Overwrites at bytes.now) (D.told disk.old) (D.told disk.new)) }
    ensures size { OnOk result (D.size disk.new ≡ max (D.size disk.old) (at + length bytes.now)) }
    ensures limit { OnOk result (at + length bytes.now ≤ 2 ^ 60) }
    ensures durable { OnOk result (IsSynced (D.told disk.new) (D.may_leave disk.new)) }
    ensures torn { OnErr result (Told (KeepsBefore at) (D.told disk.old) (D.told disk.new)) }
    ensures part { Told (Torn at (length bytes.now)) (D.told disk.old) (D.told disk.new) }
    ensures any_moment { Leaves D.Disk (Torn at (length bytes.now)) disk.old disk.new }
    ensures cause { OnErr result (Rose (D.faults disk.old) (D.faults disk.new)) }
    ensures later { D.faults disk.old ≤ D.faults disk.new }
    ensures came { D.came 2 disk.old disk.new }
{
    disk.write_at(at, bytes)?;
    disk.sync()
}

/// Cuts and syncs. Until the end a stop leaves what was there before the cut, with any bytes and
/// any length behind.
fn cut_through<D: Disk>(disk: &mut D, to: u64) -> Result<(), Failed>
    requires inside { to ≤ D.size disk.old }
    requires durable { IsSynced (D.told disk.old) (D.may_leave disk.old) }
    ensures cut { OnOk result (Told (λ old new. new ≡ take to old) (D.told disk.old) (D.told disk.new)) }
    ensures size { OnOk result (D.size disk.new ≡ to) }
    ensures durable { OnOk result (IsSynced (D.told disk.new) (D.may_leave disk.new)) }
    ensures any_moment { Leaves D.Disk (LooseCut to) disk.old disk.new }
    ensures cause { OnErr result (Rose (D.faults disk.old) (D.faults disk.new)) }
    ensures later { D.faults disk.old ≤ D.faults disk.new }
    ensures came { D.came 2 disk.old disk.new }
{
    disk.cut(to)?;
    disk.sync()
}

/// Writes a record whose gate stands at this place: what stands behind the gate, and once that is
/// on the disk the gate.
pub fn write_record<D: Disk>(disk: &mut D, gate: u64, frame: &[u8]) -> Result<(), Failed>
    requires limit { gate < 2 ^ 60 }
    requires inside { gate < D.size disk.old }
    requires durable { IsSynced (D.told disk.old) (D.may_leave disk.old) }
    ensures written { OnOk result
        (Told (Overwrites gate (1 ∷ frame.now)) (D.told disk.old) (D.told disk.new)) }
    ensures inside { OnOk result (gate + 1 + length frame.now ≤ D.size disk.new) }
    ensures limit { OnOk result (gate + 1 + length frame.now ≤ 2 ^ 60) }
    ensures durable { OnOk result (IsSynced (D.told disk.new) (D.may_leave disk.new)) }
    ensures torn { OnErr result (Told (KeepsBefore gate) (D.told disk.old) (D.told disk.new)) }
    ensures part { Told (PartOf gate frame.now) (D.told disk.old) (D.told disk.new) }
    ensures any_moment { Leaves D.Disk (PartOf gate frame.now) disk.old disk.new }
    ensures cause { OnErr result (Rose (D.faults disk.old) (D.faults disk.new)) }
    ensures later { D.faults disk.old ≤ D.faults disk.new }
    ensures came { D.came 4 disk.old disk.new }
{
    write_through(disk, gate + 1, frame)?;
    write_through(disk, gate, &[OPEN])
}

/// Makes a disk ready: syncs it, and leaves one closed gate on it and nothing else. Once the sync has
/// succeeded, a stop leaves what was there, or no log.
pub fn make_ready<D: Disk>(disk: &mut D) -> Result<(), Failed>
    ensures ready { OnOk result (Told (λ _ new. IsReady new) (D.told disk.old) (D.told disk.new)) }
    ensures size { OnOk result (D.size disk.new ≡ 1) }
    ensures durable { OnOk result (IsSynced (D.told disk.new) (D.may_leave disk.new)) }
    ensures remade { OnOk result (IsRemade D.Disk OldOrNone disk.old disk.new) }
    ensures any_moment { IsRemadeOrStill D.Disk OldOrNone disk.old disk.new }
    ensures cause { OnErr result (Rose (D.faults disk.old) (D.faults disk.new)) }
    ensures later { D.faults disk.old ≤ D.faults disk.new }
    ensures came { D.came 5 disk.old disk.new }
{
    sync_all(disk)?;
    leave_one_gate(disk)
}

// Leaves one closed gate on a disk whose bytes are synced. Until the end a stop leaves what was
// there, or no log.
fn leave_one_gate<D: Disk>(disk: &mut D) -> Result<(), Failed>
    requires { IsSynced (D.told disk.old) (D.may_leave disk.old) }
    ensures ready { OnOk result (Told (λ _ new. IsReady new) (D.told disk.old) (D.told disk.new)) }
    ensures size { OnOk result (D.size disk.new ≡ 1) }
    ensures durable { OnOk result (IsSynced (D.told disk.new) (D.may_leave disk.new)) }
    ensures any_moment { Leaves D.Disk OldOrNone disk.old disk.new }
    ensures cause { OnErr result (Rose (D.faults disk.old) (D.faults disk.new)) }
    ensures later { D.faults disk.old ≤ D.faults disk.new }
    ensures came { D.came 4 disk.old disk.new }
{
    close_first_gate(disk)?;
    if disk.len() > 1 {
        cut_through(disk, 1)?;
    }
    Ok(())
}

// Closes the first gate, unless it is closed: a write would make it loose.
fn close_first_gate<D: Disk>(disk: &mut D) -> Result<(), Failed>
    requires { IsSynced (D.told disk.old) (D.may_leave disk.old) }
    ensures closed { OnOk result (Told (λ _ new. IsShut new) (D.told disk.old) (D.told disk.new)) }
    ensures some { OnOk result (0 < D.size disk.new) }
    ensures durable { OnOk result (IsSynced (D.told disk.new) (D.may_leave disk.new)) }
    ensures any_moment { Leaves D.Disk OldOrNone disk.old disk.new }
    ensures cause { OnErr result (Rose (D.faults disk.old) (D.faults disk.new)) }
    ensures later { D.faults disk.old ≤ D.faults disk.new }
    ensures came { D.came 2 disk.old disk.new }
{
    if !lacks_closed_gate(disk)? {
        return Ok(());
    }
    write_through(disk, 0, &[CLOSED])
}

// Whether the disk has no first gate or an open one.
fn lacks_closed_gate<D: Disk>(disk: &mut D) -> Result<bool, Failed>
    ensures lacks { IfOk result (λ lacks. lacks ≡ true → IfSome (D.told disk.old)
        (λ bytes. (length bytes ≡ 0) ⊎ (slice_index bytes 0 ≡ 1))) }
    ensures closed { IfOk result (λ lacks. lacks ≡ false → IfSome (D.told disk.old) IsShut) }
    ensures some { IfOk result (λ lacks. lacks ≡ false → 0 < D.size disk.old) }
    ensures untouched { IsUntouched D.Disk disk.old disk.new }
    ensures cause { OnErr result (Rose (D.faults disk.old) (D.faults disk.new)) }
    ensures later { D.faults disk.old ≤ D.faults disk.new }
    ensures came { D.came 0 disk.old disk.new }
{
    if disk.len() == 0 {
        return Ok(true);
    }
    Ok(first_byte(disk)? == OPEN)
}

fn first_byte<D: Disk>(disk: &mut D) -> Result<u8, Failed>
    requires { 0 < D.size disk.old }
    ensures byte { IfOk result (λ byte. IfSome (D.told disk.old) (λ bytes. byte ≡ slice_index bytes 0)) }
    ensures untouched { IsUntouched D.Disk disk.old disk.new }
    ensures cause { OnErr result (Rose (D.faults disk.old) (D.faults disk.new)) }
    ensures later { D.faults disk.old ≤ D.faults disk.new }
    ensures came { D.came 0 disk.old disk.new }
{
    let mut byte = [0u8; 1];
    read_bytes(disk, 0, &mut byte)?;
    Ok(byte[0])
}

/// Reads as many bytes as `out` has, from the place `at` on.
pub fn read_bytes<D: Disk>(disk: &mut D, at: u64, out: &mut [u8]) -> Result<(), Failed>
    requires { at + length out.old ≤ D.size disk.old }
    ensures bytes { OnOk result (IfSome (D.told disk.old)
        (λ bytes. out.new ≡ take (length out.old) (drop at bytes))) }
    ensures untouched { IsUntouched D.Disk disk.old disk.new }
    ensures cause { OnErr result (Rose (D.faults disk.old) (D.faults disk.new)) }
    ensures later { D.faults disk.old ≤ D.faults disk.new }
    ensures came { D.came 0 disk.old disk.new }
{
    disk.read(at, out)
}

/// Syncs.
pub fn sync_all<D: Disk>(disk: &mut D) -> Result<(), Failed>
    ensures durable { OnOk result (IsSynced (D.told disk.new) (D.may_leave disk.new)) }
    ensures untouched { IsUntouched D.Disk disk.old disk.new }
    ensures cause { OnErr result (Rose (D.faults disk.old) (D.faults disk.new)) }
    ensures later { D.faults disk.old ≤ D.faults disk.new }
    ensures came { D.came 1 disk.old disk.new }
{
    disk.sync()
}

/// Fills a vector with what stands from this place on.
pub fn read_body<D: Disk>(disk: &mut D, at: u64, body: &mut Vec<u8>) -> Result<(), Failed>
    requires { at + vec_len body.old ≤ D.size disk.old }
    ensures bytes { OnOk result (IfSome (D.told disk.old)
        (λ bytes. body.new.items ≡ take (vec_len body.old) (drop at bytes))) }
    ensures len { vec_len body.new ≡ vec_len body.old }
    ensures untouched { IsUntouched D.Disk disk.old disk.new }
    ensures cause { OnErr result (Rose (D.faults disk.old) (D.faults disk.new)) }
    ensures later { D.faults disk.old ≤ D.faults disk.new }
    ensures came { D.came 0 disk.old disk.new }
{
    read_bytes(disk, at, body)
}

/// Makes a disk ready, writes what stands behind its first gate, and once that is on the disk opens
/// the gate.
pub fn start<D: Disk>(disk: &mut D, frame: &[u8]) -> Result<(), Failed>
    ensures written { OnOk result
        (Told (λ _ new. StandsFirst frame.now new) (D.told disk.old) (D.told disk.new)) }
    ensures inside { OnOk result (1 + length frame.now ≤ D.size disk.new) }
    ensures limit { OnOk result (1 + length frame.now ≤ 2 ^ 60) }
    ensures durable { OnOk result (IsSynced (D.told disk.new) (D.may_leave disk.new)) }
    ensures remade { OnOk result (IsRemade D.Disk (OldOrNoneOr frame.now) disk.old disk.new) }
    ensures any_moment { IsRemadeOrStill D.Disk (OldOrNoneOr frame.now) disk.old disk.new }
    ensures cause { OnErr result (Rose (D.faults disk.old) (D.faults disk.new)) }
    ensures later { D.faults disk.old ≤ D.faults disk.new }
    ensures came { D.came 9 disk.old disk.new }
{
    make_ready(disk)?;
    write_record(disk, 0, frame)
}

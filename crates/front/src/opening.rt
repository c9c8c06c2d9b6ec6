// The sacks of a store, made or mounted one after the other.
ghost use Rattle.std.specs.Prelude.{◌≡◌, ◌+◌, ◌++◌, ◌∷◌, [], ◌*◌, ◌≤◌, ◌<◌, ◌^◌, ◌-◌, List, OnOk, length, reverse, vec_len, vec_capacity};
ghost use Rattle.std.specs.List.{flat_map};
ghost use Rattle.sack_state.specs.declared.disks.SackDisks.{SackDisks as Five};
ghost use Rattle.sack_state.specs.Books.{IsUnmade, IsUnmounted};
ghost use Rattle.front.specs.Making.{IsMadeSack, IsMountedSack, OpensSacks};
ghost use Rattle.front.specs.Plan.{five, sack_place};

use crate::plan::{put_sack, take_sack};
use gno_disk::Disk;
use log_pair::{LogFault, MountFault, Place};
use sack_state::Sack;
use std::alloc::Global;

/// The role that a sack's place is given by; each of its books puts its own in place of it.
const SACK: u8 = 2;

/// The place of a sack.
fn sack_place(sacks: u16, sack: u16) -> Place
    ensures { result ≡ sack_place sacks sack }
{
    Place {
        role: SACK,
        sack,
        sacks,
    }
}

/// Puts a sack at the end.
fn put_opened<D: Disk>(opened: &mut Vec<Sack<D>>, sack: Sack<D>)
    requires { vec_len opened.old < vec_capacity opened.old }
    ensures put { opened.new.items ≡ opened.old.items ++ sack ∷ [] }
    ensures more { vec_len opened.new ≡ vec_len opened.old + 1 }
    ensures room { vec_capacity opened.old ≤ vec_capacity opened.new }
{
    match opened.push(sack) {
        Ok(()) => {}
        Err(_sack) => unreachable!(),
    }
}

/// Makes the sacks from this number on, on disks in the opposite order of the plan.
pub fn make_sacks<D: Disk>(
    alloc: Global,
    disks: &mut Vec<D>,
    opened: &mut Vec<Sack<D>>,
    sack: u16,
    sacks: u16,
) -> Result<(), LogFault>
    requires within { sack ≤ sacks }
    requires planned { vec_len disks.old ≡ 5 * (sacks - sack) }
    requires room { vec_len opened.old + (sacks - sack) ≤ vec_capacity opened.old }
    ensures opens { (left : List (Five D)) → disks.old.items ≡ reverse (flat_map five left) → length left + sack ≡ sacks
        → OpensSacks (IsMadeSack D.Disk sacks) (λ k. IsUnmade D.Disk (sack_place sacks k)) sack left disks.new.items opened.old.items opened.new.items result }
    ensures emptied { OnOk result (vec_len disks.new ≡ 0) }
    ensures together { vec_len disks.new + 5 * vec_len opened.new ≡ vec_len disks.old + 5 * vec_len opened.old }
    ensures disk_room { vec_capacity disks.old ≤ vec_capacity disks.new }
{
    if sack == sacks {
        return Ok(());
    }
    let five = take_sack(disks);
    match Sack::create(alloc, five, sack_place(sacks, sack)) {
        Ok(one) => {
            put_opened(opened, one);
            make_sacks(alloc, disks, opened, sack + 1, sacks)
        }
        Err((five, fault)) => {
            put_sack(disks, five);
            Err(fault)
        }
    }
}

/// Mounts them.
pub fn mount_sacks<D: Disk>(
    alloc: Global,
    disks: &mut Vec<D>,
    opened: &mut Vec<Sack<D>>,
    sack: u16,
    sacks: u16,
) -> Result<(), (u16, MountFault)>
    requires within { sack ≤ sacks }
    requires planned { vec_len disks.old ≡ 5 * (sacks - sack) }
    requires room { vec_len opened.old + (sacks - sack) ≤ vec_capacity opened.old }
    ensures opens { (left : List (Five D)) → disks.old.items ≡ reverse (flat_map five left) → length left + sack ≡ sacks
        → OpensSacks (IsMountedSack D.Disk sacks) (λ k old new e. (e.0 ≡ k) × IsUnmounted D.Disk (sack_place sacks k) old new e.1) sack left disks.new.items opened.old.items opened.new.items result }
    ensures emptied { OnOk result (vec_len disks.new ≡ 0) }
    ensures together { vec_len disks.new + 5 * vec_len opened.new ≡ vec_len disks.old + 5 * vec_len opened.old }
    ensures disk_room { vec_capacity disks.old ≤ vec_capacity disks.new }
{
    if sack == sacks {
        return Ok(());
    }
    let five = take_sack(disks);
    match Sack::mount(alloc, five, sack_place(sacks, sack)) {
        Ok(one) => {
            put_opened(opened, one);
            mount_sacks(alloc, disks, opened, sack + 1, sacks)
        }
        Err((five, fault)) => {
            put_sack(disks, five);
            Err((sack, fault))
        }
    }
}

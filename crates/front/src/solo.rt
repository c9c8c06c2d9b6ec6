// The front of one thread.
ghost use Rattle.std.specs.Prelude.{◌≡◌, ◌≤◌, ◌+◌, ◌*◌, ◌-◌, ◌^◌, min, List, reverse, [], Some, None, IfOk, IfErr, IfSome, length, vec_len, vec_capacity, replicate, true, false, ⊤};
ghost use Rattle.std.specs.List.{flat_map};
ghost use Rattle.gate_log.specs.LogView.{IsFault};
ghost use Rattle.gno_disk.specs.Phases.{AreUnwritten};
ghost use Rattle.front_api.specs.Maps.{Maps, new_maps};
ghost use Rattle.front_api.specs.Seen.{SeenBooks, capped};
ghost use Rattle.front_api.specs.declared.duty.LastClaim.TheVariants as last_claim;
ghost use Rattle.metric_index.specs.IndexLog.{HoldsIndex};
ghost use Rattle.metric_index.specs.IndexView.{index_phases, sum_of_faults};
ghost use Rattle.sack_state.specs.declared.disks.SackDisks.{SackDisks as Five};
ghost use Rattle.front.specs.Creating.{IsMakingOrLooking, IsMakingStore, IsOnlyRead, StoreCame};
ghost use Rattle.front.specs.Looking.{HaveNoStore, HaveStore};
ghost use Rattle.front.specs.Making.{AreMadeOn, AreUnmadeOn, IsCreatedOn, IsMountedOn, IsUncreatedOn, IsUnmountedOn};
ghost use Rattle.front.specs.Opening.{AreDamaged, AreNewBooks, IsOpenedOn, OfIndexDisks};
ghost use Rattle.front.specs.Plan.{OnPlan, StoreDisks, disk_count, five, in_plan};
ghost use Rattle.front.specs.SoloView.{StandsForBooks, disks_of_solo, new_duty};
ghost use Rattle.front.specs.StoreFaults.{MatchStoreFault};

use crate::back::give_back;
use crate::fault::{StoreFault, Unmade, of_making, of_mounting, told_in_store};
use crate::look::look_for_store;
use crate::made::Made;
use crate::opening::{make_sacks, mount_sacks};
use crate::plan::{faults_of, take_disk};
use front_api::{LastClaim, Refusals};
use gno_disk::Disk;
use log_pair::MountFault;
use metric_index::Index;
use sack_state::Sack;
use std::alloc::{AllocError, Global};
use std::marker::Model;
use std::snapshot::Snapshot;

/// A store's front for one thread. It owns the index and the sacks, and no others' entries come into their histories. The
/// vector in which the disks came is kept empty, so that they can be given back without memory.
#[derive(Drop)]
pub struct Solo<D: Disk> {
    pub(crate) index: Index<D>,
    opened: Snapshot<Index<D>>,
    pub(crate) sacks: Vec<Sack<D>>,
    pub(crate) made: Made,
    pub(crate) refusals: Refusals,
    pub(crate) last_claims: Vec<LastClaim>,
    emptied: Vec<D>,
}

impl<D: Disk> Model for Solo<D> {
    ghost use Rattle.front.specs.SoloView.{SoloView};

    ghost Value = { SoloView D };

    ghost use Rattle.front.specs.Inside.{KeepsSolo, solo_view};

    ghost view = { solo_view };

    ghost invariant = { KeepsSolo };
}

/// Room for the sacks of a store, and for what a bench notes of them.
struct Room<D: Disk> {
    sacks: Vec<Sack<D>>,
    last_claims: Vec<LastClaim>,
}

/// Takes the memory for so many sacks.
fn room_for<D: Disk>(alloc: Global, sacks: u16) -> Result<Room<D>, AllocError>
    ensures empty { IfOk result (λ room. room.sacks.items ≡ []) }
    ensures room { IfOk result (λ room. sacks ≤ vec_capacity room.sacks) }
    ensures unclaimed { IfOk result (λ room. room.last_claims.items ≡ replicate sacks last_claim.NoClaim) }
{
    let last_claims = vec![in alloc; LastClaim::NoClaim; sacks as usize]?;
    let sacks = Vec::with_capacity(alloc, sacks as usize)?;
    Ok(Room { sacks, last_claims })
}

/// No commit and no release was counted.
const NONE_REFUSED: Refusals = Refusals {
    stale: 0,
    starved: 0,
    faults: 0,
};

impl<D: Disk> Solo<D> {
    /// Makes an empty store on the disks of the plan. The disks of the index are synced and looked at first; where there is
    /// no store the sacks are made, and the index last. An `Err` hands the disks back, in their order.
    pub fn create(
        alloc: Global,
        disks: Vec<D>,
        sacks: u16,
        number: u32,
    ) -> Result<Solo<D>, (Vec<D>, StoreFault)>
        requires some { 1 ≤ sacks }
        requires few { sacks ≤ 64 }
        requires planned { length disks.items ≡ disk_count sacks }
        ensures made { IfOk result (λ solo. (solo.made ≡ record { sacks = sacks; number = Some number }) × (solo.duty ≡ new_duty sacks)) }
        ensures opened { IfOk result (λ solo. IsOpenedOn sacks true disks.items solo × (solo.index.maps ≡ Some (new_maps number))) }

        // It stands for no entries, behind the maps of a new store and sacks that hold nothing.
        ensures stands { IfOk result (λ solo. (books : SeenBooks) → AreNewBooks D.Disk solo books → StandsForBooks D.Disk solo books) }

        // There was no store, and a stop leaves none, or the empty one.
        ensures none { IfOk result (λ solo. HaveNoStore D.Disk disks.items) }
        ensures any_moment { IfOk result (λ solo. OnPlan (IsMakingStore D.Disk sacks number) disks.items (disks_of_solo solo)) }
        ensures came { IfOk result (λ solo. OnPlan (StoreCame D.Disk 15 9 9 1) disks.items (disks_of_solo solo)) }

        ensures any_moment_err { IfErr result (λ e. OnPlan (IsMakingOrLooking D.Disk sacks number) disks.items e.0.items) }
        ensures came_err { IfErr result (λ e. OnPlan (StoreCame D.Disk 15 9 9 1) disks.items e.0.items) }
        ensures cause { IfErr result (λ e. MatchStoreFault e.1
            (HaveStore D.Disk disks.items × OnPlan (IsOnlyRead D.Disk) disks.items e.0.items)
            (IsFault (capped (sum_of_faults D.Disk disks.items)) (capped (sum_of_faults D.Disk e.0.items)))
            (λ d. ⊥) ⊤) }
    {
        let Ok(room) = room_for(alloc, sacks) else {
            return Err((disks, StoreFault::Memory));
        };
        let before = faults_of(&disks);
        match Solo::create_on(alloc, disks, room, sacks, number) {
            Ok(solo) => Ok(solo),
            Err((disks, unmade)) => {
                let after = faults_of(&disks);
                Err((disks, of_making(unmade, before, after)))
            }
        }
    }

    /// Mounts the store on the disks of the plan, the index first, and then sack by sack. It writes nothing. An `Err` hands
    /// the disks back, in their order.
    pub fn mount(alloc: Global, disks: Vec<D>, sacks: u16) -> Result<Solo<D>, (Vec<D>, StoreFault)>
        requires some { 1 ≤ sacks }
        requires few { sacks ≤ 64 }
        requires planned { length disks.items ≡ disk_count sacks }
        ensures made { IfOk result (λ solo. (solo.made ≡ record { sacks = sacks; number = None }) × (solo.duty ≡ new_duty sacks)) }
        ensures opened { IfOk result (λ solo. IsOpenedOn sacks false disks.items solo) }

        // It has the maps that the disks of the index hold.
        ensures held { IfOk result (λ solo. IfSome solo.index.maps (λ m. OfIndexDisks D.Disk disks.items (HoldsIndex sacks m))) }
        ensures exact { IfOk result (λ solo. OfIndexDisks D.Disk disks.items (λ x y. (m : Maps) → HoldsIndex sacks m x y → solo.index.maps ≡ Some m)) }

        // It stands for no entries, behind these maps and whatever the disks of the sacks held.
        ensures stands { IfOk result (λ solo. (books : SeenBooks) → AreNewBooks D.Disk solo books → StandsForBooks D.Disk solo books) }
        ensures unwritten { IfOk result (λ solo. AreUnwritten D.Disk (index_phases disks.items (disks_of_solo solo))) }
        ensures came { IfOk result (λ solo. OnPlan (StoreCame D.Disk 2 2 2 1) disks.items (disks_of_solo solo)) }

        ensures unwritten_err { IfErr result (λ e. AreUnwritten D.Disk (index_phases disks.items e.0.items)) }
        ensures came_err { IfErr result (λ e. OnPlan (StoreCame D.Disk 2 2 2 1) disks.items e.0.items) }
        ensures cause { IfErr result (λ e. MatchStoreFault e.1 ⊥
            (IsFault (capped (sum_of_faults D.Disk disks.items)) (capped (sum_of_faults D.Disk e.0.items)))
            (AreDamaged D.Disk sacks disks.items) ⊤) }
    {
        let Ok(room) = room_for(alloc, sacks) else {
            return Err((disks, StoreFault::Memory));
        };
        let before = faults_of(&disks);
        match Solo::mount_on(alloc, disks, room, sacks) {
            Ok(solo) => Ok(solo),
            Err((disks, fault)) => {
                let after = faults_of(&disks);
                Err((disks, of_mounting(fault, before, after)))
            }
        }
    }

    /// The disks, in the order of the plan.
    pub fn into_disks(self) -> Vec<D>
        ensures all { result.items ≡ disks_of_solo self }
        ensures count { length result.items ≡ disk_count self.made.sacks }
    {
        let Solo {
            index,
            opened: _,
            sacks,
            made: _,
            refusals: _,
            last_claims: _,
            emptied,
        } = self;
        let (a, b) = index.into_disks();
        give_back(emptied, a, b, sacks)
    }

    /// Looks for a store, and makes one, once there is memory for the vectors.
    fn create_on(
        alloc: Global,
        disks: Vec<D>,
        room: Room<D>,
        sacks: u16,
        number: u32,
    ) -> Result<Solo<D>, (Vec<D>, Unmade)>
        requires some { 1 ≤ sacks }
        requires few { sacks ≤ 64 }
        requires planned { length disks.items ≡ disk_count sacks }
        requires empty { room.sacks.items ≡ [] }
        requires room { sacks ≤ vec_capacity room.sacks }
        requires unclaimed { room.last_claims.items ≡ replicate sacks last_claim.NoClaim }
        ensures made { IfOk result (λ solo. (solo.made ≡ record { sacks = sacks; number = Some number }) × (solo.duty ≡ new_duty sacks)) }
        ensures created { IfOk result (λ solo. (old : StoreDisks D) → disks.items ≡ in_plan old → IsCreatedOn D.Disk sacks number old solo) }
        ensures uncreated { IfErr result (λ e. (old : StoreDisks D) → disks.items ≡ in_plan old → IsUncreatedOn D.Disk sacks number old e.0.items e.1) }
    {
        let mut disks = disks;
        disks.reverse();
        let mut a = take_disk(&mut disks);
        let mut b = take_disk(&mut disks);
        let Room {
            sacks: opened,
            last_claims,
        } = room;
        match look_for_store(alloc, &mut a, &mut b) {
            Ok(false) => {
                let room = Room {
                    sacks: opened,
                    last_claims,
                };
                Solo::create_books(alloc, disks, a, b, room, sacks, number)
            }
            Ok(true) => Err((give_back(disks, a, b, opened), Unmade::Exists)),
            Err(fault) => Err((give_back(disks, a, b, opened), Unmade::Failed(fault))),
        }
    }

    /// Makes the sacks on these disks, which come in the opposite order of the plan, and then the index.
    fn create_books(
        alloc: Global,
        disks: Vec<D>,
        a: D,
        b: D,
        room: Room<D>,
        sacks: u16,
        number: u32,
    ) -> Result<Solo<D>, (Vec<D>, Unmade)>
        requires some { 1 ≤ sacks }
        requires few { sacks ≤ 64 }
        requires planned { vec_len disks ≡ 5 * sacks }
        requires wide { disk_count sacks ≤ vec_capacity disks }
        requires empty { room.sacks.items ≡ [] }
        requires room { sacks ≤ vec_capacity room.sacks }
        requires unclaimed { room.last_claims.items ≡ replicate sacks last_claim.NoClaim }
        ensures made { IfOk result (λ solo. (solo.made ≡ record { sacks = sacks; number = Some number }) × (solo.duty ≡ new_duty sacks)) }
        ensures created { IfOk result (λ solo. (left : List (Five D)) → disks.items ≡ reverse (flat_map five left) → AreMadeOn D.Disk sacks number a b left solo) }
        ensures uncreated { IfErr result (λ e. (left : List (Five D)) → disks.items ≡ reverse (flat_map five left) → AreUnmadeOn D.Disk sacks number a b left e.0.items e.1) }
    {
        let mut disks = disks;
        let Room {
            sacks: mut opened,
            last_claims,
        } = room;
        match make_sacks(alloc, &mut disks, &mut opened, 0, sacks) {
            Ok(()) => {}
            Err(fault) => return Err((give_back(disks, a, b, opened), Unmade::Failed(fault))),
        }
        match Index::create(alloc, a, b, sacks, number) {
            Ok(index) => {
                let first = Snapshot::of(&index);
                Ok(Solo {
                    index,
                    opened: first,
                    sacks: opened,
                    made: Made {
                        sacks,
                        number: Some(number),
                    },
                    refusals: NONE_REFUSED,
                    last_claims,
                    emptied: disks,
                })
            }
            Err((a, b, fault)) => Err((give_back(disks, a, b, opened), Unmade::Failed(fault))),
        }
    }

    /// Mounts the index, and then the sacks.
    fn mount_on(
        alloc: Global,
        disks: Vec<D>,
        room: Room<D>,
        sacks: u16,
    ) -> Result<Solo<D>, (Vec<D>, MountFault)>
        requires some { 1 ≤ sacks }
        requires few { sacks ≤ 64 }
        requires planned { length disks.items ≡ disk_count sacks }
        requires empty { room.sacks.items ≡ [] }
        requires room { sacks ≤ vec_capacity room.sacks }
        requires unclaimed { room.last_claims.items ≡ replicate sacks last_claim.NoClaim }
        ensures made { IfOk result (λ solo. (solo.made ≡ record { sacks = sacks; number = None }) × (solo.duty ≡ new_duty sacks)) }
        ensures mounted { IfOk result (λ solo. (old : StoreDisks D) → disks.items ≡ in_plan old → IsMountedOn D.Disk sacks old solo) }
        ensures unmounted { IfErr result (λ e. (old : StoreDisks D) → disks.items ≡ in_plan old → IsUnmountedOn D.Disk sacks old e.0.items e.1) }
    {
        let mut disks = disks;
        disks.reverse();
        let a = take_disk(&mut disks);
        let b = take_disk(&mut disks);
        let Room {
            sacks: mut opened,
            last_claims,
        } = room;
        let index = match Index::mount(alloc, a, b, sacks) {
            Ok(index) => index,
            Err((a, b, fault)) => return Err((give_back(disks, a, b, opened), fault)),
        };
        match mount_sacks(alloc, &mut disks, &mut opened, 0, sacks) {
            Ok(()) => {
                let first = Snapshot::of(&index);
                Ok(Solo {
                    index,
                    opened: first,
                    sacks: opened,
                    made: Made {
                        sacks,
                        number: None,
                    },
                    refusals: NONE_REFUSED,
                    last_claims,
                    emptied: disks,
                })
            }
            Err((sack, fault)) => {
                let (a, b) = index.into_disks();
                Err((give_back(disks, a, b, opened), told_in_store(sack, fault)))
            }
        }
    }
}

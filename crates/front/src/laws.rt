// What is true of fronts. This does nothing when it runs.
ghost use Rattle.std.specs.Prelude.{◌≡◌, ◌≤◌, ◌<◌, ◌-◌, ◌^◌, ℕ, List, Some, true, false};
ghost use Rattle.gno_num.specs.declared.faults.Damaged.{Damaged as Damage};
ghost use Rattle.front_api.specs.Maps.{Maps, new_maps};
ghost use Rattle.front_api.specs.Seen.{SeenBooks};
ghost use Rattle.front_api.specs.SeenLaws.{SeeNoFault, WereAllOpened};
ghost use Rattle.metric_index.specs.IndexLog.{HoldsIndex};
ghost use Rattle.metric_index.specs.IndexView.{sum_of_faults};
ghost use Rattle.front.specs.Creating.{StoreCame};
ghost use Rattle.front.specs.Failing.{failed_at_first};
ghost use Rattle.front.specs.Opening.{AreDamaged, IsOpenedOn, OfIndexDisks};
ghost use Rattle.front.specs.Plan.{OnPlan};
ghost use Rattle.front.specs.Ready.{AreWholeBooks, HoldStore};
ghost use Rattle.front.specs.SoloView.{SoloView, StandsForBooks, disks_of_solo, do_tell};

use gno_disk::Disk;

/// Where the count of the disks' faults isn't at its last value, they have failed at least as often as when the books were
/// opened; and where they have failed no more often, no fault is seen of any book.
pub fn disks_that_work_show_no_fault<D: Disk>()
    ensures before { (front : SoloView D) (books : SeenBooks) → StandsForBooks D.Disk front books → WereAllOpened books
        → sum_of_faults D.Disk (disks_of_solo front) < 2 ^ 64 - 1 → failed_at_first books ≤ sum_of_faults D.Disk (disks_of_solo front) }
    ensures unseen { (front : SoloView D) (books : SeenBooks) → StandsForBooks D.Disk front books → WereAllOpened books
        → sum_of_faults D.Disk (disks_of_solo front) ≤ failed_at_first books → sum_of_faults D.Disk (disks_of_solo front) < 2 ^ 64 - 1
        → SeeNoFault books }
{}

/// A front that was made on disks that tell their bytes, or found on disks that hold a store, was opened whole: nothing is
/// seen of it yet, and each book has a state that is told.
pub fn ready_disks_are_opened<D: Disk>()
    ensures made { (sacks number : ℕ) (disks : List D) (front : SoloView D) → IsOpenedOn sacks true disks front → front.index.maps ≡ Some (new_maps number)
        → OnPlan (StoreCame D.Disk 15 9 9 1) disks (disks_of_solo front) → do_tell D.Disk disks ≡ true
        → (books : SeenBooks) × AreWholeBooks D.Disk disks front books }
    ensures found { (sacks : ℕ) (disks : List D) (front : SoloView D) → IsOpenedOn sacks false disks front
        → OfIndexDisks D.Disk disks (λ x y. (m : Maps) → HoldsIndex sacks m x y → front.index.maps ≡ Some m)
        → OnPlan (StoreCame D.Disk 2 2 2 1) disks (disks_of_solo front) → HoldStore D.Disk sacks disks
        → (books : SeenBooks) × AreWholeBooks D.Disk disks front books }
{}

/// Disks that hold a store aren't damaged anywhere.
pub fn stores_are_not_damaged<D: Disk>()
    ensures { (sacks : ℕ) (disks : List D) (damage : Damage) → HoldStore D.Disk sacks disks → AreDamaged D.Disk sacks disks damage → ⊥ }
{}

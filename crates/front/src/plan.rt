// The disks of a store, in the order of the plan and in the opposite one, in which they are taken from a vector's end.
ghost use Rattle.std.specs.Prelude.{◌≡◌, ◌+◌, ◌<◌, ◌≤◌, ◌++◌, ◌∷◌, [], reverse, vec_len, vec_capacity};
ghost use Rattle.front_api.specs.Seen.{capped};
ghost use Rattle.metric_index.specs.IndexView.{sum_of_faults};
ghost use Rattle.front.specs.Plan.{five};

use gno_disk::Disk;
use sack_state::SackDisks;

/// How often the disks have failed, at most 2^64 - 1.
pub fn faults_of<D: Disk>(disks: &[D]) -> u64
    ensures { result ≡ capped (sum_of_faults D.Disk disks.now) }
{
    let mut total: u64 = 0;
    for disk in disks {
        total = total.saturating_add(disk.faults());
    }
    total
}

/// Takes the last disk.
pub fn take_disk<D>(disks: &mut Vec<D>) -> D
    requires { 0 < vec_len disks.old }
    ensures taken { disks.old.items ≡ disks.new.items ++ result ∷ [] }
    ensures fewer { vec_len disks.new + 1 ≡ vec_len disks.old }
    ensures room { vec_capacity disks.new ≡ vec_capacity disks.old }
{
    match disks.pop() {
        Some(disk) => disk,
        None => unreachable!(),
    }
}

/// Puts a disk at the end.
pub fn put_disk<D>(disks: &mut Vec<D>, disk: D)
    requires { vec_len disks.old < vec_capacity disks.old }
    ensures put { disks.new.items ≡ disks.old.items ++ disk ∷ [] }
    ensures more { vec_len disks.new ≡ vec_len disks.old + 1 }
    ensures room { vec_capacity disks.old ≤ vec_capacity disks.new }
{
    match disks.push(disk) {
        Ok(()) => {}
        Err(_disk) => unreachable!(),
    }
}

/// Takes the disks of a sack, which are the last ones in the opposite order.
pub fn take_sack<D>(disks: &mut Vec<D>) -> SackDisks<D>
    requires { 5 ≤ vec_len disks.old }
    ensures taken { disks.old.items ≡ disks.new.items ++ reverse (five result) }
    ensures fewer { vec_len disks.new + 5 ≡ vec_len disks.old }
    ensures room { vec_capacity disks.new ≡ vec_capacity disks.old }
{
    let incoming_a = take_disk(disks);
    let incoming_b = take_disk(disks);
    let shelf_a = take_disk(disks);
    let shelf_b = take_disk(disks);
    let blocks = take_disk(disks);
    SackDisks {
        incoming_a,
        incoming_b,
        shelf_a,
        shelf_b,
        blocks,
    }
}

/// Puts them back.
pub fn put_sack<D>(disks: &mut Vec<D>, sack: SackDisks<D>)
    requires { vec_len disks.old + 5 ≤ vec_capacity disks.old }
    ensures put { disks.new.items ≡ disks.old.items ++ reverse (five sack) }
    ensures more { vec_len disks.new ≡ vec_len disks.old + 5 }
    ensures room { vec_capacity disks.old ≤ vec_capacity disks.new }
{
    let SackDisks {
        incoming_a,
        incoming_b,
        shelf_a,
        shelf_b,
        blocks,
    } = sack;
    put_disk(disks, blocks);
    put_disk(disks, shelf_b);
    put_disk(disks, shelf_a);
    put_disk(disks, incoming_b);
    put_disk(disks, incoming_a);
}

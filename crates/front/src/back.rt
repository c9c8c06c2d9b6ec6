// Disks that are given back, in the order of the plan.
ghost use Rattle.std.specs.Prelude.{◌≡◌, ◌+◌, ◌*◌, ◌≤◌, ◌++◌, ◌∷◌, reverse, vec_len, vec_capacity, length};
ghost use Rattle.front.specs.SoloView.{disks_of_sacks};

use crate::plan::{put_disk, put_sack};
use gno_disk::Disk;
use sack_state::Sack;

/// Puts the disks of all sacks back, in the opposite order.
fn put_sacks<D: Disk>(disks: &mut Vec<D>, sacks: Vec<Sack<D>>)
    requires { vec_len disks.old + 5 * vec_len sacks ≤ vec_capacity disks.old }
    ensures put { disks.new.items ≡ disks.old.items ++ reverse (disks_of_sacks sacks.items) }
    ensures more { vec_len disks.new ≡ vec_len disks.old + 5 * vec_len sacks }
    ensures room { vec_capacity disks.old ≤ vec_capacity disks.new }
{
    let mut sacks = sacks;
    'sacks: while let Some(sack) = sacks.pop() {
        put_sack(disks, sack.into_disks());
    }
    sacks.destroy_empty();
}

/// All disks, where these are left of them in the opposite order. It takes no memory.
pub fn give_back<D: Disk>(disks: Vec<D>, a: D, b: D, sacks: Vec<Sack<D>>) -> Vec<D>
    requires { vec_len disks + 5 * vec_len sacks + 2 ≤ vec_capacity disks }
    ensures all { result.items ≡ a ∷ b ∷ disks_of_sacks sacks.items ++ reverse disks.items }
    ensures count { length result.items ≡ length disks.items + 5 * length sacks.items + 2 }
{
    let mut disks = disks;
    put_sacks(&mut disks, sacks);
    put_disk(&mut disks, b);
    put_disk(&mut disks, a);
    disks.reverse();
    disks
}

// Where records stand.
ghost use Rattle.std.specs.Prelude.{◌≡◌, ◌<◌, ◌≤◌, ◌+◌, ◌^◌, ◌++◌, ◌∷◌, [], length, vec_len, vec_capacity, IsOk, OnOk};
ghost use Rattle.gate_log.specs.Records.{log_bytes, bodies_of};
ghost use Rattle.gate_log.specs.Places.{places_of};

use crate::frame::HEAD;
use std::alloc::AllocError;

/// Where the body of a record stands, and its length.
#[derive(Clone, Copy, Debug)]
pub struct Place {
    pub at: u64,
    pub len: u64,
}

/// Adds the place of a body whose gate stands at the end of the log, and gives the new end.
pub fn add_place(places: &mut Vec<Place>, end: u64, body: &[u8]) -> u64
    requires room { vec_len places.old < vec_capacity places.old }
    requires limit { end + 9 + length body.now < 2 ^ 60 }
    ensures end { result ≡ end + 9 + length body.now }
    ensures limit { result < 2 ^ 60 }
    ensures capacity { vec_capacity places.old ≤ vec_capacity places.new }
    ensures place { places.new.items
        ≡ places.old.items ++ (record { at = end + 9; len = length body.now }) ∷ [] }
{
    let place = Place {
        at: end + HEAD,
        len: body.len() as u64,
    };
    if places.push(place).is_err() {
        unreachable!();
    }
    place.at + place.len
}

/// Adds the places of the records of a log from place 0 on, and gives its end.
pub fn add_places(places: &mut Vec<Place>, first: &[u8], rest: &[Vec<u8>]) -> u64
    requires none { places.old.items ≡ [] }
    requires room { length rest.now < vec_capacity places.old }
    requires limit { length (log_bytes (first.now ∷ bodies_of rest.now)) < 2 ^ 60 }
    ensures end { result ≡ length (log_bytes (first.now ∷ bodies_of rest.now)) }
    ensures places { places.new.items ≡ places_of 0 (first.now ∷ bodies_of rest.now) }
    ensures capacity { vec_capacity places.old ≤ vec_capacity places.new }
{
    let mut end = add_place(places, 0, first);
    'records: for body in rest {
        end = add_place(places, end, body);
    }
    end
}

/// Takes room for so many places together, or leaves what there is.
pub fn make_room(places: &mut Vec<Place>, count: usize) -> Result<(), AllocError>
    ensures items { places.new.items ≡ places.old.items }
    ensures room { OnOk result (count ≤ vec_capacity places.new) }
    ensures capacity { vec_capacity places.old ≤ vec_capacity places.new }
    ensures sure { count ≤ vec_capacity places.old → IsOk result }
{
    if places.capacity() < count {
        places.reserve(count)?;
    }
    Ok(())
}

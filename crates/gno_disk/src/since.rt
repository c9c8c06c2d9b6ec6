// What has happened to a disk in memory since the last sync that succeeded.
ghost use Rattle.std.specs.Prelude.{◌≡◌, ◌+◌, ◌<◌, ◌≤◌, ◌^◌, ◌||◌, ◌++◌, ◌∷◌, [], nat_le, map, vec_len, vec_capacity};
ghost use Rattle.std.specs.List.{list_any};
ghost use Rattle.gno_disk.specs.Images.{covers};

/// A place, and how many bytes from there on.
#[derive(Clone, Copy, Debug)]
pub struct Span {
    pub at: u64,
    pub len: u64,
}

/// The least and the greatest length since the last sync that succeeded, and the ranges of all
/// writes since then.
#[derive(Debug, Drop)]
pub struct Since {
    pub least: u64,
    pub greatest: u64,
    pub ranges: Vec<Span>,
}

impl Span {
    ghost use Rattle.gno_disk.specs.Inside.{range_of};

    // Whether it has this place.
    fn covers(&self, place: u64) -> bool
        ensures { result ≡ covers place (range_of self.now) }
    {
        self.at <= place && place - self.at < self.len
    }
}

/// Adds a range.
pub fn add_range(ranges: &mut Vec<Span>, at: u64, len: u64)
    requires { vec_len ranges.old < vec_capacity ranges.old }
    ensures { ranges.new.items ≡ ranges.old.items ++ (record { at = at; len = len }) ∷ [] }
{
    if ranges.push(Span { at, len }).is_err() {
        unreachable!();
    }
}

impl Since {
    ghost use Rattle.gno_disk.specs.Inside.{range_of};

    /// Whether a place is loose.
    pub fn is_loose(&self, place: u64) -> bool
        ensures { result ≡ (nat_le self.now.least place
            || list_any (covers place) (map range_of self.now.ranges.items)) }
    {
        place >= self.least || self.is_covered(place)
    }

    // Whether a write's range covered a place.
    fn is_covered(&self, place: u64) -> bool
        ensures { result ≡ list_any (covers place) (map range_of self.now.ranges.items) }
    {
        for range in &self.ranges {
            if range.covers(place) {
                return true;
            }
        }
        false
    }
}

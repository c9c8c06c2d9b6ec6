// What a front and a bench have seen of the books of a store.
ghost use Rattle.std.specs.Prelude.{◌≡◌, ◌<◌, ℕ};
ghost use Rattle.front_api.specs.Bench.{Duty};
ghost use Rattle.front_api.specs.Seen.{SeenBooks, sack_of};

use series_model::MetricId;

/// A caller of the books of a store. The histories that it has seen of them are the meaning of a front and of a
/// bench, and for a value that is both they are one.
pub trait Histories {
    /// What it was made with.
    type Made;

    /// It stands for these histories, one of each book, each with its own entries, and for the states of the books
    /// at their opening.
    ghost stands: { Self → SeenBooks → Type 0 };

    /// How many sacks there are. No call changes it.
    ghost sack_count: { Self → ℕ };

    /// What it has done as a bench.
    ghost duty: { Self → Duty };

    /// What it was made with. No call changes it.
    ghost made: { Self → Self.Made };
}

/// The number of the sack in which a metric's entries stand, where there are so many sacks.
pub fn sack_of(metric: MetricId, sacks: u16) -> u16
    requires { 0 < sacks }
    ensures { result ≡ sack_of metric sacks }
{
    (metric.0 % sacks as u128) as u16
}

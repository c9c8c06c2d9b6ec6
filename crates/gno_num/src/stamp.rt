// Points in time.
ghost use Rattle.std.specs.Prelude.{◌≡◌, ◌*◌, ◌<◌, ◌^◌};
ghost use Rattle.std.specs.Option.{SomeIff};

use std::marker::Model;

/// Nanoseconds since the Unix epoch, below 9 * 10^18. Stamps have no order of their own: compare
/// their `nanos`.
#[derive(Clone, Copy, Debug, PartialEq, Eq)]
pub struct Stamp(u64);

impl Model for Stamp {
    ghost use Rattle.std.specs.Prelude.{ℕ, ◌*◌, ◌<◌, ◌^◌};
    ghost use Rattle.std.specs.Coded.{coded_ℕ};

    ghost Value = { ℕ };

    ghost coded = { coded_ℕ };

    ghost view = { λ s. s.0 };

    ghost invariant = { λ s. s.0 < 9 * 10 ^ 18 };

    ghost inverse = { λ nanos. record { 0 = nanos } };
}

const END: u64 = 9_000_000_000_000_000_000;

impl Stamp {
    /// The stamp of so many nanoseconds, unless they are 9 * 10^18 or more.
    pub fn of_nanos(nanos: u64) -> Option<Stamp>
        ensures { SomeIff result (nanos < 9 * 10 ^ 18) nanos }
    {
        if nanos < END {
            Some(Stamp(nanos))
        } else {
            None
        }
    }

    /// The nanoseconds since the epoch.
    pub fn nanos(self) -> u64
        ensures value { result ≡ self }
        ensures range { result < 9 * 10 ^ 18 }
    {
        self.0
    }
}

// Lengths of time.
ghost use Rattle.std.specs.Prelude.{◌≡◌, ◌*◌, ◌≤◌, ◌^◌};
ghost use Rattle.std.specs.Option.{SomeIff};
ghost use Rattle.gno_num.specs.Span.{IsSpan};

use std::marker::Model;

/// A length in nanoseconds, from 10^6 (a millisecond) to 9 * 10^18. Spans have no order of their
/// own: compare their `nanos`.
#[derive(Clone, Copy, Debug, PartialEq, Eq)]
pub struct Span(u64);

impl Model for Span {
    ghost use Rattle.std.specs.Prelude.{ℕ};
    ghost use Rattle.std.specs.Coded.{coded_ℕ};
    ghost use Rattle.gno_num.specs.Span.{IsSpan};

    ghost Value = { ℕ };

    ghost coded = { coded_ℕ };

    ghost view = { λ s. s.0 };

    ghost invariant = { λ s. IsSpan s.0 };

    ghost inverse = { λ nanos. record { 0 = nanos } };
}

const SHORTEST: u64 = 1_000_000;

const LONGEST: u64 = 9_000_000_000_000_000_000;

impl Span {
    /// The span of so many nanoseconds, unless they are below 10^6 or above 9 * 10^18.
    pub fn of_nanos(nanos: u64) -> Option<Span>
        ensures { SomeIff result (IsSpan nanos) nanos }
    {
        if SHORTEST <= nanos && nanos <= LONGEST {
            Some(Span(nanos))
        } else {
            None
        }
    }

    /// The nanoseconds.
    pub fn nanos(self) -> u64
        ensures value { result ≡ self }
        ensures range { IsSpan result }
    {
        self.0
    }
}

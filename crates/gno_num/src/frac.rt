// Fractions.
ghost use Rattle.std.specs.Prelude.{◌≡◌, ◌≤◌, ◌<◌, ◌^◌, ℤ, unsigned_abs};
ghost use Rattle.std.specs.Option.{SomeIff};
ghost use Rattle.gno_num.specs.Fraction.{Fraction, IsFraction};

use std::marker::Model;

/// A fraction in units of 10^-6: a whole number over one above 0. It isn't reduced.
#[derive(Clone, Copy, Debug, PartialEq, Eq)]
pub struct Frac {
    num: i128,
    den: u64,
}

impl Model for Frac {
    ghost use Rattle.gno_num.specs.Fraction.{Fraction, IsFraction, fraction_code};

    ghost Value = { Fraction };

    ghost coded = { fraction_code };

    ghost view = { λ f. record { num = f.num; den = f.den } };

    ghost invariant = { λ f. IsFraction f.num f.den };

    ghost inverse = { λ f. record { num = f.num; den = f.den } };
}

const LARGEST: u128 = 100_000_000_000_000_000_000_000_000_000_000_000_000;

impl Frac {
    /// The fraction, unless the denominator is 0 or the magnitude of the numerator is over 10^38.
    pub fn of(num: i128, den: u64) -> Option<Frac>
        ensures { SomeIff result (IsFraction num den) (record { num = num; den = den }) }
    {
        if den > 0 && num.unsigned_abs() <= LARGEST {
            Some(Frac { num, den })
        } else {
            None
        }
    }

    /// The numerator.
    pub fn num(self) -> i128
        ensures value { result ≡ self.num }
        ensures range { unsigned_abs result ≤ 10 ^ 38 }
    {
        self.num
    }

    /// The denominator.
    pub fn den(self) -> u64
        ensures value { result ≡ self.den }
        ensures range { 0 < result }
    {
        self.den
    }
}

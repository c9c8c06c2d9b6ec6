// Fixed-point values.
ghost use Rattle.std.specs.Prelude.{◌≡◌, ◌≤◌, ◌^◌, ℤ, unsigned_abs};
ghost use Rattle.std.specs.Option.{SomeIff};

use std::marker::Model;

/// A value in units of 10^-6. Its magnitude is at most 10^18 units, which is 10^12.
#[derive(Clone, Copy, Debug, PartialEq, Eq)]
pub struct Value(i64);

impl Model for Value {
    ghost use Rattle.std.specs.Prelude.{ℤ, ◌≤◌, ◌^◌, unsigned_abs};
    ghost use Rattle.std.specs.Coded.{coded_ℤ};

    ghost Value = { ℤ };

    ghost coded = { coded_ℤ };

    ghost view = { λ v. v.0 };

    ghost invariant = { λ v. unsigned_abs v.0 ≤ 10 ^ 18 };

    ghost inverse = { λ units. record { 0 = units } };
}

const LARGEST: u64 = 1_000_000_000_000_000_000;

impl Value {
    /// The value of so many units, unless the magnitude is over 10^18.
    pub fn of_units(units: i64) -> Option<Value>
        ensures { SomeIff result (unsigned_abs units ≤ 10 ^ 18) units }
    {
        if units.unsigned_abs() <= LARGEST {
            Some(Value(units))
        } else {
            None
        }
    }

    /// The units.
    pub fn units(self) -> i64
        ensures value { result ≡ self }
        ensures range { unsigned_abs result ≤ 10 ^ 18 }
    {
        self.0
    }
}

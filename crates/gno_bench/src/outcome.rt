// What a part computes.
ghost use Rattle.std.specs.Prelude.{◌≡◌, ◌+◌, ◌<◌, ◌^◌};
ghost use Rattle.gno_bench.specs.Outcome.{told_with, told_by_text};

/// How many things there were, and the sum over them modulo 2^64.
#[derive(Clone, Copy, Debug, PartialEq, Eq)]
pub struct Outcome {
    pub count: u64,
    pub sum: u64,
}

/// Nothing yet.
pub const NOTHING: Outcome = Outcome { count: 0, sum: 0 };

impl Outcome {
    /// The outcome with one more thing that tells a number, or with one that tells none.
    pub fn with(self, told: Option<u64>) -> Outcome
        requires { self.count + 1 < 2 ^ 64 }
        ensures { result ≡ told_with self told }
    {
        match told {
            None => self,
            Some(number) => Outcome {
                count: self.count + 1,
                sum: self.sum.wrapping_add(number),
            },
        }
    }

    /// The number of bytes, and their sum.
    pub fn of_text(text: &[u8]) -> Outcome
        ensures { result ≡ told_by_text text.now }
    {
        let mut sum = 0u64;
        for byte in text {
            sum = sum.wrapping_add(u64::from(*byte));
        }
        Outcome {
            count: text.len() as u64,
            sum,
        }
    }
}

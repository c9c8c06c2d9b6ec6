// Numbers from a seed.
ghost use Rattle.std.specs.Prelude.{◌≡◌, ◌+◌, ◌*◌, ◌/◌, ◌<◌, ◌^◌};
ghost use Rattle.gno_bench.specs.Draw.{next_state};

const FACTOR: u64 = 6_364_136_223_846_793_005;

const STEP: u64 = 1_442_695_040_888_963_407;

/// A row of numbers below 2^31, the same for one seed.
#[derive(Drop)]
pub struct Draws {
    pub state: u64,
}

impl Draws {
    /// The row of a seed.
    pub fn new(seed: u64) -> Draws
        ensures { result.state ≡ seed }
    {
        Draws { state: seed }
    }

    /// The next number.
    pub fn next(&mut self) -> u64
        ensures state { self.new.state ≡ next_state self.old.state }
        ensures drawn { result ≡ next_state self.old.state / 2 ^ 33 }
        ensures small { result < 2 ^ 31 }
    {
        self.state = self.state.wrapping_mul(FACTOR).wrapping_add(STEP);
        self.state >> 33
    }
}

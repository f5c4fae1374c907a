// Numbers by chance, the same in each run.

ghost use Rattle.std.specs.Prelude.{◌<◌};

// What the next number is made from.
#[derive(Drop)]
pub struct Chance {
    state: u64,
}

impl Chance {
    pub fn new(state: u64) -> Chance {
        Chance { state }
    }

    // The next number, below this one.
    pub fn below(&mut self, count: u64) -> u64
        requires { 0 < count }
        ensures { result < count }
    {
        self.state = self
            .state
            .wrapping_mul(6_364_136_223_846_793_005)
            .wrapping_add(1_442_695_040_888_963_407);
        (self.state >> 33) % count
    }
}

ghost use Rattle.std.specs.Prelude.{◌≡◌, ◌%◌, ◌<◌, ◌≢◌};
ghost use Rattle.ipe_sim.specs.Draws.{next, upper};

const MULTIPLIER: u64 = 6_364_136_223_846_793_005;

const INCREMENT: u64 = 1_442_695_040_888_963_407;

/// A linear congruential generator with the multiplier and increment of Knuth's MMIX, of which 31 bits are drawn at a time.
#[derive(Drop)]
pub struct Generator {
    pub state: u64,
}

impl Generator {
    fn draw(&mut self) -> u64
        ensures state { self.new.state ≡ next self.old.state }
        ensures drawn { result ≡ upper self.new.state }
    {
        self.state = self.state.wrapping_mul(MULTIPLIER).wrapping_add(INCREMENT);
        self.state >> 33
    }

    /// A draw as a number below a limit.
    pub fn below(&mut self, limit: u64) -> u64
        requires { limit ≢ 0 }
        ensures state { self.new.state ≡ next self.old.state }
        ensures drawn { result ≡ upper self.new.state % limit }
        ensures within { result < limit }
    {
        self.draw() % limit
    }
}

//! Numbers are drawn from a seed.

ghost use Rattle.std.specs.Prelude.{◌≡◌, ◌<◌};
ghost use Rattle.work_load.specs.Draws.{drawn, next_seed};

/// Numbers that are drawn from a seed, one after the other.
#[derive(Debug, Drop)]
pub struct Draws {
    /// The seed of what is drawn next.
    pub seed: u64,
}

impl Draws {
    /// The next number, below a limit.
    pub fn draw(&mut self, limit: u64) -> u64
        requires { 0 < limit }
        ensures seed { self.new.seed ≡ next_seed self.old.seed }
        ensures number { result ≡ drawn self.new.seed limit }
        ensures below { result < limit }
    {
        self.seed = self
            .seed
            .wrapping_mul(6_364_136_223_846_793_005)
            .wrapping_add(1_442_695_040_888_963_407);
        self.seed / (1 << 33) % limit
    }
}

//! Numbers that look random, the same in each run.
ghost use Rattle.std.specs.Prelude.{◌<◌};

/// A source of numbers: a linear congruential generator, of which the high bits are used.
#[derive(Drop)]
pub struct Dice {
    state: u64,
}

impl Dice {
    pub fn new(seed: u64) -> Dice {
        Dice { state: seed }
    }

    /// A number below so many, or 0 where that is 0.
    pub fn below(&mut self, many: u64) -> u64
        ensures { 0 < many → result < many }
    {
        self.state = self
            .state
            .wrapping_mul(6_364_136_223_846_793_005)
            .wrapping_add(1_442_695_040_888_963_407);
        let high = self.state >> 33;
        if many == 0 { 0 } else { high % many }
    }

    /// One of these, or 0 where there is none: one that stands there twice comes twice as often.
    pub fn one_of(&mut self, all: &[u16]) -> u16 {
        let place = self.below(all.len() as u64) as usize;
        all.get(place).copied().unwrap_or(0)
    }
}

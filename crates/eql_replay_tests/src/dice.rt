//! A small generator of numbers.

/// The generator, by its last number.
#[derive(Drop)]
pub(crate) struct Dice {
    last: u64,
}

impl Dice {
    /// A generator that begins with this number.
    pub(crate) fn seeded(seed: u64) -> Dice {
        Dice { last: seed }
    }

    /// The next number, from 0 to below the number of sides.
    pub(crate) fn roll(&mut self, sides: u32) -> u32 {
        self.last = self
            .last
            .wrapping_mul(6_364_136_223_846_793_005)
            .wrapping_add(1_442_695_040_888_963_407);
        let high = (self.last >> 32) as u32;
        if sides == 0 { 0 } else { high % sides }
    }
}

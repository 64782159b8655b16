//! Numbers in a fixed order that looks random.

/// A linear congruential generator modulo 2^31.
#[derive(Drop)]
pub struct Source {
    state: u64,
}

impl Source {
    /// The generator that starts from a number.
    pub fn new(seed: u64) -> Source {
        Source {
            state: seed % 0x8000_0000,
        }
    }

    /// The next number, below 2^23.
    pub fn next(&mut self) -> u64 {
        self.state = (self.state % 0x8000_0000 * 1_103_515_245 + 12_345) % 0x8000_0000;
        self.state / 256
    }

    /// The next number, made to be below another.
    pub fn below(&mut self, limit: u64) -> u64 {
        self.next() % limit.max(1)
    }
}

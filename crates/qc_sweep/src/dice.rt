//! Numbers that look like chance and are the same in each run.

/// What the next number comes from: never 0.
#[derive(Clone, Copy)]
pub(crate) struct Dice {
    state: u64,
}

impl Dice {
    /// The first of them.
    pub(crate) fn new() -> Dice {
        Dice {
            state: 88_172_645_463_325_252,
        }
    }

    /// The next one below a number; 0 where that is 0.
    pub(crate) fn below(&mut self, count: usize) -> usize {
        let mut x = self.state;
        x ^= x << 13;
        x ^= x >> 7;
        x ^= x << 17;
        self.state = x;
        ((x >> 32).wrapping_mul(count as u64) >> 32) as usize
    }
}

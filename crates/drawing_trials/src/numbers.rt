//! Pseudo-random numbers.

/// A xorshift64* generator: the same numbers for the same seed.
#[derive(Drop)]
pub struct Numbers {
    state: u64,
}

impl Numbers {
    pub fn new(seed: u64) -> Numbers {
        Numbers {
            state: seed.wrapping_mul(0x9e37_79b9_7f4a_7c15) | 1,
        }
    }

    /// Any 64 bits.
    pub fn bits(&mut self) -> u64 {
        let mut x = self.state;
        x ^= x >> 12;
        x ^= x.wrapping_shl(25);
        x ^= x >> 27;
        self.state = x;
        x.wrapping_mul(0x2545_f491_4f6c_dd1d)
    }

    /// A number below `n`, or 0 where `n` is 0.
    pub fn below(&mut self, n: u64) -> u64 {
        let x = self.bits() >> 16;
        if n == 0 { 0 } else { x % n }
    }
}

//! Numbers that a seed makes.

/// How many bits a number has.
const WORD_BITS: u32 = 64;

/// A sequence of numbers, by the method of Steele, Lea and Flood (SplitMix64).
#[derive(Drop)]
pub struct Numbers {
    state: u64,
}

impl Numbers {
    /// The sequence of a round of a job.
    pub fn of(seed: u32, job: u8, round: u32) -> Self {
        let mut numbers = Numbers {
            state: u64::from(seed) ^ u64::from(round).rotate_left(WORD_BITS / 2),
        };
        let start = numbers.draw();
        Numbers {
            state: start ^ u64::from(job),
        }
    }

    /// The next number.
    pub fn draw(&mut self) -> u64 {
        self.state = self.state.wrapping_add(0x9E37_79B9_7F4A_7C15);
        let once = (self.state ^ (self.state >> 30)).wrapping_mul(0xBF58_476D_1CE4_E5B9);
        let twice = (once ^ (once >> 27)).wrapping_mul(0x94D0_49BB_1331_11EB);
        twice ^ (twice >> 31)
    }

    /// The next number, brought below a bound, which is not 0.
    pub fn below(&mut self, bound: u64) -> usize {
        let number = self.draw().checked_rem(bound).unwrap_or(0);
        usize::try_from(number).unwrap_or(0)
    }
}

//! Numbers that a seed gives, one after another, by Steele, Lea and Flood's splitmix64.
ghost use Rattle.std.specs.Prelude.{◌<◌};

/// The state of the numbers.
#[derive(Drop)]
pub(crate) struct Dice {
    state: u64,
}

impl Dice {
    /// The dice of a seed.
    pub(crate) fn new(seed: u32) -> Dice {
        Dice {
            state: u64::from(seed),
        }
    }

    /// The next number below one that is not 0.
    pub(crate) fn below(&mut self, most: u8) -> u8
        requires { 0 < most }
        ensures { result < most }
    {
        self.state = self.state.wrapping_add(0x9e37_79b9_7f4a_7c15);
        let mut mixed = self.state;
        mixed = (mixed ^ (mixed >> 30)).wrapping_mul(0xbf58_476d_1ce4_e5b9);
        mixed = (mixed ^ (mixed >> 27)).wrapping_mul(0x94d0_49bb_1331_11eb);
        mixed ^= mixed >> 31;
        (mixed % u64::from(most)) as u8
    }
}

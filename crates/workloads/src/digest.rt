//! A digest of replies, by Fowler, Noll and Vo's hash of 64 bits.
use moves::{Move, Square};

/// How many questions were answered, how many were won, and the hash of all replies.
#[derive(Clone, Copy)]
pub(crate) struct Digest {
    pub(crate) asked: u32,
    pub(crate) won: u32,
    pub(crate) sum: u64,
}

impl Digest {
    /// The digest of no reply.
    pub(crate) fn new() -> Digest {
        Digest {
            asked: 0,
            won: 0,
            sum: 0xcbf2_9ce4_8422_2325,
        }
    }

    /// With a byte more.
    pub(crate) fn byte(self, byte: u8) -> Digest {
        Digest {
            sum: (self.sum ^ u64::from(byte)).wrapping_mul(0x0000_0100_0000_01b3),
            ..self
        }
    }

    /// With a move more.
    pub(crate) fn line(self, m: Move, plies: u8) -> Digest {
        let promotion = match m.promotion {
            Some(kind) => kind as u8 + 1,
            None => 0,
        };
        self.square(m.from).square(m.to).byte(promotion).byte(plies)
    }

    fn square(self, square: Square) -> Digest {
        self.byte(square.file).byte(square.rank)
    }

    /// With a reply ended, which tells of a win or of none.
    pub(crate) fn reply(self, won: bool) -> Digest {
        Digest {
            asked: self.asked.wrapping_add(1),
            won: self.won.wrapping_add(u32::from(won)),
            sum: self.sum,
        }
    }
}

//! The parts of a certificate.
use moves::Move;
use problems::Answer;

/// A mate, as the first line tells it.
#[derive(Clone, Copy)]
pub struct Mate {
    pub plies: u8,
    pub first: Move,
}

/// What the next line of a certificate is.
#[derive(Clone, Copy)]
pub enum Part {
    /// The answer.
    First,
    /// The yes claim about the position itself, which has the answer's move.
    Win(Mate),
    /// The yes claim at this place.
    Yes(Mate, usize),
    /// The moves before the answer's.
    Lesser(Mate),
    /// The no claim at this place, or nothing behind the last.
    No(Answer, usize),
}

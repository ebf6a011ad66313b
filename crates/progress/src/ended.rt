//! What a search tells of itself.

/// What has ended.
#[derive(Clone, Copy, PartialEq, Eq, Debug)]
pub enum Ended {
    /// A job of this number, which wins.
    Wins(u16),
    /// A job of this number, which doesn't win within the round's plies.
    Loses(u16),
    /// A round in which no job wins.
    Round,
}

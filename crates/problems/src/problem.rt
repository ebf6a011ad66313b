//! What is solved: a position, what is played for, and within how many plies.
ghost use Rattle.std.specs.Prelude.{◌↔◌, IsTrue};
ghost use Rattle.problems.specs.Roots.{IsLimit};

use crate::answer::MOST_LIMIT;
use board::Position;
use moves::Goal;

/// What is solved: whether the side to move forces the goal, and within so many plies at most, of 1 to 63.
#[derive(Clone, Copy)]
pub struct Problem {
    pub position: Position,
    pub goal: Goal,
    pub limit: u8,
    ghost limited: { IsLimit limit },
}

/// Whether so many plies are searched: 1 to 63.
pub fn is_limit(plies: u8) -> bool
    ensures { IsTrue result ↔ IsLimit plies }
{
    1 <= plies && plies <= MOST_LIMIT
}

impl Problem {
    ghost use Rattle.std.specs.Prelude.{MatchOption};
    ghost use Rattle.problems.specs.Problems.{IsProblemOf};

    /// The problem of a position, for the side to move. `None` where the limit is none of 1 to 63.
    pub fn of(position: &Position, goal: Goal, limit: u8) -> Option<Problem>
        ensures { MatchOption result (IsLimit limit → ⊥) (IsProblemOf position.now goal limit) }
    {
        if !is_limit(limit) {
            return None;
        }
        let position = *position;
        Some(Problem {
            position,
            goal,
            limit,
        })
    }
}

//! What a move does to the other side's king.
ghost use Rattle.std.specs.Prelude.{◌≡◌};
ghost use Rattle.algebraic.specs.Naming.{Leaves};
ghost use Rattle.algebraic.specs.Text.{ending_text};

use moves::{Board, Goal, has_lawful_move, mover_in_check};

/// How a move leaves the other side.
#[derive(Clone, Copy)]
pub(crate) enum Ending {
    Mated,
    Stalemated,
    InCheck,
    Free,
}

impl Ending {
    pub(crate) fn text(self) -> &'static str
        ensures { result.now ≡ ending_text self }
    {
        match self {
            Ending::Mated => "#",
            Ending::Stalemated => "=",
            Ending::InCheck => "+",
            Ending::Free => "",
        }
    }
}

/// How the side to move is left. A stalemate is told of where it is a goal.
pub(crate) fn ending_of(goal: Goal, board: &Board) -> Ending
    ensures { Leaves goal board.now result }
{
    let checked = mover_in_check(board);
    if has_lawful_move(board) {
        if checked {
            Ending::InCheck
        } else {
            Ending::Free
        }
    } else if checked {
        Ending::Mated
    } else if goal == Goal::MateOrStale {
        Ending::Stalemated
    } else {
        Ending::Free
    }
}

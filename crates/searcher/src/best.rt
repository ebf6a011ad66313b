//! The attacker's best move.
ghost use Rattle.std.specs.Prelude.{◌<◌, ◌≤◌, MatchOption};
ghost use Rattle.rules.specs.Forces.{Forces};
ghost use Rattle.problems.specs.Answer.{IsFewest};
ghost use Rattle.problems.specs.Roots.{IsLimit};
ghost use Rattle.searcher.specs.Best.{IsBestMove};

use crate::decider::Decider;
use crate::solving::least_win;
use moves::{Board, Goal, Move};
use problems::Root;

/// The fewest plies, where the side to move forces the goal within the limit; or `None` where the decider was told to stop.
fn fewest_plies<D: Decider>(decider: &mut D, root: &Root) -> Option<u8>
    requires forced { Forces root.now.goal root.now.board.mover root.now.board root.now.limit }
    ensures goes { D.goes decider.old decider.new }
    ensures fewest { MatchOption result (D.told decider.new)
        (λ n. IsLimit n × IsFewest root.now.goal root.now.board n) }
{
    let q = root.question();
    for round in 0..(root.limit + 1) / 2 {
        let plies = 2 * round + 1;
        if decider.forces(&q, plies)? {
            return Some(plies);
        }
    }
    unreachable!()
}

/// The best move, where the side to move forces the goal within the limit; or `None` where the decider was told to stop.
pub(crate) fn best_move<D: Decider>(
    decider: &mut D,
    board: &Board,
    goal: Goal,
    limit: u8,
) -> Option<Move>
    requires limit { limit ≤ 63 }
    requires forced { Forces goal board.now.mover board.now limit }
    ensures goes { D.goes decider.old decider.new }
    ensures best { MatchOption result (D.told decider.new) (IsBestMove goal board.now) }
{
    let root = Root::on(board.copied(), goal, limit);
    let plies = fewest_plies(decider, &root)?;
    match least_win(decider, &root, plies)? {
        Some(job) => Some(root.moves[usize::from(job)]),
        None => unreachable!(),
    }
}

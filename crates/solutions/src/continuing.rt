//! The continuations of a position in which the attacker is to move.
ghost use Rattle.std.specs.Prelude.{◌≡◌, IfErr, IfOk, MatchOption};
ghost use Rattle.problems.specs.Answer.{IsFewest, IsLeastWin};
ghost use Rattle.searcher.specs.declared.halt.Halt.TheVariants.{Stopped};
ghost use Rattle.problems.specs.Roots.{IsRoot, IsLimit};
ghost use Rattle.solutions.specs.Lines.{ListsContinuations};

use moves::{Board, Goal, Move};
use problems::Root;
use searcher::{Decider, Halt, least_win};
use std::alloc::Allocator;

/// The least of the moves that force the goal in the fewest plies; or `None` where the decider was told to stop.
pub(crate) fn least_move<D: Decider>(
    decider: &mut D,
    board: &Board,
    goal: Goal,
    plies: u8,
) -> Option<Move>
    requires plies { IsLimit plies }
    requires fewest { IsFewest goal board.now plies }
    ensures goes { D.goes decider.old decider.new }
    ensures least { MatchOption result (D.told decider.new) (IsLeastWin goal board.now plies) }
{
    let root = Root::on(board.copied(), goal, plies);
    match least_win(decider, &root, plies)? {
        Some(job) => Some(root.moves[usize::from(job)]),
        None => unreachable!(),
    }
}

/// All moves that force the goal within so many plies.
pub fn continuations_of<D: Decider, A: Allocator>(
    alloc: A,
    decider: &mut D,
    root: &Root,
    plies: u8,
) -> Result<Vec<Move, A>, Halt>
    requires root { IsRoot root.now }
    requires plies { IsLimit plies }
    ensures goes { D.goes decider.old decider.new }
    ensures moves { IfOk result (λ moves. ListsContinuations root.now.goal root.now.board plies moves.items) }
    ensures halt { IfErr result (λ halt. halt ≡ Stopped → D.told decider.new) }
{
    let mut moves = Vec::new(alloc);
    for job in 0..root.jobs() {
        let first = root.moves[usize::from(job)];
        let Some(wins) = decider.wins(root, job, plies) else {
            return Err(Halt::Stopped);
        };
        if wins {
            moves.push(first)?;
        }
    }
    Ok(moves)
}

//! What a key threatens.
ghost use Rattle.std.specs.Prelude.{◌≡◌, ◌≤◌, IfErr, IfOk};
ghost use Rattle.rules.specs.Squares.{Ply};
ghost use Rattle.rules.specs.Moves.{IsLawful};
ghost use Rattle.rules.specs.Forces.{IsReached};
ghost use Rattle.searcher.specs.declared.halt.Halt.TheVariants.{Stopped};
ghost use Rattle.solutions.specs.Solutions.{AreThreats};

use crate::continuing::continuations_of;
use crate::passing::passed;
use crate::threats::Threats;
use moves::{Board, Goal, has_lawful_move};
use problems::{Answer, Root};
use searcher::{Decider, Halt, solve_by};
use std::alloc::Allocator;

/// The threats of a key that leads to the board, with so many plies left.
pub fn threats_of<D: Decider, A: Allocator>(
    alloc: A,
    decider: &mut D,
    board: &Board,
    goal: Goal,
    left: u8,
) -> Result<Threats<A>, Halt>
    requires left { left ≤ 63 }
    requires over { ((m : Ply) → IsLawful board.now m → ⊥) → IsReached goal board.now }
    ensures goes { D.goes decider.old decider.new }
    ensures threats { IfOk result (AreThreats goal board.now left) }
    ensures halt { IfErr result (λ halt. halt ≡ Stopped → D.told decider.new) }
{
    if !has_lawful_move(board) {
        return Ok(Threats::End);
    }
    let Some(next) = passed(board) else {
        return Ok(Threats::Check);
    };
    let root = Root::on(next, goal, left);
    match solve_by(decider, &root) {
        None => Err(Halt::Stopped),
        Some(Answer::NoneWithin(_)) => Ok(Threats::Zugzwang),
        Some(Answer::Mate { plies, .. }) => Ok(Threats::Moves {
            plies,
            moves: continuations_of(alloc, decider, &root, plies)?,
        }),
    }
}

//! The replies that refute a move.
ghost use Rattle.std.specs.Prelude.{◌≡◌, ◌≤◌, IfErr, IfOk};
ghost use Rattle.searcher.specs.declared.halt.Halt.TheVariants.{Stopped};
ghost use Rattle.solutions.specs.Lines.{ListsMoves};
ghost use Rattle.solutions.specs.Solutions.{Refutes};

use crate::replying::is_met;
use moves::{Board, Goal, Move, lawful_on};
use searcher::{Decider, Halt};
use std::alloc::Allocator;

/// The replies behind which the attacker doesn't force the goal within so many plies, in order.
pub fn refutations_of<D: Decider, A: Allocator>(
    alloc: A,
    decider: &mut D,
    board: &Board,
    goal: Goal,
    plies: u8,
) -> Result<Vec<Move, A>, Halt>
    requires plies { plies ≤ 63 }
    ensures goes { D.goes decider.old decider.new }
    ensures refutations { IfOk result (λ found. ListsMoves board.now.game (Refutes goal board.now plies) found.items) }
    ensures halt { IfErr result (λ halt. halt ≡ Stopped → D.told decider.new) }
{
    let mut refutations = Vec::new(alloc);
    let replies = lawful_on(board);
    for reply in replies.as_slice() {
        let Some(met) = is_met(decider, board, *reply, goal, plies) else {
            return Err(Halt::Stopped);
        };
        if !met {
            refutations.push(*reply)?;
        }
    }
    Ok(refutations)
}

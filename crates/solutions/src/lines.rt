//! The best line of a position in which the attacker is to move.
ghost use Rattle.std.specs.Prelude.{◌≡◌, ℕ, ◌+◌, ◌-◌, ◌*◌, ◌≤◌, ◌++◌, List, IfErr, IfOk, OnOk, MatchOption};
ghost use Rattle.board.specs.Board.{PlainBoard};
ghost use Rattle.rules.specs.Squares.{Ply};
ghost use Rattle.rules.specs.Moves.{IsLawful};
ghost use Rattle.problems.specs.Answer.{IsFewest};
ghost use Rattle.searcher.specs.declared.halt.Halt.TheVariants.{Stopped};
ghost use Rattle.problems.specs.Roots.{IsLimit};
ghost use Rattle.solutions.specs.Lines.{IsMet, IsLeastLasting, IsBestLine};

use crate::continuing::least_move;
use crate::replying::is_met;
use moves::{Board, Goal, Move, after, has_lawful_move, lawful_on};
use searcher::{Decider, Halt};
use std::alloc::Allocator;

/// The least of the replies that resist longest, where so many plies meet each, and fewer don't; or `None` where the decider was told to stop.
fn longest_reply<D: Decider>(decider: &mut D, board: &Board, goal: Goal, plies: u8) -> Option<Move>
    requires plies { IsLimit plies }
    requires odd { (k : ℕ) × (plies ≡ 2 * k + 1) }
    requires met { (r : Ply) → IsLawful board.now r → IsMet goal board.now plies r }
    requires last { ((r : Ply) → IsLawful board.now r → IsMet goal board.now (plies - 2) r) → ⊥ }
    ensures goes { D.goes decider.old decider.new }
    ensures longest { MatchOption result (D.told decider.new) (IsLeastLasting goal board.now plies) }
{
    let replies = lawful_on(board);
    for reply in replies.as_slice() {
        if !is_met(decider, board, *reply, goal, plies.saturating_sub(2))? {
            return Some(*reply);
        }
    }
    unreachable!()
}

/// Adds the best line of the board, where these plies are the fewest.
#[cycle(lines)]
fn extend_line<D: Decider, A: Allocator>(
    decider: &mut D,
    board: &Board,
    goal: Goal,
    plies: u8,
    line: &mut Vec<Move, A>,
) -> Result<(), Halt>
    requires plies { plies ≤ 63 }
    requires fewest { IsFewest goal board.now plies }
    ensures goes { D.goes decider.old decider.new }
    ensures line { OnOk result ((rest : List Ply)
        × (line.new.items ≡ line.old.items ++ rest) × IsBestLine goal board.now plies rest) }
    ensures halt { IfErr result (λ halt. halt ≡ Stopped → D.told decider.new) }
{
    let Some(attack) = least_move(decider, board, goal, plies) else {
        return Err(Halt::Stopped);
    };
    line.push(attack)?;
    let next = after(board, attack);
    if !has_lawful_move(&next) {
        return Ok(());
    }
    let Some(reply) = longest_reply(decider, &next, goal, plies - 2) else {
        return Err(Halt::Stopped);
    };
    line.push(reply)?;
    extend_line(decider, &after(&next, reply), goal, plies - 2, line)
}

/// The best line, where these plies are the fewest.
pub(crate) fn best_line<D: Decider, A: Allocator>(
    alloc: A,
    decider: &mut D,
    board: &Board,
    goal: Goal,
    plies: u8,
) -> Result<Vec<Move, A>, Halt>
    requires plies { plies ≤ 63 }
    requires fewest { IsFewest goal board.now plies }
    ensures goes { D.goes decider.old decider.new }
    ensures line { IfOk result (λ line. IsBestLine goal board.now plies line.items) }
    ensures halt { IfErr result (λ halt. halt ≡ Stopped → D.told decider.new) }
{
    let mut line = Vec::new(alloc);
    extend_line(decider, board, goal, plies, &mut line)?;
    Ok(line)
}

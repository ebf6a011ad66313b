//! The tries of a problem.
ghost use Rattle.std.specs.Prelude.{◌≡◌, ◌≤◌, IfErr, IfOk, MatchOption};
ghost use Rattle.rules.specs.Squares.{Ply};
ghost use Rattle.searcher.specs.declared.halt.Halt.TheVariants.{Stopped};
ghost use Rattle.problems.specs.Roots.{IsRoot};
ghost use Rattle.solutions.specs.Solutions.{RefutesAlone, ListsTries};

use crate::first_try::Try;
use crate::replying::is_met;
use moves::{Board, Goal, Move, after, lawful_on};
use problems::Root;
use searcher::{Decider, Halt};
use std::alloc::Allocator;

/// The one reply that isn't met within so many plies, if there is one and no other; or `None` where the decider was told to stop.
fn refutation_of<D: Decider>(
    decider: &mut D,
    board: &Board,
    goal: Goal,
    plies: u8,
) -> Option<Option<Move>>
    requires plies { plies ≤ 63 }
    ensures goes { D.goes decider.old decider.new }
    ensures alone { MatchOption result (D.told decider.new) (λ found. MatchOption found
        ((r : Ply) → RefutesAlone goal board.now plies r → ⊥) (RefutesAlone goal board.now plies)) }
{
    let mut found = None;
    let replies = lawful_on(board);
    for reply in replies.as_slice() {
        if is_met(decider, board, *reply, goal, plies)? {
            continue;
        }
        if found.is_some() {
            return Some(None);
        }
        found = Some(*reply);
    }
    Some(found)
}

/// The tries, where the keys take so many plies: none where they end the game at once.
pub fn tries_of<D: Decider, A: Allocator>(
    alloc: A,
    decider: &mut D,
    root: &Root,
    plies: u8,
) -> Result<Vec<Try, A>, Halt>
    requires root { IsRoot root.now }
    requires plies { plies ≤ 63 }
    ensures goes { D.goes decider.old decider.new }
    ensures tries { IfOk result (λ tries. ListsTries root.now.goal root.now.board plies tries.items) }
    ensures halt { IfErr result (λ halt. halt ≡ Stopped → D.told decider.new) }
{
    let mut tries = Vec::new(alloc);
    if plies < 2 {
        return Ok(tries);
    }
    for first in root.moves.as_slice() {
        let next = after(&root.board, *first);
        let Some(found) = refutation_of(decider, &next, root.goal, plies.saturating_sub(2)) else {
            return Err(Halt::Stopped);
        };
        if let Some(refutation) = found {
            tries.push(Try {
                first: *first,
                refutation,
            })?;
        }
    }
    Ok(tries)
}

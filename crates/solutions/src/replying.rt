//! Replies, and whether they are met.
ghost use Rattle.std.specs.Prelude.{◌↔◌, ◌≤◌, IsTrue, MatchOption};
ghost use Rattle.rules.specs.Moves.{IsLawful};
ghost use Rattle.solutions.specs.Lines.{IsMet};

use moves::{Board, Goal, Move, after};
use problems::Question;
use searcher::Decider;

/// Whether the attacker forces the goal within so many plies behind the reply; or `None` where the decider was told to stop.
pub(crate) fn is_met<D: Decider>(
    decider: &mut D,
    board: &Board,
    reply: Move,
    goal: Goal,
    plies: u8,
) -> Option<bool>
    requires reply { IsLawful board.now reply }
    requires plies { plies ≤ 63 }
    ensures goes { D.goes decider.old decider.new }
    ensures met { MatchOption result (D.told decider.new) (λ yes. IsTrue yes ↔ IsMet goal board.now plies reply) }
{
    let position = after(board, reply);
    let attacker = position.mover();
    let q = Question {
        position,
        attacker,
        goal,
    };
    decider.forces(&q, plies)
}

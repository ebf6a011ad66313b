//! What is asked: whether the attacker forces the goal from a position.
ghost use Rattle.std.specs.Prelude.{◌≡◌, MatchOption};
ghost use Rattle.board.specs.Games.{is_same_side};
ghost use Rattle.rules.specs.Moves.{IsLawful};
ghost use Rattle.problems.specs.Questions.{LeadsTo};

use board::Side;
use moves::{Board, Goal, Move, after, after_if_lawful};

/// Whether the attacker forces the goal from the position.
#[derive(Drop)]
pub struct Question {
    pub position: Board,
    pub attacker: Side,
    pub goal: Goal,
}

impl Question {
    /// Whether the same attacker forces the same goal from the position after a lawful move.
    pub fn after(&self, m: Move) -> Question
        requires { IsLawful self.now.position m }
        ensures { LeadsTo self.now m result }
    {
        Question {
            position: after(&self.position, m),
            attacker: self.attacker,
            goal: self.goal,
        }
    }

    /// Whether the same attacker forces the same goal from the position after the move, if the move is lawful.
    pub fn after_if_lawful(&self, m: Move) -> Option<Question>
        ensures { MatchOption result (IsLawful self.now.position m → ⊥) (LeadsTo self.now m) }
    {
        let Some(position) = after_if_lawful(&self.position, m) else {
            return None;
        };
        Some(Question {
            position,
            attacker: self.attacker,
            goal: self.goal,
        })
    }

    /// A copy of the question.
    pub fn copied(&self) -> Question
        ensures { result ≡ self.now }
    {
        let position = self.position.copied();
        Question {
            position,
            attacker: self.attacker,
            goal: self.goal,
        }
    }

    /// Whether the attacker is to move.
    pub fn is_own_turn(&self) -> bool
        ensures { result ≡ is_same_side self.now.attacker self.now.position.mover }
    {
        self.attacker == self.position.mover()
    }
}

//! A problem with its lawful moves.
ghost use Rattle.std.specs.Prelude.{◌≤◌};

use crate::problem::Problem;
use crate::question::Question;
use arrayvec::ArrayVec;
use moves::{Board, Goal, Move, after, lawful_on};

/// A board, what is played for and within how many plies, of 0 to 63, with the lawful moves: the jobs, by number.
#[derive(Drop)]
pub struct Root {
    pub board: Board,
    pub goal: Goal,
    pub limit: u8,
    pub moves: ArrayVec<Move, 512>,
    ghost limited: { limit ≤ 63 },
}

impl Root {
    ghost use Rattle.std.specs.Prelude.{◌≡◌, length};
    ghost use Rattle.problems.specs.Questions.{question};
    ghost use Rattle.problems.specs.Roots.{IsRoot, IsJobOf, IsQuestionOf};

    /// The root of a problem.
    pub fn of(problem: &Problem) -> Root
        ensures position { result.board ≡ problem.now.position }
        ensures goal { result.goal ≡ problem.now.goal }
        ensures limit { result.limit ≡ problem.now.limit }
        ensures lists { IsRoot result }
    {
        Root::on(Board::of(&problem.position), problem.goal, problem.limit)
    }

    /// The root of a board, for the side to move.
    pub fn on(board: Board, goal: Goal, limit: u8) -> Root
        requires limit { limit ≤ 63 }
        ensures position { result.board ≡ board }
        ensures goal { result.goal ≡ goal }
        ensures limit { result.limit ≡ limit }
        ensures lists { IsRoot result }
    {
        let moves = lawful_on(&board);
        Root {
            board,
            goal,
            limit,
            moves,
        }
    }

    /// How many jobs there are.
    pub fn jobs(&self) -> u16
        ensures value { result ≡ length self.now.moves.items }
        ensures few { result ≤ 512 }
    {
        self.moves.len() as u16
    }

    /// Whether the attacker, who is to move at the root, forces the goal from the position.
    fn question_at(&self, position: Board) -> Question
        ensures { result ≡ question position self.now.board.mover self.now.goal }
    {
        Question {
            position,
            attacker: self.board.mover(),
            goal: self.goal,
        }
    }

    /// Whether the attacker forces the goal after the job's move.
    pub fn question_of(&self, job: u16) -> Question
        requires { IsJobOf self.now job }
        ensures { IsQuestionOf self.now job result }
    {
        self.question_at(after(&self.board, self.moves[usize::from(job)]))
    }

    /// Whether the attacker, who is to move, forces the goal.
    pub fn question(&self) -> Question
        ensures { result ≡ question self.now.board self.now.board.mover self.now.goal }
    {
        self.question_at(self.board.copied())
    }
}

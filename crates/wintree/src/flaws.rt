//! Why a tree doesn't win.

ghost use Rattle.std.specs.Prelude.{◌≡◌, ◌<◌, [], ◌∷◌, length};

use arrayvec::ArrayVec;
use moves::Move;

/// What is wrong with an attacker's move of a tree, or with what stands right behind it.
#[derive(Clone, Copy, Debug, PartialEq, Eq)]
pub enum Wrong {
    /// The move isn't lawful.
    Unlawful,
    /// Mate stands there, and the defender isn't mated.
    NotMate,
    /// Stalemate stands there, and the defender isn't stalemated.
    NotStale,
    /// Stalemate stands there, and mate alone is the goal.
    StaleForMate,
    /// This lawful reply is left out.
    LeftOut(Move),
    /// This reply isn't lawful.
    UnlawfulReply(Move),
    /// This reply is lawful, and doesn't stand at its place among the lawful ones in order.
    OutOfPlace(Move),
}

/// A move of the attacker's in a tree where something is wrong.
#[derive(Drop)]
pub struct Flaw {
    /// The tree's moves up to that one, which is the last.
    pub line: ArrayVec<Move, 63>,
    pub wrong: Wrong,
}

impl Flaw {
    /// A flaw whose line has no move yet.
    pub(crate) fn at_once(wrong: Wrong) -> Flaw
        ensures line { result.line.items ≡ [] }
        ensures wrong { result.wrong ≡ wrong }
    {
        Flaw {
            line: ArrayVec::new(),
            wrong,
        }
    }

    /// The flaw with one move more in front of its line.
    pub(crate) fn behind(self, m: Move) -> Flaw
        requires { length self.line.items < 63 }
        ensures line { result.line.items ≡ m ∷ self.line.items }
        ensures wrong { result.wrong ≡ self.wrong }
    {
        let mut line = self.line;
        line.insert(0, m);
        Flaw {
            line,
            wrong: self.wrong,
        }
    }
}

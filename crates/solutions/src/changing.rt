//! How the set play meets a reply, and whether that changed.
ghost use Rattle.std.specs.Prelude.{◌≡◌, ◌↔◌, ◌≤◌, All, IsTrue, MatchOption};
ghost use Rattle.board.specs.Board.{PlainBoard};
ghost use Rattle.rules.specs.Squares.{Ply};
ghost use Rattle.rules.specs.Moves.{IsLawful};
ghost use Rattle.solutions.specs.Changes.{IsAlike, IsChanged, IsSetMove};

use crate::passing::passed;
use board::Kind;
use moves::{Board, Goal, Move, after_if_lawful};
use problems::{Answer, Root};
use searcher::{Decider, solve_by};

/// The first continuation of the set play behind a reply, and the board that it is made on.
#[derive(Drop)]
pub struct SetMove {
    pub board: Board,
    pub first: Move,
}

/// How the set play meets the reply, where the keys take so many plies, if it does; or `None` where the decider was told to stop.
pub fn set_move_of<D: Decider>(
    decider: &mut D,
    board: &Board,
    goal: Goal,
    plies: u8,
    reply: Move,
) -> Option<Option<SetMove>>
    requires plies { plies ≤ 63 }
    ensures goes { D.goes decider.old decider.new }
    ensures found { MatchOption result (D.told decider.new) (λ found. MatchOption found
        ((c : PlainBoard) (s : Ply) → IsSetMove goal board.now plies reply c s → ⊥)
        (λ set. IsSetMove goal board.now plies reply set.board set.first)) }
{
    let Some(set) = passed(board) else {
        return Some(None);
    };
    let Some(next) = after_if_lawful(&set, reply) else {
        return Some(None);
    };
    let root = Root::on(next, goal, plies.saturating_sub(2));
    match solve_by(decider, &root)? {
        Answer::NoneWithin(_) => Some(None),
        Answer::Mate { first, .. } => Some(Some(SetMove {
            board: root.board.copied(),
            first,
        })),
    }
}

/// Whether both become the same, or neither becomes anything.
fn becomes_same(kind: Option<Kind>, other: Option<Kind>) -> bool
    ensures { IsTrue result ↔ (kind ≡ other) }
{
    match (kind, other) {
        (None, None) => true,
        (Some(kind), Some(other)) => kind == other,
        _ => false,
    }
}

/// Whether the two moves, each on its board, are alike to a reader.
fn is_alike(board: &Board, m: Move, set: &SetMove) -> bool
    requires lawful { IsLawful board.now m }
    requires set { IsLawful set.now.board set.now.first }
    ensures { IsTrue result ↔ IsAlike board.now m set.now.board set.now.first }
{
    let first = set.first;
    let Some(unit) = board.unit_at(m.from) else {
        unreachable!()
    };
    let Some(other) = set.board.unit_at(first.from) else {
        unreachable!()
    };
    unit == other && m.to == first.to && becomes_same(m.promotion, first.promotion)
}

/// Whether the set play's move is alike to none of these moves of the board.
pub fn is_changed(board: &Board, moves: &[Move], set: &SetMove) -> bool
    requires lawful { All (IsLawful board.now) moves.now }
    requires set { IsLawful set.now.board set.now.first }
    ensures { IsTrue result ↔ IsChanged board.now moves.now set.now.board set.now.first }
{
    for m in moves {
        if is_alike(board, *m, set) {
            return false;
        }
    }
    true
}

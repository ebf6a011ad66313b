//! How moves were ordered at first, by a table of costs: what today's order is compared with.
ghost use Rattle.std.specs.Prelude.{◌<◌, ◌≤◌, All, IfSome, length};
ghost use Rattle.std.specs.List.Sorted.{IsPermutation};
ghost use Rattle.rules.specs.Moves.{IsLawful};
ghost use Rattle.problems.specs.Tried.{ListsAll};

use arrayvec::ArrayVec;
use board::{Kind, Side};
use moves::{Board, Move, after, count_lawful, list_lawful, mover_in_check};
use problems::Question;

/// The costs of moves, by their two squares: those of less cost are tried first.
#[derive(Drop)]
struct Costs {
    of_pair: [u16; 1296],
}

/// The place of the move's two squares among those of all pairs.
pub(crate) fn pair_of(m: Move) -> usize
    ensures { result < 1296 }
{
    let from = usize::from(m.from.file) + 6 * usize::from(m.from.rank);
    let to = usize::from(m.to.file) + 6 * usize::from(m.to.rank);
    36 * from + to
}

/// From so many plies on the replies to an attacker's move are counted.
const COUNTED_FROM: u8 = 4;

/// What a unit is worth, in pawns.
fn worth(kind: Kind) -> u16
    ensures { result ≤ 9 }
{
    match kind {
        Kind::Queen => 9,
        Kind::Rook => 5,
        Kind::Bishop => 3,
        Kind::Knight => 3,
        Kind::Pawn => 1,
        Kind::King => 0,
    }
}

/// What the lawful move takes is worth so much, in pawns.
fn worth_taken(board: &Board, m: Move) -> u16
    requires { IsLawful board.now m }
    ensures { result ≤ 9 }
{
    match board.unit_at(m.to) {
        Some(unit) => worth(unit.kind),
        None => 0,
    }
}

/// How far the side's king is from the middle of the board, in half steps of files and of ranks.
fn off_middle(board: &Board, side: Side) -> u16
    ensures { result ≤ 24 }
{
    let width = board.game().width();
    let king = board.king(side);
    u16::from((2 * king.file + 1).abs_diff(width)) + u16::from((2 * king.rank + 1).abs_diff(width))
}

/// What counts against the defender's reply to the board `next`: each move that it leaves the attacker, and how far its king is from the
/// middle then; what it takes counts for it.
fn cost_of_reply(q: &Question, m: Move, next: &Board) -> u16
    requires { IsLawful q.now.position m }
{
    let left = count_lawful(next).min(511);
    let off = off_middle(next, q.position.mover());
    16 * left + 8 * off + 64 * (9 - worth_taken(&q.position, m))
}

/// What counts against the attacker's move to the board `next`: that it gives no check, then how many replies it leaves, and then how
/// seldom it won.
fn cost_of_move(won: &[u8; 1296], n: u8, m: Move, next: &Board) -> u16 {
    let replies = if n < COUNTED_FROM {
        0
    } else {
        count_lawful(next).min(127)
    };
    let quiet = if mover_in_check(next) { 0 } else { 0x8000 };
    let seldom = u8::MAX - won[pair_of(m)];
    quiet + replies * 256 + u16::from(seldom)
}

/// What counts against the move.
fn cost(won: &[u8; 1296], q: &Question, n: u8, m: Move) -> u16
    requires { IsLawful q.now.position m }
{
    let next = after(&q.position, m);
    if q.is_own_turn() {
        cost_of_move(won, n, m, &next)
    } else {
        cost_of_reply(q, m, &next)
    }
}

/// The costs of the moves. Where moves have the same two squares, it is that of the last.
fn costs_of(won: &[u8; 1296], q: &Question, n: u8, moves: &[Move]) -> Costs
    requires { All (IsLawful q.now.position) moves.now }
{
    let mut costs = Costs { of_pair: [0; 1296] };
    for m in moves {
        costs.of_pair[pair_of(*m)] = cost(won, q, n, *m);
    }
    costs
}

/// Whether two neighbours on the list, which have other squares, cost the same.
fn has_equals(costs: &Costs, moves: &[Move]) -> bool {
    for i in 1..moves.len() {
        let [a, b] = [pair_of(moves[i - 1]), pair_of(moves[i])];
        if a != b && costs.of_pair[a] == costs.of_pair[b] {
            return true;
        }
    }
    false
}

/// Puts the lawful moves into the list in place of what it held, those of least cost first, and tells whether some with other squares cost
/// the same.
#[inline(never)]
pub(crate) fn in_order(
    won: &[u8; 1296],
    q: &Question,
    n: u8,
    moves: &mut ArrayVec<Move, 512>,
) -> bool
    ensures { ListsAll q.now.position moves.new.items }
{
    list_lawful(&q.position, moves);
    let costs = costs_of(won, q, n, moves.as_slice());
    moves
        .as_mut_slice()
        .sort_unstable_by_key(|m: &Move| costs.of_pair[pair_of(*m)]);
    has_equals(&costs, moves.as_slice())
}

//! Which moves are tried first. No answer depends on it.
ghost use Rattle.std.specs.Prelude.{◌≡◌, ◌<◌, ◌≤◌, [], ◌++◌, All, IfSome, length, map};
ghost use Rattle.std.specs.List.Sorted.{IsPermutation};
ghost use Rattle.rules.specs.Moves.{IsLawful};
ghost use Rattle.problems.specs.Tried.{ListsAll};

use crate::memory::Memory;
use arrayvec::ArrayVec;
use board::{Kind, Side};
use moves::{Board, Move, after, count_lawful, list_lawful, mover_in_check};
use problems::Question;

/// A move, and what counts against it: those of less cost are tried first.
#[derive(Clone, Copy, Default)]
pub(crate) struct Costed {
    pub(crate) cost: u16,
    pub(crate) m: Move,
}

// std sorts what has at most eight bytes in its own way, moves alone among them: so the order is theirs, where costs are equal too.
const _: () = prove!(std::mem::size_of::<Costed>() <= 8);

/// From so many plies on the replies to an attacker's move are counted.
const COUNTED_FROM: u8 = 4;

/// What a unit is worth, in pawns.
fn worth(kind: Kind) -> u16
    ensures { result ≤ 9 }
{
    match kind {
        Kind::Queen => 9,
        Kind::Rook => 5,
        Kind::Bishop => 3,
        Kind::Knight => 3,
        Kind::Pawn => 1,
        Kind::King => 0,
    }
}

/// What the lawful move takes is worth so much, in pawns.
fn worth_taken(board: &Board, m: Move) -> u16
    requires { IsLawful board.now m }
    ensures { result ≤ 9 }
{
    match board.unit_at(m.to) {
        Some(unit) => worth(unit.kind),
        None => 0,
    }
}

/// How far the side's king is from the middle of the board, in half steps of files and of ranks.
fn off_middle(board: &Board, side: Side) -> u16
    ensures { result ≤ 24 }
{
    let width = board.game().width();
    let king = board.king(side);
    u16::from((2 * king.file + 1).abs_diff(width)) + u16::from((2 * king.rank + 1).abs_diff(width))
}

/// What counts against the defender's reply to the board `next`: each move that it leaves the attacker, and how far its king is from the
/// middle then; what it takes counts for it.
fn cost_of_reply(q: &Question, m: Move, next: &Board) -> u16
    requires { IsLawful q.now.position m }
{
    let left = count_lawful(next).min(511);
    let off = off_middle(next, q.position.mover());
    16 * left + 8 * off + 64 * (9 - worth_taken(&q.position, m))
}

/// What counts against the attacker's move to the board `next`: that it gives no check, then how many replies it leaves, and then how
/// seldom it won.
fn cost_of_move(memory: &Memory, n: u8, m: Move, next: &Board) -> u16 {
    let replies = if n < COUNTED_FROM {
        0
    } else {
        count_lawful(next).min(127)
    };
    let quiet = if mover_in_check(next) { 0 } else { 0x8000 };
    let seldom = u8::MAX - memory.wins_of(m);
    quiet + replies * 256 + u16::from(seldom)
}

/// What counts against the move.
fn cost(memory: &Memory, q: &Question, n: u8, m: Move) -> u16
    requires { IsLawful q.now.position m }
{
    let next = after(&q.position, m);
    if q.is_own_turn() {
        cost_of_move(memory, n, m, &next)
    } else {
        cost_of_reply(q, m, &next)
    }
}

/// Puts the moves with their costs into the list in place of what it held: a pawn becomes less than a queen last of all.
fn cost_all(
    memory: &Memory,
    q: &Question,
    n: u8,
    moves: &[Move],
    costed: &mut ArrayVec<Costed, 512>,
)
    requires lawful { All (IsLawful q.now.position) moves.now }
    requires room { length moves.now ≤ 512 }
    ensures { map (λ it. it.m) costed.new.items ≡ moves.now }
{
    costed.clear();
    for m in moves {
        let cost = if matches!(m.promotion, None | Some(Kind::Queen)) {
            cost(memory, q, n, *m)
        } else {
            u16::MAX
        };
        costed.push(Costed { cost, m: *m });
    }
}

/// The last of the moves from this one on that have its two squares: they differ in what a pawn becomes.
fn last_alike(moves: &[Move], first: usize) -> usize
    requires { first < length moves.now }
    ensures { result < length moves.now }
{
    let m = moves[first];
    let mut last = first;
    while last + 1 < moves.len() {
        let next = moves[last + 1];
        if next.from != m.from || next.to != m.to {
            break;
        }
        last += 1;
    }
    last
}

/// `cost_all`, but where moves have the same two squares, the cost of each is that of the last.
fn cost_alike(
    memory: &Memory,
    q: &Question,
    n: u8,
    moves: &[Move],
    list: &mut ArrayVec<Costed, 512>,
)
    requires lawful { All (IsLawful q.now.position) moves.now }
    requires room { length moves.now ≤ 512 }
    ensures { map (λ it. it.m) list.new.items ≡ moves.now }
{
    list.clear();
    for i in 0..moves.len() {
        let m = moves[i];
        let cost = cost(memory, q, n, moves[last_alike(moves, i)]);
        list.push(Costed { cost, m });
    }
}

/// Puts the moves into the list in place of what it held, without their costs.
fn put_moves(costed: &[Costed], moves: &mut ArrayVec<Move, 512>)
    requires { length costed.now ≤ 512 }
    ensures { moves.new.items ≡ map (λ it. it.m) costed.now }
{
    moves.clear();
    for it in costed {
        moves.push(it.m);
    }
}

/// Puts the lawful moves into the list in place of what it held, those of least cost first. The other list has room for their costs.
#[inline(never)]
pub(crate) fn order_into(
    memory: &Memory,
    q: &Question,
    n: u8,
    costed: &mut ArrayVec<Costed, 512>,
    moves: &mut ArrayVec<Move, 512>,
)
    ensures { ListsAll q.now.position moves.new.items }
{
    list_lawful(&q.position, moves);
    cost_all(memory, q, n, moves.as_slice(), costed);
    costed
        .as_mut_slice()
        .sort_unstable_by_key(|it: &Costed| it.cost);
    put_moves(costed.as_slice(), moves);
}

/// Puts the lawful moves into the list in place of what it held, those of least cost first. Where moves have the same two squares, each
/// has the cost of the last, so that certificates stay as they are.
pub fn in_order(memory: &Memory, q: &Question, n: u8, moves: &mut ArrayVec<Move, 512>)
    ensures { ListsAll q.now.position moves.new.items }
{
    let mut costed: ArrayVec<Costed, 512> = ArrayVec::new();
    list_lawful(&q.position, moves);
    cost_alike(memory, q, n, moves.as_slice(), &mut costed);
    costed
        .as_mut_slice()
        .sort_unstable_by_key(|it: &Costed| it.cost);
    put_moves(costed.as_slice(), moves);
}

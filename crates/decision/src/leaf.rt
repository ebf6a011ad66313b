//! The last three plies, with no table and no key.
ghost use Rattle.std.specs.Prelude.{◌≡◌, ◌≤◌, ◌↔◌, IsTrue, true, false};
ghost use Rattle.rules.specs.Forces.{IsReached};
ghost use Rattle.problems.specs.Questions.{IsForced};
ghost use Rattle.problems.specs.Tried.{is_own};

use crate::lead::Rooms;
use crate::memory::Memory;
use arrayvec::ArrayVec;
use moves::{Board, Goal, Move, has_lawful_move, list_lawful, mover_in_check, reaches_at_once};
use problems::Question;

/// Whether the side to move is where the goal wants it.
fn is_reached(board: &Board, goal: Goal) -> bool
    ensures { IsTrue result ↔ IsReached goal board.now }
{
    let check = mover_in_check(board);
    match goal {
        Goal::Mate => check && !has_lawful_move(board),
        Goal::MateOrStale => !has_lawful_move(board),
    }
}

/// The answer with no ply left, or for a side that has no lawful move: whether the defender is where the goal wants it.
pub(crate) fn answer_now(q: &Question) -> bool
    ensures { IsTrue result ↔ IsForced q.now 0 }
{
    if q.is_own_turn() {
        return false;
    }
    is_reached(&q.position, q.goal)
}

/// Whether the attacker, who is to move, reaches the goal by its next move.
fn wins_at_once(memory: &mut Memory, q: &Question) -> bool
    requires { is_own q.now ≡ true }
    ensures { IsTrue result ↔ IsForced q.now 1 }
{
    memory.count();
    reaches_at_once(&q.position, q.goal)
}

/// Whether the move is one of the defender's, and keeps the attacker from reaching the goal by its next.
fn refutes(memory: &mut Memory, q: &Question, m: Move) -> bool
    requires { is_own q.now ≡ false }
    ensures { IsTrue result → IsForced q.now 2 → ⊥ }
{
    let Some(next) = q.after_if_lawful(m) else {
        return false;
    };
    !wins_at_once(memory, &next)
}

/// Whether one of the replies that refuted last keeps the attacker, who isn't to move, from reaching the goal by its next move: where it
/// does, no list is made.
fn is_refuted_again(memory: &mut Memory, q: &Question) -> bool
    requires { is_own q.now ≡ false }
    ensures { IsTrue result → IsForced q.now 2 → ⊥ }
{
    memory.count();
    for reply in memory.replies() {
        let Some(m) = reply else {
            continue;
        };
        if refutes(memory, q, m) {
            memory.remember_reply(m);
            return true;
        }
    }
    false
}

/// Whether each move of the defender, who is to move and has one, lets the attacker reach the goal by its next, by the list of them.
// It stands apart, since most calls find a remembered reply.
#[inline(never)]
fn loses_by_all(memory: &mut Memory, replies: &mut ArrayVec<Move, 512>, q: &Question) -> bool
    requires { is_own q.now ≡ false }
    ensures { IsTrue result ↔ IsForced q.now 2 }
{
    list_lawful(&q.position, replies);
    if replies.is_empty() {
        return is_reached(&q.position, q.goal);
    }
    for m in replies.as_slice() {
        if !wins_at_once(memory, &q.after(*m)) {
            memory.remember_reply(*m);
            return false;
        }
    }
    true
}

/// Whether each move of the defender, who is to move and has one, lets the attacker reach the goal by its next.
#[inline(never)]
fn loses_in_two(memory: &mut Memory, replies: &mut ArrayVec<Move, 512>, q: &Question) -> bool
    requires { is_own q.now ≡ false }
    ensures { IsTrue result ↔ IsForced q.now 2 }
{
    if is_refuted_again(memory, q) {
        return false;
    }
    loses_by_all(memory, replies, q)
}

/// `loses_by_all`, with a list of its own.
#[inline(never)]
fn loses_by_own_list(memory: &mut Memory, q: &Question) -> bool
    requires { is_own q.now ≡ false }
    ensures { IsTrue result ↔ IsForced q.now 2 }
{
    let mut replies = ArrayVec::new();
    loses_by_all(memory, &mut replies, q)
}

/// Whether the attacker, who is to move, forces the goal within three plies.
#[inline(never)]
fn wins_in_three(memory: &mut Memory, rooms: &mut Rooms, q: &Question) -> bool
    requires { is_own q.now ≡ true }
    ensures { IsTrue result ↔ IsForced q.now 3 }
{
    memory.count();
    rooms.order(memory, q, 3);
    for m in rooms.moves.as_slice() {
        if loses_in_two(memory, &mut rooms.replies, &q.after(*m)) {
            return true;
        }
    }
    false
}

/// The answer for at most three plies.
pub(crate) fn leaf(memory: &mut Memory, rooms: &mut Rooms, q: &Question, n: u8) -> bool
    requires { n ≤ 3 }
    ensures { IsTrue result ↔ IsForced q.now n }
{
    if n < 2 {
        return short_leaf(memory, q, n);
    }
    let own = q.is_own_turn();
    if !own {
        return loses_in_two(memory, &mut rooms.replies, q);
    }
    if n < 3 {
        return short_leaf(memory, q, n);
    }
    wins_in_three(memory, rooms, q)
}

/// The answer for at most two plies, with no room for lists: the one of the replies is made where all are needed.
pub(crate) fn short_leaf(memory: &mut Memory, q: &Question, n: u8) -> bool
    requires { n ≤ 2 }
    ensures { IsTrue result ↔ IsForced q.now n }
{
    if n == 0 {
        return answer_now(q);
    }
    let own = q.is_own_turn();
    if own {
        return wins_at_once(memory, q);
    }
    if n == 1 {
        return answer_now(q);
    }
    if is_refuted_again(memory, q) {
        return false;
    }
    loses_by_own_list(memory, q)
}

//! The checker of winning trees, which trusts no solver.

ghost use Rattle.std.specs.Prelude.{◌≡◌, ◌≢◌, ◌+◌, ◌*◌, ◌<◌, ◌≤◌, ◌↔◌, SomeIff, IfSome, IsNone, IfOk, IfErr, OnOk, MatchOption, IsTrue, Contains, length, take, slice_get};
ghost use Rattle.board.specs.Board.{PlainBoard};
ghost use Rattle.rules.specs.Forces.{Forces};
ghost use Rattle.rules.specs.Order.{ListsLawful};
ghost use Rattle.wintree.specs.Plan.{depth, deepest_in};
ghost use Rattle.wintree.specs.Wins.{Wins, EndsAt, height};
ghost use Rattle.wintree.specs.Flaws.{IsFlaw, IsWrongEnd, AreWrong};
ghost use Rattle.wintree.specs.Answered.{AllWin, IsFlawBelow, highest_in, moves_in};

use crate::flaws::{Flaw, Wrong};
use crate::tree::{End, Next, Tree};
use board::Position;
use moves::{Goal, Move, apply, in_check, is_lawful, lawful};
use std::alloc::Allocator;

/// How many plies the tree wins in for the side to move, if it wins.
#[tactic(auto, using(crate::proofs::Forced::forced_for_mover))]
pub fn check<A: Allocator>(position: &Position, tree: &Tree<A>, goal: Goal) -> Option<u8>
    // It wins exactly where the definition says so, in as many plies as its height.
    ensures wins { SomeIff result (Wins goal position.now tree.now) (height tree.now) }

    // What it wins is forced.
    ensures forced { IfSome result (Forces goal position.now.mover position.now) }
{
    height_or_flaw(position, tree, goal).ok()
}

/// A flaw of the tree, if it doesn't win: the lists of replies are looked through before the trees behind them.
pub fn find_flaw<A: Allocator>(position: &Position, tree: &Tree<A>, goal: Goal) -> Option<Flaw>
    // There is none exactly where the tree wins.
    ensures none { IsNone result ↔ Wins goal position.now tree.now }

    // What is told is a flaw of the tree.
    ensures flaw { IfSome result (λ flaw. IsFlaw goal position.now tree.now flaw.line.items flaw.wrong) }
{
    height_or_flaw(position, tree, goal).err()
}

/// The tree's height if it wins, or else a flaw.
#[cycle(checker)]
fn height_or_flaw<A: Allocator>(position: &Position, tree: &Tree<A>, goal: Goal) -> Result<u8, Flaw>
    ensures wins { IfOk result (λ plies. Wins goal position.now tree.now × (plies ≡ height tree.now)) }
    ensures flaw { IfErr result (λ flaw. IsFlaw goal position.now tree.now flaw.line.items flaw.wrong) }
    ensures short { IfErr result (λ flaw. length flaw.line.items + 1 ≤ 2 * depth tree.now) }
{
    let attack = tree.attack;
    if !is_lawful(position, attack) {
        return Err(Flaw::at_once(Wrong::Unlawful).behind(attack));
    }
    let after = apply(position, attack);
    match &*tree.next {
        Next::End(end) => {
            if ends_at(&after, *end, goal) {
                Ok(1)
            } else {
                Err(Flaw::at_once(wrong_end(*end, goal)).behind(attack))
            }
        }
        Next::Replies(replies) => match highest_or_flaw(&after, replies, goal) {
            Ok(highest) => Ok(highest + 2),
            Err(flaw) => Err(flaw.behind(attack)),
        },
    }
}

/// The greatest height of the replies' trees, if the replies are the lawful moves and each tree wins; or else a flaw.
#[cycle(checker)]
fn highest_or_flaw<A: Allocator>(
    position: &Position,
    replies: &[(Move, Tree<A>)],
    goal: Goal,
) -> Result<u8, Flaw>
    requires { deepest_in replies.now ≤ 31 }
    ensures lists { OnOk result (ListsLawful position.now (moves_in replies.now)) }
    ensures wins { IfOk result (λ plies. AllWin goal position.now replies.now × (plies ≡ highest_in replies.now)) }
    ensures flaw { IfErr result (λ flaw. IsFlawBelow goal position.now replies.now flaw.line.items flaw.wrong) }
    ensures short { IfErr result (λ flaw. length flaw.line.items ≤ 2 * deepest_in replies.now) }
{
    if let Some(wrong) = wrong_reply(position, replies) {
        return Err(Flaw::at_once(wrong));
    }
    let mut highest = 0;
    for (reply, below) in replies {
        match height_or_flaw(&apply(position, *reply), below, goal) {
            Ok(height) => highest = height.max(highest),
            Err(flaw) => return Err(flaw.behind(*reply)),
        }
    }
    Ok(highest)
}

/// What is wrong with the replies, if they aren't the lawful moves in order.
fn wrong_reply<A: Allocator>(position: &Position, replies: &[(Move, Tree<A>)]) -> Option<Wrong>
    ensures { let listed = moves_in replies.now in
        MatchOption result (ListsLawful position.now listed) (AreWrong position.now listed) }
{
    let moves = lawful(position);
    let moves = moves.as_slice();
    let i = agreeing(moves, replies);
    if i == replies.len() {
        return Some(Wrong::LeftOut(*moves.get(i)?));
    }
    let (reply, _) = &replies[i];
    if !is_lawful(position, *reply) {
        return Some(Wrong::UnlawfulReply(*reply));
    }
    match moves.get(i) {
        Some(due) if !is_among(replies, *due) => Some(Wrong::LeftOut(*due)),
        _ => Some(Wrong::OutOfPlace(*reply)),
    }
}

/// How many replies from the first one on are the moves at their places.
fn agreeing<A: Allocator>(moves: &[Move], replies: &[(Move, Tree<A>)]) -> usize
    ensures within { result ≤ length replies.now }
    ensures same { take result (moves_in replies.now) ≡ take result moves.now }
    ensures differ { result < length replies.now
        → slice_get moves.now result ≢ slice_get (moves_in replies.now) result }
{
    for i in 0..replies.len() {
        if !stands_at(moves, i, replies[i].0) {
            return i;
        }
    }
    replies.len()
}

/// Whether the reply is the move at this place of the list.
#[tactic(auto, using(std::proofs::lemmas::Option::gets))]
fn stands_at(moves: &[Move], i: usize, reply: Move) -> bool
    ensures { IsTrue result ↔ (slice_get moves.now i ≡ Some reply) }
{
    match moves.get(i) {
        Some(m) => is_same(*m, reply),
        None => false,
    }
}

/// Whether the move is one of the replies.
fn is_among<A: Allocator>(replies: &[(Move, Tree<A>)], m: Move) -> bool
    ensures { IsTrue result ↔ Contains (moves_in replies.now) m }
{
    for (reply, _) in replies {
        if is_same(*reply, m) {
            return true;
        }
    }
    false
}

/// Whether two moves are one.
fn is_same(m: Move, other: Move) -> bool
    ensures { IsTrue result ↔ (m ≡ other) }
{
    m == other
}

/// Whether the line may end so.
#[tactic(auto, using(crate::proofs::Endings::goes_on))]
fn ends_at(position: &Position, end: End, goal: Goal) -> bool
    ensures { IsTrue result ↔ EndsAt goal position.now end }
{
    if !lawful(position).is_empty() {
        return false;
    }
    let checked = in_check(position, position.mover());
    match (end, goal) {
        (End::Mate, _) => checked,
        (End::Stale, Goal::MateOrStale) => !checked,
        (End::Stale, Goal::Mate) => false,
    }
}

/// What is wrong with the end of a line that may not end so.
fn wrong_end(end: End, goal: Goal) -> Wrong
    ensures { (q : PlainBoard) → ¬ EndsAt goal q end → IsWrongEnd goal q end result }
{
    match (end, goal) {
        (End::Mate, _) => Wrong::NotMate,
        (End::Stale, Goal::MateOrStale) => Wrong::NotStale,
        (End::Stale, Goal::Mate) => Wrong::StaleForMate,
    }
}

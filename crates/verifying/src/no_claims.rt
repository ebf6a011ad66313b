//! No claims: that the attacker forces the goal within no number of plies up to the claim's.
ghost use Rattle.std.specs.Prelude.{◌↔◌, All, IfOk, IsTrue};
ghost use Rattle.rules.specs.Moves.{IsLawful};
ghost use Rattle.verifying.specs.Reading.{AreApart};
ghost use Rattle.verifying.specs.Yielding.{YieldsOnly};
ghost use Rattle.verifying.specs.Certificate.{ReachesNothing, Resists, ShowFailures, TellsFailure};

use crate::claims::Claims;
use crate::leaf::{LEAF, is_forced_within, is_reached};
use crate::listed::move_at;
use crate::words::Word;
use certificates::Claim;
use moves::{Board, Goal, Move, after, has_lawful_move};
use std::alloc::{AllocError, Allocator};

/// Whether nothing is forced at the position within so many plies, or a claim says so. A claim about a position that has none is
/// made.
fn resists<A: Allocator + Copy>(
    claims: &mut Claims<A>,
    goal: Goal,
    position: &Board,
    plies: u8,
) -> Result<bool, AllocError>
    requires { AreApart claims.old }
    ensures { IfOk result (λ yes. YieldsOnly (Resists goal position.now plies claims.old) yes claims.new) }
{
    if plies <= LEAF {
        return Ok(!is_forced_within(position, goal, plies));
    }
    match claims.find(position) {
        Some(claimed) => Ok(claimed >= plies),
        None => {
            claims.push(position, plies)?;
            Ok(true)
        }
    }
}

/// Whether the attacker's move, after which the defender is to move, fails within the plies that are left, as the word says.
fn fails<A: Allocator + Copy>(
    claims: &mut Claims<A>,
    goal: Goal,
    board: &Board,
    left: u8,
    word: Word,
) -> Result<bool, AllocError>
    requires { AreApart claims.old }
    ensures { IfOk result (λ yes. YieldsOnly (TellsFailure goal board.now left word claims.old) yes claims.new) }
{
    match word {
        Word::Stalemated => Ok(!has_lawful_move(board) && !is_reached(board, goal)),
        Word::Place(place) => {
            let Some(reply) = move_at(board, place) else {
                return Ok(false);
            };
            resists(claims, goal, &after(board, reply), left)
        }
        _ => Ok(false),
    }
}

/// Whether none of the moves reaches the goal.
fn none_reaches(goal: Goal, board: &Board, moves: &[Move]) -> bool
    requires { All (IsLawful board.now) moves.now }
    ensures { IsTrue result ↔ All (ReachesNothing goal board.now) moves.now }
{
    for m in moves {
        if is_reached(&after(board, *m), goal) {
            return false;
        }
    }
    true
}

/// Whether each of the moves fails within the claim's plies, as the words say, one each.
pub(crate) fn all_fail<A: Allocator + Copy>(
    claims: &mut Claims<A>,
    goal: Goal,
    claim: &Claim,
    moves: &[Move],
    words: &[Word],
) -> Result<bool, AllocError>
    requires lawful { All (IsLawful claim.now.position) moves.now }
    requires apart { AreApart claims.old }
    ensures { IfOk result (λ yes. YieldsOnly
        (ShowFailures goal claim.now.position claim.now.plies moves.now words.now claims.old) yes claims.new) }
{
    if claim.plies == 1 {
        return Ok(words.is_empty() && none_reaches(goal, &claim.position, moves));
    }
    if claim.plies < 2 {
        return Ok(false);
    }
    if words.len() != moves.len() {
        return Ok(false);
    }
    for i in 0..moves.len() {
        let board = after(&claim.position, moves[i]);
        if !fails(claims, goal, &board, claim.plies - 2, words[i])? {
            return Ok(false);
        }
    }
    Ok(true)
}

//! Yes claims: that the attacker forces the goal within the claim's plies.
ghost use Rattle.std.specs.Prelude.{IfOk, List};
ghost use Rattle.rules.specs.Squares.{Ply};
ghost use Rattle.certificates.specs.declared.claim.Claim.{Claim};
ghost use Rattle.verifying.specs.Reading.{AreApart};
ghost use Rattle.verifying.specs.Yielding.{FindsOnly, YieldsOnly};
ghost use Rattle.verifying.specs.Certificate.{IsYesLine, MakesClaim, Meets, ShowWin};

use crate::claims::Claims;
use crate::leaf::{LEAF, is_forced_within, is_reached};
use crate::listed::move_at;
use crate::words::Word;
use certificates::Claim;
use moves::{Board, Goal, Move, after, has_lawful_move, lawful_on};
use std::alloc::{AllocError, Allocator};

/// Makes a claim about the position, which has none yet. The place tells its plies, at most those that are left.
fn claim_anew<A: Allocator + Copy>(
    claims: &mut Claims<A>,
    position: &Board,
    left: u8,
    place: usize,
) -> Result<bool, AllocError>
    ensures { IfOk result (λ yes. YieldsOnly (MakesClaim position.now left place claims.old) yes claims.new) }
{
    if place >= (left as usize + 1) / 2 {
        return Ok(false);
    }
    match claims.find(position) {
        Some(_) => Ok(false),
        None => {
            claims.push(position, 2 * place as u8 + 1)?;
            Ok(true)
        }
    }
}

/// Whether the attacker, to move at the position, forces the goal within the plies that are left, as the word says.
fn meets<A: Allocator + Copy>(
    claims: &mut Claims<A>,
    goal: Goal,
    position: Board,
    left: u8,
    word: Word,
) -> Result<bool, AllocError>
    requires { AreApart claims.old }
    ensures { IfOk result (λ yes. YieldsOnly (Meets goal position left word claims.old) yes claims.new) }
{
    match word {
        Word::Seen => Ok(is_forced_within(&position, goal, left.min(LEAF))),
        Word::Claimed => match claims.find(&position) {
            Some(plies) => Ok(plies <= left),
            None => Ok(false),
        },
        Word::Place(place) => claim_anew(claims, &position, left, place),
        Word::Stalemated => Ok(false),
    }
}

/// Whether the attacker's move, after which the defender is to move, wins within the plies: each reply is met, as the words say,
/// one each.
fn wins_after<A: Allocator + Copy>(
    claims: &mut Claims<A>,
    goal: Goal,
    board: &Board,
    plies: u8,
    words: &[Word],
) -> Result<bool, AllocError>
    requires { AreApart claims.old }
    ensures { IfOk result (λ yes. YieldsOnly (ShowWin goal board.now plies words.now claims.old) yes claims.new) }
{
    if !has_lawful_move(board) {
        return Ok(words.is_empty() && is_reached(board, goal));
    }
    if plies < 3 {
        return Ok(false);
    }
    let replies = lawful_on(board);
    if words.len() != replies.len() {
        return Ok(false);
    }
    for i in 0..replies.len() {
        let reply = replies.as_slice()[i];
        if !meets(claims, goal, after(board, reply), plies - 2, words[i])? {
            return Ok(false);
        }
    }
    Ok(true)
}

/// The attacker's move, whose place is the first of the words, if it wins within the claim's plies, as the others say.
pub(crate) fn winning_move<A: Allocator + Copy>(
    claims: &mut Claims<A>,
    goal: Goal,
    claim: &Claim,
    words: &[Word],
) -> Result<Option<Move>, AllocError>
    requires { AreApart claims.old }
    ensures { IfOk result (λ found. FindsOnly
        (λ (m : Ply) (new : List Claim). IsYesLine goal claim.now m words.now claims.old new) found claims.new) }
{
    let Some((word, others)) = words.split_first() else {
        return Ok(None);
    };
    let Word::Place(place) = *word else {
        return Ok(None);
    };
    let Some(m) = move_at(&claim.position, place) else {
        return Ok(None);
    };
    if claim.plies == 0 {
        return Ok(None);
    }
    let board = after(&claim.position, m);
    if !wins_after(claims, goal, &board, claim.plies, others)? {
        return Ok(None);
    }
    Ok(Some(m))
}

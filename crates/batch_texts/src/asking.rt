//! The question of a line of a batch: a position, and optionally the number of moves that the problem claims.
ghost use Rattle.std.specs.Prelude.{◌≡◌, ◌↔◌, ◌<◌, All, IfOk, IsTrue, length};
ghost use Rattle.batch_texts.specs.Asking.{IsAskedIn, IsJudged, IsSplitIn, TakesPlies, limit_of};

use crate::asked::{Asked, Found};
use crate::fields::position_of;
use problems::{Answer, Key};
use std::alloc::{AllocError, Global};

/// Reads a line that isn't a comment: its position, cut to two fields if it has six, and the number of moves that it claims. Fails if
/// memory runs out.
pub fn asked_in<'a>(alloc: Global, said: &'a [u8]) -> Result<Asked<'a>, AllocError>
    ensures { IfOk result (IsAskedIn said.entry.now) }
{
    let split = split_moves(alloc, said)?;
    Ok(Asked {
        fen: position_of(split.fen),
        moves: split.moves,
    })
}

/// Splits a line into the text of its position and the number of moves after it, written as ` ; dm 3`.
fn split_moves<'a>(alloc: Global, said: &'a [u8]) -> Result<Asked<'a>, AllocError>
    ensures { IfOk result (IsSplitIn said.entry.now) }
{
    let plain = Asked {
        fen: said,
        moves: None,
    };
    if !said.contains(&b';') {
        return Ok(plain);
    }
    for moves in 0..100 {
        let field = format!(in alloc; " ; dm {moves}")?;
        let (fen, tail) = said.split_at(said.len().saturating_sub(field.len()));
        if tail == field.as_bytes() {
            let moves = Some(moves);
            return Ok(Asked { fen, moves });
        }
    }
    Ok(plain)
}

/// Returns the limit of a line in plies: that of the moves that it claims, or the limit of the batch.
pub fn limit_of(limit: u32, moves: Option<u8>) -> u32
    ensures { result ≡ limit_of limit moves }
{
    match moves {
        None => limit,
        Some(moves) => (2 * u32::from(moves)).saturating_sub(1),
    }
}

/// Returns whether there are keys, and each takes exactly this number of plies.
fn all_take(keys: &[Key], plies: u32) -> bool
    ensures { IsTrue result ↔ ((0 < length keys.now) × All (λ key. key.plies ≡ plies) keys.now) }
{
    for key in keys {
        if u32::from(key.plies) != plies {
            return false;
        }
    }
    !keys.is_empty()
}

/// Returns whether the goal is forced in exactly this number of plies.
fn takes(found: &Found, plies: u32) -> bool
    ensures { IsTrue result ↔ TakesPlies found.now plies }
{
    match found {
        Found::Answer(Answer::Mate { plies: fewest, .. }) => u32::from(*fewest) == plies,
        Found::Answer(Answer::NoneWithin(_)) => false,
        Found::Keys(keys) => all_take(keys.as_slice(), plies),
    }
}

/// Returns whether the goal takes exactly the number of moves that the line claims, or `None` if the line claims none.
pub fn judged(moves: Option<u8>, found: &Found) -> Option<bool>
    ensures { IsJudged moves found.now result }
{
    match moves {
        None => None,
        Some(_) => Some(takes(found, limit_of(0, moves))),
    }
}

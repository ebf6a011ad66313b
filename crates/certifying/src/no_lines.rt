//! Lines of no claims.
ghost use Rattle.std.specs.Prelude.{◌≡◌, ◌<◌, ◌≤◌, All, IfSome, length};
ghost use Rattle.rules.specs.Moves.{IsLawful};

use crate::choosing::Chooser;
use moves::{Move, lawful_on};
use problems::Question;
use std::alloc::{AllocError, Global};
use verifying::{Claims, LEAF, Word, place_of};

/// The place of the first reply to a position that is claimed for so many plies.
fn claimed_place(claims: &Claims<Global>, q: &Question, replies: &[Move], left: u8) -> Option<usize>
    requires { All (IsLawful q.now.position) replies.now }
{
    for place in 0..replies.len() {
        match claims.find(&q.after(replies[place]).position) {
            Some(plies) if left <= plies => return Some(place),
            _ => {}
        }
    }
    None
}

/// The reply that escapes: one to a position that is claimed already, or else the first in the order of the search. A position that has no
/// claim gets one, unless the checker looks itself.
fn escape(
    chooser: &mut Chooser,
    claims: &mut Claims<Global>,
    q: &Question,
    left: u8,
) -> Result<Word, AllocError>
    requires { left < 63 }
{
    let replies = lawful_on(&q.position);
    if let Some(place) = claimed_place(claims, q, replies.as_slice(), left) {
        return Ok(Word::Place(place));
    }
    let Some(reply) = chooser.choose(q, left, false) else {
        return Ok(Word::Stalemated);
    };
    if left > LEAF {
        claims.push(&q.after(reply).position, left)?;
    }
    Ok(Word::Place(place_of(replies.as_slice(), reply)))
}

/// What the line of a no claim says of these moves.
pub(crate) fn no_words(
    chooser: &mut Chooser,
    claims: &mut Claims<Global>,
    q: &Question,
    moves: &[Move],
    plies: u8,
) -> Result<Vec<Word>, AllocError>
    requires plies { plies ≤ 63 }
    requires lawful { All (IsLawful q.now.position) moves.now }
{
    let mut words = Vec::new(chooser.alloc);
    if plies < 3 {
        return Ok(words);
    }
    for m in moves {
        let word = escape(chooser, claims, &q.after(*m), plies - 2)?;
        words.push(word)?;
    }
    Ok(words)
}

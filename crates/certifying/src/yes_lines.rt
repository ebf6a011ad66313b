//! Lines of yes claims.
ghost use Rattle.std.specs.Prelude.{◌≡◌, ◌<◌, ◌≤◌, All, length};
ghost use Rattle.rules.specs.Moves.{IsLawful};

use crate::choosing::Chooser;
use moves::{Move, lawful_on};
use problems::Question;
use std::alloc::{AllocError, Global};
use verifying::{Claims, LEAF, Word, place_of};

/// What meets a reply, at the position after it. A position that has no claim gets one, unless the checker looks itself.
fn met(
    chooser: &mut Chooser,
    claims: &mut Claims<Global>,
    q: &Question,
    left: u8,
) -> Result<Word, AllocError>
    requires { left ≤ 63 }
{
    if claims.find(&q.position).is_some() {
        return Ok(Word::Claimed);
    }
    let plies = chooser.fewest(q, left);
    if plies <= LEAF {
        return Ok(Word::Seen);
    }
    claims.push(&q.position, plies)?;
    Ok(Word::Place(usize::from(plies / 2)))
}

/// What meets each of the replies.
fn met_all(
    chooser: &mut Chooser,
    claims: &mut Claims<Global>,
    q: &Question,
    replies: &[Move],
    left: u8,
) -> Result<Vec<Word>, AllocError>
    requires plies { left ≤ 63 }
    requires lawful { All (IsLawful q.now.position) replies.now }
{
    let mut words = Vec::new(chooser.alloc);
    for reply in replies {
        let word = met(chooser, claims, &q.after(*reply), left)?;
        words.push(word)?;
    }
    Ok(words)
}

/// What the line of a yes claim says, whose move wins.
pub(crate) fn yes_words(
    chooser: &mut Chooser,
    claims: &mut Claims<Global>,
    q: &Question,
    m: Move,
    plies: u8,
) -> Result<Vec<Word>, AllocError>
    requires plies { plies ≤ 63 }
    requires lawful { IsLawful q.now.position m }
{
    let moves = lawful_on(&q.position);
    let mut words = Vec::new(chooser.alloc);
    words.push(Word::Place(place_of(moves.as_slice(), m)))?;
    let next = q.after(m);
    let replies = lawful_on(&next.position);
    let met = met_all(
        chooser,
        claims,
        &next,
        replies.as_slice(),
        plies.saturating_sub(2),
    )?;
    words.extend_from_slice(met.as_slice())?;
    Ok(words)
}

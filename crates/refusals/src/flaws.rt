//! Why a tree doesn't win, in a sentence.
ghost use Rattle.std.specs.Prelude.{OnOk};
ghost use Rattle.refusals.specs.Sentences.{AppendsText};

use crate::sentence::Part::{Moves, Played};
use crate::sentence::{NO, Sentence, write_told};
use std::io::{self, Write};
use wintree::{Flaw, Wrong};

const UNLAWFUL: &str = "the tree is wrong at%: that move isn't lawful";

const NO_MATE: &str = "the tree is wrong at%: it ends with #, and there is no mate";

const NO_STALEMATE: &str = "the tree is wrong at%: it ends with =, and there is no stalemate";

const FOR_MATE: &str =
    "the tree is wrong at%: it ends with =, and the goal is mate: add --goal stale";

const LEFT_OUT: &str = "the tree is wrong at%: the reply % is left out";

const NO_REPLY: &str = "the tree is wrong at%: the reply % isn't lawful";

const OUT_OF_PLACE: &str =
    "the tree is wrong at%: the reply % isn't at its place: write each once, in the order of `moves`";

fn flaw_sentence(flaw: &Flaw) -> Sentence<'_> {
    let line = Moves(flaw.line.as_slice(), None);
    match flaw.wrong {
        Wrong::Unlawful => Sentence(UNLAWFUL, (line, NO, NO, NO)),
        Wrong::NotMate => Sentence(NO_MATE, (line, NO, NO, NO)),
        Wrong::NotStale => Sentence(NO_STALEMATE, (line, NO, NO, NO)),
        Wrong::StaleForMate => Sentence(FOR_MATE, (line, NO, NO, NO)),
        Wrong::LeftOut(reply) => Sentence(LEFT_OUT, (line, Played(reply), NO, NO)),
        Wrong::UnlawfulReply(reply) => Sentence(NO_REPLY, (line, Played(reply), NO, NO)),
        Wrong::OutOfPlace(reply) => Sentence(OUT_OF_PLACE, (line, Played(reply), NO, NO)),
    }
}

/// Tells at which of its moves a tree is wrong, by the moves to there, and why.
pub fn advise_flaw<E: Write>(errors: &mut E, flaw: &Flaw) -> io::Result<()>
    ensures { OnOk result (AppendsText (E.contents errors.old) (E.contents errors.new)) }
{
    write_told(errors, &flaw_sentence(flaw))?;
    errors.write_all(b"\n")
}

//! What is told of a move that can't be played, and of a side that has none.
ghost use Rattle.std.specs.Prelude.{◌≡◌, OnOk, codes};
ghost use Rattle.std.specs.Io.KnownBytes.{Appends};
ghost use Rattle.rules.specs.Reach.{IsInCheck};
ghost use Rattle.refusals.specs.Sentences.{AppendsLine, AppendsText, error_beginning, over_text, side_text};

use crate::algebra::named_so;
use crate::sentence::Part::{Bytes, Moves, On, Played, Text};
use crate::sentence::{NO, Sentence, write_line, write_told};
use board::{Position, Side};
use moves::{Move, in_check, lawful, read_move, read_sound};
use std::io::{self, Write};

fn side_word(side: Side) -> &'static str
    ensures { result.now ≡ side_text side }
{
    match side {
        Side::White => "White",
        Side::Black => "Black",
    }
}

const NOWHERE: &str = "'%': there is no position to play at";

const NO_MOVE: &str =
    "'%': a move is two squares of the board, and what a pawn becomes, as c4c5 or c5c6q";

const BY_SQUARES: &str = "'%': write the move as %";

const OTHERS: &str = "'%': % is to move, and the unit on % is %'s";

const LAWFUL: &str = "'%': that isn't lawful: write one of%";

const STUCK: &str = "'%': the unit on % has no lawful move";

/// Why none of the lawful moves has this name.
fn move_sentence<'a>(position: &Position, moves: &'a [Move], name: &'a [u8]) -> Sentence<'a> {
    let (game, mover, told) = (position.game(), position.mover(), Bytes(name));
    let from = match read_move(name) {
        Some(m) if m.from.is_on_board(game) && m.to.is_on_board(game) => m.from,
        _ => match named_so(position, moves, name) {
            Some(m) => return Sentence(BY_SQUARES, (told, Played(m), NO, NO)),
            None => return Sentence(NO_MOVE, (told, NO, NO, NO)),
        },
    };
    let square = On(from);
    match position.unit(from.number(game)) {
        None => return Sentence("'%': there is no unit on %", (told, square, NO, NO)),
        Some(unit) if unit.side != mover => {
            let (side, other) = (Text(side_word(mover)), Text(side_word(unit.side)));
            return Sentence(OTHERS, (told, side, square, other));
        }
        Some(_) => {}
    }
    for m in moves {
        if m.from == from {
            return Sentence(LAWFUL, (told, Moves(moves, Some(from)), NO, NO));
        }
    }
    Sentence(STUCK, (told, square, NO, NO))
}

/// Tells in one sentence why no lawful move has this name at a sound position.
pub fn advise_move<E: Write>(errors: &mut E, fen: &[u8], name: &[u8]) -> io::Result<()>
    ensures { OnOk result (AppendsLine error_beginning (E.contents errors.old) (E.contents errors.new)) }
{
    let Ok(position) = read_sound(fen) else {
        return write_line(errors, &Sentence(NOWHERE, (Bytes(name), NO, NO, NO)));
    };
    let moves = lawful(&position);
    write_line(errors, &move_sentence(&position, moves.as_slice(), name))
}

/// Tells that a reply refutes a first move.
pub fn advise_refuted<E: Write>(errors: &mut E, first: Move, reply: Move) -> io::Result<()>
    ensures { OnOk result (AppendsText (E.contents errors.old) (E.contents errors.new)) }
{
    write_told(
        errors,
        &Sentence("% is refuted by %", (Played(first), Played(reply), NO, NO)),
    )?;
    errors.write_all(b"\n")
}

fn write_end<E: Write>(errors: &mut E, line: Option<u64>, side: Side, what: &str) -> io::Result<()>
    ensures { OnOk result (Appends (E.contents errors.old) (E.contents errors.new) (over_text line side what.now)) }
{
    match line {
        Some(number) => write!(
            errors,
            "line {number}: {} is {what} already\n",
            side_word(side)
        ),
        None => write!(errors, "{} is {what} already\n", side_word(side)),
    }
}

/// Tells that the side to move, which has no lawful move, is mated or stalemated already; in a batch behind the number of its line.
pub fn advise_over<E: Write>(
    errors: &mut E,
    position: &Position,
    line: Option<u64>,
) -> io::Result<()>
    ensures mated { IsInCheck position.now position.now.mover → OnOk result (Appends (E.contents errors.old)
        (E.contents errors.new) (over_text line position.now.mover (codes "mated"))) }
    ensures stalemated { (IsInCheck position.now position.now.mover → ⊥) → OnOk result (Appends (E.contents errors.old)
        (E.contents errors.new) (over_text line position.now.mover (codes "stalemated"))) }
{
    if in_check(position, position.mover()) {
        write_end(errors, line, position.mover(), "mated")
    } else {
        write_end(errors, line, position.mover(), "stalemated")
    }
}

//! Positions as text, of which the side not to move is out of check.
ghost use Rattle.std.specs.Prelude.{◌≡◌, IfOk, IfErr};
ghost use Rattle.board.specs.Board.{PlainBoard, IsPosition};
ghost use Rattle.board.specs.Fen.{IsFenText};
ghost use Rattle.rules.specs.Reach.{IsSound};
ghost use Rattle.rules.specs.Reading.{IsSoundFault};

use crate::sound;
use board::{FenFault, Position, read_fen};

/// The sound position of the text, or the first reason why it is none's.
pub fn read_sound(text: &[u8]) -> Result<Position, FenFault>
    ensures read { (b : PlainBoard) → IsPosition b → IsFenText text.now b → IsSound b → result ≡ Ok b }
    ensures ok { IfOk result (λ p. IsFenText text.now p × IsSound p) }
    ensures fault { IfErr result (λ f. IsSoundFault text.now f) }
{
    let position = match read_fen(text) {
        Ok(position) => position,
        Err(fault) => return Err(fault),
    };
    if !sound(&position) {
        return Err(FenFault::OtherInCheck);
    }
    Ok(position)
}

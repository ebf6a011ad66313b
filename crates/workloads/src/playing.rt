//! Positions of games that are played at random.
use crate::dice::Dice;
use board::{Game, Position};
use moves::{apply, is_lawful, lawful, read_sound};

/// Where a game begins.
fn start(game: Game) -> Option<Position> {
    match game {
        Game::LosAlamos => read_sound(b"rnqknr/pppppp/6/6/PPPPPP/RNQKNR w").ok(),
        Game::Gardner => read_sound(b"rnbqk/ppppp/5/PPPPP/RNBQK w").ok(),
    }
}

/// The position after so many moves that dice name, or none where the game ended before.
pub(crate) fn played(dice: &mut Dice, game: Game, plies: u8) -> Option<Position> {
    let mut position = start(game)?;
    for _ in 0..plies {
        let moves = lawful(&position);
        let count = moves.len().min(255) as u8;
        if count == 0 {
            return None;
        }
        let m = *moves.get(dice.below(count) as usize)?;
        if is_lawful(&position, m) {
            position = apply(&position, m);
        }
    }
    Some(position)
}

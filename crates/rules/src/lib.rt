//! The rules of play on plain positions: reach and check, lawful moves in order, the position after one, and forced mate.
#![tactic(auto)]

mod goal;
mod list;
mod names;
mod plies;
mod rays;
mod reach;
mod reading;
mod squares;

pub use goal::Goal;
pub use list::{PROMOTIONS, lawful};
pub use names::read_move;
pub use plies::{Move, apply, is_king, is_lawful, is_promoted_well, promotes};
pub use rays::ray;
pub use reach::{in_check, sound};
pub use reading::read_sound;
pub use squares::Square;

//! What a batch, and a line of one, is asked.
use command_line::{BatchOptions, Limits};
use moves::Goal;
use problems::{Answer, Key};

/// What a batch is asked of each position.
#[derive(Clone, Copy)]
pub struct Batch {
    pub goal: Goal,
    pub limits: Limits,
    pub options: BatchOptions,
}

/// What a line asks.
#[derive(Clone, Copy)]
pub struct Asked<'a> {
    /// The position's text.
    pub fen: &'a [u8],
    /// In how many moves of the attacker there is a mate, where the line says so.
    pub moves: Option<u8>,
}

/// What was found of a position.
#[derive(Drop)]
pub enum Found {
    Answer(Answer),
    Keys(Vec<Key>),
}

//! What an answer is to a program in another language: plain numbers.

/// A move: the files and ranks of its two squares, from 0, and the letter of what a pawn becomes: q, r, b or n, or 0.
#[derive(Clone, Copy, PartialEq, Eq, Debug)]
#[repr(C)]
pub struct First {
    pub from_file: u8,
    pub from_rank: u8,
    pub to_file: u8,
    pub to_rank: u8,
    pub promotion: u8,
}

/// In how many plies the goal is forced, and by which first move. It is written where the goal is forced, and stays as it was else.
#[derive(Clone, Copy, PartialEq, Eq, Debug)]
#[repr(C)]
pub struct Win {
    pub plies: u32,
    pub first: First,
}

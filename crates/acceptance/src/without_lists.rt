//! Calls on boards that make no list of moves, or fill one that is lent.
ghost use Rattle.std.specs.Prelude.{◌<◌, IfSome};
ghost use Rattle.rules.specs.Moves.{IsPromoted};

use crate::leaves::LEAVES;
use arrayvec::ArrayVec;
use board::Kind;
use moves::{
    Board, Goal, Move, Square, after_if_lawful, count_lawful, is_lawful_on, lawful_on, list_lawful,
    mates_at_once, reaches_at_once, read_sound,
};
use std::process::Abort;

fn board(rt: &impl Abort, text: &str) -> Board {
    Board::of(&read_sound(text.as_bytes()).expect(rt, "a position"))
}

#[test]
fn counts_and_lists_lawful_moves(rt: HostRuntime) {
    let mut lent = ArrayVec::new();
    for (text, counts) in &LEAVES {
        let board = board(&rt, text);
        assert_eq!(rt; u64::from(count_lawful(&board)), counts[0], "{text}");
        list_lawful(&board, &mut lent);
        assert_eq!(rt; lent.as_slice(), lawful_on(&board).as_slice());
    }
}

/// 1 where the move between two squares, by their numbers, is lawful, and 0 else.
fn count_move(board: &Board, from: u8, to: u8, promotion: Option<Kind>) -> u64
    requires squares { (from < 36) × (to < 36) }
    requires promotion { IfSome promotion IsPromoted }
{
    let m = Move {
        from: Square {
            file: from % 6,
            rank: from / 6,
        },
        to: Square {
            file: to % 6,
            rank: to / 6,
        },
        promotion,
    };
    u64::from(is_lawful_on(board, m))
}

/// How many of the moves between two squares are lawful.
fn lawful_between(board: &Board, from: u8, to: u8) -> u64
    requires { (from < 36) × (to < 36) }
{
    count_move(board, from, to, None)
        .saturating_add(count_move(board, from, to, Some(Kind::Queen)))
        .saturating_add(count_move(board, from, to, Some(Kind::Rook)))
        .saturating_add(count_move(board, from, to, Some(Kind::Bishop)))
        .saturating_add(count_move(board, from, to, Some(Kind::Knight)))
}

/// How many of all moves are lawful, those between squares that the board lacks among them.
fn lawful_of_all(board: &Board) -> u64 {
    let mut count = 0u64;
    for pair in 0..1296u16 {
        let more = lawful_between(board, (pair / 36) as u8, (pair % 36) as u8);
        count = count.saturating_add(more);
    }
    count
}

#[test]
fn tells_lawful_moves_one_by_one(rt: HostRuntime) {
    for (text, counts) in &LEAVES {
        assert_eq!(rt; lawful_of_all(&board(&rt, text)), counts[0], "{text}");
    }
}

fn square(file: u8, rank: u8) -> Square
    requires { (file < 6) × (rank < 6) }
{
    Square { file, rank }
}

// By hand: the king may leave its pinned knight behind; the knight may not go, nor the king where it stands, nor the other side's king,
// nor what isn't there.
#[test]
fn makes_a_lawful_move_alone(rt: HostRuntime) {
    let before = board(&rt, "4r1/6/6/6/4N1/k3K1 w");
    let moves = [
        (square(4, 0), square(3, 0), true),
        (square(4, 1), square(2, 2), false),
        (square(4, 0), square(4, 1), false),
        (square(0, 0), square(0, 1), false),
        (square(1, 1), square(1, 2), false),
    ];
    let after = board(&rt, "4r1/6/6/6/4N1/k2K2 b").words();
    for (from, to, is_lawful) in moves {
        let m = Move {
            from,
            to,
            promotion: None,
        };
        match after_if_lawful(&before, m) {
            Some(next) => assert!(rt; is_lawful && next.words() == after),
            None => assert!(rt; !is_lawful),
        }
    }
}

#[test]
fn finds_goals_that_are_reached_at_once(rt: HostRuntime) {
    for (text, mates, ends) in [
        ("rnqknr/pppppp/6/6/PPPPPP/RNQKNR w", false, false),
        // Rf6, mate
        ("k5/6/1K4/6/6/5R w", true, true),
        // c6=Q, mate
        ("k5/2P3/1K4/6/6/6 w", true, true),
        // Nc5, a smothered mate
        ("kr4/pp4/6/1N4/6/K5 w", true, true),
        // the same with the knight a rank too far
        ("kr4/pp4/2N3/6/6/K5 w", false, false),
        // Nc4, mate by the rook behind it
        ("k5/1p4/1P4/N1K3/6/R5 w", true, true),
        // Qc5, stalemate
        ("k5/6/6/6/6/2Q2K w", false, true),
    ] {
        let board = board(&rt, text);
        assert_eq!(rt; mates_at_once(&board), mates, "{text}");
        assert_eq!(rt; reaches_at_once(&board, Goal::MateOrStale), ends, "{text}");
    }
}

//! Lines of play, counted and compared with another engine's counts.
use crate::leaves::LEAVES;
use arrayvec::ArrayVec;
use board::{Position, fen_text};
use moves::{
    Board, Move, after, apply, count_lawful, has_lawful_move, in_check, is_lawful, lawful,
    lawful_on, list_checks, mover_in_check, read_sound,
};
use std::process::Abort;

/// How many lines of so many plies begin at the position. The last ply's moves are counted and not made.
fn leaves(position: &Position, depth: u8) -> u64 {
    let moves = lawful(position);
    if depth <= 1 {
        return moves.len() as u64;
    }
    let mut count: u64 = 0;
    for m in moves.as_slice() {
        count = count.saturating_add(leaves(&apply(position, *m), depth - 1));
    }
    count
}

#[test]
fn counts_lines_of_play(rt: HostRuntime) {
    for (text, counts) in &LEAVES {
        let position = read_sound(text.as_bytes()).expect(&rt, "a position");
        for (i, count) in counts.iter().enumerate() {
            let depth = (i + 1) as u8;
            assert_eq!(rt; leaves(&position, depth), *count, "{text} to depth {depth}");
        }
    }
}

/// Checks that both bodies say the same of the position.
fn compare(rt: &impl Abort, position: &Position) {
    let board = Board::of(position);
    let listed = lawful(position);
    assert_eq!(rt; lawful_on(&board).as_slice(), listed.as_slice());
    assert_eq!(rt; usize::from(count_lawful(&board)), listed.len());
    assert_eq!(rt; has_lawful_move(&board), !listed.is_empty());
    assert_eq!(rt;
        mover_in_check(&board),
        in_check(position, position.mover())
    );
    assert_eq!(rt;
        fen_text(&board.position()).as_str(),
        fen_text(position).as_str()
    );
}

/// Whether the move gives check, by the rules on plain positions.
fn is_check(rt: &impl Abort, position: &Position, m: Move) -> bool {
    assert!(rt; is_lawful(position, m));
    let next = apply(position, m);
    in_check(&next, next.mover())
}

/// Checks that the moves listed as checks are those lawful ones after which the king is attacked.
fn compare_checks(rt: &impl Abort, position: &Position) {
    let mut checks = ArrayVec::new();
    list_checks(&Board::of(position), &mut checks);
    let mut count: usize = 0;
    for m in lawful(position).as_slice() {
        let is_check = is_check(rt, position, *m);
        assert_eq!(rt; checks.as_slice().contains(m), is_check);
        count = count.saturating_add(usize::from(is_check));
    }
    assert_eq!(rt; checks.len(), count);
}

/// Checks that the move leads both bodies to one position, and what they say of it.
fn compare_after(rt: &impl Abort, position: &Position, m: Move) {
    assert!(rt; is_lawful(position, m));
    let next = apply(position, m);
    let board = after(&Board::of(position), m);
    assert_eq!(rt;
        fen_text(&board.position()).as_str(),
        fen_text(&next).as_str()
    );
    compare(rt, &next);
}

#[test]
fn lists_the_same_moves_both_ways(rt: HostRuntime) {
    for (text, _) in &LEAVES {
        let position = read_sound(text.as_bytes()).expect(&rt, "a position");
        compare(&rt, &position);
        compare_checks(&rt, &position);
        for m in lawful(&position).as_slice() {
            compare_after(&rt, &position, *m);
        }
    }
}

/// How many lines of so many plies begin at the board, each of their moves made.
fn leaves_on(board: &Board, depth: u8) -> u64 {
    if depth == 0 {
        return 1;
    }
    let mut count: u64 = 0;
    let moves = lawful_on(board);
    for m in moves.as_slice() {
        count = count.saturating_add(leaves_on(&after(board, *m), depth - 1));
    }
    count
}

#[test]
fn counts_lines_of_play_on_boards(rt: HostRuntime) {
    for (text, counts) in &LEAVES {
        let position = read_sound(text.as_bytes()).expect(&rt, "a position");
        let board = Board::of(&position);
        for (i, count) in counts.iter().enumerate() {
            let depth = (i + 1) as u8;
            assert_eq!(rt; leaves_on(&board, depth), *count, "{text} to depth {depth}");
        }
    }
}

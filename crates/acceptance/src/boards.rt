//! Calls on boards of three words, on positions worked out by hand.
use board::{Game, Kind, Side, fen_text};
use moves::{
    Board, Move, Square, gives_check, has_lawful_move, is_lawful, read_sound, read_words,
    write_words,
};
use std::process::Abort;

fn board(rt: &impl Abort, text: &str) -> Board {
    Board::of(&read_sound(text.as_bytes()).expect(rt, "a position"))
}

#[test]
fn shows_words(rt: HostRuntime) {
    let los_alamos = board(&rt, "rnqknr/pppppp/6/6/PPPPPP/RNQKNR w");
    assert_eq!(rt;
        los_alamos.words(),
        [0x0000_6666_6635_1253, 0, 0x0000_9B78_B9CC_CCCC]
    );
    let kings = board(&rt, "k5/6/6/6/6/5K w");
    assert_eq!(rt; kings.words(), [0x0010_0000, 0, 0x0700_0000]);
    let gardner = board(&rt, "rnbqk/ppppp/5/PPPPP/RNBQK b");
    assert_eq!(rt;
        gardner.words(),
        [0x0005_0066_6661_2453, 0x0000_00CC_CCC0_0000, 0x7_8AB9]
    );
}

#[test]
fn finds_kings_and_other_units(rt: HostRuntime) {
    let board = board(&rt, "r3k/3bp/1bPpP/R2KQ/4B b");
    let [d2, e5] = [Square { file: 3, rank: 1 }, Square { file: 4, rank: 4 }];
    assert_eq!(rt;
        (board.king(Side::White), board.king(Side::Black)),
        (d2, e5)
    );
    let queen = Square { file: 4, rank: 1 };
    assert!(rt;
        board.unit_at(queen).is_some_and(|unit| unit.kind == Kind::Queen
            && unit.side == Side::White)
    );
    assert!(rt; board.unit_at(Square { file: 1, rank: 4 }).is_none());
}

#[test]
fn copies_a_board(rt: HostRuntime) {
    let kings = board(&rt, "k5/6/6/6/6/5K w").copied();
    assert_eq!(rt; kings.words(), [0x0010_0000, 0, 0x0700_0000]);
    assert!(rt; has_lawful_move(&kings));
}

#[test]
fn reads_and_writes_words(rt: HostRuntime) {
    let text = "rnbqk/ppppp/5/PPPPP/RNBQK b";
    let words = [0x0005_0066_6661_2453, 0x0000_00CC_CCC0_0000, 0x7_8AB9];
    let position = read_sound(text.as_bytes()).expect(&rt, "a position");
    assert_eq!(rt; write_words(&position), words);
    let read = read_words(Game::Gardner, Side::Black, &words).expect(&rt, "a position");
    assert_eq!(rt; fen_text(&read).as_str(), text);
    // no kings, and a pawn on the last rank
    assert!(rt; read_words(Game::Gardner, Side::Black, &[0, 0, 0]).is_none());
    assert!(rt; read_words(Game::LosAlamos, Side::White, &[0x0010_0000, 0, 0x6700_0000]).is_none());
}

#[test]
fn finds_a_lawful_move(rt: HostRuntime) {
    for (text, has_move) in [
        ("rnqknr/pppppp/6/6/PPPPPP/RNQKNR w", true),
        // ways out of check
        ("kR4/1p4/6/6/6/K5 b", true),
        // mate, and stalemate
        ("k4R/6/1K4/6/6/6 b", false),
        ("k5/2Q3/6/6/6/5K b", false),
    ] {
        assert_eq!(rt; has_lawful_move(&board(&rt, text)), has_move, "{text}");
    }
}

/// Whether the move from one square to the other, which must be lawful, gives check.
fn checks(rt: &impl Abort, text: &str, from: Square, to: Square) -> bool {
    let position = read_sound(text.as_bytes()).expect(rt, "a position");
    let m = Move {
        from,
        to,
        promotion: None,
    };
    if !is_lawful(&position, m) {
        panic!(rt; "not lawful")
    }
    gives_check(&Board::of(&position), m)
}

#[test]
fn finds_moves_that_give_check(rt: HostRuntime) {
    let f1 = Square { file: 5, rank: 0 };
    let f6 = Square { file: 5, rank: 5 };
    let e1 = Square { file: 4, rank: 0 };
    let text = "k5/6/1K4/6/6/5R w";
    assert!(rt; checks(&rt, text, f1, f6));
    assert!(rt; !checks(&rt, text, f1, e1));
}

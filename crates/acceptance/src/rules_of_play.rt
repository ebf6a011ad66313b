//! Squares, checks and lawful moves: each call once, with lists worked out by hand.
use arrayvec::ArrayVec;
use board::{FenFault, Game, Position, Side, fen_text};
use moves::{
    Board, Move, Square, apply, in_check, is_lawful, lawful, list_checks, ray, read_sound, sound,
};
use std::alloc::{AllocError, Global};
use std::process::Abort;
use std::test::Fail;

fn position(rt: &impl Abort, text: &str) -> Position {
    read_sound(text.as_bytes()).expect(rt, "a position")
}

/// The moves, with a space behind each.
fn list(alloc: Global, moves: &[Move]) -> Result<String, AllocError> {
    let mut text = String::new(alloc);
    for m in moves {
        let m = *m;
        text.push_str(format!(in alloc; "{m} ")?.as_str())?;
    }
    Ok(text)
}

/// Positions, their lawful moves, and which of them give check.
const LISTED: [(&str, &str, &str); 8] = [
    // the two starting positions
    (
        "rnqknr/pppppp/6/6/PPPPPP/RNQKNR w",
        "b1a3 b1c3 e1d3 e1f3 a2a3 b2b3 c2c3 d2d3 e2e3 f2f3 ",
        "",
    ),
    (
        "rnbqk/ppppp/5/PPPPP/RNBQK w",
        "b1a3 b1c3 a2a3 b2b3 c2c3 d2d3 e2e3 ",
        "",
    ),
    // promotions, with and without a bishop
    (
        "k4/2P2/1K3/5/5 w",
        "b3a2 b3b2 b3c2 b3a3 b3c3 c4c5q c4c5r c4c5b c4c5n ",
        "c4c5q c4c5r ",
    ),
    (
        "k5/2P3/6/6/6/5K w",
        "f1e1 f1e2 f1f2 c5c6q c5c6r c5c6n ",
        "c5c6q c5c6r ",
    ),
    // stalemate, and mate
    ("k5/2Q3/6/6/6/5K b", "", ""),
    ("k4R/6/1K4/6/6/6 b", "", ""),
    (
        "k5/6/1K4/6/6/5R w",
        "f1a1 f1b1 f1c1 f1d1 f1e1 f1f2 f1f3 f1f4 f1f5 f1f6 b4a3 b4b3 b4c3 b4a4 b4c4 b4c5 ",
        "f1a1 f1f6 ",
    ),
    // wherever the knight goes, the rook behind it checks
    (
        "k5/1p4/1P4/N1K3/6/R5 w",
        "a1b1 a1c1 a1d1 a1e1 a1f1 a1a2 a3b1 a3c2 a3c4 a3b5 c3b2 c3c2 c3d2 c3b3 c3d3 c3d4 ",
        "a3b1 a3c2 a3c4 a3b5 ",
    ),
];

#[test]
fn lists_lawful_moves_and_checks(rt: HostRuntime) -> Result<(), Fail> {
    let mut checks = ArrayVec::new();
    for (text, moves, those_that_check) in LISTED {
        let position = position(&rt, text);
        let listed = lawful(&position);
        assert_eq!(rt;
            list(rt.alloc(), listed.as_slice())?.as_str(),
            moves,
            "{text}"
        );
        list_checks(&Board::of(&position), &mut checks);
        assert_eq!(rt;
            list(rt.alloc(), checks.as_slice())?.as_str(),
            those_that_check,
            "{text}"
        );
    }
    Ok(())
}

const A6: Square = Square { file: 0, rank: 5 };

const B6: Square = Square { file: 1, rank: 5 };

#[test]
fn numbers_squares(rt: HostRuntime) {
    let e5 = Square { file: 4, rank: 4 };
    assert!(rt; e5.is_on_board(Game::Gardner));
    assert_eq!(rt; e5.number(Game::Gardner), 24);
    assert_eq!(rt; Square::of_number(Game::Gardner, 24), e5);
    assert!(rt; B6.is_on_board(Game::LosAlamos));
    assert!(rt; !B6.is_on_board(Game::Gardner));
    assert_eq!(rt; B6.number(Game::LosAlamos), 31);
    assert_eq!(rt; Square::of_number(Game::LosAlamos, 31), B6);
}

#[test]
fn finds_checks(rt: HostRuntime) {
    let mated = position(&rt, "k4R/6/1K4/6/6/6 b");
    assert!(rt; in_check(&mated, Side::Black));
    assert!(rt; !in_check(&mated, Side::White));
    assert!(rt; sound(&mated));
    assert!(rt;
        matches!(
            read_sound(b"k4R/6/1K4/6/6/6 w"),
            Err(FenFault::OtherInCheck)
        )
    );
    assert!(rt; matches!(read_sound(b"k4R/6/1K4/6/6/6"), Err(FenFault::Fields)));
}

#[test]
fn makes_moves(rt: HostRuntime) {
    let before = position(&rt, "k4/2P2/1K3/5/5 w");
    let moves = lawful(&before);
    assert_eq!(rt; moves.len(), 9);
    let promotes = moves.as_slice()[5];
    assert!(rt; is_lawful(&before, promotes));
    let after = apply(&before, promotes);
    assert_eq!(rt; fen_text(&after).as_str(), "k1Q2/5/1K3/5/5 b");
    let stays = Move {
        from: A6,
        to: A6,
        promotion: None,
    };
    assert!(rt; !is_lawful(&before, stays));
}

#[test]
fn follows_rays(rt: HostRuntime) {
    for (game, square, dx, dy, squares) in [
        (Game::LosAlamos, 0, 1, 1, [7, 14, 21, 28, 35].as_slice()),
        (Game::LosAlamos, 2, -1, 1, [7, 12].as_slice()),
        (Game::Gardner, 0, 1, 1, [6, 12, 18, 24].as_slice()),
        (Game::Gardner, 24, 1, 0, [].as_slice()),
    ] {
        assert_eq!(rt; ray(game, square, dx, dy).as_slice(), squares);
    }
}

//! Each public call once, on piece strings and texts whose answers come from the formats' own tables.
use board::Mode::{Both, Capture, Move};
use board::{
    BetzaFault, FenFault, Game, Kind, Mode, Position, Side, Unit, fen_text, parse_betza, pieces,
    read_fen,
};
use std::process::Abort;

/// A step as the tables write it: dx, dy, rider, mode.
type Row = (i8, i8, bool, Mode);

const KING: [Row; 8] = [
    (-1, -1, false, Both),
    (-1, 0, false, Both),
    (-1, 1, false, Both),
    (0, -1, false, Both),
    (0, 1, false, Both),
    (1, -1, false, Both),
    (1, 0, false, Both),
    (1, 1, false, Both),
];

const BISHOP: [Row; 4] = [
    (-1, -1, true, Both),
    (-1, 1, true, Both),
    (1, -1, true, Both),
    (1, 1, true, Both),
];

const PAWN: [Row; 3] = [
    (-1, 1, false, Capture),
    (0, 1, false, Move),
    (1, 1, false, Capture),
];

const KNIGHT_RIDER: [Row; 8] = [
    (-2, -1, true, Both),
    (-2, 1, true, Both),
    (-1, -2, true, Both),
    (-1, 2, true, Both),
    (1, -2, true, Both),
    (1, 2, true, Both),
    (2, -1, true, Both),
    (2, 1, true, Both),
];

/// Checks the steps of a denotation, in order.
fn assert_steps(rt: &impl Abort, steps: &[board::Step], rows: &[Row]) {
    assert_eq!(rt; steps.len(), rows.len());
    for (step, row) in steps.iter().zip(rows) {
        assert!(rt; (step.dx, step.dy, step.rider, step.mode) == *row);
    }
}

/// Checks the steps that a piece string is read as, in order.
fn assert_read(rt: &impl Abort, text: &[u8], rows: &[Row]) {
    match parse_betza(text) {
        Ok(steps) => assert_steps(rt, steps.as_slice(), rows),
        Err(_) => panic!(rt; "refused"),
    }
}

#[test]
fn piece_strings_are_read(rt: HostRuntime) {
    assert_read(&rt, b"K", &KING);
    assert_read(&rt, b"NN", &KNIGHT_RIDER);
    assert_read(&rt, b"mfWcfF", &PAWN);
}

/// Why a piece string is refused, if it is.
fn fault_of(text: &[u8]) -> Option<BetzaFault> {
    parse_betza(text).err()
}

#[test]
fn faulty_piece_strings_are_refused(rt: HostRuntime) {
    let table: [(&[u8], BetzaFault); 10] = [
        (b"", BetzaFault::Empty),
        (b"WX", BetzaFault::Letter),
        (b"mR", BetzaFault::Modifier),
        (b"cmW", BetzaFault::Modifier),
        (b"fN", BetzaFault::Modifier),
        (b"fNN", BetzaFault::Modifier),
        (b"WWW", BetzaFault::Repeated),
        (b"RK", BetzaFault::Repeated),
        (b"RW", BetzaFault::Repeated),
        (b"mWcW", BetzaFault::Repeated),
    ];
    for (text, fault) in table {
        assert!(rt; fault_of(text) == Some(fault));
    }
}

/// Checks the steps of a kind in Gardner minichess, in order.
fn assert_piece(rt: &impl Abort, kind: Kind, rows: &[Row]) {
    match pieces(Game::Gardner).steps(kind) {
        Some(steps) => assert_steps(rt, steps.as_slice(), rows),
        None => panic!(rt; "not played"),
    }
}

#[test]
fn each_game_has_its_pieces(rt: HostRuntime) {
    assert!(rt; pieces(Game::LosAlamos).steps(Kind::Bishop).is_none());
    assert_piece(&rt, Kind::King, &KING);
    assert_piece(&rt, Kind::Bishop, &BISHOP);
    assert_piece(&rt, Kind::Pawn, &PAWN);
}

#[test]
fn games_and_sides(rt: HostRuntime) {
    let (los_alamos, gardner) = (Game::LosAlamos, Game::Gardner);
    assert!(rt;
        (
            los_alamos.width(),
            los_alamos.squares(),
            los_alamos.most_units()
        ) == (6, 36, 12)
    );
    assert!(rt; (gardner.width(), gardner.squares(), gardner.most_units()) == (5, 25, 10));
    assert!(rt; Side::White.other() == Side::Black && Side::Black.other() == Side::White);
}

/// Checks why a text is refused.
fn assert_refused(rt: &impl Abort, text: &[u8], fault: FenFault) {
    assert!(rt; read_fen(text).err() == Some(fault));
}

#[test]
fn faulty_texts_are_refused(rt: HostRuntime) {
    let table: [(&[u8], FenFault); 14] = [
        (b"", FenFault::Fields),
        (b"k5/6/6/6/6/5K", FenFault::Fields),
        (b"k5/6/1K4/6/6/5R w ", FenFault::Fields),
        (b"k5/6/6/6/5K w", FenFault::Shape),
        (b"k9/6/6/6/6/5K w", FenFault::Shape),
        (b"k5/6/6/6/6/B4K w", FenFault::Letter),
        (b"\xFF5/6/1K4/6/6/5R w", FenFault::Letter),
        (b"k5/6/33/6/6/5K w", FenFault::Run),
        (b"k05/6/6/6/6/5K w", FenFault::Run),
        (b"k5/6/6/6/6/5K x", FenFault::Side),
        (b"6/6/6/6/6/5K w", FenFault::Kings),
        (b"k5/QQQQQQ/QQQQQQ/6/6/K5 w", FenFault::Units),
        (
            b"kQQQQQ/QQQQQQ/QQQQQQ/QQQQQQ/QQQQQQ/QQQQQK w",
            FenFault::Units,
        ),
        (b"k5/6/6/6/6/P4K w", FenFault::PawnRank),
    ];
    for (text, fault) in table {
        assert_refused(&rt, text, fault);
    }
}

#[test]
fn a_text_that_ends_too_soon_is_refused(rt: HostRuntime) {
    let text = b"k5/6/1K4/6/6/5R w";
    for end in 0..16 {
        assert_refused(&rt, &text[..end], FenFault::Fields);
    }
    assert_refused(&rt, &text[..16], FenFault::Side);
    assert!(rt; read_fen(text).is_ok());
}

#[test]
fn a_text_is_written_as_it_was_read(rt: HostRuntime) {
    for text in [
        "rnqknr/pppppp/6/6/PPPPPP/RNQKNR w",
        "rnbqk/ppppp/5/PPPPP/RNBQK b",
        "k5/1q1Q2/6/3p2/6/5K w",
        "1r1n1k/r1q1n1/1p1p1p/P1P1P1/1R1N1K/R1Q1N1 b",
    ] {
        match read_fen(text.as_bytes()) {
            Ok(position) => assert_eq!(rt; fen_text(&position).as_str(), text),
            Err(_) => assert!(rt; false, "refused"),
        }
    }
}

#[test]
fn a_position_shows_what_it_was_made_of(rt: HostRuntime) {
    let white_king = Unit {
        side: Side::White,
        kind: Kind::King,
    };
    let black_king = Unit {
        side: Side::Black,
        kind: Kind::King,
    };
    let mut units = [None; 36];
    units[5] = Some(white_king);
    units[24] = Some(black_king);
    match Position::of(Game::LosAlamos, Side::Black, &units) {
        Some(position) => {
            assert!(rt; position.game() == Game::LosAlamos);
            assert!(rt; position.mover() == Side::Black);
            assert!(rt; position.unit(5) == Some(white_king));
            assert!(rt; position.unit(24) == Some(black_king));
            assert!(rt; position.unit(0).is_none());
            assert!(rt; position.units() == units);
        }
        None => assert!(rt; false, "no position"),
    }
    units[30] = Some(white_king);
    assert!(rt;
        Position::of(Game::LosAlamos, Side::Black, &units).is_none(),
        "two kings"
    );
    units[5] = None;
    assert!(rt;
        Position::of(Game::Gardner, Side::Black, &units).is_none(),
        "off the board"
    );
}

/// A proof bounds no stack: long bytes are read in a loop.
#[test]
fn long_bytes_are_answered(rt: HostRuntime) {
    let atoms = [b'W'; 100_000];
    assert!(rt; fault_of(&atoms) == Some(BetzaFault::Repeated));
    let mut zeros = [b'0'; 100_000];
    zeros[99_998] = b' ';
    zeros[99_999] = b'w';
    assert_refused(&rt, &zeros, FenFault::Shape);
}

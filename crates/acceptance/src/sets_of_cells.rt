//! Cells, sets of them and the tables of what is seen from each: each call once, with sets worked out by hand.
use board::{Game, Side};
use cells::{
    Way, cell_of, cells, common, down_to_highest, except, has, king_leaps, knight_leaps, lowest,
    pawn_captures, ray, single, slanted_lines, square_in, straight_lines, up_to_lowest, with_cell,
    without,
};
use rules::Square;

// Cells of the board: eight to a rank, of which a1 is the cell 17.
const A1: u8 = 17;

const B2: u8 = 26;

#[test]
fn numbers_cells_eight_to_a_rank(rt: HostRuntime) {
    let corner = Square { file: 5, rank: 5 };
    assert_eq!(rt; cell_of(Square { file: 0, rank: 0 }), A1);
    assert_eq!(rt; cell_of(Square { file: 1, rank: 1 }), B2);
    assert_eq!(rt; cell_of(corner), 62);
    assert_eq!(rt; square_in(62), corner);
    assert_eq!(rt; cells(Game::LosAlamos).count_ones(), 36);
    assert_eq!(rt; cells(Game::Gardner).count_ones(), 25);
}

#[test]
fn puts_sets_together(rt: HostRuntime) {
    assert!(rt; has(0b101, 2));
    assert!(rt; !has(0b101, 1));
    assert_eq!(rt; single(3), 0b1000);
    assert_eq!(rt; with_cell(0b1, 2, true), 0b101);
    assert_eq!(rt; with_cell(0b1, 2, false), 0b1);
    assert_eq!(rt; lowest(0b1100), 2);
    assert_eq!(rt; without(0b110, 1), 0b100);
    assert_eq!(rt; except(0b111, 0b010), 0b101);
    assert_eq!(rt; common(0b110, 0b011), 0b010);
}

#[test]
fn stops_at_what_stands_on_a_line(rt: HostRuntime) {
    assert_eq!(rt; up_to_lowest(0b11000), 0b1111);
    assert_eq!(rt; down_to_highest(0b11), !0b1);
}

#[test]
fn looks_along_lines(rt: HostRuntime) {
    // from a1: a2 to a6, and b2 to f6
    let up = 1 << 25 | 1 << 33 | 1 << 41 | 1 << 49 | 1 << 57;
    let aslant = 1 << 26 | 1 << 35 | 1 << 44 | 1 << 53 | 1 << 62;
    assert_eq!(rt; ray(Game::LosAlamos, Way::North, A1), up);
    assert_eq!(rt; ray(Game::LosAlamos, Way::NorthEast, A1), aslant);
    assert_eq!(rt; ray(Game::LosAlamos, Way::South, A1), 0);
    // a rook's lines have ten and eight cells, wherever it stands; a bishop's in the corner five and four
    assert_eq!(rt; straight_lines(Game::LosAlamos, B2).count_ones(), 10);
    assert_eq!(rt; straight_lines(Game::Gardner, B2).count_ones(), 8);
    assert_eq!(rt; slanted_lines(Game::LosAlamos, A1), aslant);
    assert_eq!(rt; slanted_lines(Game::Gardner, A1).count_ones(), 4);
}

#[test]
fn leaps_from_a_cell(rt: HostRuntime) {
    // a king on a1: b1, a2, b2; a knight there: c2, b3; a pawn on b2: a3 and c3, or a1 and c1
    assert_eq!(rt; king_leaps(Game::Gardner, A1), 1 << 18 | 1 << 25 | 1 << 26);
    assert_eq!(rt; knight_leaps(Game::Gardner, A1), 1 << 27 | 1 << 34);
    assert_eq!(rt;
        pawn_captures(Game::Gardner, Side::White, B2),
        1 << 33 | 1 << 35
    );
    assert_eq!(rt;
        pawn_captures(Game::Gardner, Side::Black, B2),
        1 << 17 | 1 << 19
    );
}

//! Diagrams, drawn by hand.
use board::{Position, Side, read_fen};
use diagrams::{Diagram, Style, board_drawn, captioned_svg, svg_of};
use moves::{Move, Square};
use std::process::Abort;
use std::test::*;

const ROOK_MATES_IN_THREE: &[u8] = b"k5/6/2K3/6/6/1R4 w";

fn read<R: Abort>(rt: &R, text: &[u8]) -> Position {
    let Ok(position) = read_fen(text) else {
        panic!(rt; "no position")
    };
    position
}

fn has<R: Abort>(rt: &R, text: &str, part: &str) {
    assert!(rt; text.contains(part));
}

#[test]
fn draws_as_either_side_sees_it(rt: HostRuntime) {
    let position = read(&rt, ROOK_MATES_IN_THREE);
    let Ok(white) = board_drawn(rt.alloc(), &position, Side::White, Style::Letters) else {
        panic!(rt; "no memory")
    };
    assert_eq!(rt;
        white.as_str(),
        " 6  k . . . . .\n 5  . . . . . .\n 4  . . K . . .\n 3  . . . . . .\n 2  . . . . . .\n 1  . R . . . .\n    a b c d e f      White to move\n"
    );
    let Ok(black) = board_drawn(rt.alloc(), &position, Side::Black, Style::Symbols) else {
        panic!(rt; "no memory")
    };
    assert_eq!(rt;
        black.as_str(),
        " 1  . . . . \u{2656} .\n 2  . . . . . .\n 3  . . . . . .\n 4  . . . \u{2654} . .\n 5  . . . . . .\n 6  . . . . . \u{265A}\n    f e d c b a      White to move\n"
    );
}

#[test]
fn a_picture_has_each_unit_at_its_square(rt: HostRuntime) {
    let position = read(&rt, ROOK_MATES_IN_THREE);
    let key = Move {
        from: Square { file: 2, rank: 3 },
        to: Square { file: 2, rank: 4 },
        promotion: None,
    };
    let diagram = Diagram {
        position: &position,
        below: Side::White,
        arrow: Some(key),
    };
    let Ok(text) = svg_of(rt.alloc(), &diagram) else {
        panic!(rt; "no memory")
    };
    let picture = text.as_str();
    has(&rt, picture, "width=\"648\" height=\"648\"");
    has(
        &rt,
        picture,
        "<g transform=\"translate(44 4)\" fill=\"#2b2d29\"",
    );
    has(
        &rt,
        picture,
        "<g transform=\"translate(244 204)\" fill=\"#fff\"",
    );
    has(
        &rt,
        picture,
        "<g transform=\"translate(144 504)\" fill=\"#fff\"",
    );
    has(&rt, picture, "<path d=\"M294 254L294 154\"");
    // a1 is dark, and b1 is light
    has(&rt, picture, "<path d=\"M44 504h100v100h-100z\"");
    assert!(rt; !picture.contains("<path d=\"M144 504h100"));
    assert!(rt; !picture.contains("<path d=\"M11 "));
}

#[test]
fn black_below_turns_the_picture(rt: HostRuntime) {
    let position = read(&rt, b"4k/5/5/5/R3K b");
    let diagram = Diagram {
        position: &position,
        below: Side::Black,
        arrow: None,
    };
    let Ok(text) = svg_of(rt.alloc(), &diagram) else {
        panic!(rt; "no memory")
    };
    let picture = text.as_str();
    has(&rt, picture, "<title>Black to move</title>");
    has(&rt, picture, "<path d=\"M11 526a11 11");
    has(
        &rt,
        picture,
        "<g transform=\"translate(44 404)\" fill=\"#2b2d29\"",
    );
    has(
        &rt,
        picture,
        "<g transform=\"translate(444 4)\" fill=\"#fff\"",
    );
    has(
        &rt,
        picture,
        "<g transform=\"translate(44 4)\" fill=\"#fff\"",
    );
    assert!(rt; !picture.contains("marker"));
}

#[test]
fn a_caption_stands_below_the_board(rt: HostRuntime) {
    let position = read(&rt, ROOK_MATES_IN_THREE);
    let diagram = Diagram {
        position: &position,
        below: Side::White,
        arrow: None,
    };
    let Ok(text) = captioned_svg(rt.alloc(), &diagram, "<#2 & =1>", "1.\u{2656}b5=") else {
        panic!(rt; "no memory")
    };
    let picture = text.as_str();
    has(&rt, picture, "width=\"648\" height=\"688\"");
    has(&rt, picture, "viewBox=\"0 0 648 688\"");
    has(&rt, picture, "<path d=\"M0 0h648v688H0z\"");
    has(
        &rt,
        picture,
        "<text x=\"44\" y=\"674\">&lt;#2 &amp; =1&gt;</text>",
    );
    has(
        &rt,
        picture,
        "<text x=\"644\" y=\"674\" text-anchor=\"end\">1.\u{2656}b5=</text></g>\n</svg>\n",
    );
}

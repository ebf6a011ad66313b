//! A diagram as a picture in Scalable Vector Graphics.
ghost use Rattle.std.specs.Prelude.{◌≡◌, ℕ, ◌*◌, ◌++◌, ◌<◌, ◌≤◌, List, IfOk, OnOk, string_bytes};
ghost use Rattle.board.specs.Games.{width_of};
ghost use Rattle.rules.specs.Squares.{IsOnBoard};
ghost use Rattle.diagrams.specs.Pictures.{view_of, width, row_picture, rows_picture, sign_picture, rank_picture, file_picture, all_signs_picture, middle_x, middle_y, AreOnBoard, arrow_between, arrow_picture, picture_of, sized_head, sized_paper, frame, mover_mark, picture, picture_with, captioned_picture};

use crate::caption::{caption, escaped};
use crate::diagram::Diagram;
use crate::drawing::mover_drawn;
use crate::place::{column_of, row_of};
use crate::shapes::{file_sign, rank_sign};
use crate::square::draw_square;
use board::Side;
use moves::Square;
use std::alloc::{AllocError, Global};
use std::fmt::Write;

/// How wide and high the board is.
fn board_side(diagram: &Diagram<'_>) -> u16
    ensures value { result ≡ 100 * width (view_of diagram.now) }
    ensures at_most { result ≤ 600 }
{
    100 * u16::from(diagram.position.game().width())
}

fn draw_row(text: &mut String, diagram: &Diagram<'_>, row: u8) -> Result<(), AllocError>
    requires { row < width (view_of diagram.now) }
    ensures { OnOk result (string_bytes text.new ≡ string_bytes text.old ++ row_picture (view_of diagram.now) row) }
{
    for column in 0..diagram.position.game().width() {
        draw_square(text, diagram, row, column)?;
    }
    Ok(())
}

fn draw_rows(text: &mut String, diagram: &Diagram<'_>) -> Result<(), AllocError>
    ensures { OnOk result (string_bytes text.new ≡ string_bytes text.old ++ rows_picture (view_of diagram.now)) }
{
    for row in 0..diagram.position.game().width() {
        draw_row(text, diagram, row)?;
    }
    Ok(())
}

fn draw_sign(text: &mut String, x: u16, y: u16, sign: &str) -> Result<(), AllocError>
    ensures { OnOk result (string_bytes text.new ≡ string_bytes text.old ++ sign_picture x y sign.now) }
{
    write!(
        text,
        "<path transform=\"translate({x} {y})\" d=\"{sign}\" fill=\"none\" stroke=\"#23251f\" stroke-width=\"3\" stroke-linecap=\"round\"/>\n"
    )
}

/// Draws the sign of the rank in a row.
fn draw_rank(text: &mut String, diagram: &Diagram<'_>, row: u8) -> Result<(), AllocError>
    requires { row < width (view_of diagram.now) }
    ensures { OnOk result (string_bytes text.new ≡ string_bytes text.old ++ rank_picture (view_of diagram.now) row) }
{
    let sign = rank_sign(row_of(diagram.position.game(), diagram.below, row));
    draw_sign(text, 6, 39 + 100 * u16::from(row), sign)
}

/// Draws the sign of the file in a column.
fn draw_file(text: &mut String, diagram: &Diagram<'_>, column: u8) -> Result<(), AllocError>
    requires { column < width (view_of diagram.now) }
    ensures { OnOk result (string_bytes text.new ≡ string_bytes text.old ++ file_picture (view_of diagram.now) column) }
{
    let sign = file_sign(column_of(diagram.position.game(), diagram.below, column));
    draw_sign(
        text,
        79 + 100 * u16::from(column),
        9 + board_side(diagram),
        sign,
    )
}

fn draw_signs(text: &mut String, diagram: &Diagram<'_>) -> Result<(), AllocError>
    ensures { OnOk result (string_bytes text.new ≡ string_bytes text.old ++ all_signs_picture (view_of diagram.now)) }
{
    for n in 0..diagram.position.game().width() {
        draw_rank(text, diagram, n)?;
        draw_file(text, diagram, n)?;
    }
    Ok(())
}

/// How far the middle of a square is from the left, and from above.
fn middle(diagram: &Diagram<'_>, square: Square) -> (u16, u16)
    requires { IsOnBoard diagram.now.position.now.game square }
    ensures x { result.0 ≡ middle_x (view_of diagram.now) square }
    ensures y { result.1 ≡ middle_y (view_of diagram.now) square }
{
    let game = diagram.position.game();
    let column = column_of(game, diagram.below, square.file);
    let row = row_of(game, diagram.below, square.rank);
    (94 + 100 * u16::from(column), 54 + 100 * u16::from(row))
}

fn draw_arrow(text: &mut String, x: u16, y: u16, to_x: u16, to_y: u16) -> Result<(), AllocError>
    ensures { OnOk result (string_bytes text.new ≡ string_bytes text.old ++ arrow_between x y to_x to_y) }
{
    write!(
        text,
        "<marker id=\"head\" viewBox=\"0 0 10 10\" refX=\"7\" refY=\"5\" markerWidth=\"4\" markerHeight=\"4\" orient=\"auto\"><path d=\"M0 0L10 5 0 10z\" fill=\"#b3261e\"/></marker>\n<path d=\"M{x} {y}L{to_x} {to_y}\" fill=\"none\" stroke=\"#b3261e\" stroke-width=\"9\" marker-end=\"url(#head)\"/>\n"
    )
}

fn draw_arrow_of(text: &mut String, diagram: &Diagram<'_>) -> Result<(), AllocError>
    requires { AreOnBoard (view_of diagram.now) diagram.now.arrow }
    ensures { OnOk result (string_bytes text.new
        ≡ string_bytes text.old ++ picture_of (arrow_picture (view_of diagram.now)) diagram.now.arrow) }
{
    if let Some(m) = diagram.arrow {
        let (x, y) = middle(diagram, m.from);
        let (to_x, to_y) = middle(diagram, m.to);
        draw_arrow(text, x, y, to_x, to_y)?;
    }
    Ok(())
}

fn draw_head(text: &mut String, wide: u16, high: u16) -> Result<(), AllocError>
    ensures { OnOk result (string_bytes text.new ≡ string_bytes text.old ++ sized_head wide high) }
{
    write!(
        text,
        "<?xml version=\"1.0\" encoding=\"UTF-8\"?>\n<svg xmlns=\"http://www.w3.org/2000/svg\" width=\"{wide}\" height=\"{high}\" viewBox=\"0 0 {wide} {high}\" role=\"img\">\n"
    )
}

fn draw_paper(text: &mut String, wide: u16, high: u16, mover: &str) -> Result<(), AllocError>
    ensures { OnOk result (string_bytes text.new ≡ string_bytes text.old ++ sized_paper wide high mover.now) }
{
    write!(
        text,
        "<title>{mover}</title>\n<path d=\"M0 0h{wide}v{high}H0z\" fill=\"#fff\"/>\n"
    )
}

fn draw_frame(text: &mut String, side: u16) -> Result<(), AllocError>
    ensures { OnOk result (string_bytes text.new ≡ string_bytes text.old ++ frame side) }
{
    write!(
        text,
        "<path d=\"M44 4h{side}v{side}H44z\" fill=\"none\" stroke=\"#23251f\" stroke-width=\"3\"/>\n"
    )
}

fn draw_mover(text: &mut String, side: u16, mover: Side) -> Result<(), AllocError>
    requires { side ≤ 600 }
    ensures { OnOk result (string_bytes text.new ≡ string_bytes text.old ++ mover_mark side mover) }
{
    match mover {
        Side::White => Ok(()),
        Side::Black => {
            let y = 26 + side;
            write!(
                text,
                "<path d=\"M11 {y}a11 11 0 1 0 22 0 11 11 0 1 0-22 0z\" fill=\"#23251f\"/>\n"
            )
        }
    }
}

/// Draws a picture of this height, and what is below its board.
fn drawn(alloc: Global, diagram: &Diagram<'_>, high: u16, below: &str) -> Result<String, AllocError>
    requires { AreOnBoard (view_of diagram.now) diagram.now.arrow }
    ensures { IfOk result (λ text. string_bytes text
        ≡ picture_with (view_of diagram.now) diagram.now.arrow high below.now) }
{
    let mut text = String::new(alloc);
    let side = board_side(diagram);
    let mover = diagram.position.mover();
    draw_head(&mut text, 48 + side, high)?;
    draw_paper(&mut text, 48 + side, high, mover_drawn(mover))?;
    draw_rows(&mut text, diagram)?;
    draw_frame(&mut text, side)?;
    draw_signs(&mut text, diagram)?;
    draw_mover(&mut text, side, mover)?;
    draw_arrow_of(&mut text, diagram)?;
    text.push_str(below)?;
    text.push_str("</svg>\n")?;
    Ok(text)
}

/// The diagram as the text of a file that stands alone, of shapes and no fonts.
pub fn svg_of(alloc: Global, diagram: &Diagram<'_>) -> Result<String, AllocError>
    requires { AreOnBoard (view_of diagram.now) diagram.now.arrow }
    ensures { IfOk result (λ text. string_bytes text ≡ picture (view_of diagram.now) diagram.now.arrow) }
{
    drawn(alloc, diagram, 48 + board_side(diagram), "")
}

/// The same with a line below the board: a stipulation at its left, and keys at its right. These are text, and need a font.
pub fn captioned_svg(
    alloc: Global,
    diagram: &Diagram<'_>,
    stipulation: &str,
    keys: &str,
) -> Result<String, AllocError>
    requires { AreOnBoard (view_of diagram.now) diagram.now.arrow }
    ensures { IfOk result (λ text. string_bytes text
        ≡ captioned_picture (view_of diagram.now) diagram.now.arrow stipulation.now keys.now) }
{
    let side = board_side(diagram);
    let stipulation = escaped(alloc, stipulation)?;
    let keys = escaped(alloc, keys)?;
    let caption = caption(alloc, side, stipulation.as_str(), keys.as_str())?;
    drawn(alloc, diagram, 88 + side, caption.as_str())
}

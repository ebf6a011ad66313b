//! The squares of a picture, with what stands on them.
ghost use Rattle.std.specs.Prelude.{◌≡◌, ◌++◌, ◌<◌, OnOk, string_bytes};
ghost use Rattle.board.specs.Games.{width_of};
ghost use Rattle.diagrams.specs.Pictures.{left_edge, top_edge, ground, colours, inner_colour, group, unit_shape, unit_picture, view_of, square_picture};

use crate::diagram::Diagram;
use crate::place::{column_of, row_of};
use crate::shapes::{detail, outline};
use board::{Side, Unit};
use moves::Square;
use std::alloc::AllocError;
use std::fmt::Write;

fn colours(side: Side) -> &'static str
    ensures { result.now ≡ colours side }
{
    match side {
        Side::White => "fill=\"#fff\" stroke=\"#23251f\"",
        Side::Black => "fill=\"#2b2d29\" stroke=\"#0c0d0b\"",
    }
}

fn inner_colour(side: Side) -> &'static str
    ensures { result.now ≡ inner_colour side }
{
    match side {
        Side::White => "#23251f",
        Side::Black => "#d9d9cd",
    }
}

/// How far the corner of a square is from the left, and from above.
fn corner(row: u8, column: u8) -> (u16, u16)
    ensures x { result.0 ≡ left_edge column }
    ensures y { result.1 ≡ top_edge row }
{
    (44 + 100 * u16::from(column), 4 + 100 * u16::from(row))
}

/// Draws a square's ground, where it is dark.
fn draw_ground(text: &mut String, square: Square, row: u8, column: u8) -> Result<(), AllocError>
    requires file { square.file < 6 }
    requires rank { square.rank < 6 }
    ensures { OnOk result (string_bytes text.new
        ≡ string_bytes text.old ++ ground square row column) }
{
    if (square.file + square.rank) % 2 != 0 {
        return Ok(());
    }
    let (x, y) = corner(row, column);
    write!(
        text,
        "<path d=\"M{x} {y}h100v100h-100z\" fill=\"#c9cfbf\"/>\n"
    )
}

fn draw_group(text: &mut String, x: u16, y: u16, colours: &str) -> Result<(), AllocError>
    ensures { OnOk result (string_bytes text.new ≡ string_bytes text.old ++ group x y colours.now) }
{
    write!(
        text,
        "<g transform=\"translate({x} {y})\" {colours} stroke-width=\"3.2\" stroke-linejoin=\"round\" stroke-linecap=\"round\">"
    )
}

fn draw_shape(text: &mut String, outline: &str, detail: &str, inner: &str) -> Result<(), AllocError>
    ensures { OnOk result (string_bytes text.new
        ≡ string_bytes text.old ++ unit_shape outline.now detail.now inner.now) }
{
    write!(
        text,
        "<path d=\"{outline}M22 88h56v-7q0-5-6-6H28q-6 1-6 6z\"/><path d=\"{detail}\" fill=\"none\" stroke=\"{inner}\"/></g>\n"
    )
}

fn draw_unit(text: &mut String, unit: Unit, row: u8, column: u8) -> Result<(), AllocError>
    ensures { OnOk result (string_bytes text.new
        ≡ string_bytes text.old ++ unit_picture unit row column) }
{
    let (x, y) = corner(row, column);
    draw_group(text, x, y, colours(unit.side))?;
    let (outline, detail) = (outline(unit.kind), detail(unit.kind));
    draw_shape(text, outline, detail, inner_colour(unit.side))?;
    Ok(())
}

/// Draws the square in a row and a column.
pub(crate) fn draw_square(
    text: &mut String,
    diagram: &Diagram<'_>,
    row: u8,
    column: u8,
) -> Result<(), AllocError>
    requires row { row < width_of diagram.now.position.now.game }
    requires column { column < width_of diagram.now.position.now.game }
    ensures { OnOk result (string_bytes text.new
        ≡ string_bytes text.old ++ square_picture (view_of diagram.now) row column) }
{
    let game = diagram.position.game();
    let file = column_of(game, diagram.below, column);
    let rank = row_of(game, diagram.below, row);
    draw_ground(text, Square { file, rank }, row, column)?;
    if let Some(unit) = diagram.position.unit(file + game.width() * rank) {
        draw_unit(text, unit, row, column)?;
    }
    Ok(())
}

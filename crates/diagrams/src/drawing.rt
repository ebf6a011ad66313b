//! A diagram as text.
ghost use Rattle.std.specs.Prelude.{◌≡◌, ◌++◌, ◌<◌, IfOk, OnOk, string_bytes};
ghost use Rattle.board.specs.Games.{width_of};
ghost use Rattle.diagrams.specs.declared.style.Style.TheVariants.{Symbols};
ghost use Rattle.diagrams.specs.Drawing.{unit_drawn, sign_on, row_drawn, rows_drawn, files_drawn, mover_drawn, board_drawn};

use crate::place::{column_of, row_of};
use crate::style::Style;
use board::{Game, Kind, Position, Side, Unit};
use std::alloc::{AllocError, Global};
use std::fmt::Write;

fn symbol(unit: Unit) -> &'static str
    ensures { result.now ≡ unit_drawn Symbols unit }
{
    match (unit.side, unit.kind) {
        (Side::White, Kind::King) => "\u{2654}",
        (Side::White, Kind::Queen) => "\u{2655}",
        (Side::White, Kind::Rook) => "\u{2656}",
        (Side::White, Kind::Bishop) => "\u{2657}",
        (Side::White, Kind::Knight) => "\u{2658}",
        (Side::White, Kind::Pawn) => "\u{2659}",
        (Side::Black, Kind::King) => "\u{265A}",
        (Side::Black, Kind::Queen) => "\u{265B}",
        (Side::Black, Kind::Rook) => "\u{265C}",
        (Side::Black, Kind::Bishop) => "\u{265D}",
        (Side::Black, Kind::Knight) => "\u{265E}",
        (Side::Black, Kind::Pawn) => "\u{265F}",
    }
}

/// Draws what stands on a square, or a point.
fn draw_unit(text: &mut String, style: Style, unit: Option<Unit>) -> Result<(), AllocError>
    ensures { OnOk result (string_bytes text.new ≡ string_bytes text.old ++ sign_on style unit) }
{
    let Some(unit) = unit else {
        return text.push_str(".");
    };
    match style {
        Style::Letters => text.push(unit.letter() as char),
        Style::Symbols => text.push_str(symbol(unit)),
    }
}

/// What is drawn: a board as one side sees it.
#[derive(Drop)]
struct View<'a> {
    position: &'a Position,
    below: Side,
    style: Style,
}

/// Draws a row: its rank's number, and its squares.
fn draw_row(text: &mut String, view: &View<'_>, row: u8) -> Result<(), AllocError>
    requires { row < width_of view.now.position.now.game }
    ensures { let v = view.now in OnOk result
        (string_bytes text.new ≡ string_bytes text.old ++ row_drawn v.style v.below v.position.now row) }
{
    let game = view.position.game();
    let rank = row_of(game, view.below, row);
    write!(text, " {} ", rank + 1)?;
    for column in 0..game.width() {
        let file = column_of(game, view.below, column);
        text.push(' ')?;
        draw_unit(
            text,
            view.style,
            view.position.unit(file + game.width() * rank),
        )?;
    }
    text.push('\n')
}

fn draw_rows(text: &mut String, view: &View<'_>) -> Result<(), AllocError>
    ensures { let v = view.now in OnOk result
        (string_bytes text.new ≡ string_bytes text.old ++ rows_drawn v.style v.below v.position.now) }
{
    for row in 0..view.position.game().width() {
        draw_row(text, view, row)?;
    }
    Ok(())
}

fn draw_files(text: &mut String, game: Game, below: Side) -> Result<(), AllocError>
    ensures { OnOk result (string_bytes text.new ≡ string_bytes text.old ++ files_drawn game below) }
{
    for column in 0..game.width() {
        text.push(' ')?;
        text.push((b'a' + column_of(game, below, column)) as char)?;
    }
    Ok(())
}

pub(crate) fn mover_drawn(side: Side) -> &'static str
    ensures { result.now ≡ mover_drawn side }
{
    match side {
        Side::White => "White to move",
        Side::Black => "Black to move",
    }
}

/// Draws the board as the side below sees it, with its ranks, its files and who moves.
pub fn board_drawn(
    alloc: Global,
    position: &Position,
    below: Side,
    style: Style,
) -> Result<String, AllocError>
    ensures { IfOk result (λ text. string_bytes text ≡ board_drawn style below position.now) }
{
    let mut text = String::new(alloc);
    let view = View {
        position,
        below,
        style,
    };
    draw_rows(&mut text, &view)?;
    text.push_str("   ")?;
    draw_files(&mut text, position.game(), below)?;
    text.push_str("      ")?;
    text.push_str(mover_drawn(position.mover()))?;
    text.push('\n')?;
    Ok(text)
}

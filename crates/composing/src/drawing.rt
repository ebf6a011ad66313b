//! A board as it is asked for.
ghost use Rattle.std.specs.Prelude.{◌≡◌, IfOk, string_bytes, vec_items};
ghost use Rattle.refusals.specs.Outcome.{Gives};
ghost use Rattle.composing.specs.Drawings.{IsDrawingReply, ShowsDrawing, below_of, style_of, drawn};

use board::{Position, Side};
use command_line::Drawing;
use diagrams::{Diagram, Style, board_drawn, svg_of};
use moves::read_sound;
use refusals::Refusal;
use std::alloc::{AllocError, Global};

fn below_of(drawing: Drawing) -> Side
    ensures { result ≡ below_of drawing }
{
    if drawing.black {
        Side::Black
    } else {
        Side::White
    }
}

fn style_of(drawing: Drawing) -> Style
    ensures { result ≡ style_of drawing }
{
    if drawing.unicode {
        Style::Symbols
    } else {
        Style::Letters
    }
}

/// The board as it is asked for: a picture, or text.
fn drawn(alloc: Global, position: &Position, drawing: Drawing) -> Result<String, AllocError>
    ensures { IfOk result (λ text. string_bytes text ≡ drawn drawing position.now) }
{
    let below = below_of(drawing);
    if !drawing.svg {
        return board_drawn(alloc, position, below, style_of(drawing));
    }
    let arrow = None;
    let diagram = Diagram {
        position,
        below,
        arrow,
    };
    svg_of(alloc, &diagram)
}

fn drawing_shown(alloc: Global, position: &Position, drawing: Drawing) -> Result<Vec<u8>, Refusal>
    ensures { Gives vec_items (ShowsDrawing drawing position.now) result }
{
    Ok(drawn(alloc, position, drawing)?.into_bytes())
}

/// The board of a position's text, drawn.
pub(crate) fn drawing_reply(alloc: Global, fen: &[u8], drawing: Drawing) -> Result<Vec<u8>, Refusal>
    ensures { Gives vec_items (IsDrawingReply fen.now drawing) result }
{
    let position = read_sound(fen)?;
    drawing_shown(alloc, &position, drawing)
}

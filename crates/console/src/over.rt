//! What is told of a line for a side that can play nothing, and what a refusal's advice is for.
ghost use Rattle.std.specs.Prelude.{◌≡◌, ◌⊎◌, ◌↔◌, IsTrue};
ghost use Rattle.console.specs.Order.{AsksOfMoves, AsksWhereOver};

use command_line::{Action, Line};
use endings::tell_if_over;
use refusals::Asking;
use std::io::Write;

fn asks_of_moves(action: Action) -> bool
    ensures { IsTrue result ↔ AsksOfMoves action }
{
    matches!(
        action,
        Action::Solve(..) | Action::Keys(..) | Action::Tree(..) | Action::Moves
    )
}

/// Whether what is asked is a search.
pub fn asking_of(action: Action) -> Asking<'static> {
    match action {
        Action::Solve(..) | Action::Keys(..) | Action::Tree(..) => Asking::Search,
        _ => Asking::Plain,
    }
}

/// Tells where a line asks for moves, and the side to move has none.
pub fn tell_if_line_is_over<E: Write>(errors: &mut E, line: &Line<'_>)
    ensures { AsksWhereOver line.now ⊎ (errors.new ≡ errors.old) }
{
    if asks_of_moves(line.action) {
        tell_if_over(errors, line.fen, None);
    }
}

//! The watch over the search of a line.
use command_line::{Action, Line};
use context::Context;
use moves::read_sound;
use progress::Watch;
use std::time::Clock;

/// A watch over the line's search, if it makes one that is to be shown.
pub(crate) fn watch_of<R: Clock + AllocGlobal, C>(
    context: &Context<'_, R, C>,
    line: &Line<'_>,
) -> Option<Watch> {
    let (keys, limits) = match line.action {
        Action::Solve(_, limits) | Action::Tree(_, limits) => (false, limits),
        Action::Keys(_, limits) => (true, limits),
        _ => return None,
    };
    let position = read_sound(line.fen).ok()?;
    context.watch_of(&position, keys, limits)
}

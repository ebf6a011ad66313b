//! The diagram of a problem, with its stipulation and its keys.
ghost use Rattle.std.specs.Prelude.{◌≡◌, ℕ, All, IfErr, IfOk, List, None, string_bytes};
ghost use Rattle.board.specs.declared.game.Side.TheVariants.{White};
ghost use Rattle.rules.specs.Moves.{IsLawful};
ghost use Rattle.problems.specs.Answer.{IsFewest};
ghost use Rattle.problems.specs.Roots.{IsRoot};
ghost use Rattle.searcher.specs.declared.halt.Halt.TheVariants.{Stopped};
ghost use Rattle.solution_text.specs.Text.{AreTexts, IsNumbered};
ghost use Rattle.diagrams.specs.Pictures.{captioned_picture};
ghost use Rattle.composing.specs.Solution.{IsDiagram, stipulation};

use algebraic::Notation;
use board::Side;
use diagrams::{Diagram, captioned_svg};
use moves::{Goal, Move};
use problems::Root;
use searcher::{Decider, Halt};
use solution_text::numbered_moves;
use solutions::continuations_of;
use std::alloc::{AllocError, Global};

/// The stipulation of a problem of so many plies.
fn stipulation(alloc: Global, goal: Goal, plies: u8) -> Result<String, AllocError>
    ensures { IfOk result (λ text. string_bytes text ≡ stipulation goal plies) }
{
    let moves = (u16::from(plies) + 1) / 2;
    match goal {
        Goal::Mate => format!(in alloc; "#{moves}"),
        Goal::MateOrStale => format!(in alloc; "={moves}"),
    }
}

/// The diagram of a root whose limit is the fewest plies, with these keys.
fn drawn(
    alloc: Global,
    root: &Root,
    notation: Notation,
    keys: &[Move],
) -> Result<String, AllocError>
    requires { All (IsLawful root.now.board) keys.now }
    ensures { IfOk result (λ text. (named : List ℕ) × AreTexts (IsNumbered notation 1 root.now.board) keys.now named
        × (string_bytes text ≡ captioned_picture (record { board = root.now.board; below = White }) None
        (stipulation root.now.goal root.now.limit) named)) }
{
    let position = root.board.position();
    let diagram = Diagram {
        position: &position,
        below: Side::White,
        arrow: None,
    };
    let stipulation = stipulation(alloc, root.goal, root.limit)?;
    let named = numbered_moves(alloc, notation, 1, &root.board, keys)?;
    captioned_svg(alloc, &diagram, stipulation.as_str(), named.as_str())
}

/// The diagram of a root whose limit is the fewest plies, with its keys.
pub(crate) fn diagram_text<D: Decider>(
    alloc: Global,
    decider: &mut D,
    root: &Root,
    notation: Notation,
) -> Result<String, Halt>
    requires root { IsRoot root.now }
    requires fewest { IsFewest root.now.goal root.now.board root.now.limit }
    requires goal { notation.goal ≡ root.now.goal }
    ensures text { IfOk result (λ text. IsDiagram notation root.now.board (string_bytes text)) }
    ensures halt { IfErr result (λ halt. halt ≡ Stopped → D.told decider.new) }
{
    let keys = continuations_of(alloc, decider, root, root.limit)?;
    match drawn(alloc, root, notation, keys.as_slice()) {
        Ok(text) => Ok(text),
        Err(_) => Err(Halt::NoMemory),
    }
}

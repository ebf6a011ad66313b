//! What a program asks a solver, and the number that it is answered.
ghost use Rattle.std.specs.Prelude.{◌≡◌, ◌⊎◌, ◌↔◌, IfErr, IfOk, IsErrOf, MatchOption, Some};
ghost use Rattle.board.specs.declared.game.Kind.{Kind as AKind};
ghost use Rattle.rules.specs.Squares.{Ply};
ghost use Rattle.slots.specs.Promise.{IsSize};
ghost use Rattle.problems.specs.Roots.{IsLimit};
ghost use Rattle.problems.specs.Problems.{IsProblemOf};
ghost use Rattle.std.specs.Arc.{arc_value};
ghost use Rattle.solver.specs.Stopping.{IsStopped, Hears};
ghost use Rattle.calls.specs.Calls.{goal_of};
ghost use Rattle.minimate_c.specs.Asked.{promotion_letter, first_told, TellsAnswer, Replies, IsOpenSolver};
ghost use Rattle.minimate_c.specs.Putting.{IsProblemAsked, IsUnasked};
ghost use Rattle.minimate_c.specs.Stopping.{AsksFor};

use crate::found::{First, Win};
use board::{Kind, Position};
use calls::goal_of;
use moves::{Goal, Move, read_sound};
use problems::{Answer, Problem};
use slots::MakeFault;
use solver::{Solver, StopSource};
use std::alloc::Global;

/// The goal is forced; of calls that ask for none: it is done.
pub(crate) const FORCED: u32 = 0;
/// It is forced within no number of plies up to the limit.
pub(crate) const NONE_WITHIN: u32 = 1;
/// The text is no position's.
const REFUSED: u32 = 2;
/// The limit is outside 1 to 63.
const LIMIT: u32 = 3;
/// The solver was told to stop.
pub(crate) const STOPPED: u32 = 4;
/// There is no solver, or nothing that stops one.
pub(crate) const NO_SOLVER: u32 = 5;
/// The slots are outside 1 to 1,048,576.
const SLOTS: u32 = 6;
/// Memory was refused.
pub(crate) const NO_MEMORY: u32 = 7;
/// There is a solver already.
pub(crate) const ANOTHER: u32 = 8;

/// What a solver is asked: the text of a position, whether stalemate is a goal too, and within how many plies.
#[derive(Drop)]
pub(crate) struct Query<'a> {
    pub(crate) fen: &'a [u8],
    pub(crate) stale: bool,
    pub(crate) limit: u32,
}

/// The problem of a position, where the limit is one that is searched.
fn problem_of(position: &Position, goal: Goal, limit: u32) -> Option<Problem>
    ensures { MatchOption result (IsLimit limit → ⊥) (IsProblemOf position.now goal limit) }
{
    let Ok(limit) = u8::try_from(limit) else {
        return None;
    };
    Problem::of(position, goal, limit)
}

/// The problem that is asked about, or the number that says why there is none.
pub(crate) fn asked_problem(asked: &Query<'_>) -> Result<Problem, u32>
    ensures asked { IfOk result (IsProblemAsked asked.now.fen.now (goal_of asked.now.stale) asked.now.limit) }
    ensures why { IfErr result (IsUnasked asked.now.fen.now asked.now.limit) }
{
    let Ok(position) = read_sound(asked.fen) else {
        return Err(REFUSED);
    };
    match problem_of(&position, goal_of(asked.stale), asked.limit) {
        Some(problem) => Ok(problem),
        None => Err(LIMIT),
    }
}

fn letter_of(promotion: Option<Kind>) -> u8
    ensures { result ≡ promotion_letter promotion }
{
    match promotion {
        Some(Kind::Queen) => b'q',
        Some(Kind::Rook) => b'r',
        Some(Kind::Bishop) => b'b',
        Some(Kind::Knight) => b'n',
        _ => 0,
    }
}

fn first_of(m: Move) -> First
    ensures { result ≡ first_told m }
{
    First {
        from_file: m.from.file,
        from_rank: m.from.rank,
        to_file: m.to.file,
        to_rank: m.to.rank,
        promotion: letter_of(m.promotion),
    }
}

/// An answer in plain numbers.
fn told(answer: Answer, found: &mut Win) -> u32
    ensures { TellsAnswer answer found.old result found.new }
{
    match answer {
        Answer::Mate { plies, first } => {
            *found = Win {
                plies: u32::from(plies),
                first: first_of(first),
            };
            FORCED
        }
        Answer::NoneWithin(_) => NONE_WITHIN,
    }
}

/// The reply to a question that a solver is asked.
pub(crate) fn replied(solver: &mut Solver, asked: &Query<'_>, found: &mut Win) -> u32
    ensures hears { Hears solver.old solver.new }
    ensures reply { Replies asked.now.fen.now (goal_of asked.now.stale) asked.now.limit
        (IsStopped solver.new) found.old result found.new }
{
    let problem = match asked_problem(asked) {
        Ok(problem) => problem,
        Err(why) => return why,
    };
    match solver.solve(&problem) {
        Some(answer) => told(answer, found),
        None => STOPPED,
    }
}

/// A solver over so many slots and what stops it, each in a box, or the number that says why there is neither. Memory may be refused anywhere.
pub(crate) fn boxed(alloc: Global, slots: u32) -> Result<(Box<Solver>, Box<StopSource>), u32>
    ensures opened { IfOk result (λ ends. IsOpenSolver slots (Some ends.0.value) (Some ends.1.value)) }
    ensures number { IfErr result (λ number. (number ≡ 6) ⊎ (number ≡ 7)) }
    ensures size { IsErrOf result 6 ↔ (¬ IsSize slots 1) }
{
    match Solver::make(alloc, slots as usize) {
        Ok((made, source)) => {
            let Ok(made) = Box::new(alloc, made) else {
                return Err(NO_MEMORY);
            };
            let Ok(source) = Box::new(alloc, source) else {
                return Err(NO_MEMORY);
            };
            Ok((made, source))
        }
        Err(MakeFault::Size) => Err(SLOTS),
        Err(MakeFault::NoMemory) => Err(NO_MEMORY),
    }
}

/// Asks for a stop, or to go on.
pub(crate) fn set_stop(source: &mut StopSource, stop: bool)
    ensures shared { arc_value source.new.shared ≡ arc_value source.old.shared }
    ensures asks { AsksFor stop source.new }
{
    if stop {
        source.stop();
    } else {
        source.go_on();
    }
}

//! The solution of a problem: the answer by all threads, and then what follows it, by one seat over the same table.
ghost use Rattle.std.specs.Prelude.{◌≡◌, ◌≢◌, IfErr, IfOk, string_bytes, vec_items};
ghost use Rattle.problems.specs.Answer.{IsFewest};
ghost use Rattle.refusals.specs.Outcome.{Gives};
ghost use Rattle.problems.specs.Roots.{IsRoot};
ghost use Rattle.searcher.specs.declared.halt.Halt.TheVariants.{Stopped};
ghost use Rattle.composing.specs.Solution.{IsPublished, ShowsNoSolution, ShowsSolution, extras_of, form_of, is_sooner, notation_of};
ghost use Rattle.composing.specs.Parts.{Composes, ComposesReply, IsAskedOf, IsComposed};
ghost use Rattle.composing.specs.declared.problem.Form.TheVariants.{Whole as whole};

use crate::diagram::diagram_text;
use crate::first_move::first_at;
use crate::searched::searched_at;
use crate::whole_form::{Solved, WholeForm};
use algebraic::{Notation, Symbols};
use board::{Position, fen_text};
use command_line::{Limits, SolutionOptions, Subject};
use context::{Context, beside, none_line, search_of};
use decision::{Memory, Never, Scout};
use moves::{Board, Goal, read_sound};
use problems::{Answer, Key, MOST_LIMIT, Problem, Root};
use refusals::Refusal;
use searcher::{Crew, Decider, Halt, Searcher, Table};
use solution_text::{SolutionStyle, none_data, solution_data, solution_text};
use solutions::{Extras, solution_of};
use std::alloc::{AllocError, Global};
use std::sync::Wait;
use std::thread::Threads;
use std::time::Clock;

/// How a solution is written.
#[derive(Clone, Copy, PartialEq, Eq)]
pub enum Form {
    Whole,
    /// One line behind each reply to a key.
    Short,
    /// The short form as data.
    Data,
    /// The diagram, with stipulation and keys.
    Picture,
}

/// What a solution is written from.
#[derive(Drop)]
pub enum Composed {
    Text(Vec<u8>),
    /// The whole form, which is yet to be told.
    Told(Solved),
}

fn form_of(options: SolutionOptions<'_>) -> Form
    ensures { result ≡ form_of options.entry }
{
    if options.json {
        Form::Data
    } else if options.svg {
        Form::Picture
    } else if options.short {
        Form::Short
    } else {
        Form::Whole
    }
}

fn notation_of(goal: Goal, options: SolutionOptions<'_>) -> Notation
    ensures { result ≡ notation_of goal options.entry }
{
    let symbols = if options.figurines {
        Symbols::Figurines
    } else {
        Symbols::Letters
    };
    Notation { symbols, goal }
}

fn extras_of(options: SolutionOptions<'_>, sooner: bool) -> Extras
    ensures { result ≡ extras_of options.entry sooner }
{
    Extras {
        set_play: options.set_play,
        tries: options.tries,
        sooner,
    }
}

/// The text of the solution in the form that is asked for, not the whole one, where the root's limit is the fewest plies.
fn form_text<D: Decider>(
    alloc: Global,
    decider: &mut D,
    root: &Root,
    options: SolutionOptions<'_>,
    sooner: bool,
) -> Result<String, Halt>
    requires form { form_of options ≢ whole }
    requires root { IsRoot root.now }
    requires fewest { IsFewest root.now.goal root.now.board root.now.limit }
    ensures text { IfOk result (λ text.
        IsPublished root.now.goal root.now.board options.entry sooner (string_bytes text)) }
    ensures halt { IfErr result (λ halt. halt ≡ Stopped → D.told decider.new) }
{
    let extras = extras_of(options, sooner);
    let notation = notation_of(root.goal, options);
    match form_of(options) {
        Form::Whole => unreachable!(),
        Form::Picture => diagram_text(alloc, decider, root, notation),
        Form::Short => {
            let solution = solution_of(alloc, decider, root, root.limit, extras)?;
            match solution_text(alloc, notation, &root.board, sooner, &solution) {
                Ok(text) => Ok(text),
                Err(_) => Err(Halt::NoMemory),
            }
        }
        Form::Data => {
            let solution = solution_of(alloc, decider, root, root.limit, extras)?;
            let fen = fen_text(&root.board.position());
            match solution_data(alloc, fen.as_str(), root.goal, sooner, &solution) {
                Ok(text) => Ok(text),
                Err(_) => Err(Halt::NoMemory),
            }
        }
    }
}

/// What is written where nothing is forced within the limit.
fn none_written(
    alloc: Global,
    position: &Position,
    goal: Goal,
    limit: u8,
    json: bool,
) -> Result<Vec<u8>, Refusal>
    ensures { Gives vec_items (ShowsNoSolution json goal position.now limit) result }
{
    if !json {
        return none_line(alloc, limit);
    }
    let fen = fen_text(position);
    Ok(none_data(alloc, fen.as_str(), goal)?.into_bytes())
}

/// The text of the solution of a root whose limit is the fewest plies, in a form that isn't the whole one, by the table of what has found them.
fn published(
    alloc: Global,
    table: Table,
    root: &Root,
    options: SolutionOptions<'_>,
    sooner: bool,
) -> Result<Vec<u8>, AllocError>
    requires form { form_of options ≢ whole }
    requires root { IsRoot root.now }
    requires fewest { IsFewest root.now.goal root.now.board root.now.limit }
    ensures { IfOk result (λ text. IsPublished root.now.goal root.now.board options.entry sooner text.items) }
{
    let (slots, mut seat) = table.into_alone();
    let mut scout = Scout {
        stop: Never,
        memory: Memory::new(),
    };
    let mut searcher = Searcher {
        slots: &slots,
        seat: &mut seat,
        scout: &mut scout,
    };
    match form_text(alloc, &mut searcher, root, options, sooner) {
        Ok(text) => Ok(text.into_bytes()),
        Err(Halt::NoMemory) => Err(AllocError),
        Err(Halt::Stopped) => unreachable!(),
    }
}

/// The solution of a root whose limit is the fewest plies, by the table of what has found them: its text, or in the whole form what it is
/// to be told of.
fn composed_of(
    alloc: Global,
    table: Table,
    root: Root,
    options: SolutionOptions<'_>,
    sooner: bool,
) -> Result<Composed, AllocError>
    requires root { IsRoot root }
    requires fewest { IsFewest root.goal root.board root.limit }
    ensures { IfOk result (IsComposed root options.entry sooner) }
{
    match form_of(options) {
        Form::Whole => {
            let symbols = notation_of(root.goal, options).symbols;
            let extras = extras_of(options, sooner);
            let style = SolutionStyle { symbols, extras };
            let asked = WholeForm { root, style };
            Ok(Composed::Told(Solved { asked, table }))
        }
        Form::Short | Form::Data | Form::Picture => {
            let text = published(alloc, table, &root, options, sooner)?;
            Ok(Composed::Text(text))
        }
    }
}

/// Whether so many plies take fewer moves of the attacker than the limit has.
fn is_sooner(plies: u8, limit: u8) -> bool
    ensures { result ≡ is_sooner plies limit }
{
    (u16::from(plies) + 1) / 2 < (u16::from(limit) + 1) / 2
}

/// All threads seek the keys that take so many plies: what they find stands in the table, and no answer rests on it.
fn seek_keys<R: Threads + Wait + Eprint + Clock + Sync + AllocGlobal, C: Crew<Global>>(
    context: &Context<'_, R, C>,
    table: &mut Table,
    position: &Position,
    goal: Goal,
    limits: Limits,
)
    requires { C.ready context.now.crew }
{
    if let Some(problem) = Problem::of(position, goal, search_of(limits).limit) {
        let watch = context.watch_of(position, true, limits);
        let (crew, problem, watch) = (&context.crew, &problem, watch.as_ref());
        let _ = beside(
            context.rt,
            watch,
            move || -> Result<Vec<Key>, AllocError>
                requires { C.ready crew.now }
            { crew.keys(table, problem, watch) },
        );
    }
}

/// The solution of a position, or that nothing is forced within the limit.
fn solution_at<R: Threads + Wait + Eprint + Clock + Sync + AllocGlobal, C: Crew<Global>>(
    context: &Context<'_, R, C>,
    position: &Position,
    goal: Goal,
    limits: Limits,
    options: SolutionOptions<'_>,
) -> Result<Composed, Refusal>
    requires { C.ready context.now.crew }
    ensures { Composes (ShowsSolution goal position.now options.entry limits)
        (IsAskedOf goal position.now options.entry limits) result }
{
    let alloc = context.rt.alloc();
    let mut found = searched_at(context, position, goal, limits)?;
    match found.answer {
        Answer::Mate { plies, .. } => {
            let within = Limits {
                limit: u32::from(plies),
                ..limits
            };
            seek_keys(context, &mut found.table, position, goal, within);
            let root = Root::on(Board::of(position), goal, plies);
            let sooner = is_sooner(plies, search_of(limits).limit);
            Ok(composed_of(alloc, found.table, root, options, sooner)?)
        }
        Answer::NoneWithin(limit) => {
            let none = none_written(alloc, position, goal, limit, options.json)?;
            Ok(Composed::Text(none))
        }
    }
}

/// The solution of the position of a text, or the play behind the first move that is named.
pub fn solution_reply<R: Threads + Wait + Eprint + Clock + Sync + AllocGlobal, C: Crew<Global>>(
    context: &Context<'_, R, C>,
    subject: &Subject<'_>,
    limits: Limits,
    options: SolutionOptions<'_>,
) -> Result<Composed, Refusal>
    requires { C.ready context.now.crew }
    ensures { ComposesReply subject.now options.entry limits result }
{
    let position = read_sound(subject.fen)?;
    match options.first {
        None => solution_at(context, &position, subject.goal, limits, options),
        Some(name) => {
            let limit = search_of(limits).limit.min(MOST_LIMIT);
            let root = Root::on(Board::of(&position), subject.goal, limit);
            let symbols = notation_of(subject.goal, options).symbols;
            let text = first_at(context, root, name, limits, symbols)?;
            Ok(Composed::Text(text))
        }
    }
}

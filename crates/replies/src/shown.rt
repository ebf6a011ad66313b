//! What each command shows at a position, whoever searches.
ghost use Rattle.std.specs.Prelude.{◌≡◌, ◌≤◌, IfOk, vec_items};
ghost use Rattle.board.specs.Board.{PlainBoard};
ghost use Rattle.rules.specs.declared.goal.Goal.{Goal};
ghost use Rattle.wintree.specs.Plan.{depth};
ghost use Rattle.wintree.specs.Text.{text as tree_words};
ghost use Rattle.searcher.specs.Best.{IsBestWithin};
ghost use Rattle.refusals.specs.Outcome.{Gives};
ghost use Rattle.answer_texts.specs.Answers.{none_text};
ghost use Rattle.replies.specs.Output.{ShowsBest, ShowsCheck, ShowsCommand, ShowsMoves, ShowsTree};
ghost use Rattle.refusals.specs.Reply.{answered, line_of};

use answer_texts::{answer_text, checked_text, keys_text, moves_text, none_text};
use board::Position;
use command_line::Action;
use context::opened;
use devices::without_line_feed;
use moves::{Goal, lawful};
use progress::Watch;
use refusals::{Refusal, advise_flaw};
use searcher::Crew;
use std::alloc::Allocator;
use std::io::{Write, sink};
use wintree::{NoMemory, Tree, check, find_flaw, read_tree, tree_text};

/// The most bytes of a tree, with the line feed at its end.
pub(crate) const MOST_INPUT: usize = 1_048_576;

/// A best tree that was found within the limit, whoever searched, on one line; or that there is none.
fn plan_text<A: Allocator, B: Allocator>(
    alloc: A,
    limit: u32,
    best: Option<Tree<B>>,
) -> Result<Vec<u8, A>, Refusal>
    ensures { (goal : Goal) (b : PlainBoard) → IsBestWithin goal b limit best
        → Gives vec_items (ShowsBest goal b limit) result }
{
    match best {
        Some(tree) => Ok(tree_line(alloc, &tree)?),
        None => Ok(none_text(alloc, limit)?.into_bytes()),
    }
}

/// The text of a tree, on a line.
pub fn tree_line<A: Allocator, B: Allocator>(
    alloc: B,
    tree: &Tree<A>,
) -> Result<Vec<u8, B>, NoMemory>
    ensures { IfOk result (λ line. line.items ≡ line_of (tree_words tree.now)) }
{
    let mut line = tree_text(alloc, tree)?;
    line.push(b'\n')?;
    Ok(line)
}

/// In how many plies the tree of a text wins, if it wins; else `errors` is told at which move it is wrong, and why.
pub(crate) fn verdict_text<A: Allocator + Copy, E: Write>(
    alloc: A,
    position: &Position,
    goal: Goal,
    text: &[u8],
    errors: &mut E,
) -> Result<Vec<u8, A>, Refusal>
    ensures { Gives vec_items (ShowsTree goal position.now text.now) result }
{
    let tree = read_tree(alloc, text)?;
    look_at_depth(&tree);
    let plies = check(position, &tree, goal);
    if let Some(flaw) = find_flaw(position, &tree, goal) {
        let _ = advise_flaw(errors, &flaw);
    }
    Ok(checked_text(alloc, plies)?.into_bytes())
}

/// Does nothing but read the depth, by which contracts learn that it is at most 32.
fn look_at_depth<A: Allocator>(tree: &Tree<A>)
    ensures { depth tree.now ≤ 32 }
{
    let _ = tree.depth();
}

/// What `check` shows of an input that was read. Nobody is told why a tree doesn't win.
fn check_shown<A: Allocator + Copy>(
    alloc: A,
    position: &Position,
    goal: Goal,
    input: &[u8],
) -> Result<Vec<u8, A>, Refusal>
    ensures { Gives vec_items (ShowsCheck goal position.now input.now) result }
{
    if MOST_INPUT < input.len() {
        return Err(Refusal::TooLong);
    }
    verdict_text(alloc, position, goal, without_line_feed(input), &mut sink())
}

/// What `moves` shows at a position.
fn moves_shown<A: Allocator>(alloc: A, position: &Position) -> Result<Vec<u8, A>, Refusal>
    ensures { Gives vec_items (ShowsMoves position.now) result }
{
    let moves = lawful(position);
    Ok(moves_text(alloc, moves.as_slice())?.into_bytes())
}

/// What a command shows at a position, whoever searches; `check`, of this input.
pub fn shown_at<A: Allocator + Copy, C: Crew<A>>(
    crew: &C,
    watch: Option<&Watch>,
    position: &Position,
    action: Action,
    input: &[u8],
) -> Result<Vec<u8, A>, Refusal>
    requires { C.ready crew.now }
    ensures { Gives vec_items (ShowsCommand position.now action input.now) result }
{
    let alloc = crew.alloc();
    match action {
        Action::Solve(goal, limits) => {
            let (problem, mut table) = opened(alloc, position, goal, limits)?;
            let answer = crew.solve(&mut table, &problem, watch)?;
            Ok(answer_text(alloc, goal, answer)?.into_bytes())
        }
        Action::Keys(goal, limits) => {
            let (problem, mut table) = opened(alloc, position, goal, limits)?;
            let keys = crew.keys(&mut table, &problem, watch)?;
            Ok(keys_text(alloc, limits.limit, keys.as_slice())?.into_bytes())
        }
        Action::Tree(goal, limits) => {
            let (problem, mut table) = opened(alloc, position, goal, limits)?;
            let tree = crew.tree(&mut table, &problem, watch)?;
            plan_text(alloc, limits.limit, tree)
        }
        Action::Moves => moves_shown(alloc, position),
        Action::Check(goal) => check_shown(alloc, position, goal, input),
    }
}

//! The lines behind the attacker's moves, as they are found.
ghost use Rattle.std.specs.Prelude.{◌≡◌, ◌+◌, ◌≤◌, All, IfErr, IfOk, IfSome, MatchOption, None, string_bytes};
ghost use Rattle.rules.specs.Squares.{Ply};
ghost use Rattle.rules.specs.Moves.{IsLawful};
ghost use Rattle.rules.specs.Reach.{IsSound};
ghost use Rattle.rules.specs.Forces.{IsReached};
ghost use Rattle.problems.specs.Answer.{IsFewest};
ghost use Rattle.searcher.specs.declared.halt.Halt.TheVariants.{Stopped};
ghost use Rattle.solutions.specs.Lines.{IsMet, ListsContinuations};
ghost use Rattle.solutions.specs.Solutions.{passed};
ghost use Rattle.solution_text.specs.WholeText.{IsChangedText};
ghost use Rattle.solution_text.specs.Telling.{TellsSequel, TellsLong, TellsPlay, TellsReply, TellsReplies};

use crate::broken::Broken;
use crate::keys::threats_text;
use crate::teller::{Teller, farther, indent};
use crate::variations::duals_text;
use moves::{Board, Move, after, lawful_on};
use problems::{Answer, Root};
use searcher::{Decider, Halt, solve_by};
use solutions::{Threats, continuations_of, is_changed, passed, set_move_of, threats_of};
use std::alloc::Allocator;

/// All continuations of a board, the plies that they take, and what stands last on their line.
#[derive(Clone, Copy)]
struct Continued<'a> {
    plies: u8,
    moves: &'a [Move],
    last: &'a str,
}

/// What stands last on the line of a reply, whose continuations on the board these are: the set play's, where that changed.
fn changed_text<D: Decider, A: Allocator + Copy>(
    teller: &Teller<A>,
    decider: &mut D,
    board: &Board,
    reply: Move,
    moves: &[Move],
) -> Result<String<A>, Broken>
    requires plies { IfSome teller.now.set (λ posed. posed.plies ≤ 63) }
    requires moves { All (IsLawful board.now) moves.now }
    ensures goes { D.goes decider.old decider.new }
    ensures changed { IfOk result (λ text.
        IsChangedText teller.now.notation teller.now.set reply board.now moves.now (string_bytes text)) }
    ensures halt { IfErr result (λ broken. broken.halt ≡ Stopped → D.told decider.new) }
{
    let alloc = teller.alloc;
    let notation = teller.notation;
    let Some(posed) = &teller.set else {
        return Ok(String::new(alloc));
    };
    let Some(found) = set_move_of(decider, &posed.board, notation.goal, posed.plies, reply) else {
        return Err(Broken::from(Halt::Stopped));
    };
    let Some(set) = &found else {
        return Ok(String::new(alloc));
    };
    if !is_changed(board, moves, set) {
        return Ok(String::new(alloc));
    }
    let name = notation.name(&set.board, set.first);
    Ok(format!(in alloc; ", set 2.{name}")?)
}

/// A sequel from the attacker's move of the teller's number, where these plies are the fewest and the moves are all continuations.
#[cycle(sequels)]
fn sequel_text<D: Decider, A: Allocator + Copy>(
    teller: &Teller<A>,
    decider: &mut D,
    board: &Board,
    found: &Continued<'_>,
) -> Result<String<A>, Broken>
    requires number { teller.now.number + found.now.plies ≤ 999 }
    requires set { teller.now.set ≡ None }
    requires plies { found.now.plies ≤ 63 }
    requires fewest { IsFewest teller.now.notation.goal board.now found.now.plies }
    requires moves { ListsContinuations teller.now.notation.goal board.now found.now.plies found.now.moves.now }
    ensures goes { D.goes decider.old decider.new }
    ensures sequel { IfOk result (λ text. TellsSequel teller.now.notation teller.now.number board.now
        found.now.plies found.now.moves.now found.now.last.now (string_bytes text)) }
    ensures halt { IfErr result (λ broken. broken.halt ≡ Stopped → D.told decider.new) }
{
    let Continued { plies, moves, last } = *found;
    let first = moves[0];
    let next = after(board, first);
    let number = teller.number;
    let name = teller.notation.name(board, first);
    let duals = duals_text(teller.alloc, teller.notation, number, board, moves)?;
    let end = format!(in teller.alloc; "{duals}{last}")?;
    let left = plies.saturating_sub(2);
    let play = play_text(teller, decider, &next, left, end.as_str())?;
    Ok(format!(in teller.alloc; " {number}.{name}{play}")?)
}

/// What stands behind the attacker's move of the teller's number, which led to the board: what it threatens, and the replies that are met
/// within so many plies.
#[cycle(sequels)]
pub(crate) fn play_text<D: Decider, A: Allocator + Copy>(
    teller: &Teller<A>,
    decider: &mut D,
    board: &Board,
    left: u8,
    end: &str,
) -> Result<String<A>, Broken>
    requires number { teller.now.number + left ≤ 998 }
    requires left { left ≤ 63 }
    requires set { IfSome teller.now.set (λ posed. posed.plies ≤ 63) }
    requires over { ((m : Ply) → IsLawful board.now m → ⊥) → IsReached teller.now.notation.goal board.now }
    ensures goes { D.goes decider.old decider.new }
    ensures play { IfOk result (λ text.
        TellsPlay teller.now.notation teller.now.number teller.now.set board.now left end.now (string_bytes text)) }
    ensures halt { IfErr result (λ broken. broken.halt ≡ Stopped → D.told decider.new) }
{
    let alloc = teller.alloc;
    let threats = threats_of(alloc, decider, board, teller.notation.goal, left)?;
    let head = threats_text(alloc, teller.notation, teller.number + 1, board, &threats)?;
    let lines = match &threats {
        Threats::Moves { plies, moves } if *plies > 1 => {
            long_text(teller, decider, board, *plies, moves.as_slice())?
        }
        _ => String::new(alloc),
    };
    let replies = sequels_text(teller, decider, board, left)?;
    Ok(format!(in alloc; "{head}{end}\n{lines}{replies}")?)
}

/// What follows a threat that takes so many plies, behind a pass.
#[cycle(sequels)]
fn long_text<D: Decider, A: Allocator + Copy>(
    teller: &Teller<A>,
    decider: &mut D,
    board: &Board,
    plies: u8,
    moves: &[Move],
) -> Result<String<A>, Broken>
    requires number { teller.now.number + plies ≤ 998 }
    requires plies { plies ≤ 63 }
    requires sound { IsSound (passed board.now) }
    requires fewest { IsFewest teller.now.notation.goal (passed board.now) plies }
    requires moves { ListsContinuations teller.now.notation.goal (passed board.now) plies moves.now }
    ensures goes { D.goes decider.old decider.new }
    ensures threat { IfOk result (λ text.
        TellsLong teller.now.notation teller.now.number board.now plies moves.now (string_bytes text)) }
    ensures halt { IfErr result (λ broken. broken.halt ≡ Stopped → D.told decider.new) }
{
    let Some(next) = passed(board) else {
        unreachable!()
    };
    let number = teller.number;
    let found = Continued {
        plies,
        moves,
        last: "",
    };
    let sequel = sequel_text(&farther(teller), decider, &next, &found)?;
    let blanks = indent(teller.alloc, number)?;
    Ok(format!(in teller.alloc; "{blanks}{number}...~{sequel}")?)
}

/// A reply with its sequel, where it is met within the limit.
#[cycle(sequels)]
fn reply_text<D: Decider, A: Allocator + Copy>(
    teller: &Teller<A>,
    decider: &mut D,
    board: &Board,
    reply: Move,
    limit: u8,
) -> Result<Option<String<A>>, Broken>
    requires number { teller.now.number + limit ≤ 998 }
    requires limit { limit ≤ 63 }
    requires set { IfSome teller.now.set (λ posed. posed.plies ≤ 63) }
    requires reply { IsLawful board.now reply }
    ensures goes { D.goes decider.old decider.new }
    ensures reply { IfOk result (λ found. MatchOption found (IsMet teller.now.notation.goal board.now limit reply → ⊥)
        (λ text. TellsReply teller.now.notation teller.now.number teller.now.set
        board.now limit reply (string_bytes text))) }
    ensures halt { IfErr result (λ broken. broken.halt ≡ Stopped → D.told decider.new) }
{
    let root = Root::on(after(board, reply), teller.notation.goal, limit);
    let plies = match solve_by(decider, &root) {
        None => return Err(Broken::from(Halt::Stopped)),
        Some(Answer::NoneWithin(_)) => return Ok(None),
        Some(Answer::Mate { plies, .. }) => plies,
    };
    let found = continuations_of(teller.alloc, decider, &root, plies)?;
    let moves = found.as_slice();
    let changed = changed_text(teller, decider, &root.board, reply, moves)?;
    let last = changed.as_str();
    let found = Continued { plies, moves, last };
    let sequel = sequel_text(&farther(teller), decider, &root.board, &found)?;
    let number = teller.number;
    let blanks = indent(teller.alloc, number)?;
    let name = teller.notation.name(board, reply);
    Ok(Some(format!(in teller.alloc; "{blanks}{number}...{name}{sequel}")?))
}

/// The replies that are met within the limit, in order, each with its sequel.
#[cycle(sequels)]
pub(crate) fn sequels_text<D: Decider, A: Allocator + Copy>(
    teller: &Teller<A>,
    decider: &mut D,
    board: &Board,
    limit: u8,
) -> Result<String<A>, Broken>
    requires number { teller.now.number + limit ≤ 998 }
    requires limit { limit ≤ 63 }
    requires set { IfSome teller.now.set (λ posed. posed.plies ≤ 63) }
    ensures goes { D.goes decider.old decider.new }
    ensures replies { IfOk result (λ text.
        TellsReplies teller.now.notation teller.now.number teller.now.set board.now limit (string_bytes text)) }
    ensures halt { IfErr result (λ broken. broken.halt ≡ Stopped → D.told decider.new) }
{
    let mut text = String::new(teller.alloc);
    let replies = lawful_on(board);
    for reply in replies.as_slice() {
        if let Some(one) = reply_text(teller, decider, board, *reply, limit)? {
            text.push_str(one.as_str())?;
        }
    }
    Ok(text)
}

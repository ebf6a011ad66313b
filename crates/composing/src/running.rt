//! A run of the composer's program over any words and writer.
ghost use Rattle.std.specs.Prelude.{◌≡◌, ◌⊎◌, ◌<◌, map};
ghost use Rattle.board.specs.Board.{PlainBoard};
ghost use Rattle.problems.specs.declared.answer.Answer.{Answer};
ghost use Rattle.verifying.specs.Checking.{HasTaken};
ghost use Rattle.endings.specs.Run.{ending_of, readerless, MayTell, WritesReply};
ghost use Rattle.endings.specs.Words.{MeansSome, RunsWords};
ghost use Rattle.refusals.specs.Outcome.{IsOver};
ghost use Rattle.composing.specs.Certifying.{WritesCertificate, WritesClaims};
ghost use Rattle.composing.specs.Claims.{EndsClaims, HasAnswerLine, writing_of};
ghost use Rattle.composing.specs.Drawings.{IsDrawingReply};
ghost use Rattle.composing.specs.Order.{ComposesOrder, ComposesOver};
ghost use Rattle.problems.specs.Answer.{IsFewest};
ghost use Rattle.problems.specs.Roots.{IsRoot};
ghost use Rattle.composing.specs.Parts.{WritesAsked};
ghost use Rattle.composing.specs.Solution.{WritesSolution};

use crate::certificate::{Begun, Cut, begin, write_claims};
use crate::drawing::drawing_reply;
use crate::problem::{Composed, solution_reply};
use crate::whole_form::{CutOff, Solved, write_solution};
use certifying::Checked;
use command_line::{
    Drawing, Limits, LineFault, NamedMove, Order, SolutionOptions, Subject, read_order,
};
use context::{Context, context_of};
use devices::{Sink, write_all};
use endings::{
    ANSWERED, REFUSED_WORDS, fail_to_write, finish, give_up_for_memory, refuse_and_tell,
    refuse_move, tell_if_over,
};
use line_tally::{Lines, Tally};
use refusals::{Asking, Refusal, Refused};
use rounds::Workers;
use searcher::Crew;
use std::alloc::Global;
use std::convert::AsStr;
use std::io::Write;
use std::sync::Wait;
use std::thread::Threads;
use std::time::Clock;
use verdicts::proof_refused;

/// What was refused to a search at the position of this text.
fn search_refused(fen: &[u8], refusal: Refusal) -> Refused<'_>
    ensures { result.refusal ≡ refusal }
{
    Refused {
        refusal,
        fen,
        asking: Asking::Search,
    }
}

/// Answers a position as `solve` does, with the answer's certificate. `errors` is told why it was refused.
fn run_certify<
    R: Threads + Wait + Eprint + Clock + Sync + AllocGlobal,
    C: Crew<Global>,
    K: Sink,
    E: Write,
>(
    context: &Context<'_, R, C>,
    subject: &Subject<'_>,
    limits: Limits,
    writer: &mut K,
    errors: &mut E,
) -> u8
    requires crew { C.ready context.now.crew }
    requires writes { K.failures writer.old < u64.MAX }
    ensures runs { WritesCertificate subject.now limits (ending_of K.contents K.failures writer.old writer.new result) }
    ensures silent { MayTell result ⊎ IsOver subject.now.fen.now ⊎ (errors.new ≡ errors.old) }
{
    match begin(context, subject, limits) {
        Ok(begun) => {
            tell_if_over(errors, subject.fen, None);
            write_begun(context, subject, begun, writer, errors)
        }
        Err(refusal) => {
            let refused = search_refused(subject.fen, refusal);
            refuse_and_tell(context.rt, writer, errors, &refused)
        }
    }
}

/// The lines of claims, with a tally of them where it is to be shown.
fn write_all_claims<R: Clock + Eprint, C, K: Sink>(
    context: &Context<'_, R, C>,
    certificate: &mut Checked,
    writer: &mut K,
) -> Option<Cut>
    requires begun { HasTaken certificate.old.checker }
    requires writes { K.failures writer.old < u64.MAX }
    ensures { EndsClaims certificate.old.checker certificate.new.certificate
        (writing_of K.contents K.failures writer.old writer.new) result }
{
    let lines = context.shows.then_some(Lines::Unknown);
    let mut tally = Tally::new(context.rt, lines, 0);
    let cut = write_claims(context.rt, &mut tally, certificate, writer);
    tally.hide(context.rt);
    cut
}

/// Writes the answer's line and the lines of claims, and behind them why the next isn't taken, if it isn't.
fn write_begun<R: Clock + Eprint + AllocGlobal, C, K: Sink, E: Write>(
    context: &Context<'_, R, C>,
    subject: &Subject<'_>,
    begun: Begun,
    writer: &mut K,
    errors: &mut E,
) -> u8
    requires begun { HasTaken begun.certificate.checker }
    requires writes { K.failures writer.old < u64.MAX }
    ensures writes { (b : PlainBoard) (answer : Answer) → HasAnswerLine subject.now.goal b answer begun
        → WritesClaims subject.now.goal b answer (ending_of K.contents K.failures writer.old writer.new result) }
    ensures silent { MayTell result ⊎ (errors.new ≡ errors.old) }
{
    let Begun {
        line,
        mut certificate,
    } = begun;
    match write_all(writer, line.as_slice()) {
        Ok(()) => match write_all_claims(context, &mut certificate, writer) {
            None => ANSWERED,
            Some(Cut::NoMemory) => give_up_for_memory(writer, errors),
            Some(Cut::Refused(refusal)) => {
                let why = proof_refused(subject, b"", refusal);
                refuse_and_tell(context.rt, writer, errors, &why)
            }
            Some(Cut::WriteFailed) => fail_to_write(errors),
        },
        Err(_) => fail_to_write(errors),
    }
}

/// Writes the whole solution, and behind it that memory is wanting, if it is.
fn write_solved<R: AllocGlobal, C, K: Sink, E: Write>(
    context: &Context<'_, R, C>,
    subject: &Subject<'_>,
    solved: Solved,
    writer: &mut K,
    errors: &mut E,
) -> u8
    requires root { IsRoot solved.asked.root }
    requires fewest { IsFewest solved.asked.root.goal solved.asked.root.board solved.asked.root.limit }
    requires writes { K.failures writer.old < u64.MAX }
    ensures writes { WritesAsked solved.asked (ending_of K.contents K.failures writer.old writer.new result) }
    ensures silent { MayTell result ⊎ (errors.new ≡ errors.old) }
{
    match write_solution(context.rt.alloc(), solved, writer) {
        Ok(()) => ANSWERED,
        Err(CutOff::NoMemory) => {
            let refused = search_refused(subject.fen, Refusal::NoMemory);
            refuse_and_tell(context.rt, writer, errors, &refused)
        }
        Err(CutOff::WriteFailed) => fail_to_write(errors),
    }
}

/// Answers the solution of a position. `errors` is told why it was refused.
fn run_solution<
    R: Threads + Wait + Eprint + Clock + Sync + AllocGlobal,
    C: Crew<Global>,
    K: Sink,
    E: Write,
>(
    context: &Context<'_, R, C>,
    subject: &Subject<'_>,
    asked: (Limits, SolutionOptions<'_>),
    writer: &mut K,
    errors: &mut E,
) -> u8
    requires crew { C.ready context.now.crew }
    requires writes { K.failures writer.old < u64.MAX }
    ensures runs { WritesSolution subject.now asked.entry.1 asked.entry.0
        (ending_of K.contents K.failures writer.old writer.new result) }
    ensures silent { MayTell result ⊎ IsOver subject.now.fen.now ⊎ (errors.new ≡ errors.old) }
{
    let (limits, options) = asked;
    match solution_reply(context, subject, limits, options) {
        Ok(Composed::Text(text)) => {
            tell_if_over(errors, subject.fen, None);
            finish(writer, errors, text.as_slice(), ANSWERED)
        }
        Ok(Composed::Told(solved)) => write_solved(context, subject, solved, writer, errors),
        Err(refusal) => match options.first {
            None => {
                let refused = search_refused(subject.fen, refusal);
                refuse_and_tell(context.rt, writer, errors, &refused)
            }
            Some(name) => {
                let fen = subject.fen;
                refuse_move(
                    context.rt,
                    writer,
                    errors,
                    &NamedMove { fen, name },
                    refusal,
                )
            }
        },
    }
}

/// Draws the board of a position's text. `errors` is told why it was refused.
fn run_show<R: AllocGlobal, K: Sink, E: Write>(
    rt: &R,
    fen: &[u8],
    drawing: Drawing,
    writer: &mut K,
    errors: &mut E,
) -> u8
    requires { K.failures writer.old < u64.MAX }
    ensures runs { WritesReply (IsDrawingReply fen.now drawing)
        (ending_of K.contents K.failures writer.old writer.new result) }
    ensures silent { MayTell result ⊎ (errors.new ≡ errors.old) }
{
    match drawing_reply(rt.alloc(), fen, drawing) {
        Ok(text) => finish(writer, errors, text.as_slice(), ANSWERED),
        Err(refusal) => {
            let asking = Asking::Plain;
            let refused = Refused {
                refusal,
                fen,
                asking,
            };
            refuse_and_tell(rt, writer, errors, &refused)
        }
    }
}

/// Answers what the words ask for, if that is `solution`, `certify` or `show`. The first word is the program's name.
pub fn run<R: Threads + Wait + Eprint + Clock + Sync + AllocGlobal, W: AsStr, K: Sink, E: Write>(
    rt: &R,
    words: &[W],
    writer: &mut K,
    errors: &mut E,
) -> u8
    requires writes { K.failures writer.old < u64.MAX }
    ensures runs { RunsWords ComposesOrder (map W.text words.now)
        (readerless (ending_of K.contents K.failures writer.old writer.new result)) }
    ensures silent { MayTell result ⊎ MeansSome ComposesOver (map W.text words.now) ⊎ (errors.new ≡ errors.old) }
{
    match read_order(rt.alloc(), words) {
        Ok(Order::Certify(subject, limits)) => {
            let context = context_of(rt, Workers { rt }, words);
            run_certify(&context, &subject, limits, writer, errors)
        }
        Ok(Order::Solution(subject, limits, options)) => {
            let context = context_of(rt, Workers { rt }, words);
            run_solution(&context, &subject, (limits, options), writer, errors)
        }
        Ok(Order::Show(fen, drawing)) => run_show(rt, fen, drawing, writer, errors),
        Ok(
            Order::One(_)
            | Order::Batch(..)
            | Order::Verify(_)
            | Order::After(_)
            | Order::TreeAfter(..),
        ) => REFUSED_WORDS,
        Err(LineFault::Words) => REFUSED_WORDS,
        Err(LineFault::NoMemory) => give_up_for_memory(writer, errors),
    }
}

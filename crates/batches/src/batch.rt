//! A batch: a solve of each position of the input, over one table.
ghost use Rattle.std.specs.Prelude.{◌≡◌, ◌+◌, ◌++◌, ◌<◌, IfOk, IfSome, None, codes, option_map};
ghost use Rattle.std.specs.Fmt.{decimal};
ghost use Rattle.devices.specs.Input.{failed_reads};
ghost use Rattle.input_lines.specs.Lines.{IsUnread, left_of};
ghost use Rattle.line_tally.specs.Quiet.{IsQuiet};
ghost use Rattle.line_tally.specs.Text.{named_lines};
ghost use Rattle.batch_texts.specs.Asking.{IsFoundAt};
ghost use Rattle.batch_texts.specs.Said.{said_in};
ghost use Rattle.progress.specs.declared.watch.Course.{Course};
ghost use Rattle.context.specs.Searching.{IsCourse, WatchesAt};
ghost use Rattle.batches.specs.Batch.{HasReplyText, IsAskedReply, IsReplyText, left_out, next_number, remark_text, with_number, with_position};
ghost use Rattle.batch_texts.specs.Forms.{IsRefusalText};
ghost use Rattle.batches.specs.BatchRun.{AreAhead, AsksProblem, GivesAsked, GivesNext, IsBatchRun, IsSearched, OpensBatchRun, PassesOver, TakesAnswered, TakesInput, TakesLines, TakesStep, step_of, stop_of};
ghost use Rattle.batches.specs.declared.batch.BatchStop.TheVariants.{NoMemory, WriteFailed};

use crate::ahead::{Lookahead, look_ahead, take_ahead};
use batch_texts::{
    Asked, Batch, Found, asked_in, found_text, is_remark, limit_of, refused_object, said_in,
};
use command_line::{BatchOptions, Limits};
use context::{Context, beside, search_of, table_within};
use devices::{Failed, InputFault, Sink, Source, write_all};
use endings::tell_if_over;
use input_lines::{Next, Taken, Unread};
use line_tally::{Lines, Tally};
use moves::read_sound;
use problems::Problem;
use progress::Watch;
use refusals::{Asking, Refusal, Refused, advise, refused_text, write_sentence};
use searcher::{Crew, Table};
use std::alloc::{AllocError, Global};
use std::io::Write;
use std::sync::Wait;
use std::thread::Threads;
use std::time::Clock;

/// A batch under way, over one table.
#[derive(Drop)]
pub struct BatchRun {
    pub batch: Batch,
    pub lookahead: Lookahead,
    pub unread: Unread,
    /// The number of the line that was read last.
    pub number: u64,
    /// What is told of how many lines are answered.
    pub tally: Tally,
}

/// What ends a batch before the end of its input.
#[derive(Clone, Copy)]
pub enum BatchStop {
    ReadFailed,
    WriteFailed,
    NoMemory,
}

impl From<InputFault> for BatchStop {
    ghost from_gives = { λ fault stop. stop ≡ stop_of fault };

    fn from(fault: InputFault) -> BatchStop {
        match fault {
            InputFault::ReadFailed => BatchStop::ReadFailed,
            _ => BatchStop::NoMemory,
        }
    }
}

impl From<Failed> for BatchStop {
    ghost from_gives = { λ _ stop. stop ≡ WriteFailed };

    fn from(_failed: Failed) -> BatchStop {
        BatchStop::WriteFailed
    }
}

impl From<AllocError> for BatchStop {
    ghost from_gives = { λ _ stop. stop ≡ NoMemory };

    fn from(_error: AllocError) -> BatchStop {
        BatchStop::NoMemory
    }
}

/// A batch that is about to run, with a table for these limits, or the first of them that is refused.
pub fn open_batch<R: Clock + AllocGlobal>(rt: &R, batch: Batch) -> Result<BatchRun, Refusal>
    ensures { OpensBatchRun batch result }
{
    let alloc = rt.alloc();
    let table = table_within(alloc, batch.limits)?;
    let lookahead = Lookahead {
        table,
        rows: Vec::new(alloc),
        looked_at: 0,
    };
    Ok(BatchRun {
        batch,
        lookahead,
        unread: Unread::new(),
        number: 0,
        tally: tally_of(rt, batch.options),
    })
}

/// The count of the lines that are answered, where the options ask for it.
fn tally_of<R: Clock>(rt: &R, options: BatchOptions) -> Tally
    ensures quiet { options.lines ≡ None → IsQuiet result }
    ensures lines { IfSome options.lines (λ count. result.lines ≡ named_lines count) }
{
    let lines = options.lines.map(Lines::of);
    Tally::new(rt, lines, left_out(options))
}

/// The answer of a problem, or its keys, by a crew.
fn found_by<C: Crew<Global>>(
    crew: &C,
    table: &mut Table,
    keys: bool,
    problem: &Problem,
    watch: Option<&Watch>,
) -> Result<Found, AllocError>
    requires { C.ready crew.now }
    ensures { IfOk result (IsFoundAt keys problem.now.goal problem.now.position problem.now.limit) }
{
    if keys {
        Ok(Found::Keys(crew.keys(table, problem, watch)?))
    } else {
        Ok(Found::Answer(crew.solve(table, problem, watch)?))
    }
}

/// The same, with a thread beside it that shows how far it is, where there is a watch.
fn find<R: Threads + Wait + Eprint + Clock + Sync + AllocGlobal, C: Crew<Global>>(
    context: &Context<'_, R, C>,
    table: &mut Table,
    keys: bool,
    problem: &Problem,
    watch: Option<&Watch>,
) -> Result<Found, AllocError>
    requires { C.ready context.now.crew }
    ensures { IfOk result (IsFoundAt keys problem.now.goal problem.now.position problem.now.limit) }
{
    let (crew, keys) = (&context.crew, &keys);
    beside(
        context.rt,
        watch,
        move || -> Result<Found, AllocError>
            requires { C.ready crew.now }
            ensures { IfOk result
                (IsFoundAt keys.entry.now problem.entry.now.goal problem.entry.now.position problem.entry.now.limit) }
        { found_by(crew, table, *keys, problem, watch) },
    )
}

/// The problem that a line asks, or why it is refused.
pub(crate) fn problem_of(batch: &Batch, asked: &Asked<'_>) -> Result<Problem, Refusal>
    requires { IsSearched batch.now }
    ensures { AsksProblem batch.now asked.now result }
{
    let position = read_sound(asked.fen)?;
    let Batch { goal, limits, .. } = *batch;
    let limits = Limits {
        limit: limit_of(limits.limit, asked.moves),
        workers: limits.workers,
        slots: limits.slots,
    };
    match Problem::of(&position, goal, search_of(limits).limit) {
        Some(problem) => Ok(problem),
        None => Err(Refusal::Limit),
    }
}

/// The watch over the search of a line, with the line's own limit, where searches are shown.
fn line_watch<R: Clock + AllocGlobal, C>(
    context: &Context<'_, R, C>,
    batch: &Batch,
    problem: &Problem,
) -> Option<Watch>
    ensures { IfSome result (λ watch. (way : Course) × IsCourse batch.now.options.keys problem.now.limit way
        × WatchesAt problem.now.position way batch.now.limits.slots watch) }
{
    let limits = Limits {
        limit: u32::from(problem.limit),
        workers: batch.limits.workers,
        slots: batch.limits.slots,
    };
    context.watch_of(&problem.position, batch.options.keys, limits)
}

/// What is written for what a line asks, or why it is refused.
fn answered_text<R: Threads + Wait + Eprint + Clock + Sync + AllocGlobal, C: Crew<Global>>(
    context: &Context<'_, R, C>,
    table: &mut Table,
    batch: &Batch,
    asked: &Asked<'_>,
) -> Result<Vec<u8>, Refusal>
    requires crew { C.ready context.now.crew }
    requires batch { IsSearched batch.now }
    ensures { GivesAsked batch.now asked.now result }
{
    let problem = problem_of(batch, asked)?;
    let watch = line_watch(context, batch, &problem);
    let found = find(context, table, batch.options.keys, &problem, watch.as_ref())?;
    Ok(found_text(context.rt.alloc(), batch, asked, &found)?)
}

/// Tells why something is refused, in one sentence.
fn sentence_of(alloc: Global, why: &Refused<'_>) -> Vec<u8> {
    let mut sentence = Vec::new(alloc);
    let _ = write_sentence(&mut sentence, why);
    sentence
}

/// What is written of why a line of the input, or the whole batch, is refused; standard error is told of it too.
pub fn refusal_line<E: Write>(
    alloc: Global,
    json: bool,
    errors: &mut E,
    fen: Option<&[u8]>,
    why: &Refused<'_>,
) -> Result<Vec<u8>, AllocError>
    ensures { IfOk result (λ text. IsRefusalText json (option_map (λ f. f.now) fen.entry) why.now.refusal text.items) }
{
    let _ = advise(errors, why);
    if json {
        let sentence = sentence_of(alloc, why);
        return Ok(refused_object(alloc, fen, why.refusal, sentence.as_slice())?.into_bytes());
    }
    Ok(refused_text(alloc, why.refusal)?.into_bytes())
}

/// The text, with the position before it, if that is asked for.
pub(crate) fn echoed(
    alloc: Global,
    batch: &Batch,
    said: &[u8],
    plain: Vec<u8>,
) -> Result<Vec<u8>, AllocError>
    ensures { IfOk result (λ text. text.items ≡ with_position batch.now said.now plain.items) }
{
    if !batch.options.echo || batch.options.json || is_remark(said) {
        return Ok(plain);
    }
    let mut text = Vec::new(alloc);
    text.extend_from_slice(said)?;
    text.push(b'\t')?;
    text.extend_from_slice(plain.as_slice())?;
    Ok(text)
}

/// An object of JSON with the number of its line before these members.
fn numbered(alloc: Global, number: u64, members: &[u8]) -> Result<Vec<u8>, AllocError>
    ensures { IfOk result (λ object. object.items
        ≡ codes "{\"line\":" ++ (decimal number ++ (codes "," ++ members.now))) }
{
    let mut object = format!(in alloc; "{{\"line\":{number},")?.into_bytes();
    object.extend_from_slice(members)?;
    Ok(object)
}

/// The text; an object of JSON with the number of its line as its first member.
fn with_number(alloc: Global, json: bool, number: u64, text: Vec<u8>) -> Result<Vec<u8>, AllocError>
    ensures { IfOk result (λ whole. whole.items ≡ with_number json number text.items) }
{
    if !json {
        return Ok(text);
    }
    let [_, members @ ..] = text.as_slice() else {
        return Ok(text);
    };
    numbered(alloc, number, members)
}

/// What is written for a line.
fn line_text<R: Threads + Wait + Eprint + Clock + Sync + AllocGlobal, C: Crew<Global>, E: Write>(
    context: &Context<'_, R, C>,
    table: &mut Table,
    batch: &Batch,
    line: &[u8],
    errors: &mut E,
) -> Result<Vec<u8>, AllocError>
    requires crew { C.ready context.now.crew }
    requires batch { IsSearched batch.now }
    ensures { IfOk result (λ text. HasReplyText batch.now (said_in line.now) text.items) }
{
    let said = said_in(line);
    let plain = plain_text(context, table, batch, said, errors)?;
    echoed(context.rt.alloc(), batch, said, plain)
}

/// What is written for a remark.
fn remark_text(alloc: Global, batch: &Batch, said: &[u8]) -> Result<Vec<u8>, AllocError>
    ensures { IfOk result (λ text. text.items ≡ remark_text batch.now said.now) }
{
    let mut text = Vec::new(alloc);
    if !batch.options.json {
        text.extend_from_slice(said)?;
        text.push(b'\n')?;
    }
    Ok(text)
}

/// What is written for what a line says, without its position.
fn plain_text<R: Threads + Wait + Eprint + Clock + Sync + AllocGlobal, C: Crew<Global>, E: Write>(
    context: &Context<'_, R, C>,
    table: &mut Table,
    batch: &Batch,
    said: &[u8],
    errors: &mut E,
) -> Result<Vec<u8>, AllocError>
    requires crew { C.ready context.now.crew }
    requires batch { IsSearched batch.now }
    ensures { IfOk result (λ text. IsReplyText batch.now said.now text.items) }
{
    let alloc = context.rt.alloc();
    if is_remark(said) {
        return remark_text(alloc, batch, said);
    }
    let asked = asked_in(alloc, said)?;
    asked_text(context, table, batch, &asked, errors)
}

/// What is written for what a line asks.
fn asked_text<R: Threads + Wait + Eprint + Clock + Sync + AllocGlobal, C: Crew<Global>, E: Write>(
    context: &Context<'_, R, C>,
    table: &mut Table,
    batch: &Batch,
    asked: &Asked<'_>,
    errors: &mut E,
) -> Result<Vec<u8>, AllocError>
    requires crew { C.ready context.now.crew }
    requires batch { IsSearched batch.now }
    ensures { IfOk result (λ text. IsAskedReply batch.now asked.now text.items) }
{
    match answered_text(context, table, batch, asked) {
        Ok(text) => {
            tell_if_over(errors, asked.fen, context.line);
            Ok(text)
        }
        Err(refusal) => {
            if refusal.status() == 3 {
                return Err(AllocError);
            }
            let why = Refused {
                refusal,
                fen: asked.fen,
                asking: Asking::Line(context.number()),
            };
            refusal_line(
                context.rt.alloc(),
                batch.options.json,
                errors,
                Some(asked.fen),
                &why,
            )
        }
    }
}

/// What is written for what comes next of the input, or nothing at its end.
fn next_text<R: Threads + Wait + Eprint + Clock + Sync + AllocGlobal, C: Crew<Global>, E: Write>(
    context: &Context<'_, R, C>,
    table: &mut Table,
    batch: &Batch,
    next: Next,
    errors: &mut E,
) -> Result<Option<Vec<u8>>, AllocError>
    requires crew { C.ready context.now.crew }
    requires batch { IsSearched batch.now }
    ensures { IfOk result (GivesNext batch.now next) }
{
    match next {
        Next::End => Ok(None),
        Next::TooLong => {
            let refused = Refused {
                refusal: Refusal::TooLong,
                fen: b"",
                asking: Asking::Line(context.number()),
            };
            let json = batch.options.json;
            Ok(Some(refusal_line(context.rt.alloc(), json, errors, None, &refused)?))
        }
        Next::Line(line) => Ok(Some(line_text(context, table, batch, line.as_slice(), errors)?)),
    }
}

/// What is written for what comes next: what was made ahead for it, or else what is made now.
fn made_text<R: Threads + Wait + Eprint + Clock + Sync + AllocGlobal, C: Crew<Global>, E: Write>(
    context: &Context<'_, R, C>,
    batch: &Batch,
    lookahead: &mut Lookahead,
    next: Next,
    errors: &mut E,
) -> Result<Option<Vec<u8>>, AllocError>
    requires crew { C.ready context.now.crew }
    requires batch { IsSearched batch.now }
    requires ahead { AreAhead batch.now lookahead.old.rows.items }
    ensures ahead { AreAhead batch.now lookahead.new.rows.items }
    ensures text { IfOk result (GivesNext batch.now next) }
{
    if let Some(text) = take_ahead(&mut lookahead.rows, &next) {
        return Ok(Some(text));
    }
    next_text(context, &mut lookahead.table, batch, next, errors)
}

/// Reads a line, and writes the reply to it. Answers whether more may come.
fn answer_next<
    R: Threads + Wait + Eprint + Clock + Sync + AllocGlobal,
    C: Crew<Global>,
    S: Source,
    K: Sink,
    E: Write,
>(
    context: &mut Context<'_, R, C>,
    run: &mut BatchRun,
    reader: &mut S,
    writer: &mut K,
    errors: &mut E,
) -> Result<bool, BatchStop>
    requires crew { C.ready context.old.crew }
    requires run { IsBatchRun run.old }
    requires reads { S.failures reader.old < u64.MAX }
    requires writes { K.failures writer.old < u64.MAX }
    ensures crew { context.new.crew ≡ context.old.crew }
    ensures run { IsBatchRun run.new }
    ensures same { run.new.batch ≡ run.old.batch }
    ensures counts { run.new.number ≡ next_number run.old.number }
    ensures step { TakesStep run.old.batch (step_of run.old run.new S.remaining S.failures reader.old reader.new
        K.contents K.failures writer.old writer.new) result }
{
    run.number = run.number.saturating_add(1);
    context.line = Some(run.number);
    let Taken { next, is_last } = run
        .unread
        .next_line(context.rt, context.rt.alloc(), reader)?;
    look_ahead(context, &run.batch, &mut run.lookahead, &run.unread, &next);
    let mut messages = Vec::new(context.rt.alloc());
    let made = made_text(context, &run.batch, &mut run.lookahead, next, &mut messages);
    let _ = run.tally.message(errors, messages.as_slice());
    let Some(plain) = made? else {
        return Ok(false);
    };
    let json = run.batch.options.json;
    let text = with_number(context.rt.alloc(), json, run.number, plain)?;
    write_all(writer, text.as_slice())?;
    let _ = run.tally.tell(context.rt, run.number, errors);
    Ok(!is_last)
}

/// Reads line after line and writes the replies, to the end of the input or until something stops it.
fn answer_lines<
    R: Threads + Wait + Eprint + Clock + Sync + AllocGlobal,
    C: Crew<Global>,
    S: Source,
    K: Sink,
    E: Write,
>(
    context: &mut Context<'_, R, C>,
    run: &mut BatchRun,
    reader: &mut S,
    writer: &mut K,
    errors: &mut E,
) -> Option<BatchStop>
    requires crew { C.ready context.old.crew }
    requires run { IsBatchRun run.old }
    requires reads { S.failures reader.old < u64.MAX }
    requires writes { K.failures writer.old < u64.MAX }
    ensures lines { TakesLines run.old.batch (step_of run.old run.new S.remaining S.failures reader.old reader.new
        K.contents K.failures writer.old writer.new) result }
{
    for _ in context.rt.forever() {
        match answer_next(context, run, reader, writer, errors) {
            Ok(true) => {}
            Ok(false) => return None,
            Err(stop) => return Some(stop),
        }
    }
    unreachable!()
}

/// How many lines at the beginning of the input are left out.
fn left_out(options: BatchOptions) -> u32
    ensures { result ≡ left_out options.skip }
{
    options.skip.unwrap_or(0)
}

/// Reads so many lines, and does nothing with them. Answers whether more may come.
fn pass_over<R: Wait + AllocGlobal, S: Source>(
    rt: &R,
    unread: &mut Unread,
    reader: &mut S,
    count: u32,
) -> Result<bool, InputFault>
    requires bounds { IsUnread unread.old }
    requires reads { S.failures reader.old < u64.MAX }
    ensures bounds { IsUnread unread.new }
    ensures passes { IfOk result (PassesOver count (left_of unread.old (S.remaining reader.old))
        (left_of unread.new (S.remaining reader.new))) }
    ensures counts { S.failures reader.new ≡ S.failures reader.old + failed_reads result }
{
    for _ in 0..count {
        let taken = unread.next_line(rt, rt.alloc(), reader)?;
        if taken.is_last {
            return Ok(false);
        }
    }
    Ok(true)
}

/// Passes over the lines that are left out, and answers those behind them, which keep their numbers.
fn skip_and_answer<
    R: Threads + Wait + Eprint + Clock + Sync + AllocGlobal,
    C: Crew<Global>,
    S: Source,
    K: Sink,
    E: Write,
>(
    context: &mut Context<'_, R, C>,
    run: &mut BatchRun,
    reader: &mut S,
    writer: &mut K,
    errors: &mut E,
) -> Option<BatchStop>
    requires crew { C.ready context.old.crew }
    requires run { IsBatchRun run.old }
    requires reads { S.failures reader.old < u64.MAX }
    requires writes { K.failures writer.old < u64.MAX }
    ensures lines { TakesAnswered run.old.batch
        (step_of run.old run.new S.remaining S.failures reader.old reader.new
        K.contents K.failures writer.old writer.new) result }
{
    let count = left_out(run.batch.options);
    match pass_over(context.rt, &mut run.unread, reader, count) {
        Ok(true) => {
            run.number = u64::from(count);
            answer_lines(context, run, reader, writer, errors)
        }
        Ok(false) => None,
        Err(fault) => Some(BatchStop::from(fault)),
    }
}

/// Skips a byte order mark at the beginning of the input, and answers the lines behind it.
fn answer_input<
    R: Threads + Wait + Eprint + Clock + Sync + AllocGlobal,
    C: Crew<Global>,
    S: Source,
    K: Sink,
    E: Write,
>(
    context: &mut Context<'_, R, C>,
    run: &mut BatchRun,
    reader: &mut S,
    writer: &mut K,
    errors: &mut E,
) -> Option<BatchStop>
    requires crew { C.ready context.old.crew }
    requires run { IsBatchRun run.old }
    requires fresh { (run.old.unread.from ≡ 0) × (run.old.unread.to ≡ 0) }
    requires reads { S.failures reader.old < u64.MAX }
    requires writes { K.failures writer.old < u64.MAX }
    ensures lines { TakesInput run.old.batch
        (step_of run.old run.new S.remaining S.failures reader.old reader.new
        K.contents K.failures writer.old writer.new) result }
{
    match run.unread.skip_mark(reader) {
        Ok(true) => skip_and_answer(context, run, reader, writer, errors),
        Ok(false) => None,
        Err(_failed) => Some(BatchStop::ReadFailed),
    }
}

/// Answers the lines of a batch, and clears the count of lines that stands on the terminal at its end.
pub fn answer_batch<
    R: Threads + Wait + Eprint + Clock + Sync + AllocGlobal,
    C: Crew<Global>,
    S: Source,
    K: Sink,
    E: Write,
>(
    context: &mut Context<'_, R, C>,
    run: &mut BatchRun,
    reader: &mut S,
    writer: &mut K,
    errors: &mut E,
) -> Option<BatchStop>
    requires crew { C.ready context.old.crew }
    requires run { IsBatchRun run.old }
    requires fresh { (run.old.unread.from ≡ 0) × (run.old.unread.to ≡ 0) }
    requires reads { S.failures reader.old < u64.MAX }
    requires writes { K.failures writer.old < u64.MAX }
    ensures lines { TakesInput run.old.batch
        (step_of run.old run.new S.remaining S.failures reader.old reader.new
        K.contents K.failures writer.old writer.new) result }
{
    let stop = answer_input(context, run, reader, writer, errors);
    let _ = run.tally.clear(errors);
    stop
}

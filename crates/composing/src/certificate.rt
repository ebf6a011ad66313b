//! A certificate: the answer of a solve, and then line after line as it is made.
ghost use Rattle.std.specs.Prelude.{◌≡◌, ◌<◌};
ghost use Rattle.verifying.specs.Checking.{HasTaken};
ghost use Rattle.composing.specs.Claims.{BeginsAt, BeginsCertificate, EndsClaims, EndsWriting, cut_of, writing_of};
ghost use Rattle.composing.specs.declared.certificate.Cut.TheVariants.{WriteFailed};

use crate::searched::searched_at;
use answer_texts::answer_text;
use board::Position;
use certifying::{Certificate, Checked};
use command_line::{Limits, Subject};
use context::Context;
use devices::{Failed, Sink, write_all};
use line_tally::Tally;
use moves::{Board, Goal, read_sound};
use problems::Question;
use refusals::Refusal;
use searcher::Crew;
use std::alloc::Global;
use std::sync::Wait;
use std::thread::Threads;
use std::time::Clock;
use thiserror::Error;
use verifying::{Checker, Fault};

/// The answer's line, and the lines of claims as they are made.
#[derive(Drop)]
pub struct Begun {
    pub line: Vec<u8>,
    pub certificate: Checked,
}

/// What ends a certificate before its last line.
#[derive(Clone, Copy, Debug, Error)]
pub enum Cut {
    #[error("the output could not be written to its end")]
    WriteFailed,
    #[error("memory was refused")]
    NoMemory,
    /// The checker doesn't take the next line.
    #[error(transparent)]
    Refused(Refusal),
}

impl From<Failed> for Cut {
    ghost from_gives = { λ _ cut. cut ≡ WriteFailed };

    fn from(_failed: Failed) -> Cut {
        Cut::WriteFailed
    }
}

impl From<Fault> for Cut {
    ghost from_gives = { λ fault cut. cut ≡ cut_of fault };

    fn from(fault: Fault) -> Cut {
        match fault {
            Fault::Answer => Cut::Refused(Refusal::Answer),
            Fault::Claim(line) => Cut::Refused(Refusal::Claim(line)),
            Fault::TooLong => Cut::Refused(Refusal::TooLong),
            Fault::NoMemory | Fault::ReadFailed => Cut::NoMemory,
        }
    }
}

/// The answer at a position, with what makes its certificate.
fn begin_at<R: Threads + Wait + Eprint + Clock + Sync + AllocGlobal, C: Crew<Global>>(
    context: &Context<'_, R, C>,
    position: &Position,
    goal: Goal,
    limits: Limits,
) -> Result<Begun, Refusal>
    requires { C.ready context.now.crew }
    ensures { BeginsAt goal position.now limits result }
{
    let alloc = context.rt.alloc();
    let found = searched_at(context, position, goal, limits)?;
    let answer = found.answer;
    let (slots, seat) = found.table.into_alone();
    let line = answer_text(alloc, goal, answer)?.into_bytes();
    let root = Question {
        position: Board::of(position),
        attacker: position.mover(),
        goal,
    };
    let checker = Checker::behind(alloc, &root.position, goal, answer)?;
    let certificate = Checked {
        certificate: Certificate::of(alloc, slots, seat, root, answer)?,
        checker,
    };
    Ok(Begun { line, certificate })
}

/// The answer at the position of a text, with what makes its certificate.
pub fn begin<R: Threads + Wait + Eprint + Clock + Sync + AllocGlobal, C: Crew<Global>>(
    context: &Context<'_, R, C>,
    subject: &Subject<'_>,
    limits: Limits,
) -> Result<Begun, Refusal>
    requires { C.ready context.now.crew }
    ensures { BeginsCertificate subject.now limits result }
{
    let position = read_sound(subject.fen)?;
    begin_at(context, &position, subject.goal, limits)
}

/// Makes a line and writes it. Answers whether there was one.
fn write_next<K: Sink>(certificate: &mut Checked, writer: &mut K) -> Result<bool, Cut>
    requires begun { HasTaken certificate.old.checker }
    requires writes { K.failures writer.old < u64.MAX }
    ensures { EndsWriting certificate.old.checker certificate.new.checker certificate.new.certificate
        (writing_of K.contents K.failures writer.old writer.new) result }
{
    let Some(line) = certificate.next_line()? else {
        return Ok(false);
    };
    write_all(writer, line.as_slice())?;
    Ok(true)
}

/// Makes and writes line after line, to the end or until something cuts them off. The tally shows how many.
pub fn write_claims<R: Clock + Eprint, K: Sink>(
    rt: &R,
    tally: &mut Tally,
    certificate: &mut Checked,
    writer: &mut K,
) -> Option<Cut>
    requires begun { HasTaken certificate.old.checker }
    requires writes { K.failures writer.old < u64.MAX }
    ensures { EndsClaims certificate.old.checker certificate.new.certificate
        (writing_of K.contents K.failures writer.old writer.new) result }
{
    let mut number: u64 = 0;
    for _ in 0..u64::MAX {
        match write_next(certificate, writer) {
            Ok(true) => {
                number = number.saturating_add(1);
                tally.show(rt, number);
            }
            Ok(false) => return None,
            Err(cut) => return Some(cut),
        }
    }
    Some(Cut::NoMemory)
}

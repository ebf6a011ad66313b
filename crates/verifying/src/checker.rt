//! The checker, which takes a certificate line by line.
ghost use Rattle.std.specs.Prelude.{◌≡◌, ◌+◌, ◌<◌, ◌≤◌, ◌++◌, ◌∷◌, ℕ, List, [], IfErr, IfOk, MatchOption, OnOk, length};
ghost use Rattle.certificates.specs.declared.claim.Claim.{Claim};
ghost use Rattle.problems.specs.declared.answer.Answer.{Answer as TheAnswer};
ghost use Rattle.input_lines.specs.Lines.{HasNoFeed};
ghost use Rattle.verifying.specs.declared.part.Part.{Part as ThePart};
ghost use Rattle.verifying.specs.declared.fault.Fault.TheVariants.{NoMemory, ReadFailed};
ghost use Rattle.verifying.specs.FirstLine.{first_line, IsInRange, HasNamedMove};
ghost use Rattle.verifying.specs.Checking.{HasTaken, IsProvedBy, HasTakenText, RefusesMore, TakesMore};
ghost use Rattle.verifying.specs.Reading.{AreApart, IsEnded, ReadsLine, ReadsWords, answer_of as told_at, behind_yes as part_behind_yes, begun_claims, begun_part};
ghost use Rattle.verifying.specs.Taking.{fault_at};
ghost use Rattle.verifying.specs.Yielding.{FindsOnly};

use crate::claims::Claims;
use crate::fault::Fault;
use crate::first_line::answer_of;
use crate::part::{Mate, Part};
use crate::steps::{shows_lesser, shows_no, shows_win, shows_yes};
use crate::words::{Word, read_words};
use moves::{Board, Goal};
use problems::Answer;
use std::alloc::{AllocError, Allocator};

/// The most bytes of a line, its feed not counted.
pub const MOST_LINE: usize = 8192;

/// What was taken of a certificate: how many lines, what the next one is, and the claims of the part that is under way.
#[derive(Drop)]
pub struct Checker<A: Allocator> {
    pub(crate) board: Board,
    pub(crate) goal: Goal,
    pub(crate) number: u64,
    pub(crate) part: Part,
    pub(crate) claims: Claims<A>,
    pub(crate) words: Vec<Word, A>,
}

/// Begins the claims of an answer, in place of the claims. Answers what its next line is.
fn begun<A: Allocator + Copy>(
    claims: &mut Claims<A>,
    board: &Board,
    answer: Answer,
) -> Result<Part, AllocError>
    requires { IsInRange answer }
    ensures part { IfOk result (λ part. part ≡ begun_part answer) }
    ensures made { IfOk result (λ part. claims.new ≡ begun_claims board.now answer) }
{
    claims.clear();
    match answer {
        Answer::Mate { plies, first } => Ok(Part::Win(Mate { plies, first })),
        Answer::NoneWithin(limit) => {
            claims.push(board, limit - 1 + limit % 2)?;
            Ok(Part::No(answer, 0))
        }
    }
}

/// What comes behind so many yes lines, where there are so many claims.
fn behind_yes(mate: Mate, place: usize, count: usize) -> Part
    ensures { result ≡ part_behind_yes mate place count }
{
    if place < count {
        Part::Yes(mate, place)
    } else {
        Part::Lesser(mate)
    }
}

/// What comes behind the line of the part, if its words show what they have to.
fn shown<A: Allocator + Copy>(
    claims: &mut Claims<A>,
    board: &Board,
    goal: Goal,
    part: Part,
    words: &[Word],
) -> Result<Option<Part>, AllocError>
    requires { AreApart claims.old }
    ensures { IfOk result (λ found. FindsOnly (λ (next : ThePart) (new : List Claim).
        ReadsWords goal board.now part words.now claims.old next new) found claims.new) }
{
    match part {
        Part::First => Ok(None),
        Part::Win(mate) => {
            if !shows_win(claims, board, goal, mate, words)? {
                return Ok(None);
            }
            Ok(Some(behind_yes(mate, 1, claims.len())))
        }
        Part::Yes(mate, place) => {
            if place >= claims.len() {
                return Ok(None);
            }
            if !shows_yes(claims, goal, place, words)? {
                return Ok(None);
            }
            Ok(Some(behind_yes(mate, place + 1, claims.len())))
        }
        Part::Lesser(mate) => {
            if !shows_lesser(claims, board, goal, mate, words)? {
                return Ok(None);
            }
            let Mate { plies, first } = mate;
            Ok(Some(Part::No(Answer::Mate { plies, first }, 0)))
        }
        Part::No(answer, place) => {
            if place >= claims.len() {
                return Ok(None);
            }
            if !shows_no(claims, goal, place, words)? {
                return Ok(None);
            }
            Ok(Some(Part::No(answer, place + 1)))
        }
    }
}

impl<A: Allocator + Copy> Checker<A> {
    /// Nothing was taken yet.
    pub fn new(alloc: A, board: &Board, goal: Goal) -> Checker<A>
        ensures { HasTakenText goal board.now result [] }
    {
        Checker {
            board: board.copied(),
            goal,
            number: 0,
            part: Part::First,
            claims: Claims::new(alloc),
            words: Vec::new(alloc),
        }
    }

    /// The first line was taken, which is this answer's.
    pub fn behind(
        alloc: A,
        board: &Board,
        goal: Goal,
        answer: Answer,
    ) -> Result<Checker<A>, AllocError>
        requires range { IsInRange answer }
        requires named { HasNamedMove answer }
        ensures { IfOk result (λ checker. HasTakenText goal board.now checker (first_line goal answer ++ 10 ∷ [])) }
    {
        let mut claims = Claims::new(alloc);
        let part = begun(&mut claims, board, answer)?;
        Ok(Checker {
            board: board.copied(),
            goal,
            number: 1,
            part,
            claims,
            words: Vec::new(alloc),
        })
    }

    /// What comes behind the line, if it is the one that comes next.
    fn part_behind(&mut self, line: &[u8]) -> Result<Option<Part>, AllocError>
        requires short { length line.now ≤ 8192 }
        requires apart { AreApart self.old.claims }
        ensures about { (self.new.goal ≡ self.old.goal) × (self.new.board ≡ self.old.board) }
        ensures counts { self.new.number ≡ self.old.number }
        ensures reads { IfOk result (λ found. FindsOnly (λ (next : ThePart) (new : List Claim).
            ReadsLine self.old.goal self.old.board self.old.part line.now self.old.claims next new) found self.new.claims) }
    {
        if let Part::First = self.part {
            let Some(answer) = answer_of(line, self.goal) else {
                return Ok(None);
            };
            let part = begun(&mut self.claims, &self.board, answer)?;
            return Ok(Some(part));
        }
        if !read_words(line, &mut self.words)? {
            return Ok(None);
        }
        let words = self.words.as_slice();
        shown(&mut self.claims, &self.board, self.goal, self.part, words)
    }

    /// The fault of a line that isn't there, or isn't right.
    fn fault(&self) -> Fault
        requires { self.now.number < u64.MAX }
        ensures { result ≡ fault_at (told_at self.now.part) self.now.number }
    {
        match self.part {
            Part::First => Fault::Answer,
            _ => Fault::Claim(self.number + 1),
        }
    }

    /// Takes the next line, which stands without its feed.
    pub fn take(&mut self, line: &[u8]) -> Result<(), Fault>
        requires { HasTaken self.old }
        ensures takes { OnOk result (TakesMore self.old self.new (line.now ++ 10 ∷ [])) }

        // But for want of memory no line of a certificate is refused.
        ensures refuses { IfErr result (λ fault. (fault ≡ NoMemory → ⊥) → HasNoFeed line.now
            → (rest : List ℕ) → RefusesMore self.old (line.now ++ 10 ∷ rest) fault) }
        ensures unread { IfErr result (λ fault. fault ≡ ReadFailed → ⊥) }
    {
        if line.len() > MOST_LINE {
            return Err(Fault::TooLong);
        }
        if self.number == u64::MAX {
            return Err(Fault::NoMemory);
        }
        let fault = self.fault();
        let Some(part) = self.part_behind(line)? else {
            return Err(fault);
        };
        self.part = part;
        self.number += 1;
        Ok(())
    }

    /// The answer, where no line is left out.
    fn answer(&self) -> Option<Answer>
        ensures { MatchOption result ((answer : TheAnswer) → IsEnded self.now.part self.now.claims answer → ⊥)
            (IsEnded self.now.part self.now.claims) }
    {
        match self.part {
            Part::No(answer, place) if place >= self.claims.len() => Some(answer),
            _ => None,
        }
    }

    /// The answer that is proved, where the text ends behind this rest of a line.
    pub fn ended(&self, rest: &[u8]) -> Result<Answer, Fault>
        requires { HasTaken self.now }
        ensures proves { IfOk result (IsProvedBy self.now) }
        ensures whole { IfOk result (λ answer. rest.now ≡ []) }
        ensures refuses { IfErr result (λ fault. (fault ≡ NoMemory → ⊥) → HasNoFeed rest.now
            → RefusesMore self.now rest.now fault) }
        ensures unread { IfErr result (λ fault. fault ≡ ReadFailed → ⊥) }
    {
        if self.number == u64::MAX {
            return Err(Fault::NoMemory);
        }
        if !rest.is_empty() {
            return Err(self.fault());
        }
        match self.answer() {
            Some(answer) => Ok(answer),
            None => Err(self.fault()),
        }
    }
}

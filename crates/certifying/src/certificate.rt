//! A certificate as it is made, line by line.
ghost use Rattle.std.specs.Prelude.{◌≡◌, ◌<◌, ◌≤◌, ◌++◌, ◌∷◌, [], IfNone, IfOk, IfSome, List, OnOk, length};
ghost use Rattle.rules.specs.Moves.{IsLawful};
ghost use Rattle.slots.specs.Promise.{IsSeatOf};
ghost use Rattle.verifying.specs.Words.{words_line};
ghost use Rattle.certifying.specs.Lines.{claim_line};
ghost use Rattle.certifying.specs.Making.{IsOfAnswer, IsSpent, first_move, first_plies};
ghost use Rattle.verifying.specs.declared.words.Word.{Word as TheWord};

use crate::choosing::Chooser;
use crate::no_lines::no_words;
use crate::text::{fed, text_of};
use crate::yes_lines::yes_words;
use certificates::Claim;
use decision::{Memory, Never, Scout};
use entry::MateLore;
use moves::{Move, lawful_on};
use problems::{Answer, MOST_LIMIT, Question};
use slots::{Seat, Slots};
use std::alloc::{AllocError, Global};
use verifying::{Claims, Word, place_of};

/// A certificate of which some lines were made: what it is about, the claims of the part that is under way, and the one whose line comes next.
#[derive(Drop)]
pub struct Certificate {
    chooser: Chooser,
    root: Question,
    /// The plies of the first claim.
    plies: u8,
    /// The answer's move, as long as yes claims have no line yet.
    first: Option<Move>,
    claims: Claims<Global>,
    next: usize,
}

/// The plies of the first claim: a mate's, or else the greatest odd number within the limit.
fn first_plies(answer: Answer) -> u8
    ensures value { result ≡ first_plies answer }
    ensures most { result ≤ 63 }
{
    match answer {
        Answer::Mate { plies, .. } => plies.min(MOST_LIMIT),
        Answer::NoneWithin(limit) => limit.saturating_sub(1 - limit % 2).min(MOST_LIMIT),
    }
}

/// The first move of a mate.
fn first_move(answer: &Answer) -> Option<Move>
    ensures { result ≡ first_move answer.now }
{
    match *answer {
        Answer::Mate { first, .. } => Some(first),
        Answer::NoneWithin(_) => None,
    }
}

impl Certificate {
    /// The certificate of an answer to the question, over the table by which it was found. Its first line, which is the answer, is the
    /// caller's to write.
    pub fn of(
        alloc: Global,
        slots: Slots<MateLore>,
        seat: Seat,
        root: Question,
        answer: Answer,
    ) -> Result<Certificate, AllocError>
        requires { IsSeatOf slots seat }
        ensures { IfOk result (λ certificate. IsOfAnswer certificate root answer) }
    {
        let scout = Scout {
            stop: Never,
            memory: Memory::new(),
        };
        let chooser = Chooser {
            alloc,
            slots,
            seat,
            scout,
            memory: Memory::new(),
        };
        let first = first_move(&answer);
        let mut certificate = Certificate {
            chooser,
            root,
            plies: first_plies(answer),
            first,
            claims: Claims::new(alloc),
            next: 0,
        };
        let plies = certificate.plies;
        certificate.begin_part(plies)?;
        Ok(certificate)
    }

    /// A part begins, whose first claim is of so many plies at the root, if there are any.
    fn begin_part(&mut self, plies: u8) -> Result<(), AllocError>
        ensures root { OnOk result (self.new.root ≡ self.old.root) }
        ensures plies { OnOk result (self.new.plies ≡ self.old.plies) }
        ensures first { OnOk result (self.new.first ≡ self.old.first) }
    {
        self.next = 0;
        self.claims = Claims::new(self.chooser.alloc);
        if plies > 0 {
            self.claims.push(&self.root.position, plies)?;
        }
        Ok(())
    }

    /// The next claim, as a question, and its plies.
    fn next_claim(&mut self) -> Option<(Question, u8)>
        ensures most { IfSome result (λ r. r.1 ≤ 63) }
        ensures first { self.new.first ≡ self.old.first }
        ensures none { IfNone result (length self.new.claims ≤ self.new.next) }
    {
        if self.claims.len() <= self.next {
            return None;
        }
        let Claim { position, plies } = self.claims.claim(self.next);
        self.next += 1;
        let attacker = self.root.attacker;
        let goal = self.root.goal;
        Some((
            Question {
                position,
                attacker,
                goal,
            },
            plies.min(MOST_LIMIT),
        ))
    }

    /// The words of the next yes claim's line, or none where each has its own.
    fn next_won(&mut self, first: Move) -> Result<Option<Vec<Word>>, AllocError> {
        let Some((q, plies)) = self.next_claim() else {
            return Ok(None);
        };
        let wanted = if self.next == 1 {
            named(&q, first)
        } else {
            self.chooser.choose(&q, plies.saturating_sub(1), true)
        };
        let Some(m) = wanted else {
            return Ok(Some(Vec::new(self.chooser.alloc)));
        };
        Ok(Some(yes_words(&mut self.chooser, &mut self.claims, &q, m, plies)?))
    }

    /// The words of the next no claim's line, or none where each has its own.
    fn next_held(&mut self) -> Result<Option<Vec<Word>>, AllocError>
        ensures first { IfOk result (λ line. IfNone line (self.new.first ≡ self.old.first)) }
        ensures none { IfOk result (λ line. IfNone line (length self.new.claims ≤ self.new.next)) }
    {
        let Some((q, plies)) = self.next_claim() else {
            return Ok(None);
        };
        let moves = lawful_on(&q.position);
        Ok(Some(no_words(
            &mut self.chooser,
            &mut self.claims,
            &q,
            moves.as_slice(),
            plies,
        )?))
    }

    /// The words of the first line of no claims, which is about the moves before the first one.
    fn lesser(&mut self, first: Move) -> Result<Vec<Word>, AllocError> {
        let plies = self.plies.min(MOST_LIMIT);
        self.begin_part(plies.saturating_sub(2))?;
        let moves = lawful_on(&self.root.position);
        let lesser = place_of(moves.as_slice(), first);
        no_words(
            &mut self.chooser,
            &mut self.claims,
            &self.root,
            &moves.as_slice()[..lesser],
            plies,
        )
    }

    /// The words of the next line, or none where the certificate ends.
    fn next_words(&mut self) -> Result<Option<Vec<Word>>, AllocError>
        ensures { IfOk result (λ line. IfNone line (IsSpent self.new)) }
    {
        let Some(first) = self.first else {
            return self.next_held();
        };
        if let Some(words) = self.next_won(first)? {
            return Ok(Some(words));
        }
        self.first = None;
        Ok(Some(self.lesser(first)?))
    }

    /// The next line, without its feed, or none where the certificate ends.
    pub(crate) fn next_text(&mut self) -> Result<Option<Vec<u8>>, AllocError>
        ensures words { IfOk result (λ line. IfSome line (λ text.
            (words : List TheWord) × (text.items ≡ words_line words))) }
        ensures spent { IfOk result (λ line. IfNone line (IsSpent self.new)) }
    {
        let Some(words) = self.next_words()? else {
            return Ok(None);
        };
        Ok(Some(text_of(self.chooser.alloc, words.as_slice())?))
    }

    /// The next line, with its feed, or none where the certificate ends.
    pub fn next_line(&mut self) -> Result<Option<Vec<u8>>, AllocError>
        ensures words { IfOk result (λ line. IfSome line (λ text.
            (words : List TheWord) × (text.items ≡ claim_line words))) }
        ensures spent { IfOk result (λ line. IfNone line (IsSpent self.new)) }
    {
        let Some(line) = self.next_text()? else {
            return Ok(None);
        };
        Ok(Some(fed(line)?))
    }
}

/// The move, where it is lawful.
fn named(q: &Question, m: Move) -> Option<Move>
    ensures { IfSome result (IsLawful q.now.position) }
{
    let moves = lawful_on(&q.position);
    let place = place_of(moves.as_slice(), m);
    if moves.len() <= place {
        return None;
    }
    Some(moves.as_slice()[place])
}

//! A certificate whose lines the checker has accepted before they are returned.
ghost use Rattle.std.specs.Prelude.{◌≡◌, IfErr, IfNone, IfOk, IfSome, List};
ghost use Rattle.certifying.specs.Lines.{claim_line};
ghost use Rattle.certifying.specs.Making.{RefusesNext};
ghost use Rattle.problems.specs.declared.answer.Answer.{Answer as TheAnswer};
ghost use Rattle.verifying.specs.Checking.{HasTaken, IsProvedBy, TakesMore};
ghost use Rattle.verifying.specs.declared.fault.Fault.TheVariants.{NoMemory};
ghost use Rattle.verifying.specs.declared.words.Word.{Word as TheWord};

use crate::certificate::Certificate;
use crate::text::fed;
use std::alloc::Global;
use verifying::{Checker, Fault};

/// A certificate that is being made, and the checker, which has read every line that was returned.
#[derive(Drop)]
pub struct Checked {
    pub certificate: Certificate,
    pub checker: Checker<Global>,
}

impl Checked {
    /// Returns the next line with its line feed, once the checker has accepted it, or `None` at the end of a complete certificate. Returns
    /// an error in place of a line that the checker rejects.
    pub fn next_line(&mut self) -> Result<Option<Vec<u8>>, Fault>
        requires { HasTaken self.old.checker }
        ensures words { IfOk result (λ line. IfSome line (λ text.
            (words : List TheWord) × (text.items ≡ claim_line words))) }
        ensures takes { IfOk result (λ line. IfSome line (λ text.
            TakesMore self.old.checker self.new.checker text.items)) }
        ensures whole { IfOk result (λ line. IfNone line
            ((answer : TheAnswer) × IsProvedBy self.old.checker answer)) }
        // A refused request for memory is returned as such. Any other fault is the checker's.
        ensures refuses { IfErr result (λ fault. (fault ≡ NoMemory → ⊥)
            → RefusesNext self.old.checker self.new.certificate fault) }
    {
        let Some(line) = self.certificate.next_text()? else {
            self.checker.ended(b"")?;
            return Ok(None);
        };
        self.checker.take(line.as_slice())?;
        Ok(Some(fed(line)?))
    }
}

//! Why a line has no answer.
ghost use Rattle.std.specs.Prelude.{◌≡◌};
ghost use Rattle.refusals.specs.Outcome.{reply_fault_of};
ghost use Rattle.refusals.specs.Refusal.{refusal_of_fen};
ghost use Rattle.refusals.specs.declared.refusal.Refusal.TheVariants.{NoMemory as no_memory};
ghost use Rattle.refusals.specs.declared.reply_fault.ReplyFault.TheVariants.{Refused};

use crate::refusal::Refusal;
use board::FenFault;
use devices::InputFault;
use std::alloc::AllocError;
use thiserror::Error;

/// Why a line has no answer.
#[derive(Clone, Copy, Debug, Error)]
pub enum ReplyFault {
    #[error(transparent)]
    Refused(Refusal),
    #[error("the input could not be read to its end")]
    ReadFailed,
}

impl From<Refusal> for ReplyFault {
    ghost from_gives = { λ refusal reply. reply ≡ Refused refusal };

    fn from(refusal: Refusal) -> ReplyFault {
        ReplyFault::Refused(refusal)
    }
}

impl From<FenFault> for ReplyFault {
    ghost from_gives = { λ fault reply. reply ≡ Refused (refusal_of_fen fault) };

    fn from(fault: FenFault) -> ReplyFault {
        ReplyFault::Refused(Refusal::from(fault))
    }
}

impl From<InputFault> for ReplyFault {
    ghost from_gives = { λ fault reply. reply ≡ reply_fault_of fault };

    fn from(fault: InputFault) -> ReplyFault {
        match fault {
            InputFault::ReadFailed => ReplyFault::ReadFailed,
            InputFault::TooLong => ReplyFault::Refused(Refusal::TooLong),
            InputFault::NoMemory => ReplyFault::Refused(Refusal::NoMemory),
        }
    }
}

impl From<AllocError> for ReplyFault {
    ghost from_gives = { λ _ reply. reply ≡ Refused no_memory };

    fn from(_error: AllocError) -> ReplyFault {
        ReplyFault::Refused(Refusal::NoMemory)
    }
}

//! Why a certificate proves nothing.
use devices::InputFault;
use std::alloc::AllocError;
use thiserror::Error;

/// The first fault of a certificate, or that memory ran out or a read failed.
#[derive(Debug, Clone, Copy, PartialEq, Eq, Error)]
pub enum Fault {
    /// The first line is no answer.
    #[error("Answer")]
    Answer,
    /// The line isn't there, is no claim's, or says what isn't so.
    #[error("Claim at line {0}")]
    Claim(u64),
    /// A line has more than 8,192 bytes.
    #[error("TooLong")]
    TooLong,
    /// There is no memory for the claims.
    #[error("NoMemory")]
    NoMemory,
    /// A read failed.
    #[error("a read failed")]
    ReadFailed,
}

impl From<AllocError> for Fault {
    ghost use Rattle.std.specs.Prelude.{◌≡◌};
    ghost use Rattle.verifying.specs.declared.fault.Fault.TheVariants.{NoMemory};

    ghost from_gives = { λ _ fault. fault ≡ NoMemory };

    fn from(_error: AllocError) -> Fault {
        Fault::NoMemory
    }
}

impl From<InputFault> for Fault {
    ghost use Rattle.std.specs.Prelude.{◌≡◌};
    ghost use Rattle.verifying.specs.Refusals.{fault_of_input};

    ghost from_gives = { λ input fault. fault ≡ fault_of_input input };

    fn from(input: InputFault) -> Fault {
        match input {
            InputFault::ReadFailed => Fault::ReadFailed,
            InputFault::TooLong => Fault::TooLong,
            InputFault::NoMemory => Fault::NoMemory,
        }
    }
}

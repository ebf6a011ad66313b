//! The limits of the words, as a search takes them, and why they are refused.
ghost use Rattle.std.specs.Prelude.{◌≡◌, min};
ghost use Rattle.context.specs.Limits.{refusal_of_solve};

use command_line::Limits;
use refusals::Refusal;
use searcher::SolveFault;

/// With what `solve` searches.
#[derive(Clone, Copy)]
pub struct Search {
    pub limit: u8,
    pub workers: u8,
    pub slots: usize,
}

/// The number as a byte. One that is too great is outside what is searched with, and stays so as 255.
fn byte_of(number: u32) -> u8
    ensures { result ≡ min number 255 }
{
    u8::try_from(number).unwrap_or(u8::MAX)
}

/// The values of the line, in the types that `solve` takes.
pub fn search_of(limits: Limits) -> Search
    ensures limit { result.limit ≡ min limits.limit 255 }
    ensures workers { result.workers ≡ min limits.workers 255 }
    ensures slots { result.slots ≡ limits.slots }
{
    Search {
        limit: byte_of(limits.limit),
        workers: byte_of(limits.workers),
        slots: limits.slots as usize,
    }
}

/// The refusal of each fault of a solve.
pub(crate) fn refusal_of(fault: SolveFault) -> Refusal
    ensures { result ≡ refusal_of_solve fault }
{
    match fault {
        SolveFault::Limit => Refusal::Limit,
        SolveFault::Workers => Refusal::Workers,
        SolveFault::Slots => Refusal::Slots,
        SolveFault::NoMemory => Refusal::NoMemory,
    }
}

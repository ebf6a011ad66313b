//! What stands after `refused: `.
ghost use Rattle.std.specs.Prelude.{◌≡◌, ◌≢◌, ℕ, IfOk, Some, string_bytes};
ghost use Rattle.refusals.specs.Reply.{refused};
ghost use Rattle.refusals.specs.Refusal.{refusal_status, refusal_text, refusal_of_fen, refusal_of_tree};
ghost use Rattle.refusals.specs.declared.refusal.Refusal.TheVariants.{Claim, Grammar, NoMemory as no_memory};

use board::FenFault;
use std::alloc::{AllocError, Allocator};
use std::fmt;
use thiserror::Error;
use wintree::{NoMemory, TreeFault};

/// Why a line was not answered, by the name that is printed.
#[derive(Clone, Copy, Debug, PartialEq, Eq, Error)]
pub enum Refusal {
    // of the position's text
    Fields,
    Shape,
    Letter,
    Run,
    Side,
    Kings,
    Units,
    PawnRank,
    OtherInCheck,

    // of the name of a move to be played
    Move,

    // of the values of `solve` and `tree`
    Limit,
    Workers,
    Slots,

    // of the input of `check`
    TooLong,
    Grammar(usize),
    Deep,

    // of the input of `verify`, where it isn't too long
    Answer,
    /// At this line, from 1.
    Claim(u64),

    NoMemory,
}

impl Refusal {
    /// The status of a run that ends with it.
    pub fn status(self) -> u8
        ensures { result ≡ refusal_status self }
    {
        match self {
            Refusal::NoMemory => 3,
            _ => 1,
        }
    }
}

/// The line that says why a line was not answered.
pub fn refused_text<A: Allocator>(alloc: A, refusal: Refusal) -> Result<String<A>, AllocError>
    ensures { IfOk result (λ text. string_bytes text ≡ (refused refusal).text) }
{
    format!(in alloc; "refused: {refusal}\n")
}

impl fmt::Display for Refusal {
    ghost output = { λ refusal. Some (refusal_text refusal) };

    fn fmt<W: fmt::Write>(&self, f: &mut fmt::Formatter<W>) -> fmt::Result {
        match self {
            Refusal::Grammar(offset) => write!(f, "Grammar at offset {offset}"),
            Refusal::Claim(line) => write!(f, "Claim at line {line}"),
            other => write!(f, "{}", name_of(*other)),
        }
    }
}

/// What is printed of a refusal, up to its number.
fn name_of(refusal: Refusal) -> &'static str
    ensures { ((offset : ℕ) → refusal ≢ Grammar offset) → ((line : ℕ) → refusal ≢ Claim line)
        → result.now ≡ refusal_text refusal }
{
    match refusal {
        Refusal::Fields => "Fields",
        Refusal::Shape => "Shape",
        Refusal::Letter => "Letter",
        Refusal::Run => "Run",
        Refusal::Side => "Side",
        Refusal::Kings => "Kings",
        Refusal::Units => "Units",
        Refusal::PawnRank => "PawnRank",
        Refusal::OtherInCheck => "OtherInCheck",
        Refusal::Move => "Move",
        Refusal::Limit => "Limit",
        Refusal::Workers => "Workers",
        Refusal::Slots => "Slots",
        Refusal::TooLong => "TooLong",
        Refusal::Grammar(_) => "Grammar",
        Refusal::Deep => "Deep",
        Refusal::Answer => "Answer",
        Refusal::Claim(_) => "Claim",
        Refusal::NoMemory => "NoMemory",
    }
}

impl From<FenFault> for Refusal {
    ghost from_gives = { λ fault refusal. refusal ≡ refusal_of_fen fault };

    fn from(fault: FenFault) -> Refusal {
        match fault {
            FenFault::Fields => Refusal::Fields,
            FenFault::Shape => Refusal::Shape,
            FenFault::Letter => Refusal::Letter,
            FenFault::Run => Refusal::Run,
            FenFault::Side => Refusal::Side,
            FenFault::Kings => Refusal::Kings,
            FenFault::Units => Refusal::Units,
            FenFault::PawnRank => Refusal::PawnRank,
            FenFault::OtherInCheck => Refusal::OtherInCheck,
        }
    }
}

impl From<TreeFault> for Refusal {
    ghost from_gives = { λ fault refusal. refusal ≡ refusal_of_tree fault };

    fn from(fault: TreeFault) -> Refusal {
        match fault {
            TreeFault::Grammar(offset) => Refusal::Grammar(offset),
            TreeFault::Deep => Refusal::Deep,
            TreeFault::NoMemory => Refusal::NoMemory,
        }
    }
}

impl From<NoMemory> for Refusal {
    ghost from_gives = { λ _ refusal. refusal ≡ no_memory };

    fn from(_refused: NoMemory) -> Refusal {
        Refusal::NoMemory
    }
}

impl From<AllocError> for Refusal {
    ghost from_gives = { λ _ refusal. refusal ≡ no_memory };

    fn from(_error: AllocError) -> Refusal {
        Refusal::NoMemory
    }
}

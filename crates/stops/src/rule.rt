//! The rule that every step keeps, and what each of the two kinds of step tells.
ghost use Rattle.std.specs.Prelude.{true};
ghost use Rattle.stops.specs.Rule.{RequestsHold, request_view, hearing_view, heard, made};

use crate::views::RequestView;
use atomic_table::{Play, Split, TableRule};

/// The rule of a word that counts requests.
pub struct Counted;

impl TableRule<(), RequestView, u64> for Counted {
    ghost holds = { λ _. RequestsHold };

    ghost first = { λ _. request_view 0 true };
}

/// The word is read.
pub(crate) struct Hear;

impl Play<(), RequestView> for Hear {
    ghost then = { λ st. heard };
}

/// The word is written.
pub(crate) struct Ask;

impl Play<(), RequestView> for Ask {
    ghost then = { λ st m n. made n m };
}

/// Makes a seat that hears.
pub(crate) struct Deal;

impl Split<RequestView> for Deal {
    ghost left = { λ v. v };

    ghost right = { hearing_view };
}

//! Why a line isn't answered: by the name that is printed, and in a sentence that names a change after which it is.
#![tactic(auto, using(crate::proofs::Telling::telling))]

mod advice;
mod algebra;
mod board_text;
mod flaws;
mod kings;
mod moving;
mod refusal;
mod reply_fault;
mod sentence;
mod spelling;
mod words;

pub use advice::{Asking, MOST_KNOWN, Refused, advise, write_sentence};
pub use flaws::advise_flaw;
pub use moving::{advise_move, advise_over, advise_refuted};
pub use refusal::{Refusal, refused_text};
pub use reply_fault::ReplyFault;
pub use words::{advise_limit, advise_words};

//! The text that answers a line, or why there is none, over any reader and whoever searches.
#![tactic(auto)]

mod first;
mod played;
mod replying;
mod shown;

pub use first::first_reply;
pub use played::after_reply;
pub use replying::reply_to;
pub use shown::{shown_at, tree_line};

//! What a caller of the library asks, answered as text into room that it lends, over any allocator: by one thread, with no lock.
#![tactic(auto)]

mod answering;
mod asked;
mod one_thread;
mod playing;
mod room;
mod text;
mod verdict;

pub use answering::{no_memory, reply};
pub use asked::{Call, SearchTerms, goal_of};

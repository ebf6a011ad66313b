//! Slots of three words that any number of threads read and store into, without locks. Nothing of chess is known here.
#![tactic(auto)]

mod calls;
mod fault;
mod lore;
mod pause;
mod plays;
mod probing;
mod rule;
mod steps;
mod storing;
mod table;
mod views;

pub use calls::{Act, Call, Probe, Store};
pub use fault::MakeFault;
pub use lore::Lore;
pub use pause::Pause;
pub use rule::Slotted;
pub use table::{MOST_CALLERS, MOST_SLOTS, Seat, Slots};
pub use views::{Half, Note, View};

//! Entries of the shared table: what is known of a position, its three words, their key and their slot.
#![tactic(auto)]

mod entries;
mod interval;
mod keys;
mod laws;
mod lore;
mod marks;
mod packing;
mod worth;

pub use entries::Entry;
pub use interval::{Interval, meet};
pub use keys::{key_of, slot_of};
pub use laws::interval_laws;
pub use lore::MateLore;
pub use packing::{interval_of, pack, pack_board, unpack};
pub use worth::prefers;

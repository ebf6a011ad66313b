//! One decision: whether the attacker forces the goal within so many plies, over a table that others use too.
#![tactic(auto)]

mod asking;
mod caller;
mod deciding;
mod decision;
mod first;
mod image;
mod lead;
mod leaf;
mod memory;
mod order;
mod scout;
mod searching;
mod storing;
mod turning;
mod underway;

pub use deciding::{decide, decide_on, decide_until, is_forced_until};
pub use decision::Decision;
pub use memory::Memory;
pub use order::in_order;
pub use scout::{Never, Scout, Stop};
pub use turning::{Turning, turned};
pub use underway::Underway;

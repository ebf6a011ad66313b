//! Memory that a caller lends, and an allocator that gives it whole, to one owner at a time.
#![tactic(auto)]

mod lent;
mod memory;

pub use lent::Lent;
pub use memory::Region;
